//! Where things stand, in pixels.

use crate::notes::{DrawnRow, LaneMark, Notes, Span};
use std::alloc::{AllocError, Global};

/// Where the lanes begin: above them are the legend and the names of the nodes.
pub(crate) const TOP: u64 = 62;

/// Where the first moment stands.
const FIRST: u64 = 74;

/// How high a moment is that has a label of a line or none.
const LEAST: u64 = 27;

/// How high a line of a label is.
pub(crate) const LINE: u64 = 13;

/// How high a frame is that never arrived.
pub(crate) const LOST: u64 = 12;

/// How wide a label is.
pub(crate) const LABEL: u64 = 172;

/// How far a label is from its lane.
pub(crate) const TIE: u64 = 10;

/// How far below one row of node names the next one stands. A row is `NAMES` high.
const SCREEN: u64 = 600;

const NAMES: u64 = 24;

/// How wide a picture of many nodes is.
const WIDE: u64 = 1_400;

/// The lanes of a picture, and the room beside them.
#[derive(Clone, Copy)]
pub(crate) struct Grid {
    /// Where the first lane stands: before it is room for the commands.
    first: u64,
    /// How far it is from one lane to the next.
    step: u64,
    /// How wide the picture is.
    pub width: u64,
    /// The most bytes of a command that are shown.
    pub command: usize,
}

impl Grid {
    /// Makes the lanes of this number of nodes. The more nodes there are, the narrower are the
    /// lanes and the room for commands. The legend has room in each picture.
    fn new(nodes: u64) -> Self {
        let (first, command) = if nodes > 8 {
            (250, 30usize)
        } else {
            (340, 44usize)
        };
        let room = WIDE.saturating_sub(first);
        let step = room.checked_div(nodes).unwrap_or(0).max(60).min(190);
        let lanes = step.saturating_mul(nodes);
        Grid {
            first,
            step,
            width: first.saturating_add(lanes).max(640),
            command,
        }
    }

    /// Returns the place of a node's lane from the left.
    pub(crate) fn lane(&self, node: u64) -> u64 {
        self.first.saturating_add(node.saturating_mul(self.step))
    }

    /// Returns the place of a label of a node from the left, and where the tie to its lane begins:
    /// to the right of the lane if there is room, and otherwise to the left.
    pub(crate) fn label(&self, node: u64) -> (u64, u64) {
        let x = self.lane(node);
        if x.saturating_add(LABEL.saturating_add(TIE)) > self.width {
            let tie = x.saturating_sub(TIE);
            (tie.saturating_sub(LABEL), tie)
        } else {
            (x.saturating_add(TIE), x)
        }
    }

    /// Returns where a band over all lanes begins, and how wide it is.
    pub(crate) fn band(&self) -> (u64, u64) {
        let left = self.first.saturating_sub(16);
        (left, self.width.saturating_sub(left).saturating_sub(16))
    }
}

/// Where a moment stands, from its top down.
#[derive(Clone, Copy)]
pub(crate) struct Place {
    pub top: u64,
    /// Where its mark is, and the head of the arrow of the frame that it delivered.
    pub mark: u64,
    /// Where its label begins.
    pub label: u64,
    /// Where its texts end, and the frames begin that it sent and that never arrived.
    pub lost: u64,
    /// Where the other frames begin that it sent.
    pub leave: u64,
    /// Where it ends.
    pub below: u64,
}

/// The place of each moment that is drawn.
#[derive(Drop)]
pub(crate) struct Layout {
    pub grid: Grid,
    /// Which moments are drawn.
    pub drawn: Span,
    /// Their places.
    places: Vec<Place>,
    /// At which heights the names of the nodes stand.
    pub names: Vec<u64>,
    /// Where the lanes end.
    pub bottom: u64,
}

/// Returns how many lines a label has.
pub(crate) fn lines_in(label: &[u8]) -> u64 {
    let mut lines = 0u64;
    for byte in label {
        if *byte == b'\n' {
            lines = lines.saturating_add(1);
        }
    }
    lines
}

/// Returns whether the label of a moment stands in a box, or in a band.
pub(crate) fn is_boxed(notes: &Notes<'_>, moment: &DrawnRow) -> bool {
    match moment.mark {
        LaneMark::Look => false,
        LaneMark::Band | LaneMark::Shown => true,
        _ => lines_in(notes.label(moment)) >= 2,
    }
}

/// Returns how far below the top of a moment its mark and its label are.
fn depths(moment: &DrawnRow) -> (u64, u64) {
    if moment.mark == LaneMark::Band {
        (25, 16)
    } else if moment.frame != 0 {
        (9, 25)
    } else if moment.with != 0 {
        (9, 18)
    } else {
        (13, 4)
    }
}

/// Returns how far below the top of a moment its texts end, beside its mark and under it.
fn depth_of_texts(notes: &Notes<'_>, moment: &DrawnRow) -> u64 {
    let (mark, label) = depths(moment);
    match lines_in(notes.label(moment)) {
        0 if moment.frame == 0 => mark,
        0 => label,
        1 if moment.mark == LaneMark::Look => label.saturating_add(17),
        lines => label
            .saturating_add(lines.saturating_mul(LINE))
            .saturating_add(8),
    }
}

/// Returns the place of a moment that begins here.
fn place_from(notes: &Notes<'_>, moment: &DrawnRow, top: u64) -> Place {
    let (mark, label) = depths(moment);
    let lost = top.saturating_add(depth_of_texts(notes, moment));
    let leave = lost.saturating_add(notes.lost(moment).saturating_mul(LOST));
    Place {
        top,
        mark: top.saturating_add(mark),
        label: top.saturating_add(label),
        lost,
        leave,
        below: leave.saturating_add(6).max(top.saturating_add(LEAST)),
    }
}

/// Returns where the next moment stands, below the names of the nodes if it is time for them.
fn next_top(names: &mut Vec<u64>, top: u64) -> Result<u64, AllocError> {
    let last = names.last().copied().unwrap_or(TOP);
    if top < last.saturating_add(SCREEN) {
        return Ok(top);
    }
    names.push(top.saturating_add(15))?;
    Ok(top.saturating_add(NAMES))
}

impl Layout {
    /// Places these moments, one under the other.
    pub(crate) fn new(alloc: Global, notes: &Notes<'_>, drawn: Span) -> Result<Self, AllocError> {
        let mut places = Vec::new(alloc);
        let mut names = Vec::new(alloc);
        names.push(TOP.saturating_sub(8))?;
        let mut top = FIRST;
        for moment in notes.moments.get(drawn.start..drawn.end).unwrap_or(&[]) {
            let place = place_from(notes, moment, next_top(&mut names, top)?);
            places.push(place)?;
            top = place.below;
        }
        Ok(Layout {
            grid: Grid::new(notes.nodes),
            drawn,
            places,
            names,
            bottom: top.saturating_add(10),
        })
    }

    /// Returns the place of a moment. A moment earlier than those that are drawn stands where the
    /// lanes begin, and a later one where they end.
    pub(crate) fn place(&self, moment: usize) -> Place {
        let Some(at) = moment.checked_sub(self.drawn.start) else {
            return level(TOP);
        };
        match self.places.get(at) {
            Some(place) => *place,
            None => level(self.bottom),
        }
    }
}

/// Makes a place of no height.
fn level(height: u64) -> Place {
    Place {
        top: height,
        mark: height,
        label: height,
        lost: height,
        leave: height,
        below: height,
    }
}

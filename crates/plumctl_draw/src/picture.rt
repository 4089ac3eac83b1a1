//! What is drawn.

use crate::arrows::{Draws, add_delivery, add_earlier, add_left, class_of};
use crate::layout::{Grid, LABEL, LINE, Layout, Place, TIE, TOP, is_boxed, lines_in};
use crate::notes::{CommandLine, DrawnRow, Group, LaneMark, Notes, Span, bit};
use crate::svg::{cut, fill};
use std::alloc::{AllocError, Global};

/// The most bytes of a line of a label that are shown, and of a line in a band.
const MOST_OF_LABEL: usize = 27;

const MOST_OF_BAND: usize = 50;

/// What a picture begins with: the styles, with colours that colour-blind readers tell apart, and
/// the ground. Before each colour that depends on the viewer stands one for viewers who know no
/// variables.
const OPENING: &str = "<svg xmlns=\"http://www.w3.org/2000/svg\" role=\"img\" \
width=\"%\" height=\"%\" viewBox=\"0 0 % %\">
<title>A run of nodes, time downwards</title>
<style>
svg{--ink:#222222;--paper:#ffffff;--soft:#6e6e6e;--line:#c8c8c8;--band:#ececec;
--gossip:#3569a8;--announcement:#1d7a3a;--repair:#d1495b;--membership:#7d6b52;--exchange:#9a2d77}
@media(prefers-color-scheme:dark){
svg{--ink:#e8e8e8;--paper:#161616;--soft:#a4a4a4;--line:#4a4a4a;--band:#2c2c2c;
--gossip:#7ab0ea;--announcement:#7fd08f;--repair:#ff8d86;--membership:#d2bd98;--exchange:#e79bd0}}
text{font:11px ui-monospace,Menlo,Consolas,monospace;fill:#222222;fill:var(--ink)}
.paper{fill:#ffffff;fill:var(--paper)}.soft{fill:#6e6e6e;fill:var(--soft)}
.small,.halo{font-size:10px}.node{font-size:11px;font-weight:bold;text-anchor:middle}
.to{text-anchor:end}
.halo,.node{paint-order:stroke;stroke:#ffffff;stroke:var(--paper);stroke-width:5px;
stroke-linejoin:round}
.lane{stroke:#c8c8c8;stroke:var(--line);stroke-width:2}
.row{stroke:#c8c8c8;stroke:var(--line);stroke-width:.5;opacity:.6}
.dot{fill:#222222;fill:var(--ink)}.tie{stroke:#222222;stroke:var(--ink);stroke-width:1.5}
.look{stroke:#6e6e6e;stroke:var(--soft);stroke-width:1}
.end{stroke:#222222;stroke:var(--ink);stroke-width:2}
.box{fill:#ffffff;fill:var(--paper);stroke:#222222;stroke:var(--ink)}
.band{fill:#ececec;fill:var(--band);stroke:#222222;stroke:var(--ink)}
.line,.arrow{stroke-width:1.5;fill:none}.dashed{stroke-dasharray:5 4}
.gossip .line,.gossip .arrow{stroke:#3569a8;stroke:var(--gossip)}
.announcement .line,.announcement .arrow{stroke:#1d7a3a;stroke:var(--announcement)}
.repair .line,.repair .arrow{stroke:#d1495b;stroke:var(--repair)}
.membership .line,.membership .arrow{stroke:#7d6b52;stroke:var(--membership)}
.exchange .line,.exchange .arrow{stroke:#9a2d77;stroke:var(--exchange)}
.gossip .arrow{marker-end:url(#gossip)}.announcement .arrow{marker-end:url(#announcement)}
.repair .arrow{marker-end:url(#repair)}.membership .arrow{marker-end:url(#membership)}
.exchange .arrow{marker-end:url(#exchange)}
.gossip .point,.gossip.name{fill:#3569a8;fill:var(--gossip)}
.announcement .point,.announcement.name{fill:#1d7a3a;fill:var(--announcement)}
.repair .point,.repair.name{fill:#d1495b;fill:var(--repair)}
.membership .point,.membership.name{fill:#7d6b52;fill:var(--membership)}
.exchange .point,.exchange.name{fill:#9a2d77;fill:var(--exchange)}
</style>
<rect class=\"paper\" width=\"%\" height=\"%\"/>
<text class=\"soft\" x=\"12\" y=\"38\">dashed: the frame was stale or refused</text>
<text class=\"soft\" x=\"300\" y=\"38\">cross: no node took it</text>
";

/// The groups, in the order of the legend.
const GROUPS: [Group; 5] = [
    Group::Gossip,
    Group::Announcement,
    Group::Repair,
    Group::Membership,
    Group::Exchange,
];

/// How far it is from one group of the legend to the next.
const LEGEND_STEP: u64 = 124;

/// A group in the legend, and the head of its arrows.
const LEGEND: &str = "<g class=\"$\"><marker id=\"$\" orient=\"auto\" \
markerUnits=\"userSpaceOnUse\" markerWidth=\"9\" markerHeight=\"8\" refX=\"8\" refY=\"4\">\
<path class=\"point\" d=\"M0 0L9 4L0 8Z\"/></marker><path class=\"arrow\" d=\"M% 18h22\"/></g>\
<text class=\"$ name\" x=\"%\" y=\"22\">$</text>\n";

const LANE: &str = "<path class=\"lane\" d=\"M% %V%\"/>\n";

/// A node's name on its lane.
const NODE: &str = "<text class=\"node\" x=\"%\" y=\"%\">node %</text>\n";

/// The row, the number of the line and the text of a command.
const COMMAND: &str = "<path class=\"row\" d=\"M8 %H%\"/>\
<text class=\"soft to\" x=\"30\" y=\"%\">%</text><text x=\"36\" y=\"%\">$$</text>\n";

const BOX: &str = "<rect class=\"box\" rx=\"3\" x=\"%\" y=\"%\" width=\"%\" height=\"%\"/>\n";

const BAND: &str = "<rect class=\"band\" rx=\"3\" x=\"%\" y=\"%\" width=\"%\" height=\"%\"/>\n";

/// From a lane to a label.
const TIE_LINE: &str = "<path class=\"$\" d=\"M% %h%\"/>\n";

/// From the first lane that shares a box to the last.
const SHARED: &str = "<path class=\"tie\" d=\"M% %H%\"/>\n";

const DOT: &str = "<circle class=\"dot\" cx=\"%\" cy=\"%\" r=\"3.5\"/>\n";

const DIAMOND: &str = "<path class=\"dot\" d=\"M% %l5 5l-5 5l-5-5Z\"/>\n";

/// A gap of a lane between two ends.
const GAP: &str = "<rect class=\"paper\" x=\"%\" y=\"%\" width=\"14\" height=\"10\"/>\
<path class=\"end\" d=\"M% %h14m0 10h-14\"/>\n";

const LABEL_LINE: &str = "<text class=\"halo\" x=\"%\" y=\"%\">$$</text>\n";

const ENDING_LINE: &str = "<text class=\"halo to\" x=\"%\" y=\"%\">$$</text>\n";

const BAND_LINE: &str = "<text class=\"small\" x=\"%\" y=\"%\">$$</text>\n";

/// What is drawn of each moment, the lowest layer first: nothing crosses a box or a text.
#[derive(Clone, Copy)]
enum Layer {
    /// The lines of frames.
    Lines,
    /// Boxes and bands, and marks.
    Grounds,
    /// Labels, and the names of frames.
    Texts,
}

/// Adds a picture of the moments of these places. Frames that they sent and that arrive later end
/// at the bottom, and those that were sent earlier begin at the top.
///
/// Fails only when memory runs out; what was added then is no picture. It takes memory for the
/// picture, and time with its moments and the frames of the run.
pub fn add_picture(
    alloc: Global,
    out: &mut Vec<u8>,
    notes: &Notes<'_>,
    drawn: Span,
) -> Result<(), AllocError> {
    let layout = Layout::new(alloc, notes, drawn)?;
    add_opening(out, &layout)?;
    add_legend(out)?;
    add_lanes(out, notes.nodes, &layout)?;
    add_commands(out, notes, &layout)?;
    add_earlier(out, notes, &layout)?;
    add_layer(out, notes, &layout, Layer::Lines)?;
    add_layer(out, notes, &layout, Layer::Grounds)?;
    add_layer(out, notes, &layout, Layer::Texts)?;
    add_names(out, notes.nodes, &layout)?;
    out.extend_from_slice(b"</svg>\n")
}

/// Adds what a picture begins with.
fn add_opening(out: &mut Vec<u8>, layout: &Layout) -> Result<(), AllocError> {
    let (wide, high) = (layout.grid.width, layout.bottom.saturating_add(10));
    fill(out, OPENING, &[], &[wide, high, wide, high, wide, high])
}

fn add_legend(out: &mut Vec<u8>) -> Result<(), AllocError> {
    let mut x = 12u64;
    for group in GROUPS {
        let class = class_of(group);
        let words = [class, class, class, class];
        fill(out, LEGEND, &words, &[x, x.saturating_add(27)])?;
        x = x.saturating_add(LEGEND_STEP);
    }
    Ok(())
}

/// Adds the lane of each node.
fn add_lanes(out: &mut Vec<u8>, nodes: u64, layout: &Layout) -> Result<(), AllocError> {
    for node in 0..nodes {
        let numbers = [layout.grid.lane(node), TOP, layout.bottom];
        fill(out, LANE, &[], &numbers)?;
    }
    Ok(())
}

/// Adds the names of the nodes at each of their heights.
fn add_names(out: &mut Vec<u8>, nodes: u64, layout: &Layout) -> Result<(), AllocError> {
    for height in layout.names.iter() {
        add_names_at(out, nodes, &layout.grid, *height)?;
    }
    Ok(())
}

/// Adds the names of the nodes at a height.
fn add_names_at(out: &mut Vec<u8>, nodes: u64, grid: &Grid, height: u64) -> Result<(), AllocError> {
    for node in 0..nodes {
        fill(out, NODE, &[], &[grid.lane(node), height, node])?;
    }
    Ok(())
}

/// Adds each command whose first moment is drawn.
fn add_commands(out: &mut Vec<u8>, notes: &Notes<'_>, layout: &Layout) -> Result<(), AllocError> {
    for command in notes.commands.iter() {
        if layout.drawn.start <= command.first && command.first < layout.drawn.end {
            add_command(out, command, &layout.grid, layout.place(command.first))?;
        }
    }
    Ok(())
}

/// Adds the text of a command with the number of its line, at the height of its first moment.
fn add_command(
    out: &mut Vec<u8>,
    command: &CommandLine<'_>,
    grid: &Grid,
    place: Place,
) -> Result<(), AllocError> {
    let base = place.mark.saturating_add(4);
    let (text, dots) = cut(command.text, grid.command);
    let numbers = [place.top, grid.width, base, command.number, base];
    fill(out, COMMAND, &[text, dots], &numbers)
}

/// Adds a layer of each moment that is drawn.
fn add_layer(
    out: &mut Vec<u8>,
    notes: &Notes<'_>,
    layout: &Layout,
    layer: Layer,
) -> Result<(), AllocError> {
    for at in layout.drawn.start..layout.drawn.end {
        if let Some(moment) = notes.moments.get(at) {
            let place = layout.place(at);
            match layer {
                Layer::Lines => add_frames(out, notes, layout, (moment, place), Draws::Line)?,
                Layer::Grounds => add_ground(out, notes, &layout.grid, moment, place)?,
                Layer::Texts => {
                    add_frames(out, notes, layout, (moment, place), Draws::Name)?;
                    add_label(out, notes, &layout.grid, moment, place)?;
                }
            }
        }
    }
    Ok(())
}

/// Adds the lines or the names of the frames that a moment delivered, and of those that it sent and
/// that no moment delivers.
fn add_frames(
    out: &mut Vec<u8>,
    notes: &Notes<'_>,
    layout: &Layout,
    at: (&DrawnRow, Place),
    draws: Draws,
) -> Result<(), AllocError> {
    add_left(out, notes, layout, at, draws)?;
    add_delivery(out, notes, layout, at, draws)
}

/// Adds the ground of a moment's label, with what ties it to its lane, and its mark.
fn add_ground(
    out: &mut Vec<u8>,
    notes: &Notes<'_>,
    grid: &Grid,
    moment: &DrawnRow,
    place: Place,
) -> Result<(), AllocError> {
    let lines = lines_in(notes.label(moment));
    let high = lines.saturating_mul(LINE).saturating_add(6);
    if moment.mark == LaneMark::Band {
        let (left, wide) = grid.band();
        return fill(out, BAND, &[], &[left, place.label, wide, high]);
    }
    let boxed = is_boxed(notes, moment);
    if lines > 0 {
        add_tie(out, grid, moment.node, place, boxed)?;
    }
    if boxed {
        let (left, _) = grid.label(moment.node);
        fill(out, BOX, &[], &[left, place.label, LABEL, high])?;
    }
    if moment.with != 0 {
        add_shared(out, notes.nodes, grid, moment, place.mark)?;
    }
    add_mark(out, moment.mark, grid.lane(moment.node), place.mark)
}

/// Adds the tie of a label to the lane of its node.
fn add_tie(
    out: &mut Vec<u8>,
    grid: &Grid,
    node: u64,
    place: Place,
    boxed: bool,
) -> Result<(), AllocError> {
    let (_, left) = grid.label(node);
    let class: &[u8] = if boxed { b"tie" } else { b"look" };
    let middle = place.label.saturating_add(9);
    fill(out, TIE_LINE, &[class], &[left, middle, TIE])
}

/// Adds a dot on the lane of each node that shares a box, and a line from the first to the last.
fn add_shared(
    out: &mut Vec<u8>,
    nodes: u64,
    grid: &Grid,
    moment: &DrawnRow,
    height: u64,
) -> Result<(), AllocError> {
    let mut last = grid.lane(moment.node);
    for node in 0..nodes {
        if moment.with & bit(node) != 0 {
            last = grid.lane(node);
            fill(out, DOT, &[], &[last, height])?;
        }
    }
    fill(out, SHARED, &[], &[grid.lane(moment.node), height, last])
}

fn add_mark(out: &mut Vec<u8>, mark: LaneMark, x: u64, y: u64) -> Result<(), AllocError> {
    let above = y.saturating_sub(5);
    let left = x.saturating_sub(7);
    match mark {
        LaneMark::Step => fill(out, DOT, &[], &[x, y]),
        LaneMark::View => fill(out, DIAMOND, &[], &[x, above]),
        LaneMark::Restart => fill(out, GAP, &[], &[left, above, left, above]),
        _ => Ok(()),
    }
}

/// Adds the label of a moment. Beside a lane, and in no box, it ends at the lane if it stands to
/// the left.
fn add_label(
    out: &mut Vec<u8>,
    notes: &Notes<'_>,
    grid: &Grid,
    moment: &DrawnRow,
    place: Place,
) -> Result<(), AllocError> {
    let label = notes.label(moment);
    let base = place.label.saturating_add(13);
    if moment.mark == LaneMark::Band {
        let (left, _) = grid.band();
        let at = (left.saturating_add(8), base);
        return add_lines(out, label, BAND_LINE, at, MOST_OF_BAND);
    }
    let (left, tie) = grid.label(moment.node);
    if left < tie && !is_boxed(notes, moment) {
        let at = (tie.saturating_sub(5), base);
        return add_lines(out, label, ENDING_LINE, at, MOST_OF_LABEL);
    }
    let at = (left.saturating_add(5), base);
    add_lines(out, label, LABEL_LINE, at, MOST_OF_LABEL)
}

/// Adds the lines of a label, one under the other, by this template: at most so many bytes of each.
fn add_lines(
    out: &mut Vec<u8>,
    label: &[u8],
    template: &str,
    (left, first): (u64, u64),
    most: usize,
) -> Result<(), AllocError> {
    let mut base = first;
    let mut start = 0usize;
    for (at, byte) in label.iter().enumerate() {
        if *byte == b'\n' {
            let (line, dots) = cut(label.get(start..at).unwrap_or(&[]), most);
            fill(out, template, &[line, dots], &[left, base])?;
            start = at.saturating_add(1);
            base = base.saturating_add(LINE);
        }
    }
    Ok(())
}

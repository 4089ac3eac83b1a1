//! Frames, as arrows from sending to delivery.

use crate::layout::{LOST, Layout, Place};
use crate::notes::{DrawnRow, Flight, Group, LaneMark, Notes, Span};
use crate::svg::fill;
use std::alloc::AllocError;

/// A frame that arrived: its line, which has a head at its end.
const ARROW: &str = "<g class=\"$\"><title>frame % $ from % to %</title>\
<path class=\"arrow$\" d=\"M% %L% %\"/></g>\n";

/// A frame that arrives in a band, or later than what is drawn: its line.
const ONWARD: &str = "<g class=\"$\"><title>frame % $ from % to %</title>\
<path class=\"line\" d=\"M% %L% %\"/></g>\n";

/// A frame that never arrived: a short line, and the cross at its end.
const NEVER: &str = "<g class=\"$\"><title>frame % $ from % to %</title>\
<path class=\"line\" d=\"M% %L% %M% %l8 8m-8 0l8-8\"/></g>\n";

/// The number of a frame, and the name of its message's kind. They stand so close together that no
/// line shows between their rims.
const NAME: &str =
    "<text class=\"$ name halo$\" x=\"%\" y=\"%\">%<tspan dx=\"2\">$</tspan></text>\n";

/// What is drawn of a frame.
#[derive(Clone, Copy, PartialEq, Eq)]
pub(crate) enum Draws {
    Line,
    Name,
}

pub(crate) fn class_of(group: Group) -> &'static [u8] {
    match group {
        Group::Gossip => b"gossip",
        Group::Announcement => b"announcement",
        Group::Repair => b"repair",
        Group::Membership => b"membership",
        Group::Exchange => b"exchange",
    }
}

/// Returns the place that is this far to the right of another, or to the left.
fn shifted(x: u64, far: u64, right: bool) -> u64 {
    if right {
        x.saturating_add(far)
    } else {
        x.saturating_sub(far)
    }
}

/// Adds the line of a frame from one place to another, as this template has it. A word follows the
/// name of the kind.
fn add_line(
    out: &mut Vec<u8>,
    template: &str,
    (number, flight): (u64, &Flight),
    dashed: bool,
    ((x1, y1), (x2, y2)): ((u64, u64), (u64, u64)),
) -> Result<(), AllocError> {
    let dash: &[u8] = if dashed { b" dashed" } else { b"" };
    let (cross_x, cross_y) = (x2.saturating_sub(4), y2.saturating_sub(4));
    fill(
        out,
        template,
        &[class_of(flight.group), flight.name.as_bytes(), dash],
        &[
            number,
            flight.from,
            flight.to,
            x1,
            y1,
            x2,
            y2,
            cross_x,
            cross_y,
        ],
    )
}

/// Adds the name of a frame, which ends at this place or begins there.
fn add_name(
    out: &mut Vec<u8>,
    (number, flight): (u64, &Flight),
    ends: bool,
    (x, y): (u64, u64),
) -> Result<(), AllocError> {
    let anchor: &[u8] = if ends { b" to" } else { b"" };
    let words = [class_of(flight.group), anchor, flight.name.as_bytes()];
    fill(out, NAME, &words, &[x, y, number])
}

/// Adds the arrow of the frame that a moment delivered, if it delivered one, or its name. The name
/// stands below the head, so that the arrow, which comes from above, passes it.
pub(crate) fn add_delivery(
    out: &mut Vec<u8>,
    notes: &Notes<'_>,
    layout: &Layout,
    (moment, place): (&DrawnRow, Place),
    draws: Draws,
) -> Result<(), AllocError> {
    let Some(flight) = notes.flight(moment.frame) else {
        return Ok(());
    };
    let from = layout.grid.lane(flight.from);
    let to = layout.grid.lane(moment.node);
    let left = to <= from;
    if draws == Draws::Name {
        let at = (shifted(to, 6, left), place.mark.saturating_add(12));
        return add_name(out, (moment.frame, flight), !left, at);
    }
    let dashed = moment.mark == LaneMark::Stale || moment.mark == LaneMark::Refused;
    let line = (
        (from, layout.place(flight.sent).leave),
        (shifted(to, 3, left), place.mark),
    );
    add_line(out, ARROW, (moment.frame, flight), dashed, line)
}

/// Adds the arrow of a frame that never arrived, or its name.
fn add_never(
    out: &mut Vec<u8>,
    frame: (u64, &Flight),
    (x, y): (u64, u64),
    draws: Draws,
) -> Result<(), AllocError> {
    let right = frame.1.from < frame.1.to;
    let end = y.saturating_add(LOST / 2);
    let far = shifted(x, 30, right);
    if draws == Draws::Name {
        let at = (shifted(far, 8, right), end.saturating_add(4));
        return add_name(out, frame, !right, at);
    }
    add_line(out, NEVER, frame, false, ((x, y), (far, end)))
}

/// Returns where the line of a frame ends that arrives at this moment, if that is in a band or
/// later than what is drawn.
fn end_of_line(notes: &Notes<'_>, layout: &Layout, arrived: usize) -> Option<u64> {
    if layout.drawn.end <= arrived {
        return Some(layout.bottom);
    }
    match notes.moments.get(arrived) {
        Some(moment) if moment.mark == LaneMark::Band => Some(layout.place(arrived).label),
        _ => None,
    }
}

/// Adds the line of a frame that arrives in a band after the moment that sent it, or later than
/// what is drawn.
fn add_onward(
    out: &mut Vec<u8>,
    notes: &Notes<'_>,
    layout: &Layout,
    frame: (u64, &Flight),
    arrived: usize,
) -> Result<(), AllocError> {
    let (_, flight) = frame;
    let from = (
        layout.grid.lane(flight.from),
        layout.place(flight.sent).leave,
    );
    match end_of_line(notes, layout, arrived) {
        Some(end) if arrived != flight.sent => {
            let to = (layout.grid.lane(flight.to), end);
            add_line(out, ONWARD, frame, false, (from, to))
        }
        _ => Ok(()),
    }
}

/// Adds the lines or the names of the frames that a moment sent and that, in what is drawn, don't
/// arrive at a moment of their own.
pub(crate) fn add_left(
    out: &mut Vec<u8>,
    notes: &Notes<'_>,
    layout: &Layout,
    (moment, place): (&DrawnRow, Place),
    draws: Draws,
) -> Result<(), AllocError> {
    let Span { start, end } = moment.sent;
    let mut number = start as u64;
    let mut height = place.lost;
    for flight in notes.flights.get(start..end).unwrap_or(&[]) {
        number = number.saturating_add(1);
        match flight.arrived {
            None => {
                let from = (layout.grid.lane(flight.from), height);
                height = height.saturating_add(LOST);
                add_never(out, (number, flight), from, draws)?;
            }
            Some(at) if draws == Draws::Line => {
                add_onward(out, notes, layout, (number, flight), at)?;
            }
            Some(_) => {}
        }
    }
    Ok(())
}

/// Adds the lines of the frames that were sent earlier than what is drawn and arrive in a band.
pub(crate) fn add_earlier(
    out: &mut Vec<u8>,
    notes: &Notes<'_>,
    layout: &Layout,
) -> Result<(), AllocError> {
    let drawn = layout.drawn;
    let mut number = 0u64;
    for flight in notes.flights.iter() {
        number = number.saturating_add(1);
        match flight.arrived {
            Some(at) if flight.sent < drawn.start && drawn.start <= at && at < drawn.end => {
                add_onward(out, notes, layout, (number, flight), at)?;
            }
            _ => {}
        }
    }
    Ok(())
}

//! Whether there is something to draw.

ghost use Rattle.std.specs.Prelude.{◌≡◌};
ghost use Rattle.plumctl_core.specs.Opening.{TellsText};
ghost use Rattle.plumctl_draw.specs.Asked.{are_skipped, asks_nothing, lines_behind, nothing_line};

use crate::drawing::Excerpt;
use scenario_text::{Lines, is_skipped};
use streams::{Sink, write_whole};

/// Passes this many lines, or all if there are fewer.
fn pass(lines: &mut Lines<'_>, count: u64)
    ensures { lines.new ≡ lines_behind count lines.old }
{
    let mut left = count;
    while left > 0 {
        if lines.next().is_none() {
            return;
        }
        left -= 1;
    }
}

/// Whether no command stands in the next lines, of which there are this many or fewer.
fn are_skipped(lines: &mut Lines<'_>, count: u64) -> bool
    ensures { result ≡ are_skipped count lines.old }
{
    let mut left = count;
    while left > 0 {
        let Some(line) = lines.next() else {
            return true;
        };
        if !is_skipped(line) {
            return false;
        }
        left -= 1;
    }
    true
}

/// Whether no command stands in a part of a text.
pub(crate) fn asks_nothing(text: &[u8], part: Excerpt) -> bool
    ensures { result ≡ asks_nothing part.from part.to text.now }
{
    let before = part.from.saturating_sub(1);
    let mut lines = Lines::of(text);
    pass(&mut lines, before);
    are_skipped(&mut lines, part.to.saturating_sub(before))
}

/// The line that says why there is nothing to draw.
fn nothing_line(part: Excerpt) -> &'static str
    ensures { result.now ≡ nothing_line part.from part.to }
{
    if part.to < part.from {
        "error: nothing to draw: --from is a later line than --to\n"
    } else if part.from > 1 || part.to < u64::MAX {
        "error: nothing to draw: no command stands in the lines that are asked for\n"
    } else {
        "error: nothing to draw: the text has no command\n"
    }
}

/// Prints at standard error why there is nothing to draw, as far as that takes it.
pub(crate) fn tell_nothing<E: Sink>(errors: &mut E, part: Excerpt)
    ensures { TellsText (E.at errors.old) (E.at errors.new) (nothing_line part.from part.to) }
{
    let _ = write_whole(errors, nothing_line(part).as_bytes());
}

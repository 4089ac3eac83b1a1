//! A line of a text, by its number.

ghost use Rattle.std.specs.Prelude.{◌≡◌, false};
ghost use Rattle.scenario_text.specs.Hint.{found_behind, is_skipped};
ghost use Rattle.streams.specs.Line.{lines_of};

use crate::{Lines, Words};
use std::marker::Model;

/// A line of a text, and whether a command stands before it.
#[derive(Drop)]
pub(crate) struct FoundLine<'a> {
    pub begun: bool,
    pub line: &'a [u8],
}

impl<'a> Model for FoundLine<'a> {
    ghost use Rattle.scenario_text.specs.Hint.{Found};

    ghost Value = { Found };

    ghost view = { λ f. record { begun = f.begun; line = f.line.now } };
}

/// Returns whether a line of a scenario is empty or a comment.
pub fn is_skipped(line: &[u8]) -> bool
    ensures { result ≡ is_skipped line.now }
{
    let words = Words::of(line);
    match words.peek() {
        None | Some([b'#', ..]) => true,
        Some(_) => false,
    }
}

/// Returns the line after the first `count` lines of the text, or an empty one if there is none.
pub(crate) fn found_behind(text: &[u8], count: u64) -> FoundLine<'_>
    ensures { result ≡ found_behind count false (lines_of text.now) }
{
    let mut lines = Lines::of(text);
    let mut begun = false;
    let mut left = count;
    while let Some(line) = lines.next() {
        if left == 0 {
            return FoundLine { begun, line };
        }
        left -= 1;
        begun = begun || !is_skipped(line);
    }
    FoundLine { begun, line: &[] }
}

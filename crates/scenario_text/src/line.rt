//! A line of a text, and what it is.

ghost use Rattle.std.specs.Prelude.{◌≡◌, ◌<◌, ◌∷◌, length};
ghost use Rattle.streams.specs.Line.{lines_of};
ghost use Rattle.scenario_text.specs.Coded.{TakesNextLine, line_word};
ghost use Rattle.scenario_text.specs.Script.{line_of};

use crate::command::Command;
use crate::split::split_once;
use crate::table::read_command;
use crate::words::Words;
use std::marker::Model;

/// What a line is.
#[derive(Clone, Copy)]
pub(crate) enum Line<'a> {
    /// It is empty, or begins with `#`.
    Skipped,
    Asks(Command<'a>),
    /// It is no command.
    Bad,
}

impl<'a> Line<'a> {
    /// Returns what the line is, with `resolvers` resolvers at hand.
    pub(crate) fn of(line: &'a [u8], resolvers: usize) -> Self
        ensures { line_word result ≡ line_of resolvers line.now }
    {
        let mut words = Words::of(line);
        match words.peek() {
            None | Some([b'#', ..]) => Line::Skipped,
            Some(_) => match read_command(&mut words, resolvers) {
                Some(command) => Line::Asks(command),
                None => Line::Bad,
            },
        }
    }
}

/// The lines of a text that are still to be read. A line feed at the end starts no further line.
#[derive(Drop)]
pub struct Lines<'a> {
    left: &'a [u8],
}

impl<'a> Model for Lines<'a> {
    ghost use Rattle.std.specs.Prelude.{ℕ, List};
    ghost use Rattle.streams.specs.Line.{lines_of};

    ghost Value = { List (List ℕ) };

    ghost view = { λ l. lines_of l.left.now };
}

impl<'a> Lines<'a> {
    pub fn of(text: &'a [u8]) -> Self
        ensures { result ≡ lines_of text.now }
    {
        Lines { left: text }
    }

    /// Returns the same lines, to be read once more.
    pub(crate) fn again(&self) -> Self
        ensures { result ≡ self.now }
    {
        Lines { left: self.left }
    }

    /// Returns the next line, without its line feed.
    pub fn next(&mut self) -> Option<&'a [u8]>
        ensures { TakesNextLine self.old result self.new }
    {
        if self.left.is_empty() {
            return None;
        }
        let (line, rest) = split_line(self.left);
        self.left = rest;
        Some(line)
    }
}

/// Splits bytes, which aren't empty, into the first line and what follows its line feed.
fn split_line(bytes: &[u8]) -> (&[u8], &[u8])
    requires { 0 < length bytes.now }
    ensures { lines_of bytes.now ≡ result.0.now ∷ lines_of result.1.now }
{
    match split_once(bytes, b'\n') {
        Some(halves) => halves,
        None => (bytes, &[]),
    }
}

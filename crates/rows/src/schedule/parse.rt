//! What the lines of a schedule ask, and what is wanted of its log.

use crate::fault::RowFault;
use crate::line::{Line, print_line};
use scenario_text::{Command, verb_of};
use std::alloc::{AllocError, Global};

/// What begins a line that names a frame by its place from the last.
const FROM_LAST: &str = "deliver -";

/// Returns lines as the text of a scenario, in which each frame has the number that it is named by,
/// from the first or from the last.
pub fn text_of_lines(alloc: Global, lines: &[Line<'_>]) -> Result<Vec<u8>, AllocError> {
    let mut text = Vec::from_slice(alloc, b"nodes 4\n")?;
    for line in lines {
        match line.text.strip_prefix(FROM_LAST) {
            Some(rest) => print_line(&mut text, "deliver ", rest)?,
            None => print_line(&mut text, "", line.text)?,
        }
    }
    Ok(text)
}

/// What a line of a schedule asks.
#[derive(Clone, Copy)]
pub enum Scheduled {
    /// Its command.
    Command,
    /// A delivery of the frame that was sent so many frames before the next one: 1 is the last.
    FromLast {
        back: u64,
        node: Option<u64>,
        word: u64,
    },
}

impl Scheduled {
    /// Reads a line with its command in the text.
    pub fn of(line: &str, command: &Command<'_>) -> Result<Self, RowFault> {
        if !line.starts_with(FROM_LAST) {
            return Ok(Scheduled::Command);
        }
        match command {
            Command::Deliver { frame, node, word } if *frame > 0 => Ok(Scheduled::FromLast {
                back: *frame,
                node: *node,
                word: *word,
            }),
            _ => Err(RowFault::Mistyped),
        }
    }
}

/// What came of a command.
#[derive(Clone, Copy)]
pub enum Outcome {
    Done,
    Fresh,
    Stale,
    Refused,
    /// A settling would deliver too many frames.
    Limited,
}

/// Each outcome, once.
const OUTCOMES: [Outcome; 5] = [
    Outcome::Done,
    Outcome::Fresh,
    Outcome::Stale,
    Outcome::Refused,
    Outcome::Limited,
];

impl Outcome {
    /// Returns what came of a command that printed this.
    pub fn of(output: &[u8]) -> Self {
        if output.starts_with(b"refused ") {
            Outcome::Refused
        } else if output.starts_with(b"took fresh") {
            Outcome::Fresh
        } else if output.starts_with(b"took stale") {
            Outcome::Stale
        } else {
            Outcome::Done
        }
    }

    pub fn word(self) -> &'static str {
        match self {
            Outcome::Done => "done",
            Outcome::Fresh => "fresh",
            Outcome::Stale => "stale",
            Outcome::Refused => "refused",
            Outcome::Limited => "limited",
        }
    }
}

/// What is wanted of a log.
#[derive(Clone, Copy)]
pub enum WantedLine<'a> {
    /// `least 5 deliver fresh`: it has the line `deliver fresh` five times or more.
    Least { count: usize, line: &'a str },
    /// `ends alike`: after the last command all four nodes hold the same.
    EndsAlike,
}

/// What stands in the log where two nodes hold the same.
pub const ALIKE: &str = "alike";

/// How a log ends if after the last command all four nodes hold the same.
const ALL_ALIKE: &str = "settle done\nalike\nalike\nalike\nalike\nalike\nalike\n";

impl<'a> WantedLine<'a> {
    pub fn of(line: &'a str) -> Result<Self, RowFault> {
        if line == "ends alike" {
            return Ok(WantedLine::EndsAlike);
        }
        let Some(rest) = line.strip_prefix("least ") else {
            return Err(RowFault::Mistyped);
        };
        let Some((count, line)) = rest.split_once(' ') else {
            return Err(RowFault::Mistyped);
        };
        match count.parse::<usize>() {
            Ok(count) if count > 0 && is_logged(line) => Ok(WantedLine::Least { count, line }),
            _ => Err(RowFault::Mistyped),
        }
    }

    pub fn is_met(self, log: &str) -> bool {
        match self {
            WantedLine::Least { count, line } => {
                log.lines().filter(|logged| *logged == line).count() >= count
            }
            WantedLine::EndsAlike => log.ends_with(ALL_ALIKE),
        }
    }
}

/// Returns whether a log may have this line: `alike`, or a command's name and what came of it.
fn is_logged(line: &str) -> bool {
    match line.split_once(' ') {
        Some((verb, outcome)) => {
            verb_of(verb.as_bytes()).is_some() && OUTCOMES.iter().any(|one| one.word() == outcome)
        }
        None => line == ALIKE,
    }
}

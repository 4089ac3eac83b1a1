//! A row: its name, a text, and the output that is wanted of it.

use crate::fault::RowFault;
use crate::line::{Line, joined};
use std::alloc::{AllocError, Global};

/// What a row is, by what its name begins with.
#[derive(Clone, Copy)]
pub enum RowKind<'a> {
    /// A scenario.
    Plain,
    /// `explained: ..`, a scenario that is explained.
    Explained,
    /// `example: ..`, the scenario in this file.
    Example { file: &'a str },
    /// `schedule: ..`, a schedule of four nodes.
    Schedule,
    /// `overlay: ..`, events of views and calls of broadcasts.
    Overlay,
}

impl<'a> RowKind<'a> {
    /// Reads the kind of the row of this name. A name that begins with one word and a colon names a
    /// kind.
    fn of(name: &'a str) -> Result<Self, RowFault> {
        match name.split_once(':') {
            Some((word, rest)) if !word.contains(' ') => RowKind::named(word, rest),
            _ => Ok(RowKind::Plain),
        }
    }

    fn named(word: &str, rest: &'a str) -> Result<Self, RowFault> {
        let Some(rest) = rest.strip_prefix(" ") else {
            return Err(RowFault::Mistyped);
        };
        match word {
            "explained" => Ok(RowKind::Explained),
            "example" => Ok(RowKind::Example { file: rest }),
            "schedule" => Ok(RowKind::Schedule),
            "overlay" => Ok(RowKind::Overlay),
            _ => Err(RowFault::Mistyped),
        }
    }
}

/// A row, as far as it was read.
#[derive(Drop)]
pub struct Row<'a> {
    head: Line<'a>,
    name: &'a str,
    text: Vec<Line<'a>>,
    wanted: Vec<Line<'a>>,
    /// None once a line of the row is mistyped: then it isn't tried.
    kind: Option<RowKind<'a>>,
}

impl<'a> Row<'a> {
    pub fn new(alloc: Global) -> Self {
        Row {
            head: Line {
                number: 0,
                text: "",
            },
            name: "",
            text: Vec::new(alloc),
            wanted: Vec::new(alloc),
            kind: None,
        }
    }

    /// Returns the line that begins the row.
    pub fn head(&self) -> Line<'a> {
        self.head
    }

    pub fn name(&self) -> &'a str {
        self.name
    }

    pub fn kind(&self) -> Option<RowKind<'a>> {
        self.kind
    }

    pub fn lines(&self) -> &[Line<'a>] {
        self.text.as_slice()
    }

    pub fn wanted(&self) -> &[Line<'a>] {
        self.wanted.as_slice()
    }

    /// Returns the text as a scenario.
    pub fn scenario(&self, alloc: Global) -> Result<Vec<u8>, AllocError> {
        joined(alloc, self.text.as_slice())
    }

    /// Begins the row of this name in place of the row before.
    pub fn begin(&mut self, head: Line<'a>, name: &'a str) -> Result<(), RowFault> {
        self.text.clear();
        self.wanted.clear();
        self.head = head;
        self.name = name;
        self.kind = None;
        self.kind = Some(RowKind::of(name)?);
        Ok(())
    }

    /// Lets the row not be tried.
    pub fn spoil(&mut self) {
        self.kind = None;
    }

    /// Adds a line of the text. `@100 LINE` stands for a hundred such lines.
    pub fn add_line(&mut self, line: Line<'a>) -> Result<(), RowFault> {
        let (times, text) = repeated(line.text)?;
        for _ in 0..times {
            self.text.push(Line {
                number: line.number,
                text,
            })?;
        }
        Ok(())
    }

    /// Adds a line of what is wanted.
    pub fn add_wanted(&mut self, line: Line<'a>) -> Result<(), AllocError> {
        Ok(self.wanted.push(line)?)
    }

    /// Refuses a row that wants no more than `..`, so that any output would do.
    pub fn end(&self) -> Result<(), RowFault> {
        match self.wanted.as_slice() {
            [only] if only.text == ".." => Err(RowFault::Idle),
            _ => Ok(()),
        }
    }
}

/// Returns how many times a line stands, and the line.
fn repeated(line: &str) -> Result<(u32, &str), RowFault> {
    let Some(rest) = line.strip_prefix("@") else {
        return Ok((1, line));
    };
    let Some((times, line)) = rest.split_once(' ') else {
        return Err(RowFault::Mistyped);
    };
    match times.parse() {
        Ok(0) | Err(_) => Err(RowFault::Mistyped),
        Ok(times) => Ok((times, line)),
    }
}

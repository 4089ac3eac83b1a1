//! Journals, and the worlds that `assemble` makes of them. A scenario drives nodes, each by itself;
//! their journals, with changes, are handed to `assemble`.
//!
//! A line `== NAME` begins a row. The lines after it are a scenario, up to the first line that
//! begins with `:`. Each line that begins with `:` is tried on the journals that the scenario left:
//!
//! - `: as told` puts the journals together; `: CHANGE` or `: CHANGE; CHANGE` does so with changes
//!   of the entries of nodes at their places, at most one of a node: `leave out N P`, `double N P`,
//!   `swap N P`, `reply N P`, `send N P BYTE`, `unsend N P`, `take N P BYTE`, `unread N P`, `down N
//!   P PEER`, and `untable N` of a table;
//! - `: backwards` hands in the nodes in the opposite order; `: first M` only the first M of them;
//! - `: receipt N P` hands in a receipt of that entry, and `: receipt N P of M Q` one that tells
//!   the entry of node M at Q there; `: receipt N P of M Q; CHANGE` with a change of the journals;
//! - `: whole N M` says whether node N lived its whole first life among M nodes;
//! - `: each` tries each change of each entry;
//! - `: pace` says how many microseconds it took to put the journals together, so it stands in no
//!   stored text.
//!
//! For each line it prints what came of it; ` NOT SO` after an answer whose claim isn't so; and for
//! a refusal what `explain_fault` says, indented. `:! LINE` prints whether the line is mistyped or
//! idle, and is an error if it is neither. The line is idle if it names what isn't there or changes
//! nothing. So is a command of the scenario that its node refuses, or that names a read or a frame
//! that nobody gave; mistyped is one that asks no step of a node.
//!
//! Read `trial` and `parse`; `driver` with `step`, the nodes without a world; `closing` with
//! `change`, what they hand in; `apply` and `each` with `print`; and `claims`, which tells by plain
//! code whether what `assemble` returned is so.

mod apply;
mod change;
mod claims;
mod closing;
mod driver;
mod each;
mod parse;
mod print;
mod step;
mod trial;

use crate::fault::RowFault;
use crate::journals::apply::add_answer;
use crate::journals::driver::Nodes;
use crate::journals::each::{try_each, try_pace};
use crate::journals::parse::parse;
use crate::journals::trial::Trial;
use crate::line::{Line, Section, joined};
use std::alloc::Global;
use std::io;

/// Tries all rows, and prints what comes of them. Returns whether each line was done.
pub fn run(rt: &HostRuntime, rows: Section<'_>) -> io::Result<bool> {
    let mut row = Row::new(rt.alloc());
    let done = row.take_all(rt, rows);
    let is_typed = row.is_typed;
    drop(row);
    done?;
    Ok(is_typed)
}

/// Where a line stands.
#[derive(Clone, Copy)]
enum Part {
    /// Before the first row.
    Before,
    Scenario,
    Trials,
}

/// A row so far, and whether each line until now was done.
#[derive(Drop)]
struct Row<'a> {
    head: Line<'a>,
    part: Part,
    scenario: Vec<Line<'a>>,
    /// The nodes that the scenario left, once a line was tried.
    nodes: Option<Nodes>,
    is_typed: bool,
}

impl<'a> Row<'a> {
    fn new(alloc: Global) -> Self {
        Row {
            head: Line {
                number: 0,
                text: "",
            },
            part: Part::Before,
            scenario: Vec::new(alloc),
            nodes: None,
            is_typed: true,
        }
    }

    fn take_all(&mut self, rt: &HostRuntime, rows: Section<'a>) -> io::Result<()> {
        for (place, text) in rows.text().lines().enumerate() {
            self.take(rt, rows.numbered(place, text))?;
        }
        self.end(rt)
    }

    fn take(&mut self, rt: &HostRuntime, line: Line<'a>) -> io::Result<()> {
        if line.text.starts_with("== ") {
            return self.begin(rt, line);
        }
        if let Some(tried) = line.text.strip_prefix(": ") {
            self.drive(rt, line)?;
            return self.try_line(rt, line, tried);
        }
        if let Some(tried) = line.text.strip_prefix(":! ") {
            self.drive(rt, line)?;
            return self.refuse_line(rt, line, tried);
        }
        match self.part {
            Part::Scenario => Ok(self.scenario.push(line)?),
            Part::Before | Part::Trials => {
                if line.is_skipped() {
                    return Ok(());
                }
                self.tell(rt, line, RowFault::Mistyped)
            }
        }
    }

    /// Prints a line that was not done.
    fn tell(&mut self, rt: &HostRuntime, line: Line<'_>, fault: RowFault) -> io::Result<()> {
        self.is_typed = false;
        let why = fault.word()?;
        println!(rt; "error in line {}, {why}: {}", line.number, line.text)
    }

    fn begin(&mut self, rt: &HostRuntime, head: Line<'a>) -> io::Result<()> {
        self.end(rt)?;
        self.head = head;
        self.part = Part::Scenario;
        self.scenario.clear();
        self.nodes = None;
        println!(rt; "{}", head.text)
    }

    /// Tells of a row whose scenario isn't tried.
    fn end(&mut self, rt: &HostRuntime) -> io::Result<()> {
        match self.part {
            Part::Scenario => {
                let head = self.head;
                self.tell(rt, head, RowFault::Idle)
            }
            Part::Before | Part::Trials => Ok(()),
        }
    }

    /// Drives the nodes before the first line that is tried on them.
    fn drive(&mut self, rt: &HostRuntime, line: Line<'_>) -> io::Result<()> {
        match self.part {
            Part::Before => self.tell(rt, line, RowFault::Mistyped),
            Part::Scenario => {
                self.part = Part::Trials;
                self.drive_nodes(rt)
            }
            Part::Trials => Ok(()),
        }
    }

    fn drive_nodes(&mut self, rt: &HostRuntime) -> io::Result<()> {
        let text = joined(rt.alloc(), self.scenario.as_slice())?;
        match Nodes::driven(rt.alloc(), text.as_slice(), self.scenario.as_slice()) {
            Ok(nodes) => {
                self.nodes = Some(nodes);
                Ok(())
            }
            Err(undriven) => {
                let line = self.line_at(undriven.place);
                self.tell(rt, line, undriven.fault)
            }
        }
    }

    /// Returns the line at this place of the scenario, or of the row if it lacks one.
    fn line_at(&self, place: usize) -> Line<'a> {
        match self.scenario.get(place) {
            Some(line) => *line,
            None => self.head,
        }
    }

    /// Tries a line on the nodes, if the scenario left some.
    fn try_line(&mut self, rt: &HostRuntime, line: Line<'_>, tried: &str) -> io::Result<()> {
        let Some(nodes) = &self.nodes else {
            return Ok(());
        };
        let mut text = String::new(rt.alloc());
        let done = match parse(rt.alloc(), tried) {
            Ok(Trial::Question(question)) => add_answer(nodes, &question, &mut text),
            Ok(Trial::Each) => return try_each(rt, nodes),
            Ok(Trial::Pace) => return try_pace(rt, nodes),
            Err(fault) => Err(fault),
        };
        match done {
            Ok(()) => println!(rt; "{tried}: {text}"),
            Err(fault) => self.tell(rt, line, fault),
        }
    }

    /// Prints why a line can't be tried on the nodes, if the scenario left some.
    fn refuse_line(&mut self, rt: &HostRuntime, line: Line<'_>, tried: &str) -> io::Result<()> {
        let Some(nodes) = &self.nodes else {
            return Ok(());
        };
        let mut text = String::new(rt.alloc());
        let done = match parse(rt.alloc(), tried) {
            Ok(Trial::Question(question)) => add_answer(nodes, &question, &mut text),
            Ok(Trial::Each | Trial::Pace) => Ok(()),
            Err(fault) => Err(fault),
        };
        match done {
            Ok(()) => self.tell(rt, line, RowFault::Mistyped),
            Err(fault) => {
                let why = fault.word()?;
                println!(rt; "{tried}: {why}")
            }
        }
    }
}

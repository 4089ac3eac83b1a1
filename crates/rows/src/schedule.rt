//! Rows that are schedules: commands to four nodes, which are compared with the past by sets at
//! certain commands.
//!
//! Read `parse`, then `apply` with `past`.

mod apply;
mod parse;
mod past;

use crate::fault::RowFault;
use crate::line::{Line, print_line, text_of};
use crate::report::Report;
use crate::row::Row;
use crate::schedule::apply::{Followed, follow};
use crate::schedule::parse::{WantedLine, text_of_lines};
use resolvers::Resolver;
use scenario_text::{BadLine, Script, parse as parse_script};
use std::alloc::{AllocError, Global};

/// How many nodes each schedule has.
const NODES: u64 = 4;

/// Runs the schedule of a row. Adds where a node, when it was compared, didn't show what the past
/// does, and which lines the log has less often than the row wants. If a line of the schedule is
/// mistyped, it only adds the first such line.
pub fn try_schedule(
    alloc: Global,
    row: &Row<'_>,
    resolvers: &[Box<dyn Resolver>],
    report: &mut Report,
) -> Result<(), AllocError> {
    let text = text_of_lines(alloc, row.lines())?;
    match parse_script(text.as_slice(), resolvers.len()) {
        Ok(Some(script)) => try_script(alloc, row, script, resolvers, report),
        Ok(None) => report.add_error(row.head(), RowFault::Mistyped),
        Err(fault) => report.add_error(line_of(row, fault), RowFault::Mistyped),
    }
}

/// Returns the line of the row that is mistyped. In the text a line `nodes` stands before it.
fn line_of<'a>(row: &Row<'a>, fault: BadLine) -> Line<'a> {
    match row.lines().get((fault.line as usize).saturating_sub(2)) {
        Some(line) => *line,
        None => row.head(),
    }
}

fn try_script(
    alloc: Global,
    row: &Row<'_>,
    script: Script<'_>,
    resolvers: &[Box<dyn Resolver>],
    report: &mut Report,
) -> Result<(), AllocError> {
    let mut log = Vec::new(alloc);
    let is_right = match follow(row.lines(), script, resolvers, &mut log, report)? {
        Followed::Right => true,
        Followed::Wrong => false,
        Followed::Mistyped => return Ok(()),
    };
    let mut told = Vec::new(alloc);
    add_lacking(text_of(log.as_slice()), row, &mut told, report)?;
    if !is_right {
        told.extend_from_slice(log.as_slice())?;
    }
    if told.is_empty() {
        return Ok(());
    }
    report.add_different(row.name(), told.as_slice())
}

/// Adds the wanted lines that the log has less often, and tells of those that are mistyped.
fn add_lacking(
    log: &str,
    row: &Row<'_>,
    lacking: &mut Vec<u8>,
    report: &mut Report,
) -> Result<(), AllocError> {
    for line in row.wanted() {
        match WantedLine::of(line.text) {
            Ok(wanted) if wanted.is_met(log) => {}
            Ok(_) => print_line(lacking, "- ", line.text)?,
            Err(fault) => report.add_error(*line, fault)?,
        }
    }
    Ok(())
}

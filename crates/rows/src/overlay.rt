//! Rows of the overlay: events of nodes' views and calls of their broadcasts, one on each line, and
//! what they give out.
//!
//! Read `asked`, `parse` with `parse_event` and `parse_call`, then `apply` with `print`.

mod apply;
mod asked;
mod parse;
mod parse_call;
mod parse_event;
mod print;

use crate::fault::RowFault;
use crate::line::{Line, print_line};
use crate::overlay::apply::Nodes;
use crate::overlay::parse::parse;
use crate::report::Report;
use crate::row::Row;
use std::alloc::{AllocError, Global};

/// Compares what the lines of a row give out with what the row wants, unless one is mistyped.
pub fn try_overlay(alloc: Global, row: &Row<'_>, report: &mut Report) -> Result<(), AllocError> {
    let mut text = Vec::new(alloc);
    if take_all(alloc, row.lines(), &mut text, report)? {
        report.compare(alloc, row, text.as_slice())?;
    }
    Ok(())
}

/// Adds what lines give out. Returns whether each was done.
fn take_all(
    alloc: Global,
    lines: &[Line<'_>],
    text: &mut Vec<u8>,
    report: &mut Report,
) -> Result<bool, AllocError> {
    let mut nodes = Nodes::new(alloc);
    let done = take_each(alloc, &mut nodes, lines, text, report);
    drop(nodes);
    done
}

fn take_each(
    alloc: Global,
    nodes: &mut Nodes,
    lines: &[Line<'_>],
    text: &mut Vec<u8>,
    report: &mut Report,
) -> Result<bool, AllocError> {
    let mut are_done = true;
    for line in lines {
        if let Err(fault) = take(alloc, nodes, line.text, text) {
            are_done = false;
            report.add_error(*line, fault)?;
        }
    }
    Ok(are_done)
}

/// Adds what a line gives out. A line that begins with `#` is copied, and `! LINE` prints the line
/// after `error`, if that is mistyped or names what isn't there.
fn take(alloc: Global, nodes: &mut Nodes, line: &str, text: &mut Vec<u8>) -> Result<(), RowFault> {
    if line.starts_with('#') {
        return Ok(print_line(text, "", line)?);
    }
    match line.strip_prefix("! ") {
        Some(wrong) => refuse(alloc, nodes, wrong, text),
        None => obey(alloc, nodes, line, text),
    }
}

/// Does what a line asks.
fn obey(alloc: Global, nodes: &mut Nodes, line: &str, text: &mut Vec<u8>) -> Result<(), RowFault> {
    nodes.obey(alloc, parse(alloc, line)?, text)
}

/// Refuses a line that can be done.
fn refuse(
    alloc: Global,
    nodes: &mut Nodes,
    line: &str,
    text: &mut Vec<u8>,
) -> Result<(), RowFault> {
    match obey(alloc, nodes, line, text) {
        Ok(()) => Err(RowFault::Mistyped),
        Err(RowFault::Memory) => Err(RowFault::Memory),
        Err(RowFault::Mistyped | RowFault::Idle) => Ok(print_line(text, "error ", line)?),
    }
}

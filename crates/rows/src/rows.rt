//! A text of rows, and the report on them.

use crate::between::Between;
use crate::fault::RowFault;
use crate::line::{Line, Section};
use crate::overlay::try_overlay;
use crate::report::Report;
use crate::row::{Row, RowKind};
use crate::scenarios::{try_explained, try_line, try_scenario};
use crate::schedule::try_schedule;
use resolvers::Resolver;
use std::alloc::{AllocError, Global};
use std::fs;
use std::io::ErrorKind;

/// Tries the rows of a text. Returns where they print something other than they want, which lines
/// are no part of a row, and how many rows there are.
pub fn report_of(
    rt: &HostRuntime,
    rows: Section<'_>,
    resolvers: &[Box<dyn Resolver>],
) -> Result<Report, AllocError> {
    let mut report = Report::new(rt.alloc());
    try_rows(rt, rows, resolvers, &mut report)?;
    Ok(report)
}

fn try_rows(
    rt: &HostRuntime,
    rows: Section<'_>,
    resolvers: &[Box<dyn Resolver>],
    report: &mut Report,
) -> Result<(), AllocError> {
    let mut row = Row::new(rt.alloc());
    let mut part = Part::Between;
    for (place, text) in rows.text().lines().enumerate() {
        let line = rows.numbered(place, text);
        part = match part {
            Part::Between => take_between(rt.alloc(), &mut row, line, resolvers, report)?,
            Part::Text => take_text(&mut row, line, report)?,
            Part::Wanted if line.text.is_empty() => {
                try_row(rt, &row, resolvers, report)?;
                Part::Between
            }
            Part::Wanted => take_wanted(&mut row, line, report)?,
        };
    }
    end(rt, &row, part, resolvers, report)
}

/// Where a line stands in the text of rows.
#[derive(Clone, Copy)]
enum Part {
    Between,
    Text,
    Wanted,
}

/// Takes a line between rows. Returns where the next one stands.
fn take_between<'a>(
    alloc: Global,
    row: &mut Row<'a>,
    line: Line<'a>,
    resolvers: &[Box<dyn Resolver>],
    report: &mut Report,
) -> Result<Part, AllocError> {
    match Between::of(line) {
        Ok(Between::Skipped) => Ok(Part::Between),
        Ok(Between::Begins(name)) => {
            if let Err(fault) = row.begin(line, name) {
                report.add_error(line, fault)?;
            }
            Ok(Part::Text)
        }
        Ok(
            Between::Tried {
                line: tried,
                is_bad,
            },
        ) => {
            try_line(alloc, line, tried, is_bad, resolvers, report)?;
            Ok(Part::Between)
        }
        Err(fault) => {
            report.add_error(line, fault)?;
            Ok(Part::Between)
        }
    }
}

/// Takes a line of a row's text. Returns where the next one stands.
fn take_text<'a>(
    row: &mut Row<'a>,
    line: Line<'a>,
    report: &mut Report,
) -> Result<Part, AllocError> {
    if line.text == "--" {
        return Ok(Part::Wanted);
    }
    let added = match refuse_head(line) {
        Ok(()) => row.add_line(line),
        Err(fault) => Err(fault),
    };
    note(row, line, added, report)?;
    Ok(Part::Text)
}

/// Takes a line of what a row wants. Returns where the next one stands.
fn take_wanted<'a>(
    row: &mut Row<'a>,
    line: Line<'a>,
    report: &mut Report,
) -> Result<Part, AllocError> {
    row.add_wanted(line)?;
    note(row, line, refuse_head(line), report)?;
    Ok(Part::Wanted)
}

/// Refuses a line that begins a row: the row before it lacks its `--` or the empty line.
fn refuse_head(line: Line<'_>) -> Result<(), RowFault> {
    if line.text.starts_with("== ") {
        Err(RowFault::Mistyped)
    } else {
        Ok(())
    }
}

/// Tells of a mistyped line of a row, which then isn't tried.
fn note(
    row: &mut Row<'_>,
    line: Line<'_>,
    done: Result<(), RowFault>,
    report: &mut Report,
) -> Result<(), AllocError> {
    match done {
        Ok(()) => Ok(()),
        Err(fault) => {
            row.spoil();
            report.add_error(line, fault)
        }
    }
}

/// Ends the last row, which lacks its empty line.
fn end(
    rt: &HostRuntime,
    row: &Row<'_>,
    part: Part,
    resolvers: &[Box<dyn Resolver>],
    report: &mut Report,
) -> Result<(), AllocError> {
    match part {
        Part::Between => Ok(()),
        Part::Text => report.add_error(row.head(), RowFault::Mistyped),
        Part::Wanted => try_row(rt, row, resolvers, report),
    }
}

/// Tries a row by its kind.
fn try_row(
    rt: &HostRuntime,
    row: &Row<'_>,
    resolvers: &[Box<dyn Resolver>],
    report: &mut Report,
) -> Result<(), AllocError> {
    let alloc = rt.alloc();
    report.count_row();
    let Some(kind) = row.kind() else {
        return Ok(());
    };
    if let Err(fault) = row.end() {
        return report.add_error(row.head(), fault);
    }
    match kind {
        RowKind::Plain => {
            let scenario = row.scenario(alloc)?;
            try_scenario(alloc, row, scenario.as_slice(), resolvers, report)
        }
        RowKind::Explained => try_explained(alloc, row, resolvers, report),
        RowKind::Example { file } => try_example(rt, row, file, resolvers, report),
        RowKind::Schedule => try_schedule(alloc, row, resolvers, report),
        RowKind::Overlay => try_overlay(alloc, row, report),
    }
}

/// Tries the scenario in the file of an example, whose own text is empty.
fn try_example(
    rt: &HostRuntime,
    row: &Row<'_>,
    file: &str,
    resolvers: &[Box<dyn Resolver>],
    report: &mut Report,
) -> Result<(), AllocError> {
    if let Some(line) = row.lines().first() {
        return report.add_error(*line, RowFault::Idle);
    }
    match fs::read_to_string(rt, file) {
        Ok(scenario) => try_scenario(rt.alloc(), row, scenario.as_bytes(), resolvers, report),
        Err(error) if error.kind() == ErrorKind::OutOfMemory => Err(AllocError),
        Err(_) => report.add_error(row.head(), RowFault::Idle),
    }
}

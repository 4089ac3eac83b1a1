//! Tries rows. Standard input has three parts:
//!
//! - rows that are scenarios, or events of the overlay, each with the output that is wanted of it:
//!   at standard output stands what differs, and how many rows there were;
//! - after a line `%% journals`, rows of journals, and what comes of putting them together;
//! - after a line `%% node files`, paths, and what is reported on each.
//!
//! A line is read whole before anything is done. One that is mistyped, or names what isn't there,
//! is printed with its number. Then the program ends with status 1, and so it does if a row
//! differs.
//!
//! The gate compares what it prints with the stored text, so rows cost no proof.
//!
//! Read `rows`, `between` and `row`, and `report`, with `line`, `fault` and `difference`; then
//! `scenarios`; `schedule`, `overlay` and `journals`, each with its folder, and `words`; and
//! `files`.
#![tactic(auto)]

mod between;
mod difference;
mod fault;
mod files;
mod journals;
mod line;
mod overlay;
mod report;
mod row;
mod rows;
mod scenarios;
mod schedule;
mod words;

use line::Section;
use resolvers::{Largest, Lww, Resolver};
use rows::report_of;
use std::io::{self, ErrorKind};
use std::process::ExitCode;
use streams::{MayFail, StreamFault, write_whole};

fn main(rt: HostRuntime) -> ExitCode {
    ExitCode::from(match run(&rt) {
        Ok(true) => 0,
        Ok(false) => 1,
        Err(fault) => told_fault(&rt, fault),
    })
}

/// The line that begins the rows of journals.
const JOURNALS: &str = "%% journals\n";

/// The line that begins the paths of node files.
const FILES: &str = "%% node files\n";

/// Tries the rows at standard input. Returns whether each line was done, and no row differs.
fn run(rt: &HostRuntime) -> Result<bool, StreamFault> {
    let text = read_rows(rt)?;
    let done = try_parts(rt, text.as_str());
    drop(text);
    done
}

/// Tries the parts of a text, one after the other.
fn try_parts(rt: &HostRuntime, text: &str) -> Result<bool, StreamFault> {
    let (rows, rest) = text.split_once(JOURNALS).unwrap_or((text, ""));
    let (journals, paths) = rest.split_once(FILES).unwrap_or((rest, ""));
    let rows = Section::new(rows, 0);
    let are_right = try_rows(rt, rows)?;
    let are_done = journals::run(rt, rows.followed_by(journals)).map_err(fault_of)?;
    files::run(rt, paths).map_err(fault_of)?;
    Ok(are_right && are_done)
}

/// Tries rows that have what is wanted of them, and prints the report.
fn try_rows(rt: &HostRuntime, rows: Section<'_>) -> Result<bool, StreamFault> {
    let lww: Box<dyn Resolver> = Box::new(rt.alloc(), Lww)?;
    let largest: Box<dyn Resolver> = Box::new(rt.alloc(), Largest)?;
    let report = report_of(rt, rows, &[lww, largest])?;
    let is_right = report.is_right();
    let text = report.end()?;
    write_whole(&mut MayFail(rt.stdout()), text.as_slice())?;
    Ok(is_right)
}

/// Returns the fault of a part that makes no report, by its error.
fn fault_of(error: io::Error) -> StreamFault {
    match error.kind() {
        ErrorKind::OutOfMemory => StreamFault::Memory,
        _ => StreamFault::Write,
    }
}

fn read_rows(rt: &HostRuntime) -> Result<String, StreamFault> {
    match io::read_to_string(rt.alloc(), rt.stdin()) {
        Ok(rows) => Ok(rows),
        Err(error) if error.kind() == ErrorKind::OutOfMemory => Err(StreamFault::Memory),
        Err(_) => Err(StreamFault::Read),
    }
}

/// Prints a fault at standard error, and returns the exit status.
fn told_fault(rt: &HostRuntime, fault: StreamFault) -> u8 {
    let _ = match fault.code() {
        Some(code) => eprintln!(rt; "error {code} {fault}"),
        None => eprintln!(rt; "error {fault}"),
    };
    match fault {
        StreamFault::Memory => 4,
        _ => 3,
    }
}

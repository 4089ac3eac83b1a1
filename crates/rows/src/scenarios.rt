//! Rows that are scenarios, and lines that are tried alone.

use crate::difference::print_difference;
use crate::line::{Line, print_line, text_of};
use crate::report::Report;
use crate::row::Row;
use resolvers::Resolver;
use scenario::{ScenarioFault, run_over};
use scenario_explain::explain_over;
use std::alloc::{AllocError, Global};
use streams::StreamFault;

/// Runs a scenario, and compares what it prints with what the row wants; and, if it isn't long,
/// what it prints when it is explained.
pub fn try_scenario(
    alloc: Global,
    row: &Row<'_>,
    scenario: &[u8],
    resolvers: &[Box<dyn Resolver>],
    report: &mut Report,
) -> Result<(), AllocError> {
    let output = output_of(alloc, scenario, resolvers, false)?;
    report.compare(alloc, row, output.as_slice())?;
    if scenario.len() > MAX_EXPLAINED {
        return Ok(());
    }
    let explained = output_of(alloc, scenario, resolvers, true)?;
    compare_explained(alloc, row, output.as_slice(), explained.as_slice(), report)
}

/// Runs a scenario, explained, and compares what it prints with what the row wants.
pub fn try_explained(
    alloc: Global,
    row: &Row<'_>,
    resolvers: &[Box<dyn Resolver>],
    report: &mut Report,
) -> Result<(), AllocError> {
    let scenario = row.scenario(alloc)?;
    let output = output_of(alloc, scenario.as_slice(), resolvers, true)?;
    report.compare(alloc, row, output.as_slice())
}

/// The most bytes of a scenario that is explained too. What an explained run prints grows with the
/// square of its length.
const MAX_EXPLAINED: usize = 4_000;

/// Compares what an explained scenario prints, without its indented lines, with `output`. Adds
/// where they differ.
fn compare_explained(
    alloc: Global,
    row: &Row<'_>,
    output: &[u8],
    explained: &[u8],
    report: &mut Report,
) -> Result<(), AllocError> {
    let plain = without_indented(alloc, text_of(explained))?;
    if plain.as_slice() == output {
        return Ok(());
    }
    let mut told = Vec::from_slice(alloc, b"when explained\n")?;
    print_difference(&mut told, text_of(output), text_of(plain.as_slice()))?;
    report.add_different(row.name(), told.as_slice())
}

/// Returns the lines of a text that don't begin with two spaces.
fn without_indented(alloc: Global, text: &str) -> Result<Vec<u8>, AllocError> {
    let mut plain = Vec::new(alloc);
    for line in text.lines() {
        if !line.starts_with("  ") {
            print_line(&mut plain, "", line)?;
        }
    }
    Ok(plain)
}

/// What is printed if the second line breaks a rule.
const BAD_LINE: &[u8] = b"error 70 BadLine 2\n";

/// Tries a line after `nodes 2`, which should be a bad one or not. Adds the line if that isn't so.
pub fn try_line(
    alloc: Global,
    line: Line<'_>,
    tried: &str,
    is_bad: bool,
    resolvers: &[Box<dyn Resolver>],
    report: &mut Report,
) -> Result<(), AllocError> {
    report.count_line();
    let mut scenario = Vec::from_slice(alloc, b"nodes 2\n")?;
    print_line(&mut scenario, "", tried)?;
    let output = output_of(alloc, scenario.as_slice(), resolvers, false)?;
    if (output.as_slice() == BAD_LINE) == is_bad {
        return Ok(());
    }
    report.add_different(line.text, b"")
}

/// Returns what a scenario prints, explained or not.
fn output_of(
    alloc: Global,
    scenario: &[u8],
    resolvers: &[Box<dyn Resolver>],
    explained: bool,
) -> Result<Vec<u8>, AllocError> {
    let mut output = Vec::new(alloc);
    let mut reader = scenario;
    let ended = if explained {
        explain_over(alloc, &mut reader, &mut output, resolvers)
    } else {
        run_over(alloc, &mut reader, &mut output, resolvers)
    };
    match ended {
        Err(ScenarioFault::Stream(StreamFault::Memory)) => Err(AllocError),
        _ => Ok(output),
    }
}

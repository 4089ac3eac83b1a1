//! Does the commands of a schedule, and compares its nodes with the past.

use crate::fault::RowFault;
use crate::line::{Line, print_line};
use crate::report::Report;
use crate::schedule::NODES;
use crate::schedule::parse::{Outcome, Scheduled};
use crate::schedule::past::{add_alike, is_right, keys};
use meta_types::MetaKey;
use resolvers::Resolver;
use scenario_commands::{Stage, StageFault};
use scenario_text::{Command, Script, is_skipped};
use std::alloc::{AllocError, Global};

/// How a schedule was followed.
#[derive(Clone, Copy)]
pub enum Followed {
    /// Each node showed what the past does each time it was compared.
    Right,
    /// A node didn't.
    Wrong,
    /// A line was told of in the report.
    Mistyped,
}

/// Does the commands of a schedule, and adds to the log what came of each.
pub fn follow(
    lines: &[Line<'_>],
    script: Script<'_>,
    resolvers: &[Box<dyn Resolver>],
    log: &mut Vec<u8>,
    report: &mut Report,
) -> Result<Followed, AllocError> {
    let alloc = *log.allocator();
    let keys = keys(alloc)?;
    let mut stage = Stage::new(alloc, NODES)?;
    let followed = follow_all(
        &mut stage,
        lines,
        script,
        keys.as_slice(),
        resolvers,
        log,
        report,
    );
    drop(stage);
    followed
}

/// Does `follow`, with the stage that obeys the commands and the keys under which nodes are
/// compared.
fn follow_all(
    stage: &mut Stage,
    lines: &[Line<'_>],
    script: Script<'_>,
    keys: &[MetaKey],
    resolvers: &[Box<dyn Resolver>],
    log: &mut Vec<u8>,
    report: &mut Report,
) -> Result<Followed, AllocError> {
    let mut script = script;
    for (place, line) in lines.iter().enumerate() {
        if is_skipped(line.text.as_bytes()) {
            continue;
        }
        let Some(command) = script.next() else {
            break;
        };
        if let Err(fault) = take_line(stage, line.text, &command, resolvers, log) {
            report.add_error(*line, fault)?;
            return Ok(Followed::Mistyped);
        }
        if is_compared(place) && !compare(stage, line.text, keys, log)? {
            return Ok(Followed::Wrong);
        }
    }
    if compare(stage, "the last", keys, log)? {
        Ok(Followed::Right)
    } else {
        Ok(Followed::Wrong)
    }
}

/// Returns whether all is compared after the command at this place: after each of the first 50, and
/// then after each fiftieth, since the past by sets takes the square of its length.
fn is_compared(place: usize) -> bool {
    place < 50 || place % 50 == 0
}

/// Compares all nodes with the past, and with one another. Returns whether all are right; otherwise
/// the log ends with the command after which they weren't.
fn compare(
    stage: &Stage,
    line: &str,
    keys: &[MetaKey],
    log: &mut Vec<u8>,
) -> Result<bool, AllocError> {
    let alloc = *log.allocator();
    let is_right = is_right(alloc, stage.world(), keys)? && add_alike(stage.world(), keys, log)?;
    if !is_right {
        print_line(log, "not as the past after ", line)?;
    }
    Ok(is_right)
}

/// Does what a line asks, and adds the name of its command and what came of it to the log.
fn take_line(
    stage: &mut Stage,
    line: &str,
    command: &Command<'_>,
    resolvers: &[Box<dyn Resolver>],
    log: &mut Vec<u8>,
) -> Result<(), RowFault> {
    let alloc = *log.allocator();
    let outcome = match Scheduled::of(line, command)? {
        Scheduled::Command => obey(alloc, stage, command, resolvers)?,
        Scheduled::FromLast { back, node, word } => {
            let next = stage.world().frame_count().saturating_add(1);
            let frame = next.saturating_sub(back);
            let delivery = Command::Deliver { frame, node, word };
            obey(alloc, stage, &delivery, resolvers)?
        }
    };
    let verb = line.split_whitespace().next().unwrap_or("");
    log.extend_from_slice(verb.as_bytes())?;
    Ok(print_line(log, " ", outcome.word())?)
}

fn obey(
    alloc: Global,
    stage: &mut Stage,
    command: &Command<'_>,
    resolvers: &[Box<dyn Resolver>],
) -> Result<Outcome, AllocError> {
    let mut output = Vec::new(alloc);
    match stage.obey(command, resolvers, &mut output) {
        Ok(()) => Ok(Outcome::of(output.as_slice())),
        Err(StageFault::Limit) => Ok(Outcome::Limited),
        Err(StageFault::Memory) => Err(AllocError),
    }
}

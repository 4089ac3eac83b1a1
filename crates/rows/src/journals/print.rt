//! What is printed of journals that were put together, or of why they weren't.

use crate::journals::claims::is_so;
use node_journal::{Closed, Receipt, are_whole};
use run_record::{Place, RecordFault, assemble};
use run_text::explain_fault;
use std::alloc::{AllocError, Global};
use world_core::World;

/// Adds what comes of assembling journals and receipts.
pub fn add_told(
    alloc: Global,
    closed: &[Closed],
    receipts: &[Receipt],
    text: &mut String,
) -> Result<(), AllocError> {
    if !are_whole(closed) {
        return text.push_str("not whole");
    }
    let answer = assemble(alloc, closed, receipts);
    let done = add_outcome(alloc, closed, receipts, &answer, text);
    drop(answer);
    done
}

/// Adds what `assemble` returned, and the cause if it is a refusal.
fn add_outcome(
    alloc: Global,
    closed: &[Closed],
    receipts: &[Receipt],
    answer: &Result<World, RecordFault>,
    text: &mut String,
) -> Result<(), AllocError> {
    match answer {
        Ok(world) => add_count(alloc, world, text)?,
        Err(fault) => add_fault(alloc, fault, text)?,
    }
    if !is_so(alloc, closed, receipts, answer)? {
        text.push_str(" NOT SO")?;
    }
    match answer {
        Ok(_) => Ok(()),
        Err(fault) => add_words(alloc, closed, receipts, fault, text),
    }
}

fn add_count(alloc: Global, world: &World, text: &mut String) -> Result<(), AllocError> {
    let line = format!(in alloc; "assembled, {} entries", world.accepted().len())?;
    text.push_str(line.as_str())
}

fn add_place(alloc: Global, at: Place, text: &mut String) -> Result<(), AllocError> {
    let place = format!(in alloc; " {}.{}", at.node, at.place)?;
    text.push_str(place.as_str())
}

/// Adds a refusal, with what it names.
fn add_fault(alloc: Global, fault: &RecordFault, text: &mut String) -> Result<(), AllocError> {
    let line = format!(in alloc; "{} {fault}", fault.code())?;
    text.push_str(line.as_str())?;
    match fault {
        RecordFault::Unsent(at) => add_place(alloc, *at, text),
        RecordFault::Stuck { places } => add_places(alloc, places.as_slice(), text),
        RecordFault::Unequal { node } => {
            let node = format!(in alloc; " {node}")?;
            text.push_str(node.as_str())
        }
        RecordFault::StrangeReceipt | RecordFault::Memory => Ok(()),
    }
}

fn add_places(alloc: Global, places: &[Place], text: &mut String) -> Result<(), AllocError> {
    for at in places {
        add_place(alloc, *at, text)?;
    }
    Ok(())
}

/// Adds what `explain_fault` says, indented.
fn add_words(
    alloc: Global,
    closed: &[Closed],
    receipts: &[Receipt],
    fault: &RecordFault,
    text: &mut String,
) -> Result<(), AllocError> {
    let words = explain_fault(alloc, closed, receipts, fault)?;
    let done = add_indented(words.as_slice(), text);
    drop(words);
    done
}

/// Adds lines, each indented.
fn add_indented(words: &[u8], text: &mut String) -> Result<(), AllocError> {
    for line in words.trim_ascii_end().split(|byte| *byte == b'\n') {
        text.push_str("\n  ")?;
        text.push_str(std::str::from_utf8(line).unwrap_or("no text"))?;
    }
    Ok(())
}

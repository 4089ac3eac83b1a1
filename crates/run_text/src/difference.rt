//! Where a node does something other than its journal says.

use crate::explain::add_call;
use crate::needed::add_frame;
use crate::reply::add_reply;
use meta_types::ByteString;
use node_core::{NodeState, Stepped};
use node_events::StepFault;
use node_journal::{Closed, Entry};
use printing::print_number;
use run_record::Place;
use std::alloc::{AllocError, Global};

/// Adds the first call of the node that differs from what a node does, with both sides; or says
/// that its table differs.
pub(crate) fn add_difference(
    alloc: Global,
    text: &mut Vec<u8>,
    closed: &[Closed],
    node: usize,
) -> Result<(), AllocError> {
    match closed
        .iter()
        .find(|one| usize::from(one.node().number()) == node)
    {
        Some(one) => add_first(alloc, text, one),
        None => Ok(()),
    }
}

/// Returns the place of the first entry that a node doesn't make, with what it does there.
fn first_difference(
    state: &mut NodeState,
    journal: &[Entry],
) -> Option<(usize, Result<Stepped, StepFault>)> {
    for (place, entry) in journal.iter().enumerate() {
        let outcome = state.step_on(&entry.event);
        if !is_told(&outcome, entry) {
            return Some((place, outcome));
        }
    }
    None
}

/// Returns whether the step gave what the entry says.
fn is_told(outcome: &Result<Stepped, StepFault>, entry: &Entry) -> bool {
    match outcome {
        Ok(given) => given.reply == entry.reply && given.outbox == entry.outbox,
        Err(_) => false,
    }
}

fn add_first(alloc: Global, text: &mut Vec<u8>, one: &Closed) -> Result<(), AllocError> {
    let node = usize::from(one.node().number());
    let mut state = NodeState::new(alloc, one.node(), 1)?;
    let difference = first_difference(&mut state, one.journal());
    let has_table = state.store() == one.table();
    // The state is dropped at the only way out, so that the proof has one case for it.
    drop(state);
    match difference {
        Some((place, outcome)) => add_outcome(text, Place { node, place }, one.journal(), outcome),
        None if has_table => Ok(()),
        None => {
            text.extend_from_slice(b"node ")?;
            print_number(text, node as u64)?;
            text.extend_from_slice(b": its table is another than its journal makes\n")
        }
    }
}

/// Adds what the journal says of the call at the place, and what a node does.
fn add_outcome(
    text: &mut Vec<u8>,
    at: Place,
    journal: &[Entry],
    outcome: Result<Stepped, StepFault>,
) -> Result<(), AllocError> {
    let added = match journal.get(at.place) {
        Some(entry) => add_both(text, at, entry, &outcome),
        None => Ok(()),
    };
    drop(outcome);
    added
}

/// Adds what the journal says of a call, and what a node does.
fn add_both(
    text: &mut Vec<u8>,
    at: Place,
    entry: &Entry,
    outcome: &Result<Stepped, StepFault>,
) -> Result<(), AllocError> {
    add_call(text, at)?;
    text.extend_from_slice(b"its journal says ")?;
    add_reply(text, &entry.reply)?;
    add_frames(text, entry.outbox.as_slice())?;
    text.push(b'\n')?;
    add_call(text, at)?;
    match outcome {
        Ok(given) => {
            text.extend_from_slice(b"a node does ")?;
            add_reply(text, &given.reply)?;
            add_frames(text, given.outbox.as_slice())?;
        }
        Err(StepFault::Memory) => return Err(AllocError),
        Err(fault) => {
            text.extend_from_slice(b"a node refuses it: ")?;
            print_number(text, u64::from(fault.code()))?;
            text.push(b' ')?;
            text.extend_from_slice(fault.name().as_bytes())?;
        }
    }
    text.push(b'\n')?;
    Ok(())
}

/// Adds frames, each after a semicolon.
fn add_frames(text: &mut Vec<u8>, frames: &[ByteString]) -> Result<(), AllocError> {
    for frame in frames {
        text.extend_from_slice(b"; ")?;
        add_frame(text, frame)?;
    }
    Ok(())
}

//! What an entry needs, and who gives it.

use crate::explain::{add_call, entry_at};
use meta_frame::{FrameFault, decode};
use meta_store::Context;
use meta_types::ByteString;
use node_events::{NodeEvent, Reply};
use node_journal::{Closed, Entry};
use printing::{print_frame, print_key, print_number, print_vector};
use run_record::{Place, journal_of};
use std::alloc::AllocError;

/// Adds what the entry at a place needs, which no entry gives.
pub(crate) fn add_ungiven(
    text: &mut Vec<u8>,
    closed: &[Closed],
    at: Place,
) -> Result<(), AllocError> {
    let Some(entry) = entry_at(closed, at) else {
        return Ok(());
    };
    add_call(text, at)?;
    match &entry.event {
        NodeEvent::Take { frame, .. } => {
            text.extend_from_slice(b"takes a frame that no node sent: ")?;
            add_frame(text, frame)?;
        }
        NodeEvent::Write {
            context: Some(context),
            ..
        } => {
            text.extend_from_slice(b"has read what no node read: ")?;
            add_context(text, context)?;
        }
        _ => text.extend_from_slice(b"needs nothing")?,
    }
    text.push(b'\n')?;
    Ok(())
}

/// Adds what the entry at a place waits for, and the first call that gives it.
pub(crate) fn add_waiting(
    text: &mut Vec<u8>,
    closed: &[Closed],
    at: Place,
) -> Result<(), AllocError> {
    let Some(entry) = entry_at(closed, at) else {
        return Ok(());
    };
    add_call(text, at)?;
    match &entry.event {
        NodeEvent::Take { frame, .. } => {
            text.extend_from_slice(b"waits for a frame: ")?;
            add_frame(text, frame)?;
        }
        NodeEvent::Write {
            context: Some(context),
            ..
        } => {
            text.extend_from_slice(b"waits for a read: ")?;
            add_context(text, context)?;
        }
        _ => text.extend_from_slice(b"waits for nothing")?,
    }
    if let Some(giver) = giver_of(closed, &entry.event) {
        text.extend_from_slice(b", given by call ")?;
        print_number(text, (giver.place as u64).saturating_add(1))?;
        text.extend_from_slice(b" of node ")?;
        print_number(text, giver.node as u64)?;
    }
    text.push(b'\n')?;
    Ok(())
}

/// Returns the first entry that gives what the event needs.
fn giver_of(closed: &[Closed], event: &NodeEvent) -> Option<Place> {
    for node in 0..closed.len() {
        if let Some(place) = place_in(journal_of(closed, node), event) {
            return Some(Place { node, place });
        }
    }
    None
}

fn place_in(journal: &[Entry], event: &NodeEvent) -> Option<usize> {
    for (place, entry) in journal.iter().enumerate() {
        if gives(entry, event) {
            return Some(place);
        }
    }
    None
}

fn gives(entry: &Entry, event: &NodeEvent) -> bool {
    match (event, &entry.reply) {
        (NodeEvent::Take { frame, .. }, _) => {
            entry.outbox.as_slice().iter().any(|sent| sent == frame)
        }
        (
            NodeEvent::Write {
                context: Some(context),
                ..
            },
            Reply::Looked { context: other, .. },
        ) => other == context,
        _ => false,
    }
}

/// Adds the frame that bytes spell.
pub(crate) fn add_frame(text: &mut Vec<u8>, bytes: &ByteString) -> Result<(), AllocError> {
    match decode(*text.allocator(), bytes.as_slice()) {
        Ok(frame) => print_frame(text, &frame),
        Err(FrameFault::Memory) => Err(AllocError),
        Err(_) => text.extend_from_slice(b"bytes that are no frame"),
    }
}

/// Adds a context: what it has read, and by whose read.
fn add_context(text: &mut Vec<u8>, context: &Context) -> Result<(), AllocError> {
    let source = context.source();
    text.extend_from_slice(b"key ")?;
    print_key(text, context.key())?;
    text.extend_from_slice(b" ctx ")?;
    print_vector(text, context.vector())?;
    text.extend_from_slice(b" (node ")?;
    print_number(text, u64::from(source.actor.node().number()))?;
    text.extend_from_slice(b", life ")?;
    print_number(text, u64::from(source.actor.incarnation()))?;
    text.extend_from_slice(b", step ")?;
    print_number(text, source.step)?;
    text.extend_from_slice(b")")
}

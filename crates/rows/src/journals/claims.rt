//! Whether what `assemble` returned is so, checked by plain code of its own.

use meta_store::Context;
use meta_types::ByteString;
use node_core::NodeState;
use node_events::{NodeEvent, Reply};
use node_journal::{Closed, Entry, Receipt};
use run_record::{Place, RecordFault};
use std::alloc::{AllocError, Global};
use world_core::World;

fn node_of(closed: &[Closed], number: usize) -> Option<&Closed> {
    closed
        .iter()
        .find(|one| usize::from(one.node().number()) == number)
}

fn entry_of(closed: &[Closed], at: Place) -> Option<&Entry> {
    node_of(closed, at.node)?.journal().get(at.place)
}

fn has_sent(entry: &Entry, frame: &ByteString) -> bool {
    entry.outbox.as_slice().iter().any(|sent| sent == frame)
}

fn has_read(entry: &Entry, context: &Context) -> bool {
    match &entry.reply {
        Reply::Looked { context: other, .. } => other == context,
        _ => false,
    }
}

/// Returns whether the entry gives what the event needs; false if it needs nothing.
fn gives(entry: &Entry, event: &NodeEvent) -> bool {
    match event {
        NodeEvent::Take { frame, .. } => has_sent(entry, frame),
        NodeEvent::Write {
            context: Some(context),
            ..
        } => has_read(entry, context),
        _ => false,
    }
}

fn needs_something(event: &NodeEvent) -> bool {
    match event {
        NodeEvent::Take { .. } => true,
        NodeEvent::Write { context, .. } => context.is_some(),
        _ => false,
    }
}

/// Returns whether the entry at `at` needs something, and each entry that gives it stands at a
/// listed place of its node, or after one; with no place listed, whether none gives it.
fn waits(closed: &[Closed], at: Place, places: &[Place]) -> bool {
    let Some(entry) = entry_of(closed, at) else {
        return false;
    };
    needs_something(&entry.event)
        && closed.iter().all(|one| {
            let node = usize::from(one.node().number());
            let reached = places
                .iter()
                .find(|place| place.node == node)
                .map(|place| place.place);
            one.journal().iter().enumerate().all(|(place, other)| {
                !gives(other, &entry.event) || reached.is_some_and(|from| from <= place)
            })
        })
}

/// Returns whether the node makes the journal from here on.
fn makes(state: &mut NodeState, journal: &[Entry]) -> bool {
    for entry in journal {
        match state.step_on(&entry.event) {
            Ok(given) if given.reply == entry.reply && given.outbox == entry.outbox => {}
            _ => return false,
        }
    }
    true
}

/// Returns whether the node makes its journal again by itself, and then holds its table.
fn ran_as_told(alloc: Global, one: &Closed) -> Result<bool, AllocError> {
    let mut state = NodeState::new(alloc, one.node(), 1)?;
    let is_so = makes(&mut state, one.journal()) && state.store() == one.table();
    // Dropped on the one way out, so that the proof has one case for it.
    drop(state);
    Ok(is_so)
}

fn all_ran_as_told(alloc: Global, closed: &[Closed]) -> Result<bool, AllocError> {
    for one in closed {
        if !ran_as_told(alloc, one)? {
            return Ok(false);
        }
    }
    Ok(true)
}

fn is_kept(closed: &[Closed], receipt: &Receipt) -> bool {
    let at = Place {
        node: usize::from(receipt.node.number()),
        place: receipt.place as usize,
    };
    entry_of(closed, at).is_some_and(|entry| *entry == receipt.entry)
}

/// Returns whether the world holds as many entries as the journals, and each node its table.
fn holds_all(closed: &[Closed], world: &World) -> bool {
    let mut count = 0usize;
    for one in closed {
        count = count.saturating_add(one.journal().len());
        let state = world.state(u64::from(one.node().number()));
        if !state.is_some_and(|state| state.store() == one.table()) {
            return false;
        }
    }
    count == world.accepted().len()
}

/// Returns whether what `assemble` returned is so.
pub fn is_so(
    alloc: Global,
    closed: &[Closed],
    receipts: &[Receipt],
    answer: &Result<World, RecordFault>,
) -> Result<bool, AllocError> {
    match answer {
        Ok(world) => Ok(
            holds_all(closed, world)
                && all_ran_as_told(alloc, closed)?
                && receipts.iter().all(|receipt| is_kept(closed, receipt)),
        ),
        Err(RecordFault::Unsent(at)) => Ok(waits(closed, *at, &[])),
        Err(RecordFault::Stuck { places }) => Ok(
            !places.is_empty()
                && places
                    .iter()
                    .all(|at| waits(closed, *at, places.as_slice())),
        ),
        Err(RecordFault::Unequal { node }) => match node_of(closed, *node) {
            Some(one) => Ok(!ran_as_told(alloc, one)?),
            None => Ok(false),
        },
        Err(RecordFault::StrangeReceipt) => Ok(
            all_ran_as_told(alloc, closed)?
                && receipts.iter().any(|receipt| !is_kept(closed, receipt)),
        ),
        Err(RecordFault::Memory) => Err(AllocError),
    }
}

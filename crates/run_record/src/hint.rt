//! Where a giver has to be if the journals are those of nodes, by the numbers that frames and
//! contexts carry. What is found there is compared whole, so a hint may be wrong: that only costs
//! time.

ghost use Rattle.std.specs.Prelude.{IfSome};
ghost use Rattle.run_record.specs.Order.{IsPassedGiver};
ghost use Rattle.run_record.specs.Passing.{AreNextPlaces};

use crate::giving::{Giver, given};
use crate::journals::journal_of;
use meta_frame::read_header;
use meta_store::Source;
use meta_types::ByteString;
use node_events::NodeEvent;
use node_journal::{Closed, Entry};
use std::alloc::{AllocError, Global};

/// How many frames each node had sent before each of its entries, and with it.
#[derive(Drop)]
pub(crate) struct Hints {
    sent: Vec<Vec<u64>>,
}

/// Returns how many frames were sent up to each entry, itself included.
fn sent_by(alloc: Global, journal: &[Entry]) -> Result<Vec<u64>, AllocError> {
    let mut counts = Vec::with_capacity(alloc, journal.len())?;
    let mut count = 0u64;
    for entry in journal {
        count = count.saturating_add(entry.outbox.as_slice().len() as u64);
        counts.push(count)?;
    }
    Ok(counts)
}

impl Hints {
    pub(crate) fn new(alloc: Global, closed: &[Closed]) -> Result<Self, AllocError> {
        let mut sent = Vec::with_capacity(alloc, closed.len())?;
        for node in 0..closed.len() {
            let counts = sent_by(alloc, journal_of(closed, node))?;
            if sent.push(counts).is_err() {
                return Err(AllocError);
            }
        }
        Ok(Hints { sent })
    }

    /// Returns the entry that sent the frame: a node numbers its frames from 1.
    fn of_frame(&self, frame: &ByteString) -> Option<(usize, usize)> {
        let header = read_header(frame.as_slice()).ok()?;
        let node = usize::from(header.from.number());
        let place = self
            .sent
            .get(node)?
            .partition_point(|count| *count < header.number);
        Some((node, place))
    }

    /// Returns the entry that reads in this step: a node numbers the steps of its life from 1.
    fn of_read(source: Source) -> Option<(usize, usize)> {
        let place = usize::try_from(source.step.checked_sub(1)?).ok()?;
        Some((usize::from(source.actor.node().number()), place))
    }

    /// Returns where the entry that gives what the event needs has to be.
    fn place(&self, event: &NodeEvent) -> Option<(usize, usize)> {
        match event {
            NodeEvent::Take { frame, .. } => self.of_frame(frame),
            NodeEvent::Write {
                context: Some(context),
                ..
            } => Hints::of_read(context.source()),
            _ => None,
        }
    }

    /// Returns the entry where the giver has to be, if it was gone through and gives what the event
    /// needs.
    pub(crate) fn giver(
        &self,
        closed: &[Closed],
        next: &[usize],
        event: &NodeEvent,
    ) -> Option<Giver>
        requires { AreNextPlaces closed.now next.now }
        ensures { IfSome result (IsPassedGiver closed.now next.now event.now) }
    {
        let (node, place) = self.place(event)?;
        if node >= next.len() || place >= next[node] {
            return None;
        }
        let at = given(&journal_of(closed, node)[place], event)?;
        Some(Giver { node, place, at })
    }
}

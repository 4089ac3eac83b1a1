//! Which entry gives what another needs. Whole values are compared: a frame that has the header of
//! another is not the other.

ghost use Rattle.std.specs.Prelude.{◌≡◌, ◌↔◌, ℕ, slice_get, Some, IfSome, IsNone, IsTrue};
ghost use Rattle.run_record.specs.Giving.{Supplies, SuppliesAt, IsHandedOut, Needs};
ghost use Rattle.run_record.specs.Order.{IsPassedGiver};
ghost use Rattle.run_record.specs.Passing.{AreNextPlaces, NonePassed};
ghost use Rattle.node_journal.specs.declared.entry.Entry.{Entry as AnEntry};

use crate::journals::journal_of;
use meta_store::Context;
use meta_types::ByteString;
use node_events::{NodeEvent, Reply};
use node_journal::{Closed, Entry};

/// An entry that gives something: its node, its place, and of a frame its place among those that
/// the entry sent.
#[derive(Clone, Copy, Debug, PartialEq, Eq)]
pub struct Giver {
    pub node: usize,
    pub place: usize,
    pub at: usize,
}

/// Returns whether the event takes bytes, or has read something.
pub fn needs(event: &NodeEvent) -> bool
    ensures { IsTrue result ↔ Needs event.now }
{
    match event {
        NodeEvent::Take { .. } => true,
        NodeEvent::Write { context, .. } => context.is_some(),
        _ => false,
    }
}

/// Returns whether the reply hands the context out.
fn hands_out(reply: &Reply, context: &Context) -> bool
    ensures { IsTrue result ↔ IsHandedOut context.now reply.now }
{
    match reply {
        Reply::Looked { context: other, .. } => other == context,
        _ => false,
    }
}

/// Returns the first place of the frame.
fn place_of(frames: &[ByteString], frame: &ByteString) -> Option<usize>
    ensures some { IfSome result (λ k. slice_get frames.now k ≡ Some frame.now) }
    ensures none { IsNone result → (k : ℕ) → slice_get frames.now k ≡ Some frame.now → ⊥ }
{
    for (place, other) in frames.iter().enumerate() {
        if other == frame {
            return Some(place);
        }
    }
    None
}

/// Returns where the entry gives what the event needs, if it does.
pub(crate) fn given(entry: &Entry, event: &NodeEvent) -> Option<usize>
    ensures some { IfSome result (λ k. SuppliesAt k entry.now event.now) }
    ensures none { IsNone result → Supplies entry.now event.now → ⊥ }
{
    match event {
        NodeEvent::Take { frame, .. } => place_of(entry.outbox.as_slice(), frame),
        NodeEvent::Write {
            context: Some(context),
            ..
        } => {
            if hands_out(&entry.reply, context) {
                Some(0)
            } else {
                None
            }
        }
        _ => None,
    }
}

/// Returns the first entry that gives what the event needs.
fn giver_in(journal: &[Entry], event: &NodeEvent) -> Option<(usize, usize)>
    ensures some { IfSome result (λ found. (e : AnEntry)
        × ((slice_get journal.now found.0 ≡ Some e) × SuppliesAt found.1 e event.now)) }
    ensures none { IsNone result → (q : ℕ) (e : AnEntry) → slice_get journal.now q ≡ Some e
        → Supplies e event.now → ⊥ }
{
    for (place, entry) in journal.iter().enumerate() {
        if let Some(at) = given(entry, event) {
            return Some((place, at));
        }
    }
    None
}

/// Returns an entry that was gone through and gives what the event needs. It looks at each that was
/// gone through, one after the other.
pub(crate) fn passed_giver(closed: &[Closed], next: &[usize], event: &NodeEvent) -> Option<Giver>
    requires { AreNextPlaces closed.now next.now }
    ensures some { IfSome result (IsPassedGiver closed.now next.now event.now) }
    ensures none { IsNone result → NonePassed closed.now next.now event.now }
{
    for node in 0..next.len() {
        let passed = &journal_of(closed, node)[..next[node]];
        if let Some((place, at)) = giver_in(passed, event) {
            return Some(Giver { node, place, at });
        }
    }
    None
}

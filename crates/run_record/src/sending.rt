//! Whether all that is needed was given by some entry.

ghost use Rattle.std.specs.Prelude.{◌≡◌, ◌↔◌, ℕ, slice_get, Some, IfOk, IfSome, IsNone, IsTrue, OnOk, IfErr};
ghost use Rattle.node_journal.specs.declared.entry.Entry.{Entry as AnEntry};
ghost use Rattle.run_record.specs.Journals.{HaveNodes};
ghost use Rattle.run_record.specs.Passing.{AreEnds};
ghost use Rattle.run_record.specs.Refusal.{IsUngiven, NoneIsUnsent, RefusesSending};

use crate::giving::{needs, passed_giver};
use crate::hint::Hints;
use crate::journals::journal_of;
use crate::order_fault::{OrderFault, Place};
use node_events::NodeEvent;
use node_journal::{Closed, Entry};
use std::alloc::{AllocError, Global};

/// Returns the places after the last entries.
fn last_places(alloc: Global, closed: &[Closed]) -> Result<Vec<usize>, AllocError>
    requires { HaveNodes closed.now }
    ensures { IfOk result (λ ends. AreEnds closed.now ends.items) }
{
    let mut ends = Vec::new(alloc);
    for node in 0..closed.len() {
        ends.push(journal_of(closed, node).len())?;
    }
    Ok(ends)
}

/// Returns whether the event needs something that no entry gives.
fn is_ungiven(closed: &[Closed], hints: &Hints, ends: &[usize], event: &NodeEvent) -> bool
    requires { AreEnds closed.now ends.now }
    ensures { IsTrue result ↔ IsUngiven closed.now event.now }
{
    if !needs(event) {
        return false;
    }
    match hints.giver(closed, ends, event) {
        Some(_) => false,
        None => passed_giver(closed, ends, event).is_none(),
    }
}

/// Returns the first place of an entry that needs what no entry gives.
fn unsent_in(closed: &[Closed], hints: &Hints, ends: &[usize], journal: &[Entry]) -> Option<usize>
    requires { AreEnds closed.now ends.now }
    ensures some { IfSome result (λ p. (e : AnEntry)
        × ((slice_get journal.now p ≡ Some e) × IsUngiven closed.now e.event)) }
    ensures none { IsNone result → (p : ℕ) (e : AnEntry) → slice_get journal.now p ≡ Some e
        → IsUngiven closed.now e.event → ⊥ }
{
    for (place, entry) in journal.iter().enumerate() {
        if is_ungiven(closed, hints, ends, &entry.event) {
            return Some(place);
        }
    }
    None
}

/// Checks that all that entries need is given by some entry, before or after them. The hints are
/// those of these journals.
///
/// Refused with 60 `Unsent`, for one such entry, and with 99 `Memory`.
pub(crate) fn find_all_sent(
    alloc: Global,
    closed: &[Closed],
    hints: &Hints,
) -> Result<(), OrderFault>
    requires { HaveNodes closed.now }
    ensures ok { OnOk result (NoneIsUnsent closed.now) }
    ensures err { IfErr result (RefusesSending closed.now) }
{
    let ends = last_places(alloc, closed)?;
    for node in 0..closed.len() {
        let journal = journal_of(closed, node);
        if let Some(place) = unsent_in(closed, hints, ends.as_slice(), journal) {
            return Err(OrderFault::Unsent(Place { node, place }));
        }
    }
    Ok(())
}

//! What driven nodes hand in: closed, with changes, and receipts.

ghost use Rattle.std.specs.Prelude.{◌<◌, length};

use crate::fault::RowFault;
use crate::journals::change::{copy_of, edited, with_down, without_first};
use crate::journals::driver::Nodes;
use crate::journals::trial::{Change, Changed, Order, Receipted};
use meta_store::Store;
use meta_types::both;
use node_core::NodeState;
use node_journal::{Closed, Entry, Receipt};
use std::alloc::{AllocError, Global};
use std::mem::replace;

impl Nodes {
    /// Returns the nodes, closed, with these changes. Idle is a change that changes nothing.
    pub fn closed(&self, changes: &[Change]) -> Result<Vec<Closed>, RowFault> {
        let mut closed = Vec::new(self.alloc);
        let done = self.close_all(changes, &mut closed);
        let (closed, ()) = both(Ok(closed), done)?;
        Ok(closed)
    }

    fn close_all(&self, changes: &[Change], closed: &mut Vec<Closed>) -> Result<(), RowFault> {
        let count = self.states.len();
        if changes.iter().any(|change| change.node >= count) {
            return Err(RowFault::Idle);
        }
        for number in 0..count {
            let change = changes
                .iter()
                .find(|change| change.node == number)
                .map(|change| change.part);
            closed.push(self.close(number, &change)?)?;
        }
        Ok(())
    }

    /// Returns the node, closed, with this change.
    fn close(&self, number: usize, change: &Option<Changed>) -> Result<Closed, RowFault>
        requires { number < length self.now.states.items }
    {
        let state = &self.states[number];
        let left = both(
            self.journal_of(number, change),
            table_of(state.store(), change),
        )?;
        let base = NodeState::new(self.alloc, state.node(), 1);
        let (base, (journal, table)) = both(base, Ok(left))?;
        Ok(Closed::from_parts(base, journal, table))
    }

    /// Returns a copy of the journal of the node at this place, with this change.
    fn journal_of(&self, at: usize, change: &Option<Changed>) -> Result<Vec<Entry>, RowFault> {
        let Some(journal) = self.journals.get(at) else {
            return Err(RowFault::Idle);
        };
        let journal = journal.as_slice();
        match change {
            Some(Changed::Entry { place, edit }) => edited(self.alloc, journal, *place, *edit),
            Some(Changed::Down { place, peer }) => with_down(self.alloc, journal, *place, *peer),
            Some(Changed::Table) | None => Ok(copy_of(self.alloc, journal)?),
        }
    }

    /// Makes a receipt. Idle is one of a node or an entry that isn't there.
    pub fn receipt(&self, asked: Receipted) -> Result<Receipt, RowFault> {
        let (Some(state), Some(journal)) = (
            self.states.get(asked.node),
            self.journals.get(asked.of),
        ) else {
            return Err(RowFault::Idle);
        };
        let Some(entry) = journal.get(asked.at) else {
            return Err(RowFault::Idle);
        };
        let receipt = Receipt {
            node: state.node(),
            place: asked.place as u64,
            entry: entry.copy()?,
        };
        // A copy, as a caller who keeps a receipt makes one.
        let copy = receipt.copy();
        drop(receipt);
        Ok(copy?)
    }
}

/// Returns a copy of a table, without its first object if the change asks for that.
fn table_of(store: &Store, change: &Option<Changed>) -> Result<Store, RowFault> {
    match change {
        Some(Changed::Table) => without_first(store),
        Some(Changed::Entry { .. } | Changed::Down { .. }) | None => Ok(store.copy()?),
    }
}

/// Puts the nodes in this order, and keeps as many as it asks for. Idle is to keep them all.
pub fn arrange(alloc: Global, closed: &mut Vec<Closed>, order: Order) -> Result<(), RowFault> {
    match order {
        Order::AsTold => Ok(()),
        Order::Backwards => Ok(turn(alloc, closed)?),
        Order::First(count) => {
            if count >= closed.len() {
                return Err(RowFault::Idle);
            }
            closed.truncate(count);
            Ok(())
        }
    }
}

/// Reverses the order of the nodes.
fn turn(alloc: Global, closed: &mut Vec<Closed>) -> Result<(), AllocError> {
    let turned = backwards(alloc, closed)?;
    drop(replace(closed, turned));
    Ok(())
}

/// Returns the items of a list in the opposite order, and leaves the list empty. Its type parameter
/// hides what is dropped if memory runs out.
fn backwards<T: Drop>(alloc: Global, items: &mut Vec<T>) -> Result<Vec<T>, AllocError> {
    let mut turned = Vec::new(alloc);
    for _place in 0..items.len() {
        if let Some(one) = items.pop() {
            turned.push(one)?;
        }
    }
    Ok(turned)
}

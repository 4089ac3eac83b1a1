//! A batch: several writes at once, of which all are made or none.

ghost use Rattle.std.specs.Prelude.{◌≡◌, ◌+◌, ◌<◌, Err, MatchResult, OnOk, OnErr, IfOk, IfErr, length, take, true, false};
ghost use Rattle.devices.specs.Device.{LeavesOnly};
ghost use Rattle.node_file.specs.Batch.{most_batch};
ghost use Rattle.node_core.specs.Savepoint.{CanRollBack, as_saved};
ghost use Rattle.node_readers.specs.Published.{with_all};
ghost use Rattle.node_call.specs.Batch.{HasRoomFor};
ghost use Rattle.node_call.specs.Stored.{IsStillWhole};
ghost use Rattle.node_call.specs.declared.batch.BatchRefusal.TheVariants as refusals;
ghost use Rattle.node_call.specs.declared.fault.LockFault.TheVariants.{Stopped};
ghost use Rattle.node_desk.specs.Batching.{IsBatchMade, LeavesOfBatch, RefusesBatch};
ghost use Rattle.node_desk.specs.Desk.{BeganWith, KeepsAll, KeepsSeats};

use crate::desk::Desk;
use devices::Device;
use node_call::{Batch, BatchRefusal, LockFault, Write, WriteSeat, make_all};
use node_core::{NodeState, Savepoint};
use node_file::MAX_BATCH;
use node_journal::{Entry, Receipt};
use node_readers::{Naming, Revision};
use std::sync::Wait;

/// What an accepted batch hands to its caller: the receipts of its writes, in order, and how far
/// the history goes then, for a reader to learn.
#[derive(Drop)]
pub struct Receipts<J: Naming> {
    pub receipts: Vec<Receipt>,
    pub revision: Revision<J>,
}

impl<D: Device + Drop, J: Naming, H: Wait + Drop> Desk<D, J, H> {
    /// Makes all these writes, one after another, or none: their entries are journaled, what they
    /// store comes into the file by one append, which a crash leaves whole or not at all, and
    /// readers are shown all that they changed at once. It adds one for each to the seat's count.
    ///
    /// Refused with 34 `Stopped`; if there are more than [`MAX_BATCH`]; as the first write that is:
    /// as `NodeState::step` refuses it, then with 51 `JournalFull`; as the first whose object the
    /// file has no room for, with 33 `FileFull`; with 30 `Device`, which stops the node. 99
    /// `Memory` may come at any time, and stops the node if a byte went out to the device, or if
    /// readers couldn't be shown the changes. A refused batch leaves all as before, except that if
    /// it stops the node, the file may have all its objects. A batch without writes changes
    /// nothing.
    pub fn act_all<R: Wait>(
        &mut self,
        rt: &R,
        seat: &mut WriteSeat<J>,
        writes: Vec<Write>,
    ) -> Result<Receipts<J>, BatchRefusal>
        ensures made { IfOk result (λ r. IsBatchMade D.content D.may_leave self.old
            writes.items r.receipts.items self.new) }
        ensures room { OnOk result
            (HasRoomFor self.old.limit (length self.old.journal) self.old.state writes.items) }
        ensures revision { IfOk result (λ r. r.revision ≡ self.new.list) }
        ensures makes { OnOk result (with_all J.opening self.new.list ≡ self.new.state.table) }
        ensures rest { KeepsSeats self.old self.new }
        ensures began { BeganWith J.node J.incarnation J.opening self.old.state }
        ensures counted { MatchResult result
            (λ r. seat.new ≡ seat.old + length r.receipts.items) (λ _. seat.new ≡ seat.old) }
        ensures going { OnOk result (self.new.stopped ≡ false) }
        ensures stopped { self.old.stopped ≡ true → result ≡ Err (refusals.Node Stopped) }
        ensures many { self.old.stopped ≡ false → most_batch < length writes.items
            → result ≡ Err refusals.TooMany }
        ensures refused { IfErr result (λ refusal.
            RefusesBatch D.failed self.old writes.items refusal self.new) }
        ensures same { OnErr result (KeepsAll self.old self.new) }
        ensures whole { OnErr result (self.new.stopped ≡ false
            → IsStillWhole D.content D.may_leave self.old.file self.new.file) }
        ensures any_moment { self.old.stopped ≡ false → LeavesOnly D.moment D.left_since
            self.old.file.device self.new.file.device
            (LeavesOfBatch self.old.state writes.items (D.content self.old.file.device)) }
    {
        if self.outlets.is_stopped {
            return Err(BatchRefusal::Node(LockFault::Stopped));
        }
        // (for their types)
        let _ = self.outlets.file.device();
        let _ = self.state.store().len();
        if writes.len() > MAX_BATCH {
            return Err(BatchRefusal::TooMany);
        }
        let kept = self.journal.len();
        let mut savepoint = self.state.savepoint()?;
        let mut batch = Batch::new(self.alloc);
        let made = make_all(
            &mut self.state,
            &mut savepoint,
            &mut self.journal,
            self.limit,
            writes,
            &mut batch,
        );
        if let Err(refusal) = made {
            drop(batch);
            undo(&mut self.state, savepoint, &mut self.journal, kept);
            return Err(refusal);
        }
        let store = self.state.store();
        let done = self
            .outlets
            .store_and_show_all(rt, self.alloc, store, &mut batch);
        if let Err(refusal) = done {
            drop(batch);
            undo(&mut self.state, savepoint, &mut self.journal, kept);
            return Err(refusal);
        }
        drop(savepoint);
        seat.count_all(batch.receipts.len(), &mut self.counts);
        Ok(Receipts {
            receipts: batch.receipts,
            revision: self.outlets.publisher.revision().again(),
        })
    }
}

/// Takes all steps since the savepoint back, and leaves as many entries in the journal.
fn undo(state: &mut NodeState, savepoint: Savepoint, journal: &mut Vec<Entry>, kept: usize)
    requires { CanRollBack savepoint state.old }
    ensures state { state.new ≡ as_saved savepoint state.old }
    ensures journal { journal.new.items ≡ take kept journal.old.items }
{
    journal.truncate(kept);
    state.roll_back(savepoint);
}

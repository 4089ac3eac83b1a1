//! A call that makes a step.

ghost use Rattle.std.specs.Prelude.{◌≡◌, ◌+◌, ◌++◌, ◌∷◌, [], true, false, Err, IfOk, IfErr, OnOk, OnErr, MatchResult};
ghost use Rattle.devices.specs.Device.{LeavesOnly};
ghost use Rattle.node_core.specs.Step.{IsNodeStep};
ghost use Rattle.node_journal.specs.Entry.{stepped_of};
ghost use Rattle.node_readers.specs.Published.{with_all};
ghost use Rattle.node_desk.specs.Acting.{IsFull, ListsChange, Refuses};
ghost use Rattle.node_desk.specs.Desk.{BeganWith, IsReceiptOf, KeepsAll, KeepsSeats};
ghost use Rattle.node_call.specs.Stored.{HasRecordRoom, HasStored, IsStillWhole, LeavesOfEvent, record_after};
ghost use Rattle.node_call.specs.declared.fault.LockFault.TheVariants.{Memory, Stopped};

use crate::desk::Desk;
use devices::Device;
use node_call::{Acknowledgement, LockFault, WriteSeat, prepare};
use node_core::Stepped;
use node_events::NodeEvent;
use node_journal::{Entry, Receipt};
use node_readers::Naming;
use std::sync::Wait;

impl<D: Device + Drop, J: Naming, H: Wait + Drop> Desk<D, J, H> {
    /// Makes a step of the node for the event: its entry is journaled, what it stores is durable in
    /// the file, and what it changes is shown to readers. It adds one to the seat's count.
    ///
    /// Refused in this order: 34 `Stopped`; as `NodeState::step` is; 51 `JournalFull`; 33
    /// `FileFull`; 30 `Device`, which stops the node. 99 `Memory` may come at any time, and stops
    /// the node if a byte went out to the device, or if readers couldn't be shown the change. A
    /// refused call leaves all as before, except that if it stops the node, a crash may leave its
    /// object in the file.
    ///
    /// It waits for readers that are inside a `peek` while it publishes, and for the device.
    pub fn act<R: Wait>(
        &mut self,
        rt: &R,
        seat: &mut WriteSeat<J>,
        event: NodeEvent,
    ) -> Result<Acknowledgement<J>, LockFault>
        ensures step { IfOk result (λ a.
            IsNodeStep self.old.state event self.new.state (stepped_of a.receipt.entry)) }
        ensures receipt { IfOk result (λ a. IsReceiptOf self.old.state event a.receipt) }
        ensures journal { IfOk result (λ a.
            self.new.journal ≡ self.old.journal ++ a.receipt.entry ∷ []) }
        ensures list { IfOk result (λ a. ListsChange event a.receipt.entry.reply
            self.new.state.table self.old.list self.new.list) }
        ensures revision { IfOk result (λ a. a.list ≡ self.new.list) }
        ensures makes { IfOk result (λ a.
            with_all J.opening a.list ≡ self.new.state.table) }
        ensures rest { KeepsSeats self.old self.new }
        ensures began { BeganWith J.node J.incarnation J.opening self.old.state }
        ensures counted { MatchResult result (λ _. seat.new ≡ seat.old + 1)
            (λ _. seat.new ≡ seat.old) }
        ensures stored { OnOk result (HasStored D.content D.may_leave
            (record_after event self.new.state.table) self.old.file self.new.file) }
        ensures file_room { OnOk result (HasRecordRoom self.old.file.gate
            (record_after event self.new.state.table)) }
        ensures going { OnOk result
            ((IsFull self.old → ⊥) × (self.new.stopped ≡ false)) }
        ensures stopped { self.old.stopped ≡ true → result ≡ Err Stopped }
        ensures refused { IfErr result (λ fault.
            Refuses D.failed self.old event fault self.new) }
        ensures same { OnErr result (KeepsAll self.old self.new) }
        ensures whole { OnErr result (self.new.stopped ≡ false
            → IsStillWhole D.content D.may_leave self.old.file self.new.file) }
        ensures any_moment { self.old.stopped ≡ false → LeavesOnly D.moment D.left_since
            self.old.file.device self.new.file.device
            (LeavesOfEvent self.old.state event (D.content self.old.file.device)) }
    {
        if self.outlets.is_stopped {
            return Err(LockFault::Stopped);
        }
        // (for its type)
        let _ = self.outlets.file.device();
        let (node, place) = (self.state.node(), self.state.steps());
        let (attempt, ready) = prepare(&mut self.state, &mut self.journal, self.limit, event)?;
        let mut ready = ready;
        let done = self
            .outlets
            .store_and_show(rt, self.alloc, self.state.store(), &mut ready);
        if let Err(fault) = done {
            drop(ready);
            self.state.take_back(attempt);
            return Err(fault);
        }
        let (event, entry) = ready.into_parts();
        let Stepped { reply, outbox } = self.state.commit(attempt);
        self.journal.push_reserved(Entry {
            event,
            reply,
            outbox,
        });
        seat.count(&mut self.counts);
        let receipt = Receipt { node, place, entry };
        Ok(Acknowledgement::of(receipt, self.outlets.publisher.revision().again()))
    }
}

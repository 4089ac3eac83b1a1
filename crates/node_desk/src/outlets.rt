//! What a step leaves outside of the node's state.

ghost use Rattle.std.specs.Prelude.{◌≡◌, ◌++◌, true, false, IfErr, IfSome, OnOk, OnErr};
ghost use Rattle.devices.specs.Device.{LeavesOnly};
ghost use Rattle.node_file.specs.File.{file_state};
ghost use Rattle.node_file.specs.Stored.{LeavesRecord};
ghost use Rattle.node_readers.specs.Published.{with_all};
ghost use Rattle.node_readers.specs.Growth.{GrowsBy};
ghost use Rattle.node_call.specs.Fault.{of_append};
ghost use Rattle.node_call.specs.Ready.{listed};
ghost use Rattle.node_call.specs.Stored.{HasRecordRoom, HasStored, IsOfSameLife, IsStillWhole, IsStoredOf, record_after};
ghost use Rattle.node_desk.specs.Acting.{RefusesKeeping};

use devices::Device;
use meta_store::Store;
use node_call::{LockFault, Ready, publish_change, store_in};
use node_file::{FileFault, NodeFile};
use node_readers::{Naming, Publisher, Tail};
use std::alloc::Global;
use std::sync::Wait;

/// Where a step is kept and shown: the node's file, and what readers are shown.
#[derive(Drop)]
pub(crate) struct Outlets<D: Device + Drop, J: Naming, H: Wait + Drop> {
    pub(crate) file: NodeFile<D>,
    pub(crate) publisher: Publisher<J, H>,
    pub(crate) tail: Tail<J>,
    /// One of them failed, which stops the node.
    pub(crate) is_stopped: bool,
}

impl<D: Device + Drop, J: Naming, H: Wait + Drop> Outlets<D, J, H> {
    /// Does what may still fail: stores in the file what the event stores, and shows readers what
    /// it changed.
    #[tactic(auto, using(crate::proofs::Kept::keeping_refused))]
    pub(crate) fn store_and_show<R: Wait>(
        &mut self,
        rt: &R,
        alloc: Global,
        store: &Store,
        ready: &mut Ready,
    ) -> Result<(), LockFault>
        requires file { (self.old.file.is_stopped ≡ false) × (self.old.file.is_served ≡ true) }
        requires going { self.old.is_stopped ≡ false }
        requires within { IsStoredOf store.now
            (file_state (D.content self.old.file.device)).contents.table }
        requires grows { IfSome ready.old.change
            (GrowsBy (with_all J.opening self.old.publisher.list)) }
        ensures stored { OnOk result (HasStored D.content D.may_leave
            (record_after ready.old.entry.event store.now) self.old.file self.new.file) }
        ensures file_room { OnOk result (HasRecordRoom self.old.file.gate
            (record_after ready.old.entry.event store.now)) }
        ensures list { OnOk result
            (self.new.publisher.list ≡ self.old.publisher.list ++ listed ready.old.change) }
        ensures going { OnOk result ((self.new.file.is_stopped ≡ false)
            × (self.old.publisher.stopped ≡ false → self.new.publisher.stopped ≡ false)
            × (self.new.is_stopped ≡ false)) }
        ensures entries { (ready.new.event ≡ ready.old.event)
            × (ready.new.entry ≡ ready.old.entry) }
        ensures same { OnErr result (self.new.publisher.list ≡ self.old.publisher.list) }
        ensures refused { IfErr result (RefusesKeeping self.old.file.gate
            (record_after ready.old.entry.event store.now) ready.old.change
            (D.failed self.old.file.device) (D.failed self.new.file.device)
            self.new.is_stopped) }
        ensures still { OnErr result (self.new.is_stopped ≡ false
            → (self.new.file.is_stopped ≡ false)
            × (self.new.publisher.stopped ≡ self.old.publisher.stopped)) }
        ensures whole { OnErr result (self.new.is_stopped ≡ false
            → IsStillWhole D.content D.may_leave self.old.file self.new.file) }
        ensures any_moment { LeavesOnly D.moment D.left_since
            self.old.file.device self.new.file.device
            (LeavesRecord (D.content self.old.file.device)
            (record_after ready.old.entry.event store.now)) }
        ensures whose { IsOfSameLife self.old.file self.new.file }
    {
        let stored = store_in(alloc, &mut self.file, ready.event(), store);
        if let Err(fault) = stored {
            self.is_stopped = self.file.is_stopped();
            return Err(of_append(fault));
        }
        let shown = publish_change(rt, &mut self.publisher, &self.tail, ready.take_change());
        if let Err(_refused) = shown {
            self.is_stopped = true;
            return Err(LockFault::Memory);
        }
        Ok(())
    }
}

/// Returns the refusal of an append, as a refusal of a call.
pub(crate) fn of_append(fault: FileFault) -> LockFault
    ensures { result ≡ of_append fault }
{
    match fault {
        FileFault::FileFull => LockFault::FileFull,
        FileFault::Device => LockFault::Device,
        _ => LockFault::Memory,
    }
}

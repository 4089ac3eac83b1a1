//! What a batch leaves outside of the node's state.

ghost use Rattle.std.specs.Prelude.{◌≡◌, ◌≢◌, ◌≤◌, ◌++◌, All, None, true, false, length, map, IfErr, OnOk, OnErr};
ghost use Rattle.std.specs.FinMap.{find};
ghost use Rattle.meta_types.specs.Order.{key_cmp};
ghost use Rattle.devices.specs.Device.{LeavesOnly};
ghost use Rattle.node_file.specs.Batch.{NoneOrAll, most_batch};
ghost use Rattle.node_file.specs.Clean.{row_record};
ghost use Rattle.node_file.specs.File.{file_state};
ghost use Rattle.node_readers.specs.Published.{with_all};
ghost use Rattle.node_readers.specs.Growth.{GrowsByAll};
ghost use Rattle.node_call.specs.Fault.{of_batch};
ghost use Rattle.node_call.specs.Stored.{HasFileRoomFor, HasStoredAll, IsOfSameLife, IsStillWhole, IsStoredOf, stored_rows};
ghost use Rattle.node_desk.specs.Batching.{RefusesKeepingAll};

use crate::outlets::{Outlets, of_append};
use devices::Device;
use meta_store::Store;
use node_call::{Batch, BatchRefusal, LockFault, store_all};
use node_file::BatchFault;
use node_readers::Naming;
use std::alloc::Global;
use std::sync::Wait;

impl<D: Device + Drop, J: Naming, H: Wait + Drop> Outlets<D, J, H> {
    /// Does what may still fail of a batch: puts what the writes store into the file, and shows
    /// readers what they changed, unless they changed nothing.
    pub(crate) fn store_and_show_all<R: Wait>(
        &mut self,
        rt: &R,
        alloc: Global,
        store: &Store,
        batch: &mut Batch,
    ) -> Result<(), BatchRefusal>
        requires file { (self.old.file.is_stopped ≡ false) × (self.old.file.is_served ≡ true) }
        requires going { (self.old.is_stopped ≡ false)
            × (self.old.publisher.stopped ≡ false) }
        requires few { length batch.old.changes.items ≤ most_batch }
        requires within { IsStoredOf store.now
            (file_state (D.content self.old.file.device)).contents.table }
        requires held { All (λ c. find key_cmp c.key store.now ≢ None) batch.old.changes.items }
        requires grows { GrowsByAll (with_all J.opening self.old.publisher.list)
            batch.old.changes.items }
        ensures stored { OnOk result (HasStoredAll D.content D.may_leave batch.old.changes.items
            self.old.file self.new.file) }
        ensures file_room { OnOk result
            (HasFileRoomFor self.old.file.gate batch.old.changes.items) }
        ensures list { OnOk result
            (self.new.publisher.list ≡ self.old.publisher.list ++ batch.old.changes.items) }
        ensures going { OnOk result ((self.new.file.is_stopped ≡ false)
            × (self.new.publisher.stopped ≡ false) × (self.new.is_stopped ≡ false)) }
        ensures receipts { batch.new.receipts ≡ batch.old.receipts }
        ensures same { OnErr result (self.new.publisher.list ≡ self.old.publisher.list) }
        ensures refused { IfErr result (RefusesKeepingAll self.old.file.gate
            batch.old.changes.items (D.failed self.old.file.device)
            (D.failed self.new.file.device) self.new.is_stopped) }
        ensures still { OnErr result (self.new.is_stopped ≡ false
            → (self.new.file.is_stopped ≡ false)
            × (self.new.publisher.stopped ≡ self.old.publisher.stopped)) }
        ensures whole { OnErr result (self.new.is_stopped ≡ false
            → IsStillWhole D.content D.may_leave self.old.file self.new.file) }
        ensures any_moment { LeavesOnly D.moment D.left_since
            self.old.file.device self.new.file.device
            (NoneOrAll (D.content self.old.file.device)
            (map row_record (stored_rows batch.old.changes.items))) }
        ensures whose { IsOfSameLife self.old.file self.new.file }
    {
        if batch.changes.is_empty() {
            // (for its type)
            let _ = self.file.device();
            return Ok(());
        }
        let stored = store_all(alloc, &mut self.file, batch.changes.as_slice(), store);
        if let Err(fault) = stored {
            self.is_stopped = self.file.is_stopped();
            return Err(of_batch(fault));
        }
        let changes = batch.take_changes(alloc);
        let shown = self.publisher.publish_all(rt, &self.tail, changes);
        if let Err(_refused) = shown {
            self.is_stopped = true;
            return Err(BatchRefusal::Node(LockFault::Memory));
        }
        Ok(())
    }
}

/// Returns the refusal of an append of many, as a refusal of a batch.
fn of_batch(fault: BatchFault) -> BatchRefusal
    ensures { result ≡ of_batch fault }
{
    match fault {
        BatchFault::TooMany => BatchRefusal::TooMany,
        BatchFault::Object { place, fault } => BatchRefusal::Write {
            place,
            fault: of_append(fault),
        },
        BatchFault::File(fault) => BatchRefusal::Node(of_append(fault)),
    }
}

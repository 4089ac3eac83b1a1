//! What an event stores is put into the file, before the event is kept.

ghost use Rattle.std.specs.Prelude.{◌≡◌, ◌≢◌, ◌⊎◌, true, false, None, OnOk, OnErr, IfErr, IfSome};
ghost use Rattle.std.specs.FinMap.{find};
ghost use Rattle.meta_types.specs.Order.{key_cmp};
ghost use Rattle.devices.specs.Device.{HasFailed, LeavesOnly};
ghost use Rattle.node_events.specs.Event.{stored_key};
ghost use Rattle.node_file.specs.File.{file_state};
ghost use Rattle.node_file.specs.View.{IsSettled};
ghost use Rattle.node_file.specs.Stored.{LeavesRecord, record_under};
ghost use Rattle.node_call.specs.Stored.{HasRecordRoom, HasStored, IsOfSameLife, IsStillWhole, IsStoredOf, RefusesStoring, record_after};

use devices::Device;
use meta_store::Store;
use meta_types::MetaKey;
use node_events::NodeEvent;
use node_file::{FileFault, NodeFile};
use std::alloc::Global;

/// Puts what the event stores into the file, out of what the store then holds. Refused with 33
/// `FileFull`; with 30 `Device`, which stops the file; or with 99 `Memory`, which stops it or
/// leaves what it held.
pub fn store_in<D: Device>(
    alloc: Global,
    file: &mut NodeFile<D>,
    event: &NodeEvent,
    store: &Store,
) -> Result<(), FileFault>
    requires going { file.old.is_stopped ≡ false }
    requires served { file.old.is_served ≡ true }
    requires within { IsStoredOf store.now
        (file_state (D.content file.old.device)).contents.table }
    ensures stored { OnOk result (HasStored D.content D.may_leave
        (record_after event.now store.now) file.old file.new) }
    ensures going { OnOk result (file.new.is_stopped ≡ false) }
    ensures file_room { OnOk result
        (HasRecordRoom file.old.gate (record_after event.now store.now)) }
    ensures refused { IfErr result (RefusesStoring file.old.gate (record_after event.now store.now)
        (D.failed file.old.device) (D.failed file.new.device) file.new) }
    ensures whole { OnErr result (IsStillWhole D.content D.may_leave file.old file.new) }
    ensures any_moment { LeavesOnly D.moment D.left_since file.old.device file.new.device
        (LeavesRecord (D.content file.old.device) (record_after event.now store.now)) }
    ensures whose { IsOfSameLife file.old file.new }
{
    match event.stored_key() {
        Some(key) => store_under(alloc, file, key, store),
        None => {
            // (for its type)
            let _ = file.device();
            Ok(())
        }
    }
}

/// Puts what is held under the key into the file, if something is held there.
fn store_under<D: Device>(
    alloc: Global,
    file: &mut NodeFile<D>,
    key: &MetaKey,
    store: &Store,
) -> Result<(), FileFault>
    requires going { file.old.is_stopped ≡ false }
    requires served { file.old.is_served ≡ true }
    requires within { IsStoredOf store.now
        (file_state (D.content file.old.device)).contents.table }
    ensures stored { OnOk result (HasStored D.content D.may_leave
        (record_under (Some key.now) store.now) file.old file.new) }
    ensures going { OnOk result (file.new.is_stopped ≡ false) }
    ensures file_room { OnOk result
        (HasRecordRoom file.old.gate (record_under (Some key.now) store.now)) }
    ensures refused { IfErr result (RefusesStoring file.old.gate
        (record_under (Some key.now) store.now) (D.failed file.old.device)
        (D.failed file.new.device) file.new) }
    ensures whole { OnErr result (IsStillWhole D.content D.may_leave file.old file.new) }
    ensures any_moment { LeavesOnly D.moment D.left_since file.old.device file.new.device
        (LeavesRecord (D.content file.old.device) (record_under (Some key.now) store.now)) }
    ensures whose { IsOfSameLife file.old file.new }
{
    // (for its type)
    let _ = file.device();
    let _ = store.len();
    match store.object(key) {
        Some(object) => file.append(alloc, key, object),
        None => Ok(()),
    }
}

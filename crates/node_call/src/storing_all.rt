//! What a batch stores is put into the file, before the batch is kept.

ghost use Rattle.std.specs.Prelude.{◌≡◌, ◌≢◌, ◌≤◌, [], All, None, true, false, length, map, IfOk, IfErr, OnOk, OnErr};
ghost use Rattle.std.specs.FinMap.{find};
ghost use Rattle.meta_types.specs.Order.{key_cmp};
ghost use Rattle.devices.specs.Device.{LeavesOnly};
ghost use Rattle.meta_store.specs.Table.{IsHeld};
ghost use Rattle.node_file.specs.Batch.{NoneOrAll, most_batch};
ghost use Rattle.node_file.specs.Clean.{row_record};
ghost use Rattle.node_file.specs.File.{file_state};
ghost use Rattle.node_call.specs.Stored.{HasFileRoomFor, HasStoredAll, IsOfSameLife, IsStillWhole, IsStoredOf, RefusesStoringAll, stored_rows};

use devices::Device;
use meta_store::Store;
use node_file::{BatchFault, FileFault, NewObject, NodeFile};
use node_readers::Published;
use std::alloc::{AllocError, Global};

/// Puts all objects of these changes into the file, or none. The keys are held in the store.
/// Refused as `NodeFile::append_all` is.
pub fn store_all<D: Device>(
    alloc: Global,
    file: &mut NodeFile<D>,
    changes: &[Published],
    store: &Store,
) -> Result<(), BatchFault>
    requires going { file.old.is_stopped ≡ false }
    requires served { file.old.is_served ≡ true }
    requires within { IsStoredOf store.now
        (file_state (D.content file.old.device)).contents.table }
    requires few { length changes.now ≤ most_batch }
    requires held { All (λ c. find key_cmp c.key store.now ≢ None) changes.now }
    ensures stored { OnOk result
        (HasStoredAll D.content D.may_leave changes.now file.old file.new) }
    ensures file_room { OnOk result (HasFileRoomFor file.old.gate changes.now) }
    ensures going { OnOk result (file.new.is_stopped ≡ false) }
    ensures refused { IfErr result (RefusesStoringAll file.old.gate changes.now
        (D.failed file.old.device) (D.failed file.new.device) file.new) }
    ensures whole { OnErr result (IsStillWhole D.content D.may_leave file.old file.new) }
    ensures any_moment { LeavesOnly D.moment D.left_since file.old.device file.new.device
        (NoneOrAll (D.content file.old.device) (map row_record (stored_rows changes.now))) }
    ensures whose { IsOfSameLife file.old file.new }
{
    // (for its type)
    let _ = file.device();
    let _ = store.len();
    match objects_of(alloc, changes) {
        Ok(objects) => file.append_all(alloc, objects.as_slice()),
        Err(AllocError) => Err(BatchFault::File(FileFault::Memory)),
    }
}

/// Returns the objects of the changes, which are lent.
fn objects_of<'a>(alloc: Global, changes: &'a [Published]) -> Result<Vec<NewObject<'a>>, AllocError>
    ensures rows { IfOk result (λ objects. objects.items ≡ stored_rows changes.now) }
    ensures held { OnOk result (All (λ c. IsHeld c.object) changes.now) }
    ensures some { OnErr result (changes.now ≢ []) }
{
    let mut objects = Vec::new(alloc);
    for change in changes {
        objects.push(NewObject::new(change.key(), change.object()))?;
    }
    Ok(objects)
}

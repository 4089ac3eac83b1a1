//! Putting a record after the others, or many at once, so that a crash at any moment leaves a file
//! with all of them or without: they are written after the closed gate and synced, and then that
//! gate is opened and synced.

ghost use Rattle.std.specs.Prelude.{◌≡◌, ◌+◌, ◌<◌, ◌≤◌, ◌^◌, ◌++◌, List, [], ◌∷◌, true, length, map, None, Ok, OnOk, IsErrOf};
ghost use Rattle.devices.specs.Device.{HasFailed, IsDurable, LeavesOnly, Overwrites, Torn};
ghost use Rattle.meta_store.specs.Table.{most_keys};
ghost use Rattle.node_file.specs.Batch.{AreAppended, CanTakeAll, NoneOrAll, behind_first, state_with_all};
ghost use Rattle.node_file.specs.Clean.{behind_gates, row_record};
ghost use Rattle.node_file.specs.File.{file_state, IsAppended, opened, state_with, WithOrWithout};
ghost use Rattle.node_file.specs.Fold.{may_follow};
ghost use Rattle.node_file.specs.Putting.{has_begun};
ghost use Rattle.node_file.specs.Reads.{record_given};
ghost use Rattle.node_file.specs.Record.{IsRecord, payload, record_bytes};
ghost use Rattle.node_file.specs.declared.record.Record.{Record};

use crate::fault::FileFault;
use crate::new_object::NewObject;
use crate::record::{NewRecord, OPEN_GATE};
use devices::{Device, DeviceFault};

/// Why bytes weren't written and synced.
#[derive(Clone, Copy, Debug)]
pub(crate) enum WriteFault {
    /// Memory ran out before the device was asked for anything.
    NotBegun,
    /// Memory ran out later.
    Memory,
    Device,
}

impl WriteFault {
    /// Returns whether the device was asked for something.
    pub(crate) fn has_begun(self) -> bool
        ensures { result ≡ has_begun self }
    {
        match self {
            WriteFault::NotBegun => false,
            WriteFault::Memory => true,
            WriteFault::Device => true,
        }
    }
}

impl From<WriteFault> for FileFault {
    ghost use Rattle.node_file.specs.Putting.{of_write};

    ghost from_gives = { λ write fault. fault ≡ of_write write };

    fn from(fault: WriteFault) -> Self {
        match fault {
            WriteFault::NotBegun => FileFault::Memory,
            WriteFault::Memory => FileFault::Memory,
            WriteFault::Device => FileFault::Device,
        }
    }
}

/// Writes, and syncs what was written.
fn write_synced<D: Device>(device: &mut D, at: usize, bytes: &[u8]) -> Result<(), WriteFault>
    requires within { at ≤ length (D.content device.old) }
    requires durable { IsDurable (D.content device.old) (D.may_leave device.old) }
    ensures any_moment { LeavesOnly D.moment D.left_since device.old device.new
        (Torn at (length bytes.now) (D.content device.old)) }
    ensures written { OnOk result
        (Overwrites (D.content device.old) at bytes.now (D.content device.new)) }
    ensures synced { OnOk result (IsDurable (D.content device.new) (D.may_leave device.new)) }
    ensures not_begun { IsErrOf result WriteFault.NotBegun
        → (D.content device.new ≡ D.content device.old)
        × IsDurable (D.content device.new) (D.may_leave device.new) }
    ensures cause { IsErrOf result WriteFault.Device
        → HasFailed (D.failed device.old) (D.failed device.new) }
    ensures still { (IsErrOf result WriteFault.Device → ⊥)
        → D.failed device.new ≡ D.failed device.old }
{
    match device.write_at(at, bytes) {
        Err(DeviceFault::Memory) => return Err(WriteFault::NotBegun),
        Err(DeviceFault::Failed) => return Err(WriteFault::Device),
        Ok(()) => {}
    }
    match device.sync() {
        Err(DeviceFault::Memory) => Err(WriteFault::Memory),
        Err(DeviceFault::Failed) => Err(WriteFault::Device),
        Ok(()) => Ok(()),
    }
}

/// Puts records after the closed gate, and opens the gate. `spelled` are their bytes after the gate
/// of the first, up to the closed gate after the last.
fn put_spelled<D: Device>(device: &mut D, gate: usize, spelled: &[u8]) -> Result<(), WriteFault>
    requires opens { opened None (D.content device.old)
        ≡ Ok (file_state (D.content device.old), gate) }
    requires durable { IsDurable (D.content device.old) (D.may_leave device.old) }
    requires short { gate < 2 ^ 60 }
    ensures any_moment { (first : Record) (more : List Record)
        → spelled.now ≡ behind_first first more
        → CanTakeAll (file_state (D.content device.old)) (first ∷ more)
        → LeavesOnly D.moment D.left_since device.old device.new
        (NoneOrAll (D.content device.old) (first ∷ more)) }
    ensures written { OnOk result ((first : Record) (more : List Record)
        → spelled.now ≡ behind_first first more
        → AreAppended gate (first ∷ more) (D.content device.old) (D.content device.new)) }
    ensures opens { OnOk result ((first : Record) (more : List Record)
        → spelled.now ≡ behind_first first more
        → CanTakeAll (file_state (D.content device.old)) (first ∷ more)
        → opened None (D.content device.new)
        ≡ Ok (
          state_with_all (file_state (D.content device.old)) (first ∷ more),
          gate + length spelled.now,
        )) }
    ensures synced { OnOk result (IsDurable (D.content device.new) (D.may_leave device.new)) }
    ensures not_begun { IsErrOf result WriteFault.NotBegun
        → (D.content device.new ≡ D.content device.old)
        × IsDurable (D.content device.new) (D.may_leave device.new) }
    ensures cause { IsErrOf result WriteFault.Device
        → HasFailed (D.failed device.old) (D.failed device.new) }
    ensures still { (IsErrOf result WriteFault.Device → ⊥)
        → D.failed device.new ≡ D.failed device.old }
{
    match write_synced(device, gate + 1, spelled) {
        Ok(()) => {}
        Err(WriteFault::NotBegun) => return Err(WriteFault::NotBegun),
        Err(WriteFault::Memory) => return Err(WriteFault::Memory),
        Err(WriteFault::Device) => return Err(WriteFault::Device),
    }
    match write_synced(device, gate, &[OPEN_GATE]) {
        Ok(()) => Ok(()),
        Err(WriteFault::NotBegun) => Err(WriteFault::Memory),
        Err(WriteFault::Memory) => Err(WriteFault::Memory),
        Err(WriteFault::Device) => Err(WriteFault::Device),
    }
}

/// Puts a record after the closed gate, and opens the gate. `spelled` are the record's bytes after
/// its gate, with the closed gate that follows.
pub(crate) fn put_record<D: Device>(
    device: &mut D,
    gate: usize,
    given: NewRecord<'_>,
    spelled: &[u8],
) -> Result<(), WriteFault>
    requires bytes { spelled.now ≡ record_bytes (payload (record_given given)) ++ 0 ∷ [] }
    requires lawful { IsRecord (record_given given) }
    requires opens { opened None (D.content device.old)
        ≡ Ok (file_state (D.content device.old), gate) }
    requires version { (file_state (D.content device.old)).version ≡ 2 }
    requires follows { may_follow (file_state (D.content device.old)).contents
        (record_given given) ≡ true }
    requires room { length (state_with (file_state (D.content device.old))
        (record_given given)).contents.table ≤ most_keys }
    requires durable { IsDurable (D.content device.old) (D.may_leave device.old) }
    requires short { gate < 2 ^ 60 }
    ensures any_moment { LeavesOnly D.moment D.left_since device.old device.new
        (WithOrWithout (D.content device.old) (record_given given.entry)) }
    ensures written { OnOk result (IsAppended gate (record_given given.entry)
        (D.content device.old) (D.content device.new)) }
    ensures opens { OnOk result (opened None (D.content device.new)
        ≡ Ok (
          state_with (file_state (D.content device.old)) (record_given given.entry),
          gate + length spelled.now,
        )) }
    ensures synced { OnOk result (IsDurable (D.content device.new) (D.may_leave device.new)) }
    ensures not_begun { IsErrOf result WriteFault.NotBegun
        → (D.content device.new ≡ D.content device.old)
        × IsDurable (D.content device.new) (D.may_leave device.new) }
    ensures cause { IsErrOf result WriteFault.Device
        → HasFailed (D.failed device.old) (D.failed device.new) }
    ensures still { (IsErrOf result WriteFault.Device → ⊥)
        → D.failed device.new ≡ D.failed device.old }
{
    put_spelled(device, gate, spelled)
}

/// Puts the records of the objects after the closed gate, as `put_record` does with one.
pub(crate) fn put_batch<D: Device>(
    device: &mut D,
    gate: usize,
    objects: &[NewObject<'_>],
    spelled: &[u8],
) -> Result<(), WriteFault>
    requires bytes { 1 ∷ spelled.now ≡ behind_gates (map row_record objects.now) }
    requires opens { opened None (D.content device.old)
        ≡ Ok (file_state (D.content device.old), gate) }
    requires can_take { CanTakeAll (file_state (D.content device.old))
        (map row_record objects.now) }
    requires durable { IsDurable (D.content device.old) (D.may_leave device.old) }
    requires short { gate < 2 ^ 60 }
    ensures any_moment { LeavesOnly D.moment D.left_since device.old device.new
        (NoneOrAll (D.content device.old) (map row_record objects.now)) }
    ensures written { OnOk result (AreAppended gate (map row_record objects.now)
        (D.content device.old) (D.content device.new)) }
    ensures opens { OnOk result (opened None (D.content device.new)
        ≡ Ok (
          state_with_all (file_state (D.content device.old)) (map row_record objects.now),
          gate + length spelled.now,
        )) }
    ensures synced { OnOk result (IsDurable (D.content device.new) (D.may_leave device.new)) }
    ensures not_begun { IsErrOf result WriteFault.NotBegun
        → (D.content device.new ≡ D.content device.old)
        × IsDurable (D.content device.new) (D.may_leave device.new) }
    ensures cause { IsErrOf result WriteFault.Device
        → HasFailed (D.failed device.old) (D.failed device.new) }
    ensures still { (IsErrOf result WriteFault.Device → ⊥)
        → D.failed device.new ≡ D.failed device.old }
{
    put_spelled(device, gate, spelled)
}

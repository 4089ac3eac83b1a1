ghost use Rattle.std.specs.Prelude.{◌≡◌, ◌⊎◌, ◌+◌, ◌≤◌, [], true, false, length, map, None, Some, Err, IsOk, OnOk, OnErr, IfErr};
ghost use Rattle.devices.specs.Device.{LeavesOnly};
ghost use Rattle.frame_fields.specs.Field.{has_value};
ghost use Rattle.meta_store.specs.Step as store;
ghost use Rattle.meta_store.specs.Table.{has_few_values, most_keys};
ghost use Rattle.std.specs.List.{list_all};
ghost use Rattle.node_file.specs.Record.{IsRecord};
ghost use Rattle.node_file.specs.Batch.{AreAppended, IsBatchOfDevice, NoneOrAll, batch_size, refusal_of_batch, state_with_all};
ghost use Rattle.node_file.specs.Clean.{row_record};
ghost use Rattle.node_file.specs.Fault.{IsOfDevice};
ghost use Rattle.node_file.specs.File.{file_state, IsAppended, record_size, state_with, WithOrWithout};
ghost use Rattle.node_file.specs.Refusal.{has_spelling, refusal_of_append};
ghost use Rattle.node_file.specs.View.{IsSettled};
ghost use Rattle.node_file.specs.declared.batch_fault.BatchFault.{BatchFault};
ghost use Rattle.node_file.specs.declared.fault.FileFault.{FileFault};
ghost use Rattle.node_file.specs.declared.record.Record.TheVariants.{Object};

use crate::batch::{refusal_of_batch, spell_batch};
use crate::batch_fault::BatchFault;
use crate::fault::FileFault;
use crate::found::MAX_FILE_LEN;
use crate::new_object::NewObject;
use crate::putting::{WriteFault, put_batch, put_record};
use crate::record::{AROUND_PAYLOAD, NewRecord, spell_record};
use devices::Device;
use dvvset::{Entries, Entry};
use frame_fields::lengths::{key_len, object_len};
use meta_store::StoreFault;
use meta_store::size::{MAX_ENTRIES, MAX_VALUES_OF_A_WRITER, may_be_held};
use meta_types::{MetaKey, NodeId};
use std::alloc::Global;
use std::marker::Model;

/// A node's file on a device: the objects of its table, one record after the other, and the lives
/// of the node among them.
///
/// Unless it is stopped it is settled: its device holds a file, and a crash leaves just that. It
/// keeps no table: `open_node` and `serve` hand one out, and whoever changes it appends each object
/// that changed.
#[derive(Drop)]
pub struct NodeFile<D: Device> {
    device: D,
    node: NodeId,
    life: u32,
    /// The offset of the closed gate.
    gate: usize,
    is_served: bool,
    is_stopped: bool,
}

impl<D: Device> Model for NodeFile<D> {
    ghost use Rattle.std.specs.Prelude.{◌≡◌, false};
    ghost use Rattle.node_file.specs.View.{FileView, IsSettled};

    ghost Value = { FileView D };

    ghost view = { λ f. record {
      device = f.device;
      node = f.node;
      life = f.life;
      gate = f.gate;
      is_served = f.is_served;
      is_stopped = f.is_stopped;
    } };

    ghost invariant = { λ f. f.is_stopped ≡ false → IsSettled D.content D.may_leave
        (record {
          device = f.device;
          node = f.node;
          life = f.life;
          gate = f.gate;
          is_served = f.is_served;
          is_stopped = f.is_stopped;
        }) };
}

impl<D: Device> NodeFile<D> {
    /// Returns a file that was opened or made.
    pub(crate) fn new(
        device: D,
        node: NodeId,
        life: u32,
        gate: usize,
        is_served: bool,
    ) -> NodeFile<D>
        requires settled { IsSettled D.content D.may_leave (record {
          device = device;
          node = node;
          life = life;
          gate = gate;
          is_served = is_served;
          is_stopped = false;
        }) }
        ensures { result ≡ record {
          device = device;
          node = node;
          life = life;
          gate = gate;
          is_served = is_served;
          is_stopped = false;
        } }
    {
        NodeFile {
            device,
            node,
            life,
            gate,
            is_served,
            is_stopped: false,
        }
    }

    /// Returns the device, as it stands.
    pub fn device(&self) -> &D
        ensures value { result.now ≡ self.now.device }
        ensures settled { self.now.is_stopped ≡ false
            → IsSettled D.content D.may_leave self.now }
    {
        &self.device
    }

    pub fn into_device(self) -> D
        ensures value { result ≡ self.device }
        ensures settled { self.is_stopped ≡ false → IsSettled D.content D.may_leave self }
    {
        self.device
    }

    pub fn node(&self) -> NodeId
        ensures { result ≡ self.now.node }
    {
        self.node
    }

    /// Returns the number of the node's last life in the file, 0 for none.
    pub fn life(&self) -> u32
        ensures { result ≡ self.now.life }
    {
        self.life
    }

    /// Returns whether a life was begun by the call that opened the file, so that it takes objects.
    pub fn is_served(&self) -> bool
        ensures { result ≡ self.now.is_served }
    {
        self.is_served
    }

    /// Returns whether an append failed after the device may have changed, so that the file takes
    /// nothing until it is opened again.
    pub fn is_stopped(&self) -> bool
        ensures { result ≡ self.now.is_stopped }
    {
        self.is_stopped
    }

    /// Appends that this is the object under the key from now on. After `Ok` it is durable.
    ///
    /// Refused in this order: 34 `Stopped`; 33 `FileFull`, if the file would have more than
    /// 1,099,511,627,776 bytes; 27 `ObjectTooLarge`, if a store may not hold the object; 30
    /// `Device`, which stops the file. 99 `Memory` stops it too if the device was asked for
    /// something before. The object of a call that stopped the file may stand in it or not.
    ///
    /// It makes four calls of the device: a write, a sync, a write of one byte, and a sync. It
    /// takes memory for the record, and its time doesn't grow with the file.
    #[tactic(auto, using(crate::proofs::Lives::room_for))]
    pub fn append(
        &mut self,
        alloc: Global,
        key: &MetaKey,
        object: &Entries,
    ) -> Result<(), FileFault>
        requires served { self.old.is_served ≡ true }
        requires shows { has_value object.now ≡ true }
        requires room { self.old.is_stopped ≡ false → store.is_full_for
            (file_state (D.content self.old.device)).contents.table key.now ≡ false }
        ensures refusals { (fault : FileFault) → refusal_of_append self.old.is_stopped self.old.gate
            key.now object.now ≡ Some fault → (result ≡ Err fault) × (self.new ≡ self.old) }
        ensures appended { OnOk result (file_state (D.content self.new.device)
            ≡ state_with (file_state (D.content self.old.device)) (Object key.now object.now)) }
        ensures written { OnOk result (IsAppended self.old.gate (Object key.now object.now)
            (D.content self.old.device) (D.content self.new.device)) }
        ensures gate { OnOk result (self.new.gate
            ≡ self.old.gate + record_size (Object key.now object.now)) }
        ensures goes_on { OnOk result
            ((self.old.is_stopped ≡ false) × (self.new.is_stopped ≡ false)) }
        ensures settled { self.new.is_stopped ≡ false
            → IsSettled D.content D.may_leave self.new }
        ensures any_moment { self.old.is_stopped ≡ false → LeavesOnly D.moment D.left_since
            self.old.device self.new.device
            (WithOrWithout (D.content self.old.device) (Object key.now object.now)) }
        ensures still { OnOk result
            (D.failed self.new.device ≡ D.failed self.old.device) }
        ensures refused { IfErr result (λ fault.
            IsOfDevice fault (D.failed self.old.device) (D.failed self.new.device)
            ⊎ (refusal_of_append self.old.is_stopped self.old.gate key.now object.now
            ≡ Some fault)) }
        ensures stopped_or_same { OnErr result ((self.new.is_stopped ≡ true)
            ⊎ ((D.content self.new.device ≡ D.content self.old.device)
            × (self.new.gate ≡ self.old.gate))) }
        ensures stops { IfErr result (λ fault. fault ≡ FileFault.Device
            → self.new.is_stopped ≡ true) }
        ensures whose { (self.new.node ≡ self.old.node) × (self.new.life ≡ self.old.life)
            × (self.new.is_served ≡ true) }
    {
        if self.is_stopped {
            return Err(FileFault::Stopped);
        }
        if let Some(fault) = refusal_of(self.gate, key, object) {
            return Err(fault);
        }
        let record = NewRecord::Object(key, object);
        let bytes = spell_record(alloc, record)?;
        let spelled = &bytes[1..];
        match put_record(&mut self.device, self.gate, record, spelled) {
            Ok(()) => {
                self.gate += spelled.len();
                Ok(())
            }
            Err(WriteFault::NotBegun) => Err(FileFault::Memory),
            Err(WriteFault::Memory) => {
                self.is_stopped = true;
                Err(FileFault::Memory)
            }
            Err(WriteFault::Device) => {
                self.is_stopped = true;
                Err(FileFault::Device)
            }
        }
    }

    /// Appends that each of these is the object under its key from now on: all of them, or none.
    /// After `Ok` they are durable. Without objects it does nothing.
    ///
    /// Refused in this order: 34 `Stopped`; `TooMany`, if they are more than
    /// [`MAX_BATCH`](crate::MAX_BATCH); 33 `FileFull` and 27 `ObjectTooLarge` of the first object
    /// that `append` would refuse behind those before it, with its place; 30 `Device`, which stops
    /// the file. 99 `Memory` stops it too if the device was asked for something before. The objects
    /// of a call that stopped the file stand in it, all of them, or none does.
    ///
    /// It makes the four calls of one append, and takes memory for all records. If a crash cuts off
    /// a batch of two or more, what is left behind the closed gate may look as if that gate had
    /// been changed, and [`changed_gate`](crate::changed_gate) tells it. Nothing acknowledged is
    /// lost then.
    pub fn append_all(&mut self, alloc: Global, objects: &[NewObject<'_>]) -> Result<(), BatchFault>
        requires served { self.old.is_served ≡ true }
        requires room { self.old.is_stopped ≡ false → length (state_with_all
            (file_state (D.content self.old.device)) (map row_record objects.now)).contents.table
            ≤ most_keys }
        ensures refusals { (fault : BatchFault)
            → refusal_of_batch self.old.is_stopped self.old.gate objects.now ≡ Some fault
            → (result ≡ Err fault) × (self.new ≡ self.old) }
        ensures none { objects.now ≡ [] → self.old.is_stopped ≡ false
            → IsOk result × (self.new ≡ self.old) }
        ensures appended { OnOk result (file_state (D.content self.new.device)
            ≡ state_with_all (file_state (D.content self.old.device))
            (map row_record objects.now)) }
        ensures written { OnOk result (AreAppended self.old.gate (map row_record objects.now)
            (D.content self.old.device) (D.content self.new.device)) }
        ensures gate { OnOk result (self.new.gate
            ≡ self.old.gate + batch_size (map row_record objects.now)) }
        ensures goes_on { OnOk result
            ((self.old.is_stopped ≡ false) × (self.new.is_stopped ≡ false)) }
        ensures settled { self.new.is_stopped ≡ false
            → IsSettled D.content D.may_leave self.new }
        ensures any_moment { self.old.is_stopped ≡ false → LeavesOnly D.moment D.left_since
            self.old.device self.new.device
            (NoneOrAll (D.content self.old.device) (map row_record objects.now)) }
        ensures still { OnOk result
            (D.failed self.new.device ≡ D.failed self.old.device) }
        ensures refused { IfErr result (λ fault.
            IsBatchOfDevice fault (D.failed self.old.device) (D.failed self.new.device)
            ⊎ (refusal_of_batch self.old.is_stopped self.old.gate objects.now ≡ Some fault)) }
        ensures stopped_or_same { OnErr result ((self.new.is_stopped ≡ true)
            ⊎ ((D.content self.new.device ≡ D.content self.old.device)
            × (self.new.gate ≡ self.old.gate))) }
        ensures stops { IfErr result (λ fault. fault ≡ BatchFault.File FileFault.Device
            → self.new.is_stopped ≡ true) }
        ensures whose { (self.new.node ≡ self.old.node) × (self.new.life ≡ self.old.life)
            × (self.new.is_served ≡ true) }
    {
        if self.is_stopped() {
            return Err(BatchFault::File(FileFault::Stopped));
        }
        if let Some(refusal) = refusal_of_batch(self.gate, objects) {
            return Err(refusal);
        }
        if objects.is_empty() {
            return Ok(());
        }
        let Ok(bytes) = spell_batch(alloc, objects) else {
            return Err(BatchFault::File(FileFault::Memory));
        };
        match put_batch(&mut self.device, self.gate, objects, &bytes[1..]) {
            Ok(()) => {
                self.gate += bytes.len() - 1;
                Ok(())
            }
            Err(cause) => {
                self.is_stopped = cause.has_begun();
                Err(BatchFault::File(cause.into()))
            }
        }
    }
}

/// Returns whether no entry shows more values than a record can count.
fn have_few_values(entries: &[Entry]) -> bool
    ensures { result ≡ list_all has_few_values entries.now }
{
    entries
        .iter()
        .all(|entry| entry.values().len() <= MAX_VALUES_OF_A_WRITER)
}

/// Returns whether the object has few enough entries, each with few enough values, for a record.
fn has_spelling(object: &Entries) -> bool
    ensures { result ≡ has_spelling object.now }
{
    let entries = object.entries();
    entries.len() <= MAX_ENTRIES && have_few_values(entries)
}

/// Returns why no record of the object is put after this gate.
#[tactic(auto, using(crate::proofs::Limits::of_refusals))]
pub(crate) fn refusal_of(gate: usize, key: &MetaKey, object: &Entries) -> Option<FileFault>
    requires shows { has_value object.now ≡ true }
    ensures first { result ≡ refusal_of_append false gate key.now object.now }
    ensures lawful { result ≡ None → IsRecord (Object key.now object.now) }
{
    // (for its type)
    let _ = key.key();
    let _ = object.entries();
    if has_spelling(object) {
        let len = 1 + key_len(key) + object_len(object);
        if gate.saturating_add(len + AROUND_PAYLOAD) > MAX_FILE_LEN {
            return Some(FileFault::FileFull);
        }
    }
    if may_be_held(object) {
        None
    } else {
        Some(FileFault::Store(StoreFault::ObjectTooLarge))
    }
}

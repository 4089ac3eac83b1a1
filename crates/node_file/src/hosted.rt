//! A node's file for a host who keeps its bytes by other means than a `Device`: what he writes.

ghost use Rattle.std.specs.Prelude.{◌≡◌, ◌≢◌, ◌⊎◌, ◌+◌, ◌≤◌, ℕ, [], All, length, map, None, Some, Ok, Err, false, true, IfOk, IfErr, OnOk};
ghost use Rattle.frame_fields.specs.Field.{has_value};
ghost use Rattle.node_file.specs.Batch.{batch_bytes, refusal_of_batch};
ghost use Rattle.node_file.specs.Clean.{clean_bytes, row_record};
ghost use Rattle.node_file.specs.File.{StandsFor, file_state, gated, new_state, opened};
ghost use Rattle.node_file.specs.Hosted.{CanTake};
ghost use Rattle.node_file.specs.Record.{IsRecord};
ghost use Rattle.node_file.specs.Refusal.{most_file, refusal_of_append, refusal_of_serve};
ghost use Rattle.node_file.specs.declared.batch_fault.BatchFault.{BatchFault};
ghost use Rattle.node_file.specs.declared.fault.FileFault.{FileFault};
ghost use Rattle.node_file.specs.declared.record.Record.TheVariants.{Life, Object};

use crate::batch::{refusal_of_batch, spell_batch};
use crate::batch_fault::BatchFault;
use crate::fault::FileFault;
use crate::found::Found;
use crate::new_object::NewObject;
use crate::node_file::refusal_of;
use crate::opening::stands_for;
use crate::record::{NewRecord, spell_record};
use crate::rewriting::write_file;
use devices::MemoryDevice;
use dvvset::Entries;
use meta_store::Store;
use meta_types::{MetaKey, NodeId};
use std::alloc::Global;

/// What a host needs to serve a node from bytes. The node begins its next life once the record of
/// it was appended.
#[derive(Drop)]
pub struct Served {
    pub node: NodeId,
    pub table: Store,
    /// The number of the life, greater than each before it in the file.
    pub life: u32,
    /// The offset of the closed gate.
    pub gate: usize,
    /// The record of the life, from its open gate to the closed one after it.
    pub record: Vec<u8>,
}

/// Returns what a host appends to serve a node from these bytes, and the table that they hold.
///
/// The host writes the record, without its first byte, after the closed gate, syncs, writes that
/// byte over the gate, and syncs; then the life is begun (`laws::an_append_is_safe`). Refused as
/// [`serve`](crate::serve) is, except with 30 `Device`. It takes memory for the table.
pub fn serve_bytes(alloc: Global, bytes: &[u8], asked: Option<NodeId>) -> Result<Served, FileFault>
    ensures none { OnOk result (refusal_of_serve asked bytes.now ≡ None) }
    ensures opens { IfOk result (λ s. opened None bytes.now ≡ Ok (file_state bytes.now, s.gate)) }
    ensures node { IfOk result (λ s. s.node ≡ (file_state bytes.now).node) }
    ensures table { IfOk result (λ s. s.table ≡ (file_state bytes.now).contents.table) }
    ensures life { IfOk result (λ s. s.life ≡ (file_state bytes.now).contents.life + 1) }
    ensures record { IfOk result (λ s. s.record.items ≡ gated (Life s.life)) }
    ensures can_take { IfOk result (λ s. CanTake (file_state bytes.now) (Life s.life)) }
    ensures fits { IfOk result (λ s. s.gate + length s.record.items ≤ most_file) }
    ensures refused { IfErr result (λ fault. (fault ≡ FileFault.Memory)
        ⊎ (refusal_of_serve asked bytes.now ≡ Some fault)) }
{
    let found = stands_for(alloc, bytes, asked)?;
    if let Some(fault) = found.refusal() {
        return Err(fault);
    }
    let Found {
        version,
        node,
        contents,
        gate,
    } = found;
    let (before, table) = contents.into_parts();
    let record = spell_record(alloc, NewRecord::Life(before + 1))?;
    Ok(Served {
        node,
        table,
        life: before + 1,
        gate,
        record,
    })
}

/// Returns the bytes of a clean copy of a file: of the same node, last life and table, with one
/// record for each key, as [`rewrite`](crate::rewrite) writes them.
///
/// Refused as [`open_node`](crate::open_node) is, except with 30 `Device`. It takes memory for the
/// table, and for the copy three times.
pub fn clean_copy(alloc: Global, bytes: &[u8], asked: Option<NodeId>) -> Result<Vec<u8>, FileFault>
    ensures opens { OnOk result ((gate : ℕ)
        × (opened asked bytes.now ≡ Ok (file_state bytes.now, gate))) }
    ensures stands { IfOk result (λ copy. let s = file_state bytes.now in
        StandsFor (new_state s.node s.contents.life s.contents.table) copy.items) }
    ensures bytes { IfOk result (λ copy. let s = file_state bytes.now in
        copy.items ≡ clean_bytes s.node s.contents.life s.contents.table) }
    ensures refused { IfErr result (λ fault. (fault ≡ FileFault.Memory)
        ⊎ (opened asked bytes.now ≡ Err fault)) }
{
    let Found { node, contents, .. } = stands_for(alloc, bytes, asked)?;
    let (life, table) = contents.into_parts();
    let mut target = MemoryDevice::new(alloc, Vec::new(alloc))?;
    match write_file(alloc, node, &table, life, &mut target) {
        Ok(()) => Ok(target.into_content()),
        Err(fault) => Err(fault),
    }
}

/// Returns the record that a host appends, as [`serve_bytes`] says, so that this is the object
/// under the key from then on. The closed gate of his file stands at this offset.
///
/// Refused as [`NodeFile::append`](crate::NodeFile::append) is, except with 34 `Stopped` and 30
/// `Device`. It takes memory for the record.
pub fn spell_append(
    alloc: Global,
    gate: usize,
    key: &MetaKey,
    object: &Entries,
) -> Result<Vec<u8>, FileFault>
    requires shows { has_value object.now ≡ true }
    ensures refusals { (fault : FileFault) → refusal_of_append false gate key.now object.now
        ≡ Some fault → result ≡ Err fault }
    ensures record { IfOk result (λ bytes. bytes.items ≡ gated (Object key.now object.now)) }
    ensures lawful { OnOk result (IsRecord (Object key.now object.now)) }
    ensures fits { IfOk result (λ bytes. gate + length bytes.items ≤ most_file) }
    ensures refused { IfErr result (λ fault. (fault ≡ FileFault.Memory)
        ⊎ (refusal_of_append false gate key.now object.now ≡ Some fault)) }
{
    if let Some(fault) = refusal_of(gate, key, object) {
        return Err(fault);
    }
    Ok(spell_record(alloc, NewRecord::Object(key, object))?)
}

/// Returns the records that a host appends at once, so that each of these is the object under its
/// key from then on. He writes them as [`serve_bytes`] says: all but the first byte after the
/// closed gate, and, once that is synced, that byte over the gate (`laws::a_batch_is_safe`).
/// Without objects there is nothing to write.
///
/// Refused as [`NodeFile::append_all`](crate::NodeFile::append_all) is, except with 34 `Stopped`
/// and 30 `Device`. It takes memory for the records.
pub fn spell_append_all(
    alloc: Global,
    gate: usize,
    objects: &[NewObject<'_>],
) -> Result<Vec<u8>, BatchFault>
    ensures refusals { (fault : BatchFault) → refusal_of_batch false gate objects.now ≡ Some fault
        → result ≡ Err fault }
    ensures records { IfOk result (λ bytes.
        bytes.items ≡ batch_bytes (map row_record objects.now)) }
    ensures lawful { OnOk result (All IsRecord (map row_record objects.now)) }
    ensures fits { objects.now ≢ []
        → IfOk result (λ bytes. gate + length bytes.items ≤ most_file) }
    ensures refused { IfErr result (λ fault. (fault ≡ BatchFault.File FileFault.Memory)
        ⊎ (refusal_of_batch false gate objects.now ≡ Some fault)) }
{
    if let Some(fault) = refusal_of_batch(gate, objects) {
        return Err(fault);
    }
    if objects.is_empty() {
        return Ok(Vec::new(alloc));
    }
    match spell_batch(alloc, objects) {
        Ok(bytes) => Ok(bytes),
        Err(_) => Err(BatchFault::File(FileFault::Memory)),
    }
}

//! A batch: objects that one append puts into a file, all of them or none.

ghost use Rattle.std.specs.Prelude.{◌≡◌, ◌≢◌, ◌+◌, ◌≤◌, [], All, length, map, nat_le, false, IsTrue, None, IfOk};
ghost use Rattle.meta_store.specs.Table.{most_keys};
ghost use Rattle.node_file.specs.Batch.{batch_size, refusal_of_batch, refused_object, state_with_all};
ghost use Rattle.node_file.specs.Clean.{behind_gates, row_record};
ghost use Rattle.node_file.specs.File.{FileState};
ghost use Rattle.node_file.specs.Record.{IsRecord};
ghost use Rattle.node_file.specs.Refusal.{most_file};

use crate::batch_fault::BatchFault;
use crate::new_object::NewObject;
use crate::node_file::refusal_of;
use crate::record::{AROUND_PAYLOAD, CLOSED_GATE, write_with_gate};
use meta_store::Store;
use meta_store::store::MAX_KEYS;
use std::alloc::{AllocError, Global};

/// The most objects of a batch.
pub const MAX_BATCH: usize = 256;

/// Returns whether a store that holds this table has room for the objects, even if each is under a
/// key of its own that isn't held.
pub fn has_room_for_all(table: &Store, objects: &[NewObject<'_>]) -> bool
    ensures value { result ≡ nat_le (length table.now + length objects.now) most_keys }
    ensures room { IsTrue result → (s : FileState) → s.contents.table ≡ table.now
        → length (state_with_all s (map row_record objects.now)).contents.table ≤ most_keys }
{
    table.len() + objects.len() <= MAX_KEYS
}

/// Returns why no records of the objects are put after this gate.
pub(crate) fn refusal_of_batch(gate: usize, objects: &[NewObject<'_>]) -> Option<BatchFault>
    ensures first { result ≡ refusal_of_batch false gate objects.now }
    ensures lawful { result ≡ None → All IsRecord (map row_record objects.now) }
    ensures fits { result ≡ None → objects.now ≢ []
        → gate + batch_size (map row_record objects.now) + 1 ≤ most_file }
{
    if objects.len() > MAX_BATCH {
        return Some(BatchFault::TooMany);
    }
    refused_object(gate, objects)
}

/// Returns the first of the objects that is refused, if their records come to stand one after the
/// other, the first at this gate.
fn refused_object(gate: usize, objects: &[NewObject<'_>]) -> Option<BatchFault>
    ensures first { result ≡ refused_object 0 gate objects.now }
    ensures lawful { result ≡ None → All IsRecord (map row_record objects.now) }
    ensures fits { result ≡ None → objects.now ≢ []
        → gate + batch_size (map row_record objects.now) + 1 ≤ most_file }
{
    let mut end = gate;
    for (place, new) in objects.iter().enumerate() {
        if let Some(fault) = refusal_of(end, new.key(), new.object()) {
            return Some(BatchFault::Object { place, fault });
        }
        end += new.record().payload_len() + (AROUND_PAYLOAD - 1);
    }
    None
}

/// Returns the bytes of the records of the objects, from the open gate of the first to the closed
/// one after the last. Fails only when memory runs out.
pub(crate) fn spell_batch(alloc: Global, objects: &[NewObject<'_>]) -> Result<Vec<u8>, AllocError>
    requires lawful { All IsRecord (map row_record objects.now) }
    ensures { IfOk result (λ bytes. bytes.items ≡ behind_gates (map row_record objects.now)) }
{
    let mut bytes = Vec::new(alloc);
    for new in objects {
        write_with_gate(&mut bytes, new.record())?;
    }
    bytes.push(CLOSED_GATE)?;
    Ok(bytes)
}

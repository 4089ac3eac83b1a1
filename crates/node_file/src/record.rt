//! One record of a node's file: what it says, and its bytes.

ghost use Rattle.std.specs.Prelude.{◌≡◌, ◌≤◌, ◌++◌, [], ◌∷◌, length, OnOk, IfOk, IfSome};
ghost use Rattle.node_file.specs.Record.{payload, record_bytes, IsRecord, record_if_held};
ghost use Rattle.node_file.specs.Reads.{record_given};

use dvvset::Entries;
use frame_fields::lengths::{key_len, object_len};
use frame_fields::writing::{write_key, write_object, write_u8, write_u32};
use meta_store::size::may_be_held;
use meta_types::MetaKey;
use sha2::{Digest, Sha256};
use std::alloc::{AllocError, Global};

/// How many bytes stand around a payload: an open gate, the payload's length, its digest, and the
/// closed gate after it.
pub(crate) const AROUND_PAYLOAD: usize = 38;

/// How many bytes the payload of a life has: its kind, and a number.
pub(crate) const LIFE_PAYLOAD: usize = 5;

/// The most bytes of a payload that is read.
pub(crate) const MAX_PAYLOAD_LEN: usize = 16_777_216;

/// The gate in front of a record. Any other byte ends the records.
pub(crate) const OPEN_GATE: u8 = 1;

/// The gate that is written after the last record.
pub(crate) const CLOSED_GATE: u8 = 0;

/// The kind of a record of a life.
pub(crate) const LIFE: u8 = 0;

/// The kind of a record of an object.
pub(crate) const OBJECT: u8 = 1;

/// What a record says.
#[derive(Debug, Drop)]
pub enum Record {
    /// The node begins the life of this number.
    Life(u32),
    /// This is the object under the key from now on.
    Object(MetaKey, Entries),
}

/// What a record is to say.
#[derive(Clone, Copy)]
pub(crate) enum NewRecord<'a> {
    Life(u32),
    Object(&'a MetaKey, &'a Entries),
}

impl NewRecord<'_> {
    /// Returns how many bytes its payload has.
    #[tactic(auto, using(crate::proofs::Limits::held_spells))]
    pub(crate) fn payload_len(self) -> usize
        requires lawful { IsRecord (record_given self) }
        ensures value { result ≡ length (payload (record_given self.entry)) }
        ensures small { result ≤ 16777216 }
    {
        match self {
            NewRecord::Life(_) => LIFE_PAYLOAD,
            NewRecord::Object(key, object) => 1 + key_len(key) + object_len(object),
        }
    }
}

/// Returns the record of an object, if a store may hold it.
pub(crate) fn record_if_held(key: MetaKey, object: Entries) -> Option<Record>
    ensures value { result ≡ record_if_held key object }
    ensures lawful { IfSome result IsRecord }
{
    // (for its type)
    let _ = key.key();
    let _ = object.entries();
    if may_be_held(&object) {
        Some(Record::Object(key, object))
    } else {
        None
    }
}

/// Writes the payload of a record at the end of bytes.
#[tactic(auto, using(crate::proofs::Limits::held_spells))]
fn write_payload(out: &mut Vec<u8>, given: NewRecord<'_>) -> Result<(), AllocError>
    requires lawful { IsRecord (record_given given) }
    ensures { OnOk result
        (out.new.items ≡ out.old.items ++ payload (record_given given.entry)) }
{
    match given {
        NewRecord::Life(life) => {
            write_u8(out, LIFE)?;
            write_u32(out, life)
        }
        NewRecord::Object(key, object) => {
            write_u8(out, OBJECT)?;
            write_key(out, key)?;
            write_object(out, object)
        }
    }
}

/// Writes the open gate of a record, and the record, at the end of bytes.
#[tactic(auto, unfolding(crate::specs::Record::record_bytes))]
pub(crate) fn write_with_gate(out: &mut Vec<u8>, given: NewRecord<'_>) -> Result<(), AllocError>
    requires lawful { IsRecord (record_given given) }
    ensures { OnOk result (out.new.items
        ≡ out.old.items ++ 1 ∷ record_bytes (payload (record_given given.entry))) }
{
    let start = out.len();
    let len = given.payload_len();
    out.push(OPEN_GATE)?;
    write_u32(out, len as u32)?;
    write_payload(out, given)?;
    let digest: [u8; 32] = Sha256::digest(&out[start + 5..]);
    out.extend_from_slice(&digest)
}

/// Returns the bytes of a record, with the open gate before and the closed gate after them. Fails
/// only when memory runs out.
pub(crate) fn spell_record(alloc: Global, given: NewRecord<'_>) -> Result<Vec<u8>, AllocError>
    requires lawful { IsRecord (record_given given) }
    ensures { IfOk result (λ bytes. bytes.items
        ≡ 1 ∷ (record_bytes (payload (record_given given.entry)) ++ 0 ∷ [])) }
{
    let len = given.payload_len();
    let mut bytes = Vec::with_capacity(alloc, len + AROUND_PAYLOAD)?;
    write_with_gate(&mut bytes, given)?;
    bytes.push(CLOSED_GATE)?;
    Ok(bytes)
}

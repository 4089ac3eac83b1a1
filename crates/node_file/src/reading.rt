//! Reading one record.

ghost use Rattle.std.specs.Prelude.{◌≡◌, ◌+◌, ◌≤◌, length, IfOk, IfErr, IfSome};
ghost use Rattle.node_file.specs.Record.{IsRecord, life_in, object_in, old_object_in, record_in, record_of, whole_record};
ghost use Rattle.node_file.specs.Reads.{ReadsRecord};

use crate::old::read_old_object;
use crate::record::{LIFE, MAX_PAYLOAD_LEN, OBJECT, Record, record_if_held};
use frame_readers::fault::FieldFault;
use frame_readers::reading::{read_key, read_object};
use sha2::{Digest, Sha256};
use std::alloc::Global;

/// How many bytes stand around a payload after its gate: its length and its digest.
pub(crate) const LENGTH_AND_DIGEST: usize = 36;

/// Reads the life that a payload says after its kind.
fn read_life(bytes: &[u8]) -> Result<Record, FieldFault>
    ensures value { ReadsRecord result (life_in bytes.now) }
    ensures lawful { IfOk result IsRecord }
{
    if bytes.len() != 4 {
        return Err(FieldFault::Left(bytes.len()));
    }
    let number = u32::from_be_bytes([bytes[0], bytes[1], bytes[2], bytes[3]]);
    Ok(Record::Life(number))
}

/// Reads a key and an object to the last byte, in the form of frames.
fn read_held(alloc: Global, bytes: &[u8]) -> Result<Record, FieldFault>
    ensures value { ReadsRecord result (object_in bytes.now) }
    ensures lawful { IfOk result IsRecord }
{
    let (key, rest) = read_key(alloc, bytes)?;
    let (object, rest) = read_object(alloc, rest)?;
    if !rest.is_empty() {
        return Err(FieldFault::Left(rest.len()));
    }
    match record_if_held(key, object) {
        Some(record) => Ok(record),
        None => Err(FieldFault::Left(bytes.len())),
    }
}

/// Reads a key and an object to the last byte, in the form of version 1.
fn read_old_held(alloc: Global, bytes: &[u8]) -> Result<Record, FieldFault>
    ensures value { ReadsRecord result (old_object_in bytes.now) }
    ensures lawful { IfOk result IsRecord }
{
    let (key, rest) = read_key(alloc, bytes)?;
    let (object, rest) = read_old_object(alloc, rest)?;
    if !rest.is_empty() {
        return Err(FieldFault::Left(rest.len()));
    }
    match record_if_held(key, object) {
        Some(record) => Ok(record),
        None => Err(FieldFault::Left(bytes.len())),
    }
}

/// Reads what a payload says.
#[tactic(auto, unfolding(crate::specs::Record::record_of))]
fn read_payload(alloc: Global, version: u8, bytes: &[u8]) -> Result<Record, FieldFault>
    ensures value { ReadsRecord result (record_of version bytes.now) }
    ensures lawful { IfOk result IsRecord }
{
    if version == 1 {
        return read_old_held(alloc, bytes);
    }
    match bytes {
        [LIFE, life @ ..] => read_life(life),
        [OBJECT, held @ ..] => read_held(alloc, held),
        _ => Err(FieldFault::Left(bytes.len())),
    }
}

/// Reads the first record of these bytes, which begin after its gate. Returns what it says, and how
/// many bytes it takes; `None` if it isn't whole.
///
/// Refused with 99 `Memory` alone. It takes memory for the key and the object.
#[tactic(auto, unfolding(crate::specs::Record::record_in, crate::specs::Record::record_of_length))]
pub fn read_record(
    alloc: Global,
    version: u8,
    bytes: &[u8],
) -> Result<Option<(Record, usize)>, FieldFault>
    ensures value { IfOk result (λ read. read ≡ record_in version bytes.now) }
    ensures within { IfOk result (λ read. IfSome read (λ r. r.1 ≤ length bytes.now)) }
    ensures lawful { IfOk result (λ read. IfSome read (λ r. IsRecord r.0)) }
    ensures memory { IfErr result (λ fault. fault ≡ FieldFault.Memory) }
{
    if bytes.len() < 4 {
        return Ok(None);
    }
    let front = &bytes[..4];
    let len = u32::from_be_bytes([front[0], front[1], front[2], front[3]]) as usize;
    if len > MAX_PAYLOAD_LEN {
        return Ok(None);
    }
    if bytes.len() < LENGTH_AND_DIGEST + len {
        return Ok(None);
    }
    read_whole(alloc, version, len, &bytes[..LENGTH_AND_DIGEST + len])
}

/// Reads the bytes of one record, whose payload has `len` bytes. Returns what they say, and how
/// many they are.
#[tactic(auto, unfolding(crate::specs::Record::whole_record))]
fn read_whole(
    alloc: Global,
    version: u8,
    len: usize,
    bytes: &[u8],
) -> Result<Option<(Record, usize)>, FieldFault>
    requires length { length bytes.now ≡ 36 + len }
    requires fits { len ≤ 16777216 }
    ensures value { IfOk result (λ read. read ≡ whole_record version len bytes.now) }
    ensures size { IfOk result (λ read. IfSome read (λ r. r.1 ≡ 36 + len)) }
    ensures lawful { IfOk result (λ read. IfSome read (λ r. IsRecord r.0)) }
    ensures memory { IfErr result (λ fault. fault ≡ FieldFault.Memory) }
{
    let payload = &bytes[4..4 + len];
    let digest = &bytes[4 + len..];
    let made: [u8; 32] = Sha256::digest(payload);
    if made.as_slice() != digest {
        return Ok(None);
    }
    match read_payload(alloc, version, payload) {
        Ok(record) => Ok(Some((record, LENGTH_AND_DIGEST + len))),
        Err(FieldFault::Left(_)) => Ok(None),
        Err(FieldFault::Memory) => Err(FieldFault::Memory),
    }
}

//! Gates that were changed on the disk.

ghost use Rattle.std.specs.Prelude.{◌≡◌, ◌<◌, ◌≤◌, length, IfOk, IfErr, IfSome};
ghost use Rattle.node_file.specs.Gates.{changed_gate, end_of_records, goes_on, shows_changed_gate, size_in};
ghost use Rattle.node_file.specs.declared.fault.FileFault.{FileFault};

use crate::fault::FileFault;
use crate::found::{FRONT_LEN, read_front};
use crate::reading::{LENGTH_AND_DIGEST, read_record};
use crate::record::{CLOSED_GATE, MAX_PAYLOAD_LEN, OPEN_GATE};
use std::alloc::Global;

/// Of how many bytes from the end of the records on `changed_gate` looks at the first: of two
/// records of the greatest length, with their gates.
pub const MAX_LOOKED_AT: usize = 2 * (1 + LENGTH_AND_DIGEST + MAX_PAYLOAD_LEN);

/// Returns the offset of the gate at which the records of a file's bytes end, by their lengths
/// alone: the first that isn't open, or is followed by a length above the limit. Returns `None` if
/// the bytes end before. What stands behind that gate and a length counts for nothing
/// (`laws::nothing_counts_behind_the_records`), so that no more need be read.
#[tactic(auto, using(crate::proofs::Ending::end_turns))]
pub fn end_of_records(bytes: &[u8]) -> Option<usize>
    ensures value { result ≡ end_of_records bytes.now }
    ensures within { IfSome result (λ gate. (10 ≤ gate) × (gate < length bytes.now)) }
{
    let mut gate = FRONT_LEN;
    while gate < bytes.len() {
        if bytes[gate] != OPEN_GATE {
            return Some(gate);
        }
        let behind = &bytes[gate + 1..];
        if behind.len() < 4 {
            return None;
        }
        let said = &behind[..4];
        let len = u32::from_be_bytes([said[0], said[1], said[2], said[3]]) as usize;
        if len > MAX_PAYLOAD_LEN {
            return Some(gate);
        }
        gate += 1 + LENGTH_AND_DIGEST + len;
    }
    None
}

/// Returns how many bytes the record in front of these takes, if it is whole.
fn size_in(alloc: Global, version: u8, bytes: &[u8]) -> Result<Option<usize>, FileFault>
    ensures value { IfOk result (λ size. size ≡ size_in version bytes.now) }
    ensures within { IfOk result (λ size. IfSome size (λ n. n ≤ length bytes.now)) }
    ensures memory { IfErr result (λ fault. fault ≡ FileFault.Memory) }
{
    match read_record(alloc, version, bytes) {
        Err(_) => Err(FileFault::Memory),
        Ok(None) => Ok(None),
        Ok(Some((_, size))) => Ok(Some(size)),
    }
}

/// Returns whether a closed gate shows that it was open, by the bytes from it on.
#[tactic(auto, using(crate::proofs::Ending::gate_signs))]
fn shows_changed_gate(alloc: Global, version: u8, bytes: &[u8]) -> Result<bool, FileFault>
    ensures value { IfOk result (λ shows. shows ≡ shows_changed_gate version bytes.now) }
    ensures memory { IfErr result (λ fault. fault ≡ FileFault.Memory) }
{
    if bytes.is_empty() {
        return Ok(false);
    }
    let (gate, behind) = bytes.split_at(1);
    if gate[0] == OPEN_GATE {
        return Ok(false);
    }
    let Some(size) = size_in(alloc, version, behind)? else {
        return Ok(false);
    };
    if gate[0] != CLOSED_GATE {
        return Ok(true);
    }
    let (_, after) = behind.split_at(size);
    goes_on(alloc, version, after)
}

/// Returns whether bytes behind a whole record show more than a crash leaves.
#[tactic(auto, using(crate::proofs::Ending::gate_signs))]
fn goes_on(alloc: Global, version: u8, after: &[u8]) -> Result<bool, FileFault>
    ensures value { IfOk result (λ goes. goes ≡ goes_on version after.now) }
    ensures memory { IfErr result (λ fault. fault ≡ FileFault.Memory) }
{
    if after.is_empty() {
        return Ok(false);
    }
    if after[0] == OPEN_GATE {
        return Ok(true);
    }
    let second = size_in(alloc, version, &after[1..])?;
    Ok(second.is_some())
}

/// Returns the offset of the closed gate that ends a file's bytes, if what stands there shows that
/// it was changed on the disk: behind it is a whole record, and it isn't 0, or behind the record is
/// an open gate, or another whole record. The records behind it are not read then. Of bytes that
/// are no file the answer says nothing.
///
/// A gate that was changed to 0 in front of the last record isn't found, since a crash leaves the
/// same. That no crash leaves more isn't proved: what isn't synced may be any bytes after it. One
/// in [`append_all`](crate::NodeFile::append_all) of two or more objects may leave more: they were
/// never acknowledged.
///
/// Refused with 99 `Memory`. It takes memory for two records.
#[tactic(auto, unfolding(crate::specs::Gates::changed_gate))]
pub fn changed_gate(alloc: Global, bytes: &[u8]) -> Result<Option<usize>, FileFault>
    ensures value { IfOk result (λ gate. gate ≡ changed_gate bytes.now) }
    ensures refused { IfErr result (λ fault. fault ≡ FileFault.Memory) }
{
    let Some(gate) = end_of_records(bytes) else {
        return Ok(None);
    };
    let Ok((version, _)) = read_front(&bytes[..FRONT_LEN]) else {
        return Ok(None);
    };
    if shows_changed_gate(alloc, version, &bytes[gate..])? {
        Ok(Some(gate))
    } else {
        Ok(None)
    }
}

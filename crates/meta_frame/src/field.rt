//! The fields that other formats are made of too, from the front of bytes.

ghost use Rattle.std.specs.Prelude.{◌≡◌, IfOk};
ghost use Rattle.meta_types.specs.Failing.{FailsWith};
ghost use Rattle.frame_fields.specs.Field.{prefix, key, vector, object};
ghost use Rattle.meta_frame.specs.Reading.{offset_of};
ghost use Rattle.meta_frame.specs.Front.{Begins, RefusesField};

use crate::fault::FrameFault;
use dvvset::{Entries, Vector};
use frame_readers::FieldFault;
use frame_readers::reading::{read_key, read_object, read_prefix, read_vector};
use meta_types::{FullPrefix, MetaKey};
use std::alloc::Global;

/// Returns the full prefix at the front of the bytes, and the bytes after it. Otherwise 15
/// `BadBody` at the first byte of the first field that is at fault, counted from the front of these
/// bytes.
pub fn get_prefix(alloc: Global, bytes: &[u8]) -> Result<(FullPrefix, &[u8]), FrameFault>
    ensures found { IfOk result (λ x. Begins prefix bytes.now x.0 x.1.now) }
    ensures refused { FailsWith FrameFault.Memory (RefusesField prefix bytes.now) result }
{
    match read_prefix(alloc, bytes) {
        Ok(found) => Ok(found),
        Err(fault) => Err(offset(bytes, fault)),
    }
}

/// Returns the key at the front of the bytes, and the bytes after it; refused as `get_prefix` is.
pub fn get_key(alloc: Global, bytes: &[u8]) -> Result<(MetaKey, &[u8]), FrameFault>
    ensures found { IfOk result (λ x. Begins key bytes.now x.0 x.1.now) }
    ensures refused { FailsWith FrameFault.Memory (RefusesField key bytes.now) result }
{
    match read_key(alloc, bytes) {
        Ok(found) => Ok(found),
        Err(fault) => Err(offset(bytes, fault)),
    }
}

/// Returns the vector at the front of the bytes, and the bytes after it; refused as `get_prefix`
/// is.
pub fn get_vector(alloc: Global, bytes: &[u8]) -> Result<(Vector, &[u8]), FrameFault>
    ensures found { IfOk result (λ x. Begins vector bytes.now x.0 x.1.now) }
    ensures refused { FailsWith FrameFault.Memory (RefusesField vector bytes.now) result }
{
    match read_vector(alloc, bytes) {
        Ok(found) => Ok(found),
        Err(fault) => Err(offset(bytes, fault)),
    }
}

/// Returns the object at the front of the bytes, and the bytes after it; refused as `get_prefix`
/// is.
pub fn get_object(alloc: Global, bytes: &[u8]) -> Result<(Entries, &[u8]), FrameFault>
    ensures found { IfOk result (λ x. Begins object bytes.now x.0 x.1.now) }
    ensures refused { FailsWith FrameFault.Memory (RefusesField object bytes.now) result }
{
    match read_object(alloc, bytes) {
        Ok(found) => Ok(found),
        Err(fault) => Err(offset(bytes, fault)),
    }
}

/// Returns the refusal of a fault, with its offset in the bytes.
pub(crate) fn offset(bytes: &[u8], fault: FieldFault) -> FrameFault
    ensures { result ≡ offset_of bytes.now fault }
{
    match fault {
        FieldFault::Memory => FrameFault::Memory,
        FieldFault::Left(left) => FrameFault::BadBody {
            at: bytes.len().saturating_sub(left),
        },
    }
}

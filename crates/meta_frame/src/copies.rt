//! Copies of two fields that both hold memory, each in a function of its own: the proof of one
//! function that copied them for all kinds takes many times as long.

ghost use Rattle.std.specs.Prelude.{◌≡◌, IfOk};

use dvvset::{Entries, Vector};
use frame_fields::{Digests, KeyDigests};
use meta_types::{FullPrefix, MetaKey};
use std::alloc::AllocError;

pub(crate) fn copy_carried(
    key: &MetaKey,
    object: &Entries,
) -> Result<(MetaKey, Entries), AllocError>
    ensures { IfOk result (λ copies. (copies.0 ≡ key.now) × (copies.1 ≡ object.now)) }
{
    let key = key.copy()?;
    Ok((key, object.copy()?))
}

pub(crate) fn copy_announced(
    key: &MetaKey,
    vector: &Vector,
) -> Result<(MetaKey, Vector), AllocError>
    ensures { IfOk result (λ copies. (copies.0 ≡ key.now) × (copies.1 ≡ vector.now)) }
{
    let key = key.copy()?;
    Ok((key, vector.copy()?))
}

pub(crate) fn copy_digests(
    prefix: &FullPrefix,
    digests: &Digests,
) -> Result<(FullPrefix, Digests), AllocError>
    ensures { IfOk result (λ copies. (copies.0 ≡ prefix.now) × (copies.1 ≡ digests.now)) }
{
    let prefix = prefix.copy()?;
    Ok((prefix, digests.copy()?))
}

pub(crate) fn copy_keys(
    prefix: &FullPrefix,
    keys: &KeyDigests,
) -> Result<(FullPrefix, KeyDigests), AllocError>
    ensures { IfOk result (λ copies. (copies.0 ≡ prefix.now) × (copies.1 ≡ keys.now)) }
{
    let prefix = prefix.copy()?;
    Ok((prefix, keys.copy()?))
}

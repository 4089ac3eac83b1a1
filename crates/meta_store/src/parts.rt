//! The map by full prefix in which a store keeps its table.

ghost use Rattle.std.specs.Prelude.{◌≡◌, None, Some, is_none, is_some, IfErr, IfOk, OnOk, OnErr, true};
ghost use Rattle.std.specs.FinMap.{find, is_sorted, put};
ghost use Rattle.meta_types.specs.Name.{IsName};
ghost use Rattle.meta_types.specs.Order.{bytes_cmp, prefix_cmp};
ghost use Rattle.meta_store.specs.Kept.{rows_at, with_rows, without_row};

use crate::rows::Rows;
use dvvset::Entries;
use meta_types::{ByteString, FullPrefix};
use std::alloc::{AllocError, Global};
use std::collections::BTreeMap;

/// Holds the object under the key in place of what is held there, and returns whether the key is
/// new. Fails only when memory runs out for a new key, and then nothing changes.
pub(crate) fn put_part(
    alloc: Global,
    parts: &mut BTreeMap<FullPrefix, Rows>,
    prefix: FullPrefix,
    key: ByteString,
    object: Entries,
) -> Result<bool, AllocError>
    requires in_range { IsName 256 key }
    requires rising { is_sorted prefix_cmp parts.old.entries ≡ true }
    ensures value { OnOk result (parts.new.entries
        ≡ put prefix_cmp prefix (put bytes_cmp key object (rows_at prefix parts.old.entries))
        parts.old.entries) }
    ensures is_new { IfOk result (λ is_new. is_new
        ≡ is_none (find bytes_cmp key (rows_at prefix parts.old.entries))) }
    ensures absent { OnErr result
        (find bytes_cmp key (rows_at prefix parts.old.entries) ≡ None) }
    ensures same { OnErr result (parts.new.entries ≡ parts.old.entries) }
{
    if let Some(rows) = parts.get_mut(&prefix) {
        return rows.hold(key, object);
    }
    let rows = Rows::of_one(alloc, key, object)?;
    parts.insert(prefix, rows)?;
    Ok(true)
}

/// Puts the object in the place of the one that is held under the key, and returns that one. If the
/// key isn't held, the object comes back and nothing changes. It takes no memory.
pub(crate) fn replace_in_part(
    parts: &mut BTreeMap<FullPrefix, Rows>,
    prefix: &FullPrefix,
    key: &ByteString,
    object: Entries,
) -> Result<Entries, Entries>
    requires rising { is_sorted prefix_cmp parts.old.entries ≡ true }
    ensures value { OnOk result (parts.new.entries ≡ put prefix_cmp prefix.now
        (put bytes_cmp key.now object (rows_at prefix.now parts.old.entries))
        parts.old.entries) }
    ensures before { IfOk result (λ before.
        find bytes_cmp key.now (rows_at prefix.now parts.old.entries) ≡ Some before) }
    ensures absent { OnErr result
        (find bytes_cmp key.now (rows_at prefix.now parts.old.entries) ≡ None) }
    ensures back { IfErr result (λ back. back ≡ object) }
    ensures same { OnErr result (parts.new.entries ≡ parts.old.entries) }
{
    let Some(rows) = parts.get_mut(prefix) else {
        return Err(object);
    };
    rows.replace(key, object)
}

/// Takes the key and its object out, and the full prefix with its last key; returns whether the key
/// was held. It takes no memory.
pub(crate) fn remove_part(
    parts: &mut BTreeMap<FullPrefix, Rows>,
    prefix: &FullPrefix,
    key: &ByteString,
) -> bool
    requires rising { is_sorted prefix_cmp parts.old.entries ≡ true }
    ensures value { parts.new.entries
        ≡ with_rows prefix.now (without_row key.now (rows_at prefix.now parts.old.entries))
        parts.old.entries }
    ensures was_held { result
        ≡ is_some (find bytes_cmp key.now (rows_at prefix.now parts.old.entries)) }
{
    let Some(rows) = parts.get_mut(prefix) else {
        return false;
    };
    let was_held = rows.forget(key);
    if rows.len() == 0 {
        parts.remove(prefix);
    }
    was_held
}

/// Fails only when memory runs out.
pub(crate) fn copy_parts(
    alloc: Global,
    parts: &BTreeMap<FullPrefix, Rows>,
) -> Result<BTreeMap<FullPrefix, Rows>, AllocError>
    requires rising { is_sorted prefix_cmp parts.now.entries ≡ true }
    ensures { IfOk result (λ copy. copy.entries ≡ parts.now.entries) }
{
    let mut copy = BTreeMap::new(alloc);
    for (prefix, rows) in parts.iter() {
        copy.insert(prefix.copy()?, rows.copy(alloc)?)?;
    }
    Ok(copy)
}

//! The map by full prefix in which a tree keeps its rows.

ghost use Rattle.std.specs.Prelude.{◌≡◌, ◌++◌, None, map, IfOk, OnOk, OnErr, true};
ghost use Rattle.std.specs.List.{flat_map};
ghost use Rattle.std.specs.FinMap.{find, is_sorted, put};
ghost use Rattle.sha2.specs.Sha256.{sha256};
ghost use Rattle.meta_types.specs.Order.{bytes_cmp, prefix_cmp};
ghost use Rattle.frame_fields.specs.Field.{prefix};
ghost use Rattle.meta_store.specs.Kept.{rows_at, table_of, with_rows, without_row};
ghost use Rattle.hash_tree.specs.Tree.{prefix_root, rows_of};
ghost use Rattle.hash_tree.specs.Kept.{AreTreeParts};

use crate::hashing::add_prefix;
use crate::prefix_tree::PrefixTree;
use crate::text_hasher::TextHasher;
use frame_fields::{Digest, PrefixDigest};
use meta_store::Store;
use meta_types::{FullPrefix, MetaKey};
use std::alloc::{AllocError, Global};
use std::collections::BTreeMap;

/// Holds the digest under the key in place of what stands there. A key that is there is never
/// refused. Fails only when memory runs out for a new key, and then nothing changes.
pub(crate) fn put_part(
    alloc: Global,
    parts: &mut BTreeMap<FullPrefix, PrefixTree>,
    key: &MetaKey,
    digest: Digest,
) -> Result<(), AllocError>
    requires rising { is_sorted prefix_cmp parts.old.entries ≡ true }
    ensures value { OnOk result (parts.new.entries ≡ put prefix_cmp key.now.prefix
        (put bytes_cmp key.now.key digest (rows_at key.now.prefix parts.old.entries))
        parts.old.entries) }
    ensures absent { OnErr result
        (find bytes_cmp key.now.key (rows_at key.now.prefix parts.old.entries) ≡ None) }
    ensures same { OnErr result (parts.new.entries ≡ parts.old.entries) }
{
    if let Some(tree) = parts.get_mut(key.prefix()) {
        return tree.hold(key.own_bytes(), digest);
    }
    let mut tree = PrefixTree::new(alloc)?;
    tree.hold(key.own_bytes(), digest)?;
    parts.insert(key.prefix().copy()?, tree)?;
    Ok(())
}

/// Takes the key and its digest out, and the full prefix with its last key. It takes no memory.
pub(crate) fn remove_part(parts: &mut BTreeMap<FullPrefix, PrefixTree>, key: &MetaKey)
    requires rising { is_sorted prefix_cmp parts.old.entries ≡ true }
    ensures { parts.new.entries ≡ with_rows key.now.prefix
        (without_row key.now.key (rows_at key.now.prefix parts.old.entries)) parts.old.entries }
{
    let Some(tree) = parts.get_mut(key.prefix()) else {
        return;
    };
    tree.forget(key.own_bytes());
    if tree.is_empty() {
        parts.remove(key.prefix());
    }
}

/// Returns the trees of a store's full prefixes.
pub(crate) fn parts_of(
    alloc: Global,
    store: &Store,
) -> Result<BTreeMap<FullPrefix, PrefixTree>, AllocError>
    ensures parts { IfOk result (λ parts. AreTreeParts parts.entries) }
    ensures rows { IfOk result (λ parts. table_of parts.entries ≡ rows_of store.now) }
{
    let mut parts = BTreeMap::new(alloc);
    for (prefix, rows) in store.iter() {
        parts.insert(prefix.copy()?, PrefixTree::of_rows(alloc, rows)?)?;
    }
    Ok(parts)
}

/// Returns the digest of the full prefixes with their roots.
pub(crate) fn root_of(parts: &BTreeMap<FullPrefix, PrefixTree>) -> Digest
    ensures { result ≡ sha256
        (flat_map (λ part. prefix.spell part.0 ++ prefix_root part.1) parts.now.entries) }
{
    let mut hasher = TextHasher::new();
    for (prefix, tree) in parts.iter() {
        add_prefix(&mut hasher, prefix);
        hasher.add(tree.root().bytes());
    }
    hasher.finish()
}

/// Returns the full prefixes with their roots, in order. They are copies.
pub(crate) fn roots_of(
    alloc: Global,
    parts: &BTreeMap<FullPrefix, PrefixTree>,
) -> Result<Vec<PrefixDigest>, AllocError>
    ensures { IfOk result (λ roots. roots.items
        ≡ map (λ part. record { prefix = part.0; digest = prefix_root part.1 }) parts.now.entries) }
{
    let mut roots = Vec::with_capacity(alloc, parts.len())?;
    for (prefix, tree) in parts.iter() {
        roots.push(PrefixDigest {
            prefix: prefix.copy()?,
            digest: tree.root(),
        })?;
    }
    Ok(roots)
}

/// Fails only when memory runs out.
pub(crate) fn copy_parts(
    alloc: Global,
    parts: &BTreeMap<FullPrefix, PrefixTree>,
) -> Result<BTreeMap<FullPrefix, PrefixTree>, AllocError>
    requires rising { is_sorted prefix_cmp parts.now.entries ≡ true }
    ensures { IfOk result (λ copy. copy.entries ≡ parts.now.entries) }
{
    let mut copy = BTreeMap::new(alloc);
    for (prefix, tree) in parts.iter() {
        copy.insert(prefix.copy()?, tree.copy()?)?;
    }
    Ok(copy)
}

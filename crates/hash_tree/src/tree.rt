//! The tree of all full prefixes.

ghost use Rattle.std.specs.Prelude.{◌≡◌, ◌≢◌, ◌<◌, [], None, true, IfOk, OnOk, OnErr};
ghost use Rattle.std.specs.FinMap.{find};
ghost use Rattle.meta_types.specs.Order.{key_cmp};
ghost use Rattle.hash_tree.specs.Tree.{prefix_roots, rows_of, tree_root, with_digest, without_digest};
ghost use Rattle.hash_tree.specs.Tree.{bucket, inner_digests, leaf_digests, own_rows};
ghost use Rattle.hash_tree.specs.Rising.{do_keys_rise, do_prefixes_rise};

use crate::bucket::copied;
use crate::hashing::digest_of_all;
use crate::leaves::empty_digest;
use crate::parts::{copy_parts, parts_of, put_part, remove_part, root_of, roots_of};
use crate::prefix_tree::PrefixTree;
use frame_fields::{Digest, KeyDigest, PrefixDigest};
use meta_store::Store;
use meta_types::{FullPrefix, MetaKey};
use std::alloc::{AllocError, Global};
use std::collections::BTreeMap;
use std::marker::Model;

/// What stands for a store in an exchange: its keys, each with the digest of its object, under a
/// tree of digests for each full prefix. A full prefix without keys reads as the empty tree.
#[derive(Debug, Drop)]
pub struct Tree {
    alloc: Global,
    parts: BTreeMap<FullPrefix, PrefixTree>,
}

impl Model for Tree {
    ghost use Rattle.meta_store.specs.Kept.{table_of};
    ghost use Rattle.hash_tree.specs.Tree.{DigestRows};
    ghost use Rattle.hash_tree.specs.Kept.{AreTreeParts};

    ghost Value = { DigestRows };

    ghost view = { λ t. table_of t.parts.entries };

    ghost invariant = { λ t. AreTreeParts t.parts.entries };
}

impl Tree {
    /// Returns the tree of what a store holds, computed from all its keys. Fails only when memory
    /// runs out.
    pub fn from_store(alloc: Global, store: &Store) -> Result<Self, AllocError>
        ensures { IfOk result (λ tree. tree ≡ rows_of store.now) }
    {
        let parts = parts_of(alloc, store)?;
        Ok(Tree { alloc, parts })
    }

    /// Sets the digest of the object under the key. Fails only when memory runs out for a key that
    /// the tree doesn't have, and then nothing changes.
    pub fn update(&mut self, key: &MetaKey, digest: Digest) -> Result<(), AllocError>
        ensures value { OnOk result (self.new ≡ with_digest key.now digest self.old) }
        ensures absent { OnErr result (find key_cmp key.now self.old ≡ None) }
        ensures same { OnErr result (self.new ≡ self.old) }
    {
        put_part(self.alloc, &mut self.parts, key, digest)?;
        Ok(())
    }

    /// Sets the digest of the object under a key that the tree has. It takes no memory.
    pub(crate) fn set(&mut self, key: &MetaKey, digest: Digest)
        requires { find key_cmp key.now self.old ≢ None }
        ensures { self.new ≡ with_digest key.now digest self.old }
    {
        match self.update(key, digest) {
            Ok(()) => {}
            Err(_) => unreachable!(),
        }
    }

    /// Takes the key and its digest out. Nothing changes if the tree doesn't have the key. It takes
    /// no memory.
    pub fn forget(&mut self, key: &MetaKey)
        ensures { self.new ≡ without_digest key.now self.old }
    {
        remove_part(&mut self.parts, key);
    }

    /// Returns the root, computed from the roots of all full prefixes. It takes no memory.
    pub fn root(&self) -> Digest
        ensures { result ≡ tree_root self.now }
    {
        root_of(&self.parts)
    }

    /// Returns the full prefixes that hold a key, in order, each with its root. They are copies.
    /// Fails only when memory runs out.
    pub fn prefix_roots(&self) -> Result<Vec<PrefixDigest>, AllocError>
        ensures value { IfOk result (λ roots. roots.items ≡ prefix_roots self.now) }
        ensures rising { IfOk result (λ roots. do_prefixes_rise roots.items ≡ true) }
    {
        roots_of(self.alloc, &self.parts)
    }

    /// Returns the digests of the sixteen inner nodes of a full prefix. It takes no memory.
    pub fn inner(&self, prefix: &FullPrefix) -> [Digest; 16]
        ensures { result ≡ inner_digests (own_rows prefix.now self.now) }
    {
        match self.parts.get(prefix) {
            Some(tree) => tree.inner(),
            None => [digest_of_all(&empty_leaves()); 16],
        }
    }

    /// Returns the digests of the sixteen leaves under inner node `inner`, below 16, of a full
    /// prefix. It takes no memory.
    pub fn leaves(&self, prefix: &FullPrefix, inner: u8) -> [Digest; 16]
        requires { inner < 16 }
        ensures { result ≡ leaf_digests (own_rows prefix.now self.now) inner }
    {
        match self.parts.get(prefix) {
            Some(tree) => tree.leaves(inner),
            None => empty_leaves(),
        }
    }

    /// Returns the keys in a leaf of a full prefix by their own bytes, in order, each with the
    /// digest of its object. They are copies. Fails only when memory runs out.
    pub fn bucket(&self, prefix: &FullPrefix, leaf: u8) -> Result<Vec<KeyDigest>, AllocError>
        ensures value { IfOk result
            (λ keys. keys.items ≡ bucket (own_rows prefix.now self.now) leaf) }
        ensures rising { IfOk result (λ keys. do_keys_rise keys.items ≡ true) }
    {
        copied(self.alloc, self.lent_bucket(prefix, leaf))
    }

    /// Returns the keys that `bucket` copies, lent as they are kept. It takes no memory.
    pub fn lent_bucket(&self, prefix: &FullPrefix, leaf: u8) -> &[KeyDigest]
        ensures value { result.now ≡ bucket (own_rows prefix.now self.now) leaf }
        ensures rising { do_keys_rise result.now ≡ true }
    {
        match self.parts.get(prefix) {
            Some(tree) => tree.bucket(leaf),
            None => &[],
        }
    }

    /// Fails only when memory runs out.
    pub fn copy(&self) -> Result<Self, AllocError>
        ensures { IfOk result (λ copy. copy ≡ self.now) }
    {
        Ok(Tree {
            alloc: self.alloc,
            parts: copy_parts(self.alloc, &self.parts)?,
        })
    }
}

/// Returns the root of what a store holds, computed from all its keys at once: the leaf of each
/// key, each leaf, inner node and prefix root once. Fails only when memory runs out.
pub fn plain_root(alloc: Global, store: &Store) -> Result<Digest, AllocError>
    ensures { IfOk result (λ digest. digest ≡ tree_root (rows_of store.now)) }
{
    let tree = Tree::from_store(alloc, store)?;
    Ok(tree.root())
}

/// Returns the digests of sixteen leaves without keys.
fn empty_leaves() -> [Digest; 16]
    ensures { result ≡ leaf_digests [] 0 }
{
    [empty_digest(); 16]
}

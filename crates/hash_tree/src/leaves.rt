//! The leaves of one full prefix.

ghost use Rattle.std.specs.Prelude.{◌≡◌, ◌↔◌, [], true, IfOk, OnOk, OnErr, None, IsTrue};
ghost use Rattle.std.specs.FinMap.{find, is_sorted, put};
ghost use Rattle.std.specs.Ordering.{nat_cmp};
ghost use Rattle.meta_types.specs.Name.{IsName};
ghost use Rattle.meta_types.specs.Order.{bytes_cmp};
ghost use Rattle.sha2.specs.Sha256.{sha256};
ghost use Rattle.meta_store.specs.Kept.{without_row};
ghost use Rattle.hash_tree.specs.Tree.{bucket, leaf_digest, leaf_of};
ghost use Rattle.hash_tree.specs.Rising.{do_keys_rise};
ghost use Rattle.hash_tree.specs.Kept.{all_leaf_digests, leaf_at};

use crate::bucket::Bucket;
use frame_fields::{Digest, KeyDigest};
use meta_types::ByteString;
use sha2::{Digest as _, Sha256};
use std::alloc::{AllocError, Global};
use std::collections::BTreeMap;
use std::marker::Model;

/// How many leaves a full prefix has.
pub(crate) const LEAVES: usize = 256;

/// The leaves that hold a key, by number: all keys of one full prefix by their own bytes, each with
/// the digest of its object.
#[derive(Debug, Drop)]
pub(crate) struct Leaves {
    alloc: Global,
    by_number: BTreeMap<u8, Bucket>,
}

impl Model for Leaves {
    ghost use Rattle.hash_tree.specs.Tree.{OwnRows};
    ghost use Rattle.hash_tree.specs.Kept.{AreLeaves, joined};

    ghost Value = { OwnRows };

    ghost view = { λ l. joined l.by_number.entries };

    ghost invariant = { λ l. AreLeaves l.by_number.entries };
}

impl Leaves {
    pub(crate) fn new(alloc: Global) -> Self
        ensures { result ≡ [] }
    {
        Leaves {
            alloc,
            by_number: BTreeMap::new(alloc),
        }
    }

    /// Holds the digest under the key of this leaf in place of what stands there. A key that is
    /// there is never refused. Fails only when memory runs out for a new key, and then nothing
    /// changes.
    pub(crate) fn hold(
        &mut self,
        leaf: u8,
        key: &ByteString,
        digest: Digest,
    ) -> Result<(), AllocError>
        requires leaf { leaf ≡ leaf_of key.now }
        requires in_range { IsName 256 key.now }
        ensures value { OnOk result (self.new ≡ put bytes_cmp key.now digest self.old) }
        ensures absent { OnErr result (find bytes_cmp key.now self.old ≡ None) }
        ensures same { OnErr result (self.new ≡ self.old) }
    {
        put_leaf(self.alloc, &mut self.by_number, leaf, key, digest)
    }

    /// Takes the key of this leaf and its digest out. Nothing changes if the key isn't there. It
    /// takes no memory.
    pub(crate) fn forget(&mut self, leaf: u8, key: &ByteString)
        requires { leaf ≡ leaf_of key.now }
        ensures { self.new ≡ without_row key.now self.old }
    {
        let Some(bucket) = self.by_number.get_mut(&leaf) else {
            return;
        };
        bucket.forget(key);
    }

    /// Returns whether no leaf has a key.
    pub(crate) fn is_empty(&self) -> bool
        ensures { IsTrue result ↔ (self.now ≡ []) }
    {
        for bucket in self.by_number.values() {
            if !bucket.is_empty() {
                return false;
            }
        }
        true
    }

    pub(crate) fn digest(&self, leaf: u8) -> Digest
        ensures { result ≡ leaf_digest self.now leaf }
    {
        match self.by_number.get(&leaf) {
            Some(bucket) => bucket.digest(),
            None => empty_digest(),
        }
    }

    /// Returns the digest of a leaf, which is `empty` if it has no keys.
    fn digest_or(&self, leaf: u8, empty: Digest) -> Digest
        requires { empty ≡ sha256 [] }
        ensures { result ≡ leaf_digest self.now leaf }
    {
        match self.by_number.get(&leaf) {
            Some(bucket) => bucket.digest(),
            None => empty,
        }
    }

    /// Returns the digests of all 256 leaves.
    pub(crate) fn digests(&self) -> Result<Vec<Digest>, AllocError>
        ensures { IfOk result (λ digests. digests.items ≡ all_leaf_digests self.now) }
    {
        let empty = empty_digest();
        let mut digests = Vec::with_capacity(self.alloc, LEAVES)?;
        for leaf in 0..LEAVES {
            digests.push(self.digest_or(leaf as u8, empty))?;
        }
        Ok(digests)
    }

    /// Returns a leaf's keys with their digests, in order; none if it has none.
    pub(crate) fn bucket(&self, leaf: u8) -> &[KeyDigest]
        ensures value { result.now ≡ bucket self.now leaf }
        ensures rising { do_keys_rise result.now ≡ true }
    {
        match self.by_number.get(&leaf) {
            Some(bucket) => bucket.rows(),
            None => &[],
        }
    }

    /// Fails only when memory runs out.
    pub(crate) fn copy(&self) -> Result<Self, AllocError>
        ensures { IfOk result (λ copy. copy ≡ self.now) }
    {
        Ok(Leaves {
            alloc: self.alloc,
            by_number: copy_leaves(self.alloc, &self.by_number)?,
        })
    }
}

/// Returns the digest of a leaf without keys.
pub(crate) fn empty_digest() -> Digest
    ensures { result ≡ sha256 [] }
{
    Digest::new(Sha256::new().finalize())
}

fn put_leaf(
    alloc: Global,
    leaves: &mut BTreeMap<u8, Bucket>,
    leaf: u8,
    key: &ByteString,
    digest: Digest,
) -> Result<(), AllocError>
    requires in_range { IsName 256 key.now }
    requires rising { is_sorted nat_cmp leaves.old.entries ≡ true }
    ensures value { OnOk result (leaves.new.entries
        ≡ put nat_cmp leaf (put bytes_cmp key.now digest (leaf_at leaf leaves.old.entries))
        leaves.old.entries) }
    ensures absent { OnErr result
        (find bytes_cmp key.now (leaf_at leaf leaves.old.entries) ≡ None) }
    ensures same { OnErr result (leaves.new.entries ≡ leaves.old.entries) }
{
    if let Some(bucket) = leaves.get_mut(&leaf) {
        return bucket.hold(key, digest);
    }
    let bucket = Bucket::of_one(alloc, key.copy()?, digest)?;
    leaves.insert(leaf, bucket)?;
    Ok(())
}

fn copy_leaves(
    alloc: Global,
    leaves: &BTreeMap<u8, Bucket>,
) -> Result<BTreeMap<u8, Bucket>, AllocError>
    requires rising { is_sorted nat_cmp leaves.now.entries ≡ true }
    ensures { IfOk result (λ copy. copy.entries ≡ leaves.now.entries) }
{
    let mut copy = BTreeMap::new(alloc);
    for (leaf, bucket) in leaves.iter() {
        copy.insert(*leaf, bucket.copy(alloc)?)?;
    }
    Ok(copy)
}

//! The tree of one full prefix.

ghost use Rattle.std.specs.Prelude.{true, ◌≡◌, ◌↔◌, ◌<◌, ◌*◌, [], length, take, drop, All, IsTrue};
ghost use Rattle.std.specs.Prelude.{IfOk, OnOk, OnErr, None};
ghost use Rattle.std.specs.FinMap.{find, put};
ghost use Rattle.meta_types.specs.Name.{IsName};
ghost use Rattle.meta_types.specs.Order.{bytes_cmp};
ghost use Rattle.meta_store.specs.Kept.{without_row};
ghost use Rattle.meta_store.specs.Table.{IsHeld};
ghost use Rattle.hash_tree.specs.Tree.{bucket, digest_rows, inner_digests, leaf_digests, prefix_root};
ghost use Rattle.hash_tree.specs.Rising.{do_keys_rise};
ghost use Rattle.hash_tree.specs.Kept.{AreDigestsBut, all_leaf_digests, inner_over};

use crate::hashing::{digest_of_all, leaf_of};
use crate::leaves::Leaves;
use crate::object::object_digest;
use frame_fields::{Digest, KeyDigest};
use meta_store::Rows;
use meta_types::ByteString;
use std::alloc::{AllocError, Global};
use std::marker::Model;

/// How many inner nodes a full prefix has, and how many leaves stand under each.
pub(crate) const FAN: usize = 16;

/// The tree of one full prefix: its keys by leaf, and the digests of all leaves, of the inner nodes
/// and of the root, which are kept.
#[derive(Debug, Drop)]
pub(crate) struct PrefixTree {
    leaves: Leaves,
    leaf_digests: Vec<Digest>,
    inner: [Digest; 16],
    root: Digest,
}

impl Model for PrefixTree {
    ghost use Rattle.std.specs.Prelude.{◌≡◌};
    ghost use Rattle.hash_tree.specs.Tree.{OwnRows, inner_digests, prefix_root};
    ghost use Rattle.hash_tree.specs.Kept.{all_leaf_digests};

    ghost Value = { OwnRows };

    ghost view = { λ t. t.leaves };

    ghost invariant = { λ t. record {
      leaf_digests : t.leaf_digests.items ≡ all_leaf_digests t.leaves;
      inner : t.inner ≡ inner_digests t.leaves;
      root : t.root ≡ prefix_root t.leaves;
    } };
}

impl PrefixTree {
    pub(crate) fn new(alloc: Global) -> Result<Self, AllocError>
        ensures { IfOk result (λ tree. tree ≡ []) }
    {
        PrefixTree::of_leaves(Leaves::new(alloc))
    }

    /// Returns the tree of these leaves, whose digests it computes.
    fn of_leaves(leaves: Leaves) -> Result<Self, AllocError>
        ensures { IfOk result (λ tree. tree ≡ leaves) }
    {
        let leaf_digests = leaves.digests()?;
        let inner = inner_of(leaf_digests.as_slice());
        let root = digest_of_all(&inner);
        Ok(PrefixTree {
            leaves,
            leaf_digests,
            inner,
            root,
        })
    }

    /// Returns the tree of the keys under a full prefix. The leaf of a key is computed once, and so
    /// is each digest.
    pub(crate) fn of_rows(alloc: Global, rows: &Rows) -> Result<Self, AllocError>
        requires held { All (λ row. IsHeld row.1) rows.now }
        ensures { IfOk result (λ tree. tree ≡ digest_rows rows.now) }
    {
        let mut leaves = Leaves::new(alloc);
        for (key, object) in rows.iter() {
            leaves.hold(leaf_of(key.as_slice()), key, object_digest(object))?;
        }
        PrefixTree::of_leaves(leaves)
    }

    /// Holds the digest under the key in place of what stands there; one leaf, one inner node and
    /// the root are computed. A key that is there is never refused. Fails only when memory runs out
    /// for a new key, and then nothing changes.
    pub(crate) fn hold(&mut self, key: &ByteString, digest: Digest) -> Result<(), AllocError>
        requires in_range { IsName 256 key.now }
        ensures value { OnOk result (self.new ≡ put bytes_cmp key.now digest self.old) }
        ensures absent { OnErr result (find bytes_cmp key.now self.old ≡ None) }
        ensures same { OnErr result (self.new ≡ self.old) }
    {
        let leaf = leaf_of(key.as_slice());
        self.leaves.hold(leaf, key, digest)?;
        self.root = renew(leaf, &self.leaves, &mut self.leaf_digests, &mut self.inner);
        Ok(())
    }

    /// Takes the key and its digest out; one leaf, one inner node and the root are computed. It
    /// takes no memory.
    pub(crate) fn forget(&mut self, key: &ByteString)
        ensures { self.new ≡ without_row key.now self.old }
    {
        let leaf = leaf_of(key.as_slice());
        self.leaves.forget(leaf, key);
        self.root = renew(leaf, &self.leaves, &mut self.leaf_digests, &mut self.inner);
    }

    pub(crate) fn is_empty(&self) -> bool
        ensures { IsTrue result ↔ (self.now ≡ []) }
    {
        self.leaves.is_empty()
    }

    pub(crate) fn root(&self) -> Digest
        ensures { result ≡ prefix_root self.now }
    {
        self.root
    }

    /// Returns the digests of the inner nodes.
    pub(crate) fn inner(&self) -> [Digest; 16]
        ensures { result ≡ inner_digests self.now }
    {
        self.inner
    }

    /// Returns the digests of the leaves under an inner node.
    pub(crate) fn leaves(&self, inner: u8) -> [Digest; 16]
        requires { inner < 16 }
        ensures { result ≡ leaf_digests self.now inner }
    {
        let mut part = self.inner;
        part.copy_from_slice(sixteen(self.leaf_digests.as_slice(), inner as usize));
        part
    }

    /// Returns the keys of a leaf with their digests, in order.
    pub(crate) fn bucket(&self, leaf: u8) -> &[KeyDigest]
        ensures value { result.now ≡ bucket self.now leaf }
        ensures rising { do_keys_rise result.now ≡ true }
    {
        self.leaves.bucket(leaf)
    }

    /// Fails only when memory runs out.
    pub(crate) fn copy(&self) -> Result<Self, AllocError>
        ensures { IfOk result (λ copy. copy ≡ self.now) }
    {
        Ok(PrefixTree {
            leaves: self.leaves.copy()?,
            leaf_digests: copied(&self.leaf_digests)?,
            inner: self.inner,
            root: self.root,
        })
    }
}

/// Computes the digests of a leaf and of its inner node, puts them in their places, and returns the
/// root over them. It takes no memory.
fn renew(
    leaf: u8,
    leaves: &Leaves,
    leaf_digests: &mut Vec<Digest>,
    inner: &mut [Digest; 16],
) -> Digest
    requires { AreDigestsBut leaf leaves.now leaf_digests.old.items inner.old }
    ensures leaf_digests { leaf_digests.new.items ≡ all_leaf_digests leaves.now }
    ensures inner { inner.new ≡ inner_digests leaves.now }
    ensures root { result ≡ prefix_root leaves.now }
{
    leaf_digests[leaf as usize] = leaves.digest(leaf);
    let node = leaf as usize / FAN;
    inner[node] = digest_of_all(sixteen(leaf_digests.as_slice(), node));
    digest_of_all(inner)
}

fn copied(digests: &Vec<Digest>) -> Result<Vec<Digest>, AllocError>
    ensures { IfOk result (λ copy. copy.items ≡ digests.now.items) }
{
    digests.clone()
}

/// Returns the digests of the leaves under an inner node, from those of all leaves.
fn sixteen(leaf_digests: &[Digest], inner: usize) -> &[Digest]
    requires all { length leaf_digests.now ≡ 256 }
    requires place { inner < 16 }
    ensures { result.now ≡ take 16 (drop (16 * inner) leaf_digests.now) }
{
    &leaf_digests[FAN * inner..][..FAN]
}

/// Returns the digests of the inner nodes over all leaves.
fn inner_of(leaf_digests: &[Digest]) -> [Digest; 16]
    requires { length leaf_digests.now ≡ 256 }
    ensures { result ≡ inner_over leaf_digests.now }
{
    let mut inner = [leaf_digests[0]; 16];
    for place in 0..FAN {
        inner[place] = digest_of_all(sixteen(leaf_digests, place));
    }
    inner
}

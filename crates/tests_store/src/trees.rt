//! Stores and their trees. What takes memory here is asked for once more if it is refused, so that
//! a test under refused memory gets its parts whichever single allocation is refused.

ghost use Rattle.std.specs.Prelude.{◌≡◌};
ghost use Rattle.hash_tree.specs.Tree.{rows_of};

use crate::parts::{actor, either, key, value};
use frame_fields::Digest;
use hash_tree::{Tree, object_digest, plain_root};
use meta_store::{Store, StoreFault};
use meta_types::{FullPrefix, MetaKey};
use std::alloc::Global;
use std::process::Abort;

/// A full prefix of two letters, and a key of one.
pub type Letters = [u8; 3];

pub fn key_of(rt: &impl Abort, alloc: Global, letters: Letters) -> MetaKey {
    let [prefix, sub, own] = letters;
    key(rt, alloc, &[prefix], &[sub], &[own])
}

fn write_once(
    rt: &impl Abort,
    alloc: Global,
    store: &mut Store,
    node: u16,
    key: &MetaKey,
    body: u8,
) -> Result<(), StoreFault> {
    let key = either(rt, key.copy(), key.copy());
    let value = value(rt, alloc, body, 1);
    store.put(actor(rt, node, 1), key, value, None)
}

/// Writes the letter under the key, by the node in its first life, over nothing that was read.
pub fn write(
    rt: &impl Abort,
    alloc: Global,
    store: &mut Store,
    node: u16,
    key: &MetaKey,
    body: u8,
) {
    if write_once(rt, alloc, store, node, key, body).is_err() {
        write_once(rt, alloc, store, node, key, body).expect(rt, "a write");
    }
}

/// Returns a store in which node 0 wrote x under each of the keys.
pub fn filled(rt: &impl Abort, alloc: Global, keys: &[Letters]) -> Store {
    let mut store = Store::new(alloc);
    for letters in keys {
        write(rt, alloc, &mut store, 0, &key_of(rt, alloc, *letters), b'x');
    }
    store
}

/// Returns the tree of all that the store holds.
pub fn tree_of(rt: &impl Abort, alloc: Global, store: &Store) -> Tree
    ensures { result ≡ rows_of store.now }
{
    match Tree::from_store(alloc, store) {
        Ok(tree) => tree,
        Err(_) => Tree::from_store(alloc, store).expect(rt, "memory once more"),
    }
}

/// Takes what the store holds under the key into the tree.
pub fn follow(rt: &impl Abort, tree: &mut Tree, store: &Store, key: &MetaKey) {
    let digest = object_digest(store.object(key).expect(rt, "an object"));
    if tree.update(key, digest).is_err() {
        tree.update(key, digest).expect(rt, "memory once more");
    }
}

/// Writes the letter under the key, and takes that into the tree.
pub fn grow(
    rt: &impl Abort,
    alloc: Global,
    store: &mut Store,
    tree: &mut Tree,
    key: &MetaKey,
    body: u8,
) {
    write(rt, alloc, store, 0, key, body);
    follow(rt, tree, store, key);
}

/// Returns the root of all that the store holds, computed at once.
pub fn plain(rt: &impl Abort, alloc: Global, store: &Store) -> Digest {
    either(rt, plain_root(alloc, store), plain_root(alloc, store))
}

fn root_of_copy(rt: &impl Abort, tree: &Tree) -> Digest {
    either(rt, tree.copy(), tree.copy()).root()
}

/// Returns how many full prefixes the tree has.
pub fn prefixes(rt: &impl Abort, tree: &Tree) -> usize {
    either(rt, tree.prefix_roots(), tree.prefix_roots()).len()
}

fn bucket_len(rt: &impl Abort, tree: &Tree, prefix: &FullPrefix, leaf: u8) -> usize {
    either(rt, tree.bucket(prefix, leaf), tree.bucket(prefix, leaf)).len()
}

/// Returns how many keys the leaves of a full prefix have together.
pub fn listed(rt: &impl Abort, tree: &Tree, prefix: &FullPrefix) -> usize {
    let mut listed = 0_usize;
    for leaf in 0..=u8::MAX {
        listed = listed.saturating_add(bucket_len(rt, tree, prefix, leaf));
    }
    listed
}

/// Returns whether the roots of the tree and of its copy are the root of all keys at once, and the
/// tree has `len` full prefixes.
pub fn is_whole(rt: &impl Abort, alloc: Global, tree: &Tree, store: &Store, len: usize) -> bool {
    let root = tree.root();
    plain(rt, alloc, store) == root && root_of_copy(rt, tree) == root && prefixes(rt, tree) == len
}

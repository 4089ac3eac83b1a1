//! The digests of a tree, compared with digests that a program in another language computed.

use crate::parts::prefix;
use crate::trees::{Letters, filled, tree_of};
use frame_fields::{Digest, KeyDigest, PrefixDigest};
use hash_tree::Tree;
use meta_types::FullPrefix;
use std::alloc::Global;
use std::process::Abort;

// The digests here were computed by a program in another language, with its own SHA-256, from the
// letters of the keys.

/// The digest of no bytes: of a leaf without keys, and the root of a table without keys.
const EMPTY: &str = "e3b0c44298fc1c149afbf4c8996fb92427ae41e4649b934ca495991b7852b855";

/// The digest of an inner node over such leaves.
const EMPTY_INNER: &str = "4e08d3e5182692706e7b518147ddf4e4ba2084a38f06239db6f7229eae0118db";

/// The digest of the inner node over the leaves 16 to 31 of the full prefix a/b of the five keys.
const INNER_1: &str = "d121f353ca00794ea0d90386e5ac93d15a307611ac18beba1064f5a50ff5af07";

/// The digest of each object here.
const OBJECT: &str = "682b79932e99888333f0d4424e00cabfcb32d7bf5f661d69c55973b6536d587c";

/// Five keys under two full prefixes. The first, the second and the fourth stand in leaf 24, and
/// the last in leaf 130.
static FIVE: [Letters; 5] = [*b"abj", *b"abY", *b"cdk", *b"abd", *b"abk"];

/// The keys written, and the root of their table.
static ROOTS: [(&[Letters], &str); 3] = [
    (&[], EMPTY),
    (
        &[*b"abj"],
        "bdefa3e2d1ad744f04f7d9eb8e127625961f8f26bf1b7ae356f867dab526b9f7",
    ),
    (
        &[*b"abj", *b"abY", *b"cdk", *b"abd", *b"abk"],
        "f11044f2028e5b8d3cc5f11528a3fddc34a0de11f1d8d9084e0f6c75cb4aac51",
    ),
];

type PrefixRoot = ([u8; 2], &'static str);

/// The full prefixes of the five keys, with their roots.
static PREFIX_ROOTS: [PrefixRoot; 2] = [
    (
        *b"ab",
        "44b4c1ae5ace08149c91ef0b97ba2f4b3752e64d7d8247446fac212064bff45f",
    ),
    (
        *b"cd",
        "62a78aa9b4990c6c69ebd41c587e19b420c67066361c43db112008bd986d174b",
    ),
];

/// A full prefix, the number of a leaf of it, the digest of the inner node above the leaf, the
/// digest of the leaf, and its keys in order.
type Leaf = ([u8; 2], u8, &'static str, &'static str, &'static [u8]);

/// Leaves of the tree of the five keys. It has no full prefix a/c.
static LEAVES: [Leaf; 8] = [
    (*b"ab", 0, EMPTY_INNER, EMPTY, b""),
    (*b"ab", 23, INNER_1, EMPTY, b""),
    (
        *b"ab",
        24,
        INNER_1,
        "5888c142c1ecefdce1fdbf9c84562c0fbbe68ff557147aed9bd8cd6232889bdf",
        b"Ydj",
    ),
    (*b"ab", 25, INNER_1, EMPTY, b""),
    (
        *b"ab",
        130,
        "e887d7730ab1f29f77bc4599265ac07d9b3d39c952646e4afa32a05694e4ee36",
        "453c95ec08cf7fb766b764f1dc8bb1154631756fbe52df2c8efc6a6751831ff7",
        b"k",
    ),
    (*b"ac", 0, EMPTY_INNER, EMPTY, b""),
    (*b"ac", 24, EMPTY_INNER, EMPTY, b""),
    (*b"ac", 255, EMPTY_INNER, EMPTY, b""),
];

/// Returns the tree of the five keys.
fn five(rt: &impl Abort, alloc: Global) -> Tree {
    tree_of(rt, alloc, &filled(rt, alloc, &FIVE))
}

/// Returns whether these hexadecimal digits spell the digest.
fn is(rt: &impl Abort, alloc: Global, digest: &Digest, digits: &str) -> bool {
    let text = hex::encode(alloc, digest.bytes()).expect(rt, "memory");
    text.as_str() == digits
}

fn is_root(rt: &impl Abort, alloc: Global, keys: &[Letters], digits: &str) -> bool {
    let store = filled(rt, alloc, keys);
    let root = tree_of(rt, alloc, &store).root();
    drop(store);
    is(rt, alloc, &root, digits)
}

#[test]
fn the_root_is_that_of_the_rule(rt: HostRuntime) {
    for (keys, digits) in &ROOTS {
        assert!(rt; is_root(&rt, rt.alloc(), keys, digits));
    }
}

fn is_prefix_root(rt: &impl Abort, alloc: Global, row: &PrefixDigest, of: &PrefixRoot) -> bool {
    let at = prefix(rt, alloc, &of.0[..1], &of.0[1..]);
    row.prefix == at && is(rt, alloc, &row.digest, of.1)
}

fn are_prefix_roots(rt: &impl Abort, alloc: Global, rows: &[PrefixDigest]) -> bool {
    for (row, of) in rows.iter().zip(&PREFIX_ROOTS) {
        if !is_prefix_root(rt, alloc, row, of) {
            return false;
        }
    }
    rows.len() == PREFIX_ROOTS.len()
}

#[test]
fn each_full_prefix_has_its_root(rt: HostRuntime) {
    let roots = five(&rt, rt.alloc()).prefix_roots().expect(&rt, "memory");
    assert!(rt; are_prefix_roots(&rt, rt.alloc(), &roots));
}

fn is_key(rt: &impl Abort, alloc: Global, row: &KeyDigest, letter: u8) -> bool {
    row.key.as_slice() == [letter].as_slice() && is(rt, alloc, &row.digest, OBJECT)
}

fn has_keys(rt: &impl Abort, alloc: Global, rows: &[KeyDigest], keys: &[u8]) -> bool {
    for (row, letter) in rows.iter().zip(keys) {
        if !is_key(rt, alloc, row, *letter) {
            return false;
        }
    }
    rows.len() == keys.len()
}

/// Returns the digest of the inner node above a leaf.
fn inner(tree: &Tree, at: &FullPrefix, leaf: u8) -> Digest {
    tree.inner(at)[usize::from(leaf / 16)]
}

fn leaf_digest(tree: &Tree, at: &FullPrefix, leaf: u8) -> Digest {
    tree.leaves(at, leaf / 16)[usize::from(leaf % 16)]
}

/// Returns whether a leaf is as its row says.
fn is_leaf(rt: &impl Abort, alloc: Global, tree: &Tree, at: &FullPrefix, row: &Leaf) -> bool {
    is(rt, alloc, &inner(tree, at, row.1), row.2)
        && is(rt, alloc, &leaf_digest(tree, at, row.1), row.3)
        && has_keys(
            rt,
            alloc,
            &tree.bucket(at, row.1).expect(rt, "memory"),
            row.4,
        )
}

fn are_leaves(rt: &impl Abort, alloc: Global, tree: &Tree) -> bool {
    for row in &LEAVES {
        let at = prefix(rt, alloc, &row.0[..1], &row.0[1..]);
        if !is_leaf(rt, alloc, tree, &at, row) {
            return false;
        }
    }
    true
}

#[test]
fn leaves_have_their_keys_and_stand_under_their_inner_nodes(rt: HostRuntime) {
    assert!(rt; are_leaves(&rt, rt.alloc(), &five(&rt, rt.alloc())));
}

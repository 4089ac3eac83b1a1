use crate::trees::{follow, key_of, plain, prefixes, tree_of, write};
use hash_tree::Tree;
use meta_store::Store;
use meta_types::MetaKey;
use std::alloc::Global;
use std::process::Abort;

/// Returns a letter among the first `sides` of the alphabet, that looks random, the same in each
/// run.
fn letter(number: u64, sides: u8) -> u8 {
    let state = (number ^ (number >> 5)).wrapping_mul(6_364_136_223_846_793_005);
    let state = (state ^ (state >> 29)).wrapping_mul(1_442_695_040_888_963_407);
    let sides = u64::from(sides.max(1));
    b'a'.saturating_add(((state >> 33) % sides) as u8)
}

/// Writes under the key in `there`, and merges what then stands there into `here`.
fn merge(rt: &impl Abort, alloc: Global, here: &mut Store, there: &mut Store, key: &MetaKey) {
    write(rt, alloc, there, 1, key, b'm');
    let object = there.object(key).expect(rt, "an object");
    let object = object.copy().expect(rt, "memory");
    let key = key.copy().expect(rt, "memory");
    here.merge(key, object).expect(rt, "a merge");
}

/// Changes what stands under one of 8 keys of one of 30 full prefixes, by a write or a merge, and
/// returns it.
fn change(
    rt: &impl Abort,
    alloc: Global,
    here: &mut Store,
    there: &mut Store,
    turn: u64,
) -> MetaKey {
    let turn = turn.saturating_mul(4);
    let letters = [
        letter(turn, 5),
        letter(turn.saturating_add(1), 6),
        letter(turn.saturating_add(2), 8),
    ];
    let key = key_of(rt, alloc, letters);
    if letter(turn.saturating_add(3), 2) == b'a' {
        write(rt, alloc, here, 0, &key, b'w');
    } else {
        merge(rt, alloc, here, there, &key);
    }
    key
}

/// Returns whether after each change the root of the tree is the root of all keys at once.
fn is_followed(
    rt: &impl Abort,
    alloc: Global,
    here: &mut Store,
    there: &mut Store,
    tree: &mut Tree,
) -> bool {
    for turn in 0..1_000 {
        let key = change(rt, alloc, here, there, turn);
        follow(rt, tree, here, &key);
        if tree.root() != plain(rt, alloc, here) {
            return false;
        }
    }
    true
}

#[test]
fn after_each_of_1000_writes_and_merges_the_root_is_that_of_all_keys(rt: HostRuntime) {
    let alloc = rt.alloc();
    let (mut here, mut there) = (Store::new(alloc), Store::new(alloc));
    let mut tree = tree_of(&rt, alloc, &here);
    let is_followed = is_followed(&rt, alloc, &mut here, &mut there, &mut tree);
    let prefixes = prefixes(&rt, &tree);
    drop(tree);
    drop(there);
    drop(here);
    assert!(rt; is_followed & (prefixes == 30));
}

use crate::parts::key;
use crate::trees::{grow, is_whole, listed, tree_of, write};
use meta_store::Store;
use meta_types::MetaKey;
use std::alloc::Global;
use std::process::Abort;

/// Returns the bytes of a number, after `letters` letters.
fn name(rt: &impl Abort, alloc: Global, letters: usize, number: u16) -> Vec<u8> {
    let mut bytes = vec![in alloc; b'n'; letters].expect(rt, "memory");
    bytes
        .extend_from_slice(number.to_be_bytes().as_slice())
        .expect(rt, "memory");
    bytes
}

/// Returns a key of the longest names. The keys of the numbers up to 8,000 stand under one full
/// prefix, and each other key under its own.
fn numbered(rt: &impl Abort, alloc: Global, number: u16) -> MetaKey {
    let prefix = name(rt, alloc, 62, number.saturating_sub(8_000));
    let own = name(rt, alloc, 254, number);
    key(rt, alloc, &prefix, &prefix, &own)
}

/// Makes a store of 8,000 keys under one full prefix, and one key under each of 40 more.
fn filled(rt: &impl Abort, alloc: Global) -> Store {
    let mut store = Store::new(alloc);
    for number in 1..8_041 {
        write(rt, alloc, &mut store, 0, &numbered(rt, alloc, number), b'x');
    }
    store
}

#[test]
fn calls_succeed_on_large_trees(rt: HostRuntime) {
    let alloc = rt.alloc();
    let mut store = filled(&rt, alloc);
    let mut tree = tree_of(&rt, alloc, &store);
    let key = numbered(&rt, alloc, 0);
    grow(&rt, alloc, &mut store, &mut tree, &key, b'x');
    let is_whole = is_whole(&rt, alloc, &tree, &store, 41);
    let listed = listed(&rt, &tree, key.prefix());
    drop(key);
    drop(tree);
    drop(store);
    assert!(rt; is_whole & (listed == 8_001));
}

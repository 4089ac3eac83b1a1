use crate::parts::prefix;
use crate::trees::{Letters, filled, grow, is_whole, key_of, listed, tree_of};
use hash_tree::Tree;
use meta_store::Store;
use std::alloc::Global;
use std::process::Abort;

static FIRST: [Letters; 2] = [*b"abk", *b"abj"];

static LATER: [Letters; 2] = [*b"bak", *b"abY"];

fn grow_later(rt: &impl Abort, alloc: Global, store: &mut Store, tree: &mut Tree) {
    for letters in &LATER {
        grow(rt, alloc, store, tree, &key_of(rt, alloc, *letters), b'y');
    }
}

// Each call is made once more if memory was refused.
// Holds whichever single allocation is refused. Allocates at most 300 times.
#[test]
fn trees_succeed_again_under_refused_memory(rt: HostRuntime) {
    let alloc = rt.alloc();
    let mut store = filled(&rt, alloc, &FIRST);
    let mut tree = tree_of(&rt, alloc, &store);
    grow_later(&rt, alloc, &mut store, &mut tree);
    let is_whole = is_whole(&rt, alloc, &tree, &store, 2);
    let listed = listed(&rt, &tree, &prefix(&rt, alloc, b"a", b"b"));
    drop(tree);
    drop(store);
    assert!(rt; is_whole & (listed == 3));
}

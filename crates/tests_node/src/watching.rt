//! What a watch holds, and which capacities it may have.

use crate::parts::{key, prefix, vector};
use std::alloc::Global;
use std::process::Abort;
use subscriptions::{Change, Watch};

/// Returns the first write of node 0 under a key of a.
fn change(rt: &impl Abort, alloc: Global, sub: &str, own: &str) -> Change {
    let key = key(rt, alloc, b"a", sub.as_bytes(), own.as_bytes());
    let vector = vector(rt, alloc);
    Change { key, vector }
}

/// Returns a watch of a/b with room for two, to which these changes came, each by its sub-prefix
/// and key.
fn watch(rt: &impl Abort, alloc: Global, changes: &[(&str, &str)]) -> Watch {
    let mut watch = match Watch::new(alloc, prefix(rt, alloc, b"a", b"b"), 2) {
        Ok(watch) => watch,
        Err(_) => Watch::new(alloc, prefix(rt, alloc, b"a", b"b"), 2).expect(rt, "a watch"),
    };
    for (sub, key) in changes {
        watch.note(change(rt, alloc, sub, key));
    }
    watch
}

/// Returns what a watch hands out: the keys of its changes, one after the other.
fn handed_out(rt: &impl Abort, alloc: Global, watch: &mut Watch) -> Vec<u8> {
    let mut keys = Vec::new(alloc);
    let changes = watch.take().expect(rt, "memory");
    for change in changes.as_slice() {
        keys.extend_from_slice(change.key.key())
            .expect(rt, "memory");
    }
    keys
}

/// Asserts that the watch has missed `missed` changes, and hands out changes of these keys, in this
/// order.
fn hands_out(rt: &impl Abort, alloc: Global, watch: &mut Watch, missed: u64, keys: &[u8]) {
    assert_eq!(rt; watch.missed(), missed);
    assert_eq!(rt; handed_out(rt, alloc, watch).as_slice(), keys);
}

static CHANGES: [(&str, &str); 4] = [("b", "k"), ("b", "l"), ("c", "x"), ("b", "m")];

#[test]
fn the_oldest_change_is_missed_where_there_is_no_room(rt: HostRuntime) {
    let alloc = rt.alloc();
    let mut watch = watch(&rt, alloc, &CHANGES);
    let mut copy = watch.copy().expect(&rt, "memory");
    hands_out(&rt, alloc, &mut watch, 1, b"lm");
    hands_out(&rt, alloc, &mut watch, 0, b"");
    hands_out(&rt, alloc, &mut copy, 1, b"lm");
}

/// Capacities, and whether a watch may have them.
static CAPACITIES: [(usize, bool); 4] = [(0, false), (1, true), (1024, true), (1025, false)];

#[test]
fn a_watch_has_room_for_1_to_1024_changes(rt: HostRuntime) {
    for (capacity, is_taken) in &CAPACITIES {
        let watch = Watch::new(rt.alloc(), prefix(&rt, rt.alloc(), b"a", b"b"), *capacity);
        assert_eq!(rt; watch.is_ok(), *is_taken, "at {capacity}");
    }
}

// Holds whichever single allocation is refused.
#[test]
fn a_take_is_made_again_under_refused_memory(rt: HostRuntime) {
    let alloc = rt.alloc();
    let mut watch = watch(&rt, alloc, &CHANGES);
    if watch.take().is_err() {
        hands_out(&rt, alloc, &mut watch, 1, b"lm");
    }
}

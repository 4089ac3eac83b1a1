//! Keys that are replaced.

use crate::seal_parts::{FRAME, both, is_opened, only};
use sealed_frames::{Keys, seal};
use std::alloc::Global;

/// Returns whether the frame, sealed under the current one of the keys, is opened under the others.
fn is_taken(alloc: Global, sealing: &Keys, opening: &Keys) -> bool {
    match seal(alloc, sealing, FRAME) {
        Ok(bytes) => is_opened(opening, &bytes, FRAME),
        Err(_) => false,
    }
}

/// Returns whether what either of two nodes seals is opened by the other one.
fn do_talk(alloc: Global, one: &Keys, other: &Keys) -> bool {
    is_taken(alloc, one, other) && is_taken(alloc, other, one)
}

#[test]
fn a_key_is_replaced_while_nodes_talk(rt: HostRuntime) {
    let alloc = rt.alloc();
    let old = only(b"old");
    let first_round = both(b"old", b"new");
    let second_round = both(b"new", b"old");
    let new = only(b"new");
    assert!(rt; do_talk(alloc, &old, &first_round));
    assert!(rt; do_talk(alloc, &first_round, &second_round));
    assert!(rt; do_talk(alloc, &second_round, &new));
}

#[test]
fn a_frame_under_another_key_is_missed(rt: HostRuntime) {
    let alloc = rt.alloc();
    let new_and_old = both(b"new", b"old");
    assert!(rt; !is_taken(alloc, &new_and_old, &only(b"old")));
    assert!(rt; !is_taken(alloc, &only(b"third"), &new_and_old));
    assert!(rt; !is_taken(alloc, &only(b""), &new_and_old));
}

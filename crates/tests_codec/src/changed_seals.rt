//! A sealed frame that changed on the way.

use crate::seal_parts::{FRAME, both, is_refused};
use sealed_frames::{Keys, SealFault, seal};
use std::alloc::Global;

/// Returns whether the byte at the place, with any one of its bits changed, makes the bytes one
/// that is refused. The byte is put back.
fn is_missed(keys: &Keys, bytes: &mut [u8], place: usize) -> bool {
    let mut all_refused = true;
    for mask in [1u8, 2, 4, 8, 16, 32, 64, 128] {
        if place < bytes.len() {
            bytes[place] ^= mask;
            all_refused = all_refused && is_refused(keys, bytes);
            bytes[place] ^= mask;
        }
    }
    all_refused
}

/// Returns whether the bytes are opened, but not with any one bit changed.
fn is_each_bit_missed(keys: &Keys, bytes: &mut [u8]) -> bool {
    for place in 0..bytes.len() {
        if !is_missed(keys, bytes, place) {
            return false;
        }
    }
    !is_refused(keys, bytes)
}

/// Returns whether no front of the bytes is opened except all of them, nor all with one more byte.
fn is_each_front_refused(keys: &Keys, bytes: &mut Vec<u8>) -> bool {
    for len in 0..bytes.len() {
        let (front, _) = bytes.split_at(len.min(bytes.len()));
        if !is_refused(keys, front) {
            return false;
        }
    }
    let is_whole = !is_refused(keys, bytes);
    is_whole && bytes.push(0).is_ok() && is_refused(keys, bytes)
}

#[test]
fn a_sealed_frame_is_refused_with_any_bit_changed(rt: HostRuntime) {
    let keys = both(b"new", b"old");
    let mut bytes = seal(rt.alloc(), &keys, FRAME).expect(&rt, "memory");
    assert!(rt; is_each_bit_missed(&keys, bytes.as_mut_slice()));
}

#[test]
fn a_sealed_frame_is_refused_unless_it_is_whole(rt: HostRuntime) {
    let keys = both(b"new", b"old");
    let mut bytes = seal(rt.alloc(), &keys, FRAME).expect(&rt, "memory");
    assert!(rt; is_each_front_refused(&keys, &mut bytes));
}

/// Returns whether the refusal prints as this text.
fn is_printed(alloc: Global, fault: SealFault, wanted: &str) -> bool {
    match format!(in alloc; "{fault}") {
        Ok(text) => text.as_str() == wanted,
        Err(_) => false,
    }
}

#[test]
fn a_refusal_prints_its_name(rt: HostRuntime) {
    assert!(rt; is_printed(rt.alloc(), SealFault::BadSeal, "BadSeal"));
}

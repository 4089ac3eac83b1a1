//! An object alone, whichever single allocation is refused: what was refused memory succeeds when
//! it is made again.

use dvvset::Entries;
use meta_frame::lawful::is_object;
use meta_frame::{get_object, put_object};
use std::alloc::Global;

/// Returns whether the object is lawful, and added as just these bytes.
fn is_added(alloc: Global, object: &Entries, bytes: &[u8]) -> bool {
    let mut out = Vec::new(alloc);
    is_object(object) && put_object(&mut out, object).is_ok() && out.as_slice() == bytes
}

/// Returns whether the bytes are read as an object, and added as the same bytes again.
fn is_object_kept(alloc: Global, bytes: &[u8]) -> bool {
    match get_object(alloc, bytes) {
        Ok((object, _)) => is_added(alloc, &object, bytes),
        Err(_) => false,
    }
}

// One value x of node 0 in its first life.
static OBJECT: &[u8] = b"\0\x01\0\x00\0\0\0\x01\0\0\0\0\0\0\0\x01\0\x01\x01\0\0\0\0\0\0\0\0\0\x01x";

// Allocates at most 20 times.
#[test]
fn an_object_is_read_and_added_under_refused_memory(rt: HostRuntime) {
    let alloc = rt.alloc();
    assert!(rt; is_object_kept(alloc, OBJECT) || is_object_kept(alloc, OBJECT));
}

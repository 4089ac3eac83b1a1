//! The example of `dvvset`, with letters for values.

use crate::parts::{actor, is_object, value};
use dvvset::{Entries, Vector, join, sync, update};
use std::alloc::Global;
use std::process::Abort;

/// Returns two writes that know nothing of each other, merged.
fn both(rt: &impl Abort, alloc: Global) -> Entries {
    let (blind, absent) = (Vector::empty(alloc), Entries::empty(alloc));
    let red = value(rt, alloc, b'r', 1);
    let here = update(alloc, &blind, &absent, actor(rt, 0, 1), red).expect(rt, "a write");
    let blue = value(rt, alloc, b'b', 1);
    let there = update(alloc, &blind, &absent, actor(rt, 1, 1), blue).expect(rt, "a write");
    sync(alloc, &here, &there).expect(rt, "memory")
}

/// Returns a write over all that an object shows.
fn after(rt: &impl Abort, alloc: Global, both: &Entries) -> Entries {
    let read = join(alloc, both).expect(rt, "memory");
    let green = value(rt, alloc, b'g', 1);
    update(alloc, &read, both, actor(rt, 1, 1), green).expect(rt, "a write")
}

#[test]
fn siblings_stand_until_a_write_has_read_them(rt: HostRuntime) {
    let both = both(&rt, rt.alloc());
    assert!(rt; is_object(&rt, rt.alloc(), &both, &[(0, 1, 1, b"r"), (1, 1, 1, b"b")]));
    let after = after(&rt, rt.alloc(), &both);
    assert!(rt; is_object(&rt, rt.alloc(), &after, &[(0, 1, 1, b""), (1, 1, 2, b"g")]));
}

//! The example of README.md.

use crate::events::{apply, colour, deliver, get, join, new_world, put};
use printing::print_object;
use std::alloc::Global;
use std::process::Abort;
use world_core::{Event, World};

/// Returns whether node 1 shows this under app/flags/colour, as it is printed.
fn is_shown(rt: &impl Abort, alloc: Global, world: &World, wanted: &[u8]) -> bool {
    let store = world.state(1).expect(rt, "a node").store();
    let object = store.object(&colour(rt, alloc)).expect(rt, "an object");
    let mut text = Vec::new(alloc);
    print_object(&mut text, object).expect(rt, "memory");
    text.as_slice() == wanted
}

fn happen(rt: &impl Abort, world: &mut World, event: Event) {
    assert_eq!(rt; apply(world, event), 0);
}

/// Node 1 joins through node 0 by frame 1, a JOIN. Then both write, neither knowing of the other's
/// write. Each sends what it holds to the other: frames 2 and 3, both GOSSIP. Node 1 takes frame 2.
fn write_both(rt: &impl Abort, alloc: Global, world: &mut World) {
    happen(rt, world, join(rt));
    happen(rt, world, deliver(1, 0));
    happen(rt, world, put(rt, alloc, 0, b"red", None));
    happen(rt, world, put(rt, alloc, 1, b"blue", None));
    happen(rt, world, deliver(2, 1));
}

/// A write with the context of a read replaces all that the read showed.
fn write_over(rt: &impl Abort, alloc: Global, world: &mut World) {
    happen(rt, world, get(rt, alloc, 1));
    happen(rt, world, put(rt, alloc, 1, b"green", Some(1)));
}

/// Returns whether node 1 shows both writes, and then the write that replaces them.
fn is_told(rt: &impl Abort, alloc: Global, world: &mut World) -> bool {
    write_both(rt, alloc, world);
    let both = b"ctx 0.1:1,1.1:1 values red,blue".as_slice();
    let shows_both = is_shown(rt, alloc, world, both);
    write_over(rt, alloc, world);
    let one = b"ctx 0.1:1,1.1:2 values green".as_slice();
    shows_both & is_shown(rt, alloc, world, one)
}

#[test]
fn two_nodes_join_write_and_deliver(rt: HostRuntime) {
    let mut world = new_world(&rt, rt.alloc());
    let is_told = is_told(&rt, rt.alloc(), &mut world);
    drop(world);
    assert!(rt; is_told);
}

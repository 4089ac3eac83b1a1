//! A node that holds as many keys as it may: that takes more events than a text has lines.

use crate::events::apply;
use crate::parts::key;
use meta_types::Value;
use node_events::NodeEvent;
use std::alloc::Global;
use std::process::Abort;
use world_core::{Event, World};

/// Writes at node 0 under the key app/flags/#, where # is a number in two bytes.
fn write(rt: &impl Abort, alloc: Global, world: &mut World, number: u16) -> u16 {
    let key = key(rt, alloc, b"app", b"flags", &number.to_be_bytes());
    let value = Value::new(0, None).expect(rt, "a value");
    let event = NodeEvent::Write {
        key,
        value,
        context: None,
    };
    apply(world, Event::Step { node: 0, event })
}

/// Returns whether node 0 takes 8,192 keys.
fn is_filled(rt: &impl Abort, alloc: Global, world: &mut World) -> bool {
    let mut taken = true;
    for number in 0..8_192 {
        taken = taken & (write(rt, alloc, world, number) == 0);
    }
    taken
}

/// One more is refused, and a key that is there is not.
#[test]
fn a_full_node_takes_no_new_key(rt: HostRuntime) {
    let mut world = World::new(rt.alloc(), 1).expect(&rt, "memory");
    let is_filled = is_filled(&rt, rt.alloc(), &mut world);
    let new = write(&rt, rt.alloc(), &mut world, 8_192);
    let old = write(&rt, rt.alloc(), &mut world, 8_191);
    drop(world);
    assert!(rt; is_filled & (new == 25) & (old == 0));
}

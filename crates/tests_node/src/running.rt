//! Runs of events, and worlds of each size.

use crate::events::{CODES, COUNT, code, events, new_world};
use std::alloc::Global;
use std::process::Abort;
use world_core::{Answer, World, WorldFault};

/// Returns whether each outcome has the number of its refusal, or 0.
fn have_codes(rt: &impl Abort, outcomes: &[Result<Answer, WorldFault>]) -> bool {
    let mut have = outcomes.len() == COUNT;
    for place in 0..COUNT {
        let code = code(outcomes.get(place).expect(rt, "an outcome"));
        have = have & (Some(&code) == CODES.get(place));
    }
    have
}

/// Returns whether a copy of each answer equals it.
fn are_copied(rt: &impl Abort, world: &World) -> bool {
    let mut equal = true;
    for accepted in world.accepted() {
        let copy = accepted.answer.copy().expect(rt, "memory");
        equal = equal & (copy == accepted.answer);
        drop(copy);
    }
    equal
}

/// A run goes on after a refused event.
#[test]
fn each_kind_of_event_happens_in_a_run(rt: HostRuntime) {
    let events = events(&rt, rt.alloc());
    let mut world = new_world(&rt, rt.alloc());
    let outcomes = world
        .run(rt.alloc(), events.as_slice())
        .expect(&rt, "memory");
    assert!(rt; have_codes(&rt, outcomes.as_slice()) & (world.accepted().len() == 15));
    assert!(rt; are_copied(&rt, &world));
}

/// How many nodes, and whether there may be a world of them.
static SIZES: [(u64, bool); 6] = [
    (0, false),
    (1, true),
    (16, true),
    (17, false),
    (65_537, false),
    (18_446_744_073_709_551_615, false),
];

fn is_made(alloc: Global, nodes: u64) -> bool {
    World::new(alloc, nodes).is_ok()
}

#[test]
fn a_world_has_1_to_16_nodes(rt: HostRuntime) {
    for (nodes, wanted) in &SIZES {
        assert_eq!(rt; is_made(rt.alloc(), *nodes), *wanted, "at {nodes}");
    }
}

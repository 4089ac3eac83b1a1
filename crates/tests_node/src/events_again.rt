//! Whichever single allocation is refused: an event that is refused memory leaves the world as it
//! was, and gives what it should when it is applied once more. The first event of a world makes
//! room for what it keeps.

use crate::events::{CODES, COUNT, apply, code, event, events, new_world};
use crate::sameness::are_same_worlds;
use std::alloc::Global;
use std::process::Abort;
use world_core::{Answer, Event, World, WorldFault};

/// Applies an event, and once more if memory was refused: then the world is as `other`, to which
/// the same events happened before. Returns the number of what it gives.
fn code_in_the_end(
    rt: &impl Abort,
    alloc: Global,
    world: &mut World,
    other: &World,
    place: usize,
) -> u16 {
    match apply(world, event(rt, alloc, place)) {
        99 => {
            assert!(rt; are_same_worlds(rt, world, other));
            apply(world, event(rt, alloc, place))
        }
        code => code,
    }
}

/// Lets an event happen to `other`, as it happened to the world: it is applied once more if memory
/// was refused.
fn follow(rt: &impl Abort, alloc: Global, other: &mut World, place: usize) {
    if apply(other, event(rt, alloc, place)) == 99 {
        apply(other, event(rt, alloc, place));
    }
}

/// Returns whether each event gives its number in the end, and the worlds are then the same.
fn each_happens(rt: &impl Abort, alloc: Global, world: &mut World, other: &mut World) -> bool {
    let mut happens = true;
    for place in 0..COUNT {
        let code = code_in_the_end(rt, alloc, world, other, place);
        happens = happens & (Some(&code) == CODES.get(place));
        follow(rt, alloc, other, place);
    }
    happens & (world.accepted().len() == 15) & are_same_worlds(rt, world, other)
}

#[test]
fn each_kind_of_event_happens_again_under_refused_memory(rt: HostRuntime) {
    let mut world = new_world(&rt, rt.alloc());
    let mut other = new_world(&rt, rt.alloc());
    let each_happens = each_happens(&rt, rt.alloc(), &mut world, &mut other);
    drop(other);
    drop(world);
    assert!(rt; each_happens);
}

/// Returns what comes of the events. They are run once more if there was no memory for the
/// outcomes: then no event was applied, and the world is as it was.
fn outcomes(
    rt: &impl Abort,
    alloc: Global,
    world: &mut World,
    events: &[Event],
) -> Vec<Result<Answer, WorldFault>> {
    match world.run(alloc, events) {
        Ok(outcomes) => outcomes,
        Err(_) => world.run(alloc, events).expect(rt, "memory once more"),
    }
}

/// Returns how many events were refused memory.
fn refused(outcomes: &[Result<Answer, WorldFault>]) -> usize {
    let mut refused = 0_usize;
    for outcome in outcomes {
        refused = refused.saturating_add(usize::from(code(outcome) == 99));
    }
    refused
}

/// A refused event stands among the outcomes, and the run goes on after it: what rests on it, as a
/// delivery of its frame, is refused too.
#[test]
fn a_run_goes_on_under_refused_memory(rt: HostRuntime) {
    let events = events(&rt, rt.alloc());
    let mut world = new_world(&rt, rt.alloc());
    let outcomes = outcomes(&rt, rt.alloc(), &mut world, events.as_slice());
    let goes_on = (outcomes.len() == COUNT) & (world.accepted().len() >= 11);
    let refused = refused(outcomes.as_slice());
    drop(outcomes);
    drop(world);
    drop(events);
    assert!(rt; goes_on & (refused <= 1));
}

//! An event of each kind.
//!
//! What takes memory here is asked for once more if it is refused, so that tests under refused
//! memory get their events whichever single allocation is refused.

use crate::parts::{bytes, key, node, prefix, value};
use meta_types::{ByteString, MetaKey};
use node_events::NodeEvent;
use std::alloc::Global;
use std::process::Abort;
use world_core::{Answer, Event, World, WorldFault};

/// How many events there are.
pub const COUNT: usize = 17;

/// Of each event the number of its refusal, or 0: there is no node 2, and two bytes are no frame.
pub static CODES: [u16; COUNT] = [0, 44, 0, 0, 0, 0, 0, 0, 0, 0, 0, 0, 0, 0, 0, 0, 10];

/// Returns the key app/flags/colour.
pub fn colour(rt: &impl Abort, alloc: Global) -> MetaKey {
    key(rt, alloc, b"app", b"flags", b"colour")
}

/// Returns a write, which has read what a read showed, or nothing.
pub fn put(rt: &impl Abort, alloc: Global, node: u64, body: &[u8], read: Option<u64>) -> Event {
    let key = colour(rt, alloc);
    let value = value(rt, alloc, 0, body);
    match read {
        Some(read) => Event::Put {
            node,
            key,
            value,
            read,
        },
        None => Event::Step {
            node,
            event: NodeEvent::Write {
                key,
                value,
                context: None,
            },
        },
    }
}

pub fn get(rt: &impl Abort, alloc: Global, node: u64) -> Event {
    let key = colour(rt, alloc);
    Event::Step {
        node,
        event: NodeEvent::Read { key },
    }
}

/// Returns the joining of node 1 through node 0.
pub fn join(rt: &impl Abort) -> Event {
    Event::Step {
        node: 1,
        event: NodeEvent::Join {
            contact: node(rt, 0),
            word: 0,
        },
    }
}

pub fn deliver(frame: u64, node: u64) -> Event {
    Event::Deliver {
        frame,
        node,
        word: 0,
    }
}

/// Returns the event at this place: in a new world of two nodes all can happen, in this order.
pub fn event(rt: &impl Abort, alloc: Global, place: usize) -> Event {
    match place {
        1 => put(rt, alloc, 2, b"x", None),
        3 => put(rt, alloc, 0, b"x", None),
        4 => get(rt, alloc, 0),
        5 => put(rt, alloc, 1, b"x", Some(1)),
        0 => join(rt),
        2 => deliver(1, 0),
        13 => Event::Step {
            node: 1,
            event: NodeEvent::PeerDown {
                peer: node(rt, 0),
                word: 0,
            },
        },
        15 => Event::Restart { node: 0, image: 1 },
        place => Event::Step {
            node: 0,
            event: asked(rt, alloc, place),
        },
    }
}

/// Returns what node 0 is asked at this place.
fn asked(rt: &impl Abort, alloc: Global, place: usize) -> NodeEvent {
    match place {
        6 => NodeEvent::PutOver {
            key: colour(rt, alloc),
            value: value(rt, alloc, 0, b"y"),
        },
        7 => NodeEvent::Keep {
            key: colour(rt, alloc),
        },
        8 => NodeEvent::Watch {
            prefix: prefix(rt, alloc, b"app", b"flags"),
            capacity: 1,
        },
        9 => NodeEvent::Changes { number: 1 },
        10 => NodeEvent::Tick { word: 0 },
        11 => NodeEvent::Exchange { peer: node(rt, 1) },
        12 => NodeEvent::Hello { peer: node(rt, 1) },
        14 => NodeEvent::Leave,
        _ => NodeEvent::Take {
            frame: ByteString::new(bytes(rt, alloc, b"PT")),
            word: 0,
        },
    }
}

/// Returns all events, in their order.
pub fn events(rt: &impl Abort, alloc: Global) -> Vec<Event> {
    let mut events = match Vec::with_capacity(alloc, COUNT) {
        Ok(events) => events,
        Err(_) => Vec::with_capacity(alloc, COUNT).expect(rt, "memory once more"),
    };
    for place in 0..COUNT {
        events.push(event(rt, alloc, place)).expect(rt, "room");
    }
    events
}

/// Returns a world of two nodes.
pub fn new_world(rt: &impl Abort, alloc: Global) -> World {
    match World::new(alloc, 2) {
        Ok(world) => world,
        Err(_) => World::new(alloc, 2).expect(rt, "memory once more"),
    }
}

/// Returns the number of a refusal, or 0.
pub fn code(outcome: &Result<Answer, WorldFault>) -> u16 {
    match outcome {
        Ok(_) => 0,
        Err(fault) => fault.code(),
    }
}

/// Applies an event, and returns the number of its refusal, or 0.
pub fn apply(world: &mut World, event: Event) -> u16 {
    let outcome = world.apply(event);
    let code = code(&outcome);
    drop(outcome);
    code
}

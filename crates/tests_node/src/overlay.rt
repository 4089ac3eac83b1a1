//! Steps of the views and calls of the broadcast when one allocation is refused.

use crate::parts::{key, node, vector};
use dvvset::Vector;
use hyparview::{ViewEvent, Views};
use meta_frame::Message;
use meta_types::{MetaKey, NodeId};
use plumtree::Cast;
use std::alloc::AllocError;
use std::process::Abort;

fn join(views: &mut Views, from: NodeId) -> Result<usize, AllocError> {
    let message = Message::Join;
    Ok(views.step(ViewEvent::Taken { from, message }, 0)?.len())
}

/// Returns how much a join gives out. The join is made once more if memory was refused.
fn joined(rt: &impl Abort, views: &mut Views, from: NodeId) -> usize {
    match join(views, from) {
        Ok(count) => count,
        Err(_) => join(views, from).expect(rt, "memory once more"),
    }
}

/// Returns whether two joins give out as much as they should, and leave both nodes active.
fn two_join(rt: &impl Abort, views: &mut Views) -> bool {
    let first = joined(rt, views, node(rt, 1));
    let second = joined(rt, views, node(rt, 2));
    first == 1 && second == 2 && views.active().len() == 2
}

// Holds whichever single allocation is refused: a step that was refused memory left all as it was,
// and succeeds when it is made again. Allocates at most 13 times.
#[test]
fn steps_are_made_again_under_refused_memory(rt: HostRuntime) {
    let mut views = Views::new(rt.alloc(), node(&rt, 0));
    let two_join = two_join(&rt, &mut views);
    drop(views);
    assert!(rt; two_join);
}

/// Gives the broadcast one peer, which becomes lazy.
fn become_lazy(rt: &impl Abort, cast: &mut Cast, peer: NodeId) {
    if cast.up(peer).is_err() {
        cast.up(peer).expect(rt, "memory once more");
    }
    if cast.on_prune(peer).is_err() {
        cast.on_prune(peer).expect(rt, "memory once more");
    }
}

fn write(rt: &impl Abort, cast: &mut Cast, key: &MetaKey, vector: &Vector) {
    if cast.on_broadcast(key, vector).is_err() {
        cast.on_broadcast(key, vector)
            .expect(rt, "memory once more");
    }
}

fn tick(cast: &mut Cast) -> Result<usize, AllocError> {
    Ok(cast.on_tick()?.len())
}

/// Returns how much a tick gives out. The tick is made once more if memory was refused.
fn ticked(rt: &impl Abort, cast: &mut Cast) -> usize {
    match tick(cast) {
        Ok(count) => count,
        Err(_) => tick(cast).expect(rt, "memory once more"),
    }
}

/// Returns whether a write is announced to a lazy peer at the next tick.
fn is_announced(rt: &impl Abort, cast: &mut Cast, key: &MetaKey, vector: &Vector) -> bool {
    become_lazy(rt, cast, node(rt, 1));
    write(rt, cast, key, vector);
    ticked(rt, cast) == 1
}

// Holds whichever single allocation is refused: a tick that was refused memory keeps what it is to
// announce. Allocates at most 29 times.
#[test]
fn a_broadcast_goes_on_under_refused_memory(rt: HostRuntime) {
    let key = key(&rt, rt.alloc(), b"a", b"b", b"k");
    let vector = vector(&rt, rt.alloc());
    let mut cast = Cast::new(rt.alloc());
    let is_announced = is_announced(&rt, &mut cast, &key, &vector);
    drop(cast);
    drop(vector);
    drop(key);
    assert!(rt; is_announced);
}

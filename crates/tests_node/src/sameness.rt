//! Whether two nodes, or two worlds, are the same in all that public calls tell of them.
//!
//! What takes memory here is asked for once more if it is refused, so that tests under refused
//! memory get their answer whichever single allocation is refused.

use dvvset::Entries;
use hyparview::Views;
use meta_types::ByteString;
use node_core::NodeState;
use plumtree::{Cast, CastOut};
use restart_images::{Change, Image, Images};
use std::process::Abort;
use subscriptions::Watch;
use world_core::{FrameNumbers, World};

/// The ticks in which all that waits here goes out: announcements at the first; and what is missing
/// is asked for at the second, or at the third of a second announcer.
const TICKS: usize = 3;

/// The most nodes of a world.
const NODES: u64 = 16;

pub fn are_same_nodes(rt: &impl Abort, one: &NodeState, other: &NodeState) -> bool {
    are_in_one_life(one, other)
        & (one.store() == other.store())
        & (one.tree().root() == other.tree().root())
        & are_same_views(one.views(), other.views())
        & are_same_casts(rt, one.cast(), other.cast())
        & are_same_watches(rt, one.watches(), other.watches())
}

/// Returns whether both are the same node in the same life, and made as many steps in it.
fn are_in_one_life(one: &NodeState, other: &NodeState) -> bool {
    (one.node() == other.node())
        & (one.incarnation() == other.incarnation())
        & (one.steps() == other.steps())
}

fn are_same_views(one: &Views, other: &Views) -> bool {
    (one.node() == other.node())
        & (one.active() == other.active())
        & (one.passive() == other.passive())
}

/// Returns whether both broadcasts have the same peers, and copies of them give out the same at the
/// next ticks: no call tells what waits until then.
fn are_same_casts(rt: &impl Abort, one: &Cast, other: &Cast) -> bool {
    let mut same = have_same_peers(one, other);
    let (mut one, mut other) = (copy_of_cast(rt, one), copy_of_cast(rt, other));
    for _tick in 0..TICKS {
        same = same & is_same_tick(rt, &mut one, &mut other);
    }
    drop((one, other));
    same
}

fn have_same_peers(one: &Cast, other: &Cast) -> bool {
    (one.eager() == other.eager()) & (one.lazy() == other.lazy())
}

fn copy_of_cast(rt: &impl Abort, cast: &Cast) -> Cast {
    match cast.copy() {
        Ok(copy) => copy,
        Err(_) => cast.copy().expect(rt, "memory once more"),
    }
}

/// Makes a tick of both. Returns whether both give out the same, and then have the same peers.
fn is_same_tick(rt: &impl Abort, one: &mut Cast, other: &mut Cast) -> bool {
    let (outs, others) = (ticked(rt, one), ticked(rt, other));
    let is_same = outs.as_slice() == others.as_slice();
    drop((outs, others));
    is_same & have_same_peers(one, other)
}

fn ticked(rt: &impl Abort, cast: &mut Cast) -> Vec<CastOut> {
    match cast.on_tick() {
        Ok(outs) => outs,
        Err(_) => cast.on_tick().expect(rt, "memory once more"),
    }
}

fn are_same_watches(rt: &impl Abort, ones: &[Watch], others: &[Watch]) -> bool {
    let mut same = ones.len() == others.len();
    for (one, other) in ones.iter().zip(others) {
        same = same & have_noted_the_same(rt, one, other);
    }
    same
}

fn have_noted_the_same(rt: &impl Abort, one: &Watch, other: &Watch) -> bool {
    let (noted, others) = (noted(rt, one), noted(rt, other));
    let is_same = noted.as_slice() == others.as_slice();
    drop((noted, others));
    is_same & (one.missed() == other.missed())
}

fn noted(rt: &impl Abort, watch: &Watch) -> Vec<subscriptions::Change> {
    match watch.noted() {
        Ok(noted) => noted,
        Err(_) => watch.noted().expect(rt, "memory once more"),
    }
}

pub fn are_same_worlds(rt: &impl Abort, one: &World, other: &World) -> bool {
    let mut same = (one.accepted() == other.accepted()) & have_same_frames(rt, one, other);
    for node in 0..NODES {
        same = same & are_same_states(rt, one.state(node), other.state(node));
        same = same & are_same_images(rt, one.images(node), other.images(node));
    }
    same
}

fn have_same_frames(rt: &impl Abort, one: &World, other: &World) -> bool {
    let (frames, others) = (frames(rt, one), frames(rt, other));
    let is_same = frames.as_slice() == others.as_slice();
    drop((frames, others));
    is_same & (one.frame_count() == other.frame_count())
}

/// Returns copies of all frames.
fn frames(rt: &impl Abort, world: &World) -> Vec<ByteString> {
    let all = FrameNumbers {
        first: 1,
        count: world.frame_count(),
    };
    match world.frames_at(all) {
        Ok(frames) => frames,
        Err(_) => world.frames_at(all).expect(rt, "memory once more"),
    }
}

fn are_same_states(rt: &impl Abort, one: Option<&NodeState>, other: Option<&NodeState>) -> bool {
    match (one, other) {
        (Some(one), Some(other)) => are_same_nodes(rt, one, other),
        (None, None) => true,
        _ => false,
    }
}

fn are_same_images(rt: &impl Abort, one: Option<&Images>, other: Option<&Images>) -> bool {
    match (one, other) {
        (Some(one), Some(other)) => has_same_images(rt, one, other),
        (None, None) => true,
        _ => false,
    }
}

fn has_same_images(rt: &impl Abort, one: &Images, other: &Images) -> bool {
    let mut same = one.len() == other.len();
    for at in 0..one.len().min(other.len()) {
        same = same & is_same_image(rt, &one.at(at), &other.at(at));
    }
    same
}

/// Returns whether both change the same image in the same way.
fn is_same_image(rt: &impl Abort, one: &Image, other: &Image) -> bool {
    (one.base() == other.base()) & is_same_change(rt, one.change(), other.change())
}

fn is_same_change(rt: &impl Abort, one: Option<Change>, other: Option<Change>) -> bool {
    match (&one, &other) {
        (Some(one), Some(other)) => (one.key() == other.key()) & is_same_object(rt, one, other),
        (None, None) => true,
        _ => false,
    }
}

fn is_same_object(rt: &impl Abort, one: &Change, other: &Change) -> bool {
    let (object, others) = (object_of(rt, one), object_of(rt, other));
    let is_same = object == others;
    drop((object, others));
    is_same
}

fn object_of(rt: &impl Abort, change: &Change) -> Entries {
    match change.object() {
        Ok(object) => object,
        Err(_) => change.object().expect(rt, "memory once more"),
    }
}

//! A step of each kind is attempted and taken back, and then attempted and committed.

use crate::acts::{Act, event};
use crate::frames::{
    BYE, GOSSIP_OF_Y, GRAFT, HELLO_OF_LIFE_2, IHAVE, IHAVE_OF_2, JOIN, PRUNE, XOBJECT, XROOT, XWANT,
};
use crate::playing::{copy_of, new_node};
use crate::sameness::are_same_nodes;
use node_core::{NodeState, Stepped};
use node_events::{NodeEvent, StepFault};
use std::alloc::Global;
use std::mem::replace;
use std::process::Abort;

/// A step that is accepted, and whether an object changes in it.
type Step = (Act, bool);

/// Steps of each kind, by what is left to do of an attempt. `Act::New` begins a new node.
static STEPS: [Step; 50] = [
    // Nothing is left, and then the views change.
    (Act::New, false),
    (Act::Read(b'k'), false),
    (Act::Keep(b'k'), false),
    (Act::Exchange(1), false),
    (Act::Hello(1), false),
    (Act::Join(1), false),
    (Act::Take(JOIN), false),
    // A watch is added, and hears of a new key, and of one that is held.
    (Act::Watch(2), false),
    (Act::Write(b'k', b'x'), true),
    (Act::Write(b'k', b'y'), true),
    (Act::PutOver(b'k', b'z'), true),
    (Act::Take(GOSSIP_OF_Y), true),
    // It hands out.
    (Act::Changes(1), false),
    (Act::Changes(1), false),
    // A peer becomes lazy, beside an eager one, and then eager.
    (Act::Join(2), false),
    (Act::Take(GOSSIP_OF_Y), false),
    (Act::PutOver(b'k', b'x'), true),
    (Act::Tick, false),
    (Act::Take(GRAFT), false),
    (Act::Take(PRUNE), false),
    // What is stale isn't waited for, and questions are answered.
    (Act::Take(IHAVE), false),
    (Act::Take(XWANT), false),
    (Act::Take(XROOT), false),
    // A neighbour begins another life; that it is known is nothing new; it joins again and leaves.
    (Act::Take(HELLO_OF_LIFE_2), false),
    (Act::Take(HELLO_OF_LIFE_2), false),
    (Act::Take(JOIN), false),
    (Act::Take(BYE), false),
    // An object is announced by two, and asked for, until it comes.
    (Act::New, false),
    (Act::Take(HELLO_OF_LIFE_2), false),
    (Act::Take(GRAFT), false),
    (Act::Take(IHAVE), false),
    (Act::Take(IHAVE_OF_2), false),
    (Act::Tick, false),
    (Act::Tick, false),
    (Act::Take(GOSSIP_OF_Y), true),
    // A lazy peer brings what an eager one is told of.
    (Act::New, false),
    (Act::Join(1), false),
    (Act::Join(2), false),
    (Act::Take(PRUNE), false),
    (Act::Take(GOSSIP_OF_Y), true),
    // An exchange brings a key that is held, a new one, and what is known.
    (Act::New, false),
    (Act::PutOver(b'k', b'x'), true),
    (Act::Take(XOBJECT), true),
    (Act::New, false),
    (Act::Take(XOBJECT), true),
    (Act::Take(XOBJECT), false),
    (Act::Write(b'k', b'x'), true),
    // A neighbour goes, and then the node.
    (Act::Join(1), false),
    (Act::PeerDown(1), false),
    (Act::Leave, false),
];

/// Nine ticks, and one that shuffles: a tick that is taken back doesn't count.
static TICKS: [Step; 12] = [
    (Act::New, false),
    (Act::Join(1), false),
    (Act::Tick, false),
    (Act::Tick, false),
    (Act::Tick, false),
    (Act::Tick, false),
    (Act::Tick, false),
    (Act::Tick, false),
    (Act::Tick, false),
    (Act::Tick, false),
    (Act::Tick, false),
    (Act::Tick, false),
];

/// Attempts a step, and takes the attempt back. Returns whether an object had changed, or the
/// number of the refusal.
fn taken_back(node: &mut NodeState, event: &NodeEvent) -> Result<bool, u16> {
    match node.attempt(event) {
        Ok(attempt) => {
            let has_changed = attempt.changed().is_some();
            node.take_back(attempt);
            Ok(has_changed)
        }
        Err(fault) => Err(fault.code()),
    }
}

/// Attempts a step, and commits it.
fn committed(node: &mut NodeState, event: &NodeEvent) -> Result<Stepped, StepFault> {
    let attempt = node.attempt(event)?;
    Ok(node.commit(attempt))
}

/// Attempts a step and takes that back, and then attempts it again and commits that. Asserts that
/// the node is first as a copy that was made before, and then gives what the copy gives by a step,
/// and is as the copy is.
fn follow(rt: &impl Abort, alloc: Global, node: &mut NodeState, asked: &Step) {
    let event = event(rt, alloc, asked.0);
    let mut copy = copy_of(rt, node);
    let has_changed = taken_back(node, &event).expect(rt, "an attempt");
    let is_back = are_same_nodes(rt, node, &copy);
    let stepped = committed(node, &event).expect(rt, "a step");
    let other = copy.step_on(&event).expect(rt, "a step");
    let is_same = (stepped == other) & are_same_nodes(rt, node, &copy);
    drop((stepped, other));
    drop(copy);
    drop(event);
    assert!(rt; is_back & is_same);
    assert_eq!(rt; has_changed, asked.1);
}

/// Attempts a step, and commits it. Returns the number of the refusal, or 0.
fn code_of_step(node: &mut NodeState, event: &NodeEvent) -> u16 {
    let outcome = committed(node, event);
    let code = match &outcome {
        Ok(_) => 0,
        Err(fault) => fault.code(),
    };
    drop(outcome);
    code
}

/// Makes a step. If its attempt is refused memory, asserts that the node is as a copy that was made
/// before, and attempts it once more.
fn attempt_again(rt: &impl Abort, alloc: Global, node: &mut NodeState, act: Act) {
    let event = event(rt, alloc, act);
    let copy = copy_of(rt, node);
    let mut code = code_of_step(node, &event);
    if code == 99 {
        assert!(rt; are_same_nodes(rt, node, &copy));
        code = code_of_step(node, &event);
    }
    drop(copy);
    drop(event);
    assert_eq!(rt; code, 0);
}

fn play(rt: &impl Abort, alloc: Global, steps: &[Step], may_refuse: bool) {
    let mut node = new_node(rt, alloc);
    for asked in steps {
        match asked.0 {
            Act::New => drop(replace(&mut node, new_node(rt, alloc))),
            act if may_refuse => attempt_again(rt, alloc, &mut node, act),
            _ => follow(rt, alloc, &mut node, asked),
        }
    }
    drop(node);
}

#[test]
fn an_attempt_is_taken_back_or_committed(rt: HostRuntime) {
    play(&rt, rt.alloc(), &STEPS, false);
    play(&rt, rt.alloc(), &TICKS, false);
}

/// Holds whichever single allocation is refused.
#[test]
fn an_attempt_is_made_again_under_refused_memory(rt: HostRuntime) {
    play(&rt, rt.alloc(), &STEPS, true);
}

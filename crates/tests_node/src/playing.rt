//! A node is asked what the rows say, with ample memory and under refused memory.

use crate::acts::{Act, event, key_of, put_over};
use crate::parts::node;
use crate::rows::{COMING, EACH, Given, LARGE, LONG, REFUSED};
use node_core::{NodeState, Stepped};
use node_events::StepFault;
use resolvers::{Lww, Resolver};
use std::alloc::Global;
use std::mem::replace;
use std::process::Abort;

/// Makes node 0 in its first life, which holds nothing and knows nobody.
pub fn new_node(rt: &impl Abort, alloc: Global) -> NodeState {
    match NodeState::new(alloc, node(rt, 0), 1) {
        Ok(node) => node,
        Err(_) => NodeState::new(alloc, node(rt, 0), 1).expect(rt, "memory once more"),
    }
}

pub fn copy_of(rt: &impl Abort, node: &NodeState) -> NodeState {
    match node.copy() {
        Ok(copy) => copy,
        Err(_) => node.copy().expect(rt, "memory once more"),
    }
}

/// Puts a copy in the place of the node.
fn go_on_as_copy(rt: &impl Abort, node: &mut NodeState) {
    let copy = copy_of(rt, node);
    drop(replace(node, copy));
}

fn fill(rt: &impl Abort, alloc: Global, node: &mut NodeState) {
    for number in 0..8_191_u16 {
        let outcome = node.step(put_over(rt, alloc, &number.to_be_bytes(), b'x'));
        let is_done = outcome.is_ok();
        drop(outcome);
        assert!(rt; is_done);
    }
}

fn tick_on(rt: &impl Abort, alloc: Global, node: &mut NodeState) {
    for _ in 0..21 {
        let outcome = node.step(event(rt, alloc, Act::Tick));
        let is_done = outcome.is_ok();
        drop(outcome);
        assert!(rt; is_done);
    }
}

/// Repairs a key by the last write.
fn repaired(
    rt: &impl Abort,
    alloc: Global,
    node: &mut NodeState,
    letter: u8,
) -> Result<Stepped, StepFault> {
    let key = key_of(rt, alloc, &[letter]);
    let boxed = match Box::new(alloc, Lww) {
        Ok(boxed) => boxed,
        Err(_) => Box::new(alloc, Lww).expect(rt, "memory once more"),
    };
    let lww: Box<dyn Resolver> = boxed;
    let outcome = node.repair(&key, &lww);
    drop(lww);
    drop(key);
    outcome
}

/// Returns what a node gives for an act.
pub fn asked(
    rt: &impl Abort,
    alloc: Global,
    node: &mut NodeState,
    act: Act,
) -> Result<Stepped, StepFault> {
    match act {
        Act::Repair(letter) => repaired(rt, alloc, node, letter),
        act => node.step(event(rt, alloc, act)),
    }
}

/// Returns the number of the refusal, or 0.
fn code(outcome: &Result<Stepped, StepFault>) -> u16 {
    match outcome {
        Ok(_) => 0,
        Err(fault) => fault.code(),
    }
}

/// Returns the frame that was sent, or nothing. There is one at most.
fn sent<'a>(rt: &impl Abort, outcome: &'a Result<Stepped, StepFault>) -> &'a [u8] {
    let Ok(stepped) = outcome else {
        return b"";
    };
    assert!(rt; stepped.outbox.as_slice().len() <= 1);
    match stepped.outbox.as_slice().first() {
        Some(frame) => frame.as_slice(),
        None => b"",
    }
}

/// The number of a refusal for lack of memory.
const MEMORY: u16 = 99;

/// Asks the node, and asserts that it gives what the row says, or is refused memory if it may be.
/// Returns whether it was refused memory. A frame that begins as the row says is the frame of the
/// row, since its header has its length; a row may end before the digest at a frame's end.
fn is_refused_memory(
    rt: &impl Abort,
    alloc: Global,
    node: &mut NodeState,
    given: &Given,
    may_refuse: bool,
) -> bool {
    let (act, wanted, frame) = given;
    let outcome = asked(rt, alloc, node, *act);
    let code = code(&outcome);
    let is_refused = may_refuse && code == MEMORY;
    if !is_refused {
        let sent = sent(rt, &outcome);
        assert_eq!(rt; code, *wanted);
        assert!(rt; sent.starts_with(frame) && sent.is_empty() == frame.is_empty());
    }
    drop(outcome);
    is_refused
}

/// Calls `is_refused_memory`, and once more if the node was refused memory.
fn follow(rt: &impl Abort, alloc: Global, node: &mut NodeState, given: &Given, may_refuse: bool) {
    if is_refused_memory(rt, alloc, node, given, may_refuse) {
        is_refused_memory(rt, alloc, node, given, false);
    }
}

fn play(rt: &impl Abort, alloc: Global, rows: &[Given], may_refuse: bool) {
    let mut node = new_node(rt, alloc);
    for given in rows {
        match given.0 {
            Act::New => drop(replace(&mut node, new_node(rt, alloc))),
            Act::Copy => go_on_as_copy(rt, &mut node),
            Act::Fill => fill(rt, alloc, &mut node),
            Act::Ticks => tick_on(rt, alloc, &mut node),
            _ => follow(rt, alloc, &mut node, given, may_refuse),
        }
    }
    drop(node);
}

fn play_all(rt: &impl Abort, alloc: Global, may_refuse: bool) {
    play(rt, alloc, &EACH, may_refuse);
    play(rt, alloc, &COMING, may_refuse);
    play(rt, alloc, &REFUSED, may_refuse);
}

#[test]
fn a_node_gives_what_the_rows_tell(rt: HostRuntime) {
    play_all(&rt, rt.alloc(), false);
    play(&rt, rt.alloc(), &LARGE, false);
    play(&rt, rt.alloc(), &LONG, false);
}

/// Holds whichever single allocation is refused.
#[test]
fn a_node_gives_what_the_rows_tell_under_refused_memory(rt: HostRuntime) {
    play_all(&rt, rt.alloc(), true);
}

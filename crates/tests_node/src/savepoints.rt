//! Steps since a savepoint are all taken back, and are then made as if they were the first.

ghost use Rattle.node_core.specs.Savepoint.{CanRollBack};

use crate::acts::{Act, event};
use crate::frames::{GOSSIP_OF_Y, HELLO_OF_LIFE_2, JOIN, XOBJECT};
use crate::playing::{copy_of, new_node};
use crate::sameness::are_same_nodes;
use node_core::{NodeState, Savepoint};
use node_events::NodeEvent;
use std::alloc::Global;
use std::process::Abort;

/// What the node is before the savepoint.
static BEFORE: [Act; 4] = [
    Act::Join(1),
    Act::Watch(2),
    Act::PutOver(b'k', b'x'),
    Act::Tick,
];

/// What changes since: a key that is held, twice, and new ones; watches, views, a life heard, what
/// is announced, and each count.
static SINCE: [Act; 10] = [
    Act::Write(b'k', b'y'),
    Act::Watch(1),
    Act::PutOver(b'k', b'z'),
    Act::PutOver(b'j', b'x'),
    Act::Take(GOSSIP_OF_Y),
    Act::Take(XOBJECT),
    Act::Changes(1),
    Act::Take(JOIN),
    Act::Take(HELLO_OF_LIFE_2),
    Act::Tick,
];

fn savepoint_of(rt: &impl Abort, node: &NodeState) -> Savepoint
    ensures { CanRollBack result node.now }
{
    match node.savepoint() {
        Ok(savepoint) => savepoint,
        Err(_) => node.savepoint().expect(rt, "memory once more"),
    }
}

fn is_made(node: &mut NodeState, savepoint: &mut Savepoint, event: &NodeEvent) -> bool
    requires { CanRollBack savepoint.old node.old }
    ensures { CanRollBack savepoint.new node.new }
{
    let outcome = node.step_since(savepoint, event);
    let is_made = outcome.is_ok();
    drop(outcome);
    is_made
}

/// Makes a step since the savepoint twice. One of them may be refused memory.
fn step(rt: &impl Abort, alloc: Global, node: &mut NodeState, savepoint: &mut Savepoint, act: Act)
    requires { CanRollBack savepoint.old node.old }
    ensures { CanRollBack savepoint.new node.new }
{
    let event = event(rt, alloc, act);
    let first = is_made(node, savepoint, &event);
    let second = is_made(node, savepoint, &event);
    drop(event);
    assert!(rt; first | second);
}

fn play(
    rt: &impl Abort,
    alloc: Global,
    node: &mut NodeState,
    savepoint: &mut Savepoint,
    acts: &[Act],
)
    requires { CanRollBack savepoint.old node.old }
    ensures { CanRollBack savepoint.new node.new }
{
    for act in acts {
        step(rt, alloc, node, savepoint, *act);
    }
}

/// Makes the steps and rolls back, twice. Asserts that the node is then as it was.
fn roll_back(rt: &impl Abort, alloc: Global, node: &mut NodeState) {
    let copy = copy_of(rt, node);
    for _ in 0..2 {
        let mut savepoint = savepoint_of(rt, node);
        play(rt, alloc, node, &mut savepoint, &SINCE);
        node.roll_back(savepoint);
    }
    let is_back = are_same_nodes(rt, node, &copy);
    drop(copy);
    assert!(rt; is_back);
}

/// Holds whichever single allocation is refused.
#[test]
fn steps_since_a_savepoint_are_taken_back_under_refused_memory(rt: HostRuntime) {
    let alloc = rt.alloc();
    let mut node = new_node(&rt, alloc);
    let mut savepoint = savepoint_of(&rt, &node);
    play(&rt, alloc, &mut node, &mut savepoint, &BEFORE);
    drop(savepoint);
    roll_back(&rt, alloc, &mut node);
    drop(node);
}

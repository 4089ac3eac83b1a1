//! What no command of a scenario prints of replies: in which step a read was made, and which writes
//! a change knows.

use crate::acts::Act;
use crate::frames::GOSSIP_OF_Y;
use crate::playing::{asked, new_node};
use dvvset::Vector;
use node_core::{NodeState, Stepped};
use node_events::{Reply, StepFault};
use std::alloc::Global;
use std::process::Abort;

/// Returns the step in which a read was made, or 0.
fn step_of(outcome: &Result<Stepped, StepFault>) -> u64 {
    match outcome {
        Ok(
            Stepped {
                reply: Reply::Looked { context, .. },
                ..
            },
        ) => context.source().step,
        _ => 0,
    }
}

fn read(rt: &impl Abort, alloc: Global, node: &mut NodeState) -> u64 {
    let outcome = asked(rt, alloc, node, Act::Read(b'k'));
    let step = step_of(&outcome);
    drop(outcome);
    step
}

/// Returns what a vector counts, three digits for each writer: its node, its life and its writes.
fn digits(vector: &Vector) -> u64 {
    let mut digits: u64 = 0;
    for counter in vector.counters() {
        let (writer, count) = (counter.id(), counter.count());
        let node = u64::from(writer.node().number());
        let life = u64::from(writer.incarnation());
        let next = node.wrapping_mul(100).wrapping_add(life.wrapping_mul(10));
        digits = digits
            .wrapping_mul(1_000)
            .wrapping_add(next)
            .wrapping_add(count);
    }
    digits
}

/// Returns what the vectors of the two changes in a reply count.
fn counted(outcome: &Result<Stepped, StepFault>) -> (u64, u64) {
    let Ok(stepped) = outcome else {
        return (0, 0);
    };
    let Reply::Changed { changes, .. } = &stepped.reply else {
        return (0, 0);
    };
    match changes.as_slice() {
        [first, second] => (digits(&first.vector), digits(&second.vector)),
        _ => (0, 0),
    }
}

fn changes(rt: &impl Abort, alloc: Global, node: &mut NodeState) -> (u64, u64) {
    let outcome = asked(rt, alloc, node, Act::Changes(1));
    let counted = counted(&outcome);
    drop(outcome);
    counted
}

/// Returns whether the node does it.
fn is_done(rt: &impl Abort, alloc: Global, node: &mut NodeState, act: Act) -> bool {
    let outcome = asked(rt, alloc, node, act);
    let is_done = outcome.is_ok();
    drop(outcome);
    is_done
}

/// A step that is refused doesn't count.
#[test]
fn a_read_tells_its_step_and_a_change_the_writes_that_are_known(rt: HostRuntime) {
    let mut node = new_node(&rt, rt.alloc());
    assert!(rt; is_done(&rt, rt.alloc(), &mut node, Act::Watch(9)));
    assert!(rt; is_done(&rt, rt.alloc(), &mut node, Act::Take(GOSSIP_OF_Y)));
    assert!(rt; !is_done(&rt, rt.alloc(), &mut node, Act::Join(0)));
    assert!(rt; is_done(&rt, rt.alloc(), &mut node, Act::PutOver(b'k', b'x')));
    let step = read(&rt, rt.alloc(), &mut node);
    let counted = changes(&rt, rt.alloc(), &mut node);
    drop(node);
    assert_eq!(rt; step, 4);
    // The vectors are 1.1:1 and 0.1:1,1.1:1.
    assert!(rt; counted == (111, 11_111));
}

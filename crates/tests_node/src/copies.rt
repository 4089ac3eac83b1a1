//! Each event, reply and outbox is copied, and its copy is compared with it; and refusals print
//! their names.

use crate::acts::{Act, event, key_of};
use crate::parts::value;
use crate::playing::{asked, new_node};
use crate::rows::{COMING, EACH, Given};
use meta_frame::FrameFault;
use meta_store::{Context, StoreFault};
use node_core::{NodeState, Stepped};
use node_events::{NodeEvent, Reply, StepFault};
use std::alloc::Global;
use std::mem::replace;
use std::process::Abort;

/// Asserts that a copy of the event is equal to it.
fn is_copied(rt: &impl Abort, event: NodeEvent) {
    let copy = event.copy().expect(rt, "memory");
    let is_same = copy == event;
    drop(copy);
    drop(event);
    assert!(rt; is_same);
}

/// Does the same for a write that has read what was shown.
fn write_is_copied(rt: &impl Abort, alloc: Global, context: &Context) {
    let context = Some(context.copy().expect(rt, "memory"));
    is_copied(
        rt,
        NodeEvent::Write {
            key: key_of(rt, alloc, b"k"),
            value: value(rt, alloc, 0, b"x"),
            context,
        },
    );
}

/// Asserts that the reply and the outbox of a step are copied.
fn given_is_copied(rt: &impl Abort, stepped: &Stepped) {
    let reply = stepped.reply.copy().expect(rt, "memory");
    let outbox = stepped.outbox.copy().expect(rt, "memory");
    let is_same = reply == stepped.reply && outbox == stepped.outbox;
    drop(reply);
    drop(outbox);
    assert!(rt; is_same);
}

/// Asserts that the lists in a reply are copied.
fn lists_are_copied(rt: &impl Abort, reply: &Reply) {
    let is_same = match reply {
        Reply::Looked { values, .. } => values.copy().expect(rt, "memory") == *values,
        Reply::Changed { changes, .. } => changes.copy().expect(rt, "memory") == *changes,
        _ => true,
    };
    assert!(rt; is_same);
}

fn reply_is_copied(rt: &impl Abort, alloc: Global, stepped: &Stepped) {
    given_is_copied(rt, stepped);
    lists_are_copied(rt, &stepped.reply);
    if let Reply::Looked { context, .. } = &stepped.reply {
        write_is_copied(rt, alloc, context);
    }
}

/// Asks the node, and asserts that what it gives is copied.
fn follow(rt: &impl Abort, alloc: Global, node: &mut NodeState, act: Act) {
    let outcome = asked(rt, alloc, node, act);
    if let Ok(stepped) = &outcome {
        reply_is_copied(rt, alloc, stepped);
    }
    drop(outcome);
}

fn play(rt: &impl Abort, alloc: Global, rows: &[Given]) {
    let mut node = new_node(rt, alloc);
    for given in rows {
        is_copied(rt, event(rt, alloc, given.0));
        match given.0 {
            Act::New => drop(replace(&mut node, new_node(rt, alloc))),
            act => follow(rt, alloc, &mut node, act),
        }
    }
    drop(node);
}

#[test]
fn copies_are_equal(rt: HostRuntime) {
    play(&rt, rt.alloc(), &EACH);
    play(&rt, rt.alloc(), &COMING);
}

// Each refusal's name is its contract's; this shows that it prints as its name.
#[test]
fn refusals_print_their_names(rt: HostRuntime) {
    let (own, frame) = (
        StepFault::NotAddressed,
        StepFault::Frame(FrameFault::LeftOver),
    );
    let (store, memory) = (StepFault::Store(StoreFault::BadEntries), StepFault::Memory);
    let printed = format!(in rt.alloc(); "{own} {frame} {store} {memory}").expect(&rt, "memory");
    assert!(rt; printed.as_str() == "NotAddressed LeftOver BadEntries Memory");
}

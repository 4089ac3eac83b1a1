//! The beginnings of a life: with nothing, with a store and with a table.

use crate::acts::{Act, event};
use crate::parts::node;
use crate::playing::new_node;
use meta_store::Store;
use node_core::NodeState;
use std::alloc::Global;
use std::process::Abort;

/// Makes a step on a borrowed event, asserts that the node counts it, and returns the node's store.
fn written(rt: &impl Abort, alloc: Global) -> Store {
    let mut node = new_node(rt, alloc);
    let was_opening = node.is_opening();
    let event = event(rt, alloc, Act::Write(b'k', b'x'));
    let is_done = node.step_on(&event).is_ok();
    drop(event);
    let counts = node.steps() == 1 && !node.is_opening();
    let store = node.into_store();
    assert!(rt; was_opening && is_done && counts);
    store
}

#[test]
fn a_life_begins_with_a_store(rt: HostRuntime) {
    let alloc = rt.alloc();
    let store = written(&rt, alloc);
    let node = NodeState::begin(alloc, node(&rt, 0), 2, store).expect(&rt, "memory");
    let is_begun = node.is_opening() && node.incarnation() == 2 && node.store().len() == 1;
    drop(node);
    assert!(&rt; is_begun);
}

#[test]
fn a_life_begins_with_a_table(rt: HostRuntime) {
    let alloc = rt.alloc();
    let rows = Vec::new(alloc);
    let node = NodeState::from_table(alloc, node(&rt, 0), 1, rows).expect(&rt, "memory");
    let is_begun = node.is_opening() && node.store().is_empty();
    drop(node);
    assert!(&rt; is_begun);
}

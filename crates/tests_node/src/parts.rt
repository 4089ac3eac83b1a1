//! Nodes, names, keys, values and a vector.
//!
//! What takes memory here is asked for once more if it is refused, so that a test under refused
//! memory gets its parts whichever single allocation is refused.

use dvvset::{Counter, Vector};
use meta_types::{Actor, FullPrefix, MetaKey, NodeId, Value};
use std::alloc::Global;
use std::process::Abort;

pub fn node(rt: &impl Abort, number: u16) -> NodeId {
    NodeId::new(number).expect(rt, "a node")
}

/// Returns a copy of these bytes.
pub fn bytes(rt: &impl Abort, alloc: Global, bytes: &[u8]) -> Vec<u8> {
    match bytes.to_vec(alloc) {
        Ok(bytes) => bytes,
        Err(_) => bytes.to_vec(alloc).expect(rt, "memory once more"),
    }
}

pub fn prefix(rt: &impl Abort, alloc: Global, prefix: &[u8], sub: &[u8]) -> FullPrefix {
    let prefix = bytes(rt, alloc, prefix);
    FullPrefix::new(prefix, bytes(rt, alloc, sub)).expect(rt, "a full prefix")
}

/// Returns the key of this name, under the full prefix of these two.
pub fn key(rt: &impl Abort, alloc: Global, first: &[u8], sub: &[u8], own: &[u8]) -> MetaKey {
    let prefix = prefix(rt, alloc, first, sub);
    MetaKey::new(prefix, bytes(rt, alloc, own)).expect(rt, "a key")
}

/// Returns the value of this body; `~` is a tombstone.
pub fn value(rt: &impl Abort, alloc: Global, stamp: u64, body: &[u8]) -> Value {
    let body = if body == b"~".as_slice() {
        None
    } else {
        Some(bytes(rt, alloc, body))
    };
    Value::new(stamp, body).expect(rt, "a value")
}

fn counters(rt: &impl Abort, alloc: Global, counter: Counter) -> Vec<Counter> {
    match vec![in alloc; counter] {
        Ok(counters) => counters,
        Err(_) => vec![in alloc; counter].expect(rt, "memory once more"),
    }
}

/// Returns the vector of one event of node 0 in its first life.
pub fn vector(rt: &impl Abort, alloc: Global) -> Vector {
    let counter = Counter::new(Actor::new(node(rt, 0), 1), 1);
    Vector::from_parts(counters(rt, alloc, counter)).expect(rt, "a vector")
}

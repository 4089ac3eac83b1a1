//! An object of version 1, whose writers are nodes alone. The files were written by a program of
//! another language.

use crate::parts::{device, found_in, key};
use dvvset::Entries;
use meta_types::{Actor, NodeId, Value};
use node_file::open_node;
use std::alloc::Global;
use std::process::Abort;

/// Two entries under a/b/k: two events of node 3, of which the newest shows x with stamp 7, and one
/// of node 5, which shows nothing: 95 bytes.
static TWO_WRITERS: &[u8] = b"\
PMNODE01\0\0\x01\0\0\0/\0\x01a\0\x01b\0\x01k\0\x02\0\x03\0\0\0\0\0\0\0\x02\0\x01\x01\0\0\
\0\0\0\0\0\x07\0\x01x\0\x05\0\0\0\0\0\0\0\x01\0\0\x0a\xac\xfdx}\xedY\x0e\xc7\x87L\x12\
\xf1\x83\xce\xda\xd8if\xc3\x15\xdeM\xd6\xbb7!\x8da\x81_\xdf\0";

/// The file above, with node 3 once more in place of node 5.
static REPEATED: &[u8] = b"\
PMNODE01\0\0\x01\0\0\0/\0\x01a\0\x01b\0\x01k\0\x02\0\x03\0\0\0\0\0\0\0\x02\0\x01\x01\0\0\
\0\0\0\0\0\x07\0\x01x\0\x03\0\0\0\0\0\0\0\x01\0\0}\xa68\xac\xb2\\\x1f\xe6\x8e\x1bW\x1a\
\x13x\xeah\x1a\x8a\xe3/&\x07#Zl\x87\xea\xb6U\xa3\xd0}\0";

/// Returns whether these are the entries of the object above, of writers in life 0.
fn is_object(rt: &impl Abort, alloc: Global, object: &Entries) -> bool {
    let life_0 = |node| Actor::new(NodeId::new(node).expect(rt, "a node"), 0);
    let x = Value::new(7, Some(b"x".to_vec(alloc).expect(rt, "memory"))).expect(rt, "a value");
    let shown = [x];
    match object.entries() {
        [first, second] => {
            let ids = (first.id() == life_0(3)) & (second.id() == life_0(5));
            let counts = (first.count() == 2) & (second.count() == 1);
            ids & counts & (first.values() == shown.as_slice()) & second.values().is_empty()
        }
        _ => false,
    }
}

/// Returns whether a file of these bytes has that object under a/b/k.
fn is_read(rt: &impl Abort, alloc: Global, bytes: &[u8]) -> bool {
    let device = device(alloc, bytes).expect(rt, "memory");
    match open_node(alloc, device, None) {
        Ok((_, table, _)) => match table.object(&key(rt, alloc)) {
            Some(object) => is_object(rt, alloc, object),
            None => false,
        },
        Err(_) => false,
    }
}

#[test]
fn an_object_is_read_whose_writers_are_nodes_alone(rt: HostRuntime) {
    assert!(rt; is_read(&rt, rt.alloc(), TWO_WRITERS));
    assert!(rt; found_in(rt.alloc(), REPEATED) == Err((31, 10)));
}

//! Each call's event stands in its entry, and its receipt names that entry.

use crate::parts::{Left, Trial, bytes, counted, key, prefix, tried, value};
use devices::MemoryDevice;
use meta_types::{ByteString, NodeId};
use node_events::NodeEvent;
use node_lock::{
    Acknowledgement, Capacity, Closed, LockFault, Naming, Node, ReadSeat, Receipt, WriteSeat,
};
use std::alloc::Global;
use std::process::Abort;
use std::sync::Wait;

fn node_id(rt: &impl Abort, number: u16) -> NodeId {
    NodeId::new(number).expect(rt, "a node")
}

/// The calls that are tried, in their order.
pub(crate) const CALLS: usize = 13;

/// PRUNE from node 1 to node 0.
const PRUNE: &[u8] = b"PT\x02\x04\0\x01\0\0\0\0\0\0\0\0\0\x01\0\0\0\0";

pub(crate) fn call<J: Naming, R: Wait + Abort>(
    rt: &R,
    alloc: Global,
    node: &Node<MemoryDevice, J, &R>,
    seat: &mut WriteSeat<J>,
    number: usize,
) -> Result<Acknowledgement<J>, LockFault> {
    match number {
        0..4 => of_a_key(rt, alloc, node, seat, number),
        4 => node.tick(rt, seat, 7),
        5 => node.join(rt, seat, node_id(rt, 1), 8),
        6 => node.peer_down(rt, seat, node_id(rt, 1), 9),
        7 => node.exchange(rt, seat, node_id(rt, 1)),
        8 => node.hello(rt, seat, node_id(rt, 2)),
        9 => node.watch(rt, seat, prefix(rt, alloc), 4),
        10 => node.changes(rt, seat, 1),
        11 => node.take(rt, seat, ByteString::new(bytes(rt, alloc, PRUNE)), 10),
        _ => node.leave(rt, seat),
    }
}

/// Makes the call of this number, under a key.
fn of_a_key<J: Naming, R: Wait + Abort>(
    rt: &R,
    alloc: Global,
    node: &Node<MemoryDevice, J, &R>,
    seat: &mut WriteSeat<J>,
    number: usize,
) -> Result<Acknowledgement<J>, LockFault> {
    let key = key(rt, alloc, b'1');
    match number {
        0 => node.put(rt, seat, key, value(rt, alloc, b'x'), None),
        1 => node.get(rt, seat, key),
        2 => node.put_over(rt, seat, key, value(rt, alloc, b'y')),
        _ => node.keep(rt, seat, key),
    }
}

/// Returns whether the event is the event of the call of this number.
fn is_of_call(event: &NodeEvent, number: usize) -> bool {
    match (event, number) {
        (NodeEvent::Write { context: None, .. }, 0)
        | (NodeEvent::Read { .. }, 1)
        | (NodeEvent::PutOver { .. }, 2)
        | (NodeEvent::Keep { .. }, 3)
        | (NodeEvent::Tick { word: 7 }, 4)
        | (NodeEvent::Join { word: 8, .. }, 5)
        | (NodeEvent::PeerDown { word: 9, .. }, 6)
        | (NodeEvent::Exchange { .. }, 7)
        | (NodeEvent::Hello { .. }, 8)
        | (NodeEvent::Watch { capacity: 4, .. }, 9)
        | (NodeEvent::Changes { number: 1 }, 10)
        | (NodeEvent::Take { word: 10, .. }, 11)
        | (NodeEvent::Leave, 12) => true,
        _ => false,
    }
}

/// Returns whether the journal has the entry of this receipt, at this place, of its call.
fn is_kept(closed: &Closed, receipt: &Receipt, number: usize) -> bool {
    closed.journal().get(number) == Some(&receipt.entry)
        && receipt.place == number as u64
        && is_of_call(&receipt.entry.event, number)
        && receipt.node == closed.node()
}

/// The calls are made by the eight seats in turn.
struct EachCall;

impl Trial for EachCall {
    fn run<J: Naming, R: Wait + Abort>(
        rt: &R,
        alloc: Global,
        node: &Node<MemoryDevice, J, &R>,
        writers: &mut Vec<WriteSeat<J>>,
        _readers: &mut Vec<ReadSeat<J>>,
    ) -> Vec<Receipt> {
        let mut receipts = Vec::new(alloc);
        for number in 0..CALLS {
            let seat = writers.get_mut(number % 8).expect(rt, "a seat");
            let done = call(rt, alloc, node, seat, number);
            let receipt = done.ok().expect(rt, "an accepted call").into_receipt();
            receipts.push(receipt).ok().expect(rt, "memory");
        }
        receipts
    }
}

/// Returns whether there is an entry of each call, and its receipt.
fn are_kept(left: &Left) -> bool {
    let mut are_kept = (left.closed.journal().len(), left.receipts.len()) == (CALLS, CALLS);
    for (number, receipt) in left.receipts.iter().enumerate() {
        are_kept = are_kept & is_kept(&left.closed, receipt, number);
    }
    are_kept
}

#[test]
fn each_call_is_journaled_as_it_was_made(rt: HostRuntime) {
    let left = tried::<EachCall, HostRuntime>(&rt, rt.alloc(), Capacity::new(8, 8));
    let are_kept = are_kept(&left);
    drop(left);
    assert!(rt; are_kept);
}

/// The step refuses junk, and a refused call leaves nothing.
struct Junk;

impl Trial for Junk {
    fn run<J: Naming, R: Wait + Abort>(
        rt: &R,
        alloc: Global,
        node: &Node<MemoryDevice, J, &R>,
        writers: &mut Vec<WriteSeat<J>>,
        _readers: &mut Vec<ReadSeat<J>>,
    ) -> Vec<Receipt> {
        let mut seat = writers.pop().expect(rt, "a seat");
        let junk = ByteString::new(b"junk".to_vec(alloc).expect(rt, "memory"));
        let refused = node.take(rt, &mut seat, junk, 1).err();
        assert!(rt; refused.is_some_and(|fault| fault.code() == 10));
        writers.push(seat).ok().expect(rt, "memory");
        Vec::new(alloc)
    }
}

#[test]
fn a_refused_call_leaves_no_entry(rt: HostRuntime) {
    let counted = counted::<Junk, HostRuntime>(&rt, rt.alloc(), Capacity::new(1, 0));
    assert!(rt; counted == (0, 0));
}

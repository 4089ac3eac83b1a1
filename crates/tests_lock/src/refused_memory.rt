//! A node of whose calls one is refused memory: that call returns 99 and leaves all as it was, so
//! that it is accepted when it is made once more; or the node is stopped, if its device was in the
//! midst of a write.

use crate::calls::{CALLS, call};
use crate::parts::{Left, Trial, key, start};
use devices::MemoryDevice;
use node_lock::{
    Acknowledgement, Capacity, Entry, LockFault, Naming, Node, PeekFault, ReadSeat, Receipt,
    WriteSeat,
};
use std::alloc::Global;
use std::process::Abort;
use std::sync::Wait;

/// Returns a list with room for a receipt of each call. It is asked for once more if memory was
/// refused.
fn room(rt: &impl Abort, alloc: Global) -> Vec<Receipt> {
    match Vec::with_capacity(alloc, CALLS) {
        Ok(list) => list,
        Err(_) => Vec::with_capacity(alloc, CALLS).expect(rt, "memory once more"),
    }
}

/// Makes the call of this number, and once more if it was refused memory.
fn call_again<J: Naming, R: Wait + Abort>(
    rt: &R,
    alloc: Global,
    node: &Node<MemoryDevice, J, &R>,
    seat: &mut WriteSeat<J>,
    number: usize,
) -> Result<Acknowledgement<J>, LockFault> {
    match call(rt, alloc, node, seat, number) {
        Err(LockFault::Memory) => call(rt, alloc, node, seat, number),
        done => done,
    }
}

/// Returns how many values a reader is shown. It looks once more if it was refused memory.
fn shown<J: Naming>(rt: &impl Abort, alloc: Global, reader: &mut ReadSeat<J>) -> Option<usize> {
    let key = key(rt, alloc, b'1');
    let shown = match reader.peek(&key) {
        Err(PeekFault::Memory) => reader.peek(&key),
        shown => shown,
    };
    Some(shown.ok()?.values.len())
}

/// Asserts that each reader is shown at least this number of values.
fn assert_shown<J: Naming>(
    rt: &impl Abort,
    alloc: Global,
    readers: &mut [ReadSeat<J>],
    least: usize,
) {
    for reader in readers {
        assert!(rt; shown(rt, alloc, reader).is_some_and(|values| values >= least));
    }
}

/// Each call is made; once the node is stopped, each returns 34. At last a reader looks.
struct Again;

impl Trial for Again {
    fn run<J: Naming, R: Wait + Abort>(
        rt: &R,
        alloc: Global,
        node: &Node<MemoryDevice, J, &R>,
        writers: &mut Vec<WriteSeat<J>>,
        readers: &mut Vec<ReadSeat<J>>,
    ) -> Vec<Receipt> {
        let mut receipts = room(rt, alloc);
        let mut seat = writers.pop().expect(rt, "a seat");
        for number in 0..CALLS {
            match call_again(rt, alloc, node, &mut seat, number) {
                Ok(done) => receipts.push(done.into_receipt()).ok().expect(rt, "room"),
                Err(fault) => assert!(rt; fault.code() == 34),
            }
        }
        writers.push(seat).ok().expect(rt, "room");
        assert_shown(rt, alloc, readers.as_mut_slice(), receipts.len().min(1));
        receipts
    }
}

/// Returns what the calls leave on a new node, which is started once more if memory was refused.
fn left<R: Wait + Abort>(rt: &R, alloc: Global) -> Left {
    match start::<Again, R>(rt, alloc, Capacity::new(1, 1)) {
        Err(99) => start::<Again, R>(rt, alloc, Capacity::new(1, 1))
            .ok()
            .expect(rt, "a node"),
        left => left.ok().expect(rt, "a node"),
    }
}

/// Returns whether the shorter list is the front of the other.
fn is_front(one: &[Entry], other: &[Entry]) -> bool {
    let mut is_front = true;
    for (here, there) in one.iter().zip(other) {
        is_front = is_front & (here == there);
    }
    is_front
}

/// Returns whether one has the entry of each call and the other a front of these, and both a
/// receipt of each entry.
fn agree(one: &Left, other: &Left) -> bool {
    let (here, there) = (one.closed.journal(), other.closed.journal());
    let is_whole = here.len().max(there.len()) == CALLS;
    let receipts = (one.receipts.len(), other.receipts.len());
    is_front(here, there) & is_whole & (receipts == (here.len(), there.len()))
}

// Passes whichever single allocation is refused. Of two nodes that get the same calls, one is
// refused no memory. The other has the same entries, with the same replies and frames, or a front
// of them if it was stopped; and a receipt of each.
#[test]
fn calls_are_made_again_under_refused_memory(rt: HostRuntime) {
    let one = left(&rt, rt.alloc());
    let other = left(&rt, rt.alloc());
    let agree = agree(&one, &other);
    drop(one);
    drop(other);
    assert!(rt; agree);
}

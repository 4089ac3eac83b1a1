//! When a node is started, and when it is closed.

use crate::parts::{Trial, counted, start};
use devices::MemoryDevice;
use node_lock::{Capacity, Naming, Node, ReadSeat, Receipt, WriteSeat};
use std::alloc::Global;
use std::process::Abort;
use std::sync::Wait;

/// Nothing is done.
struct Nothing;

impl Trial for Nothing {
    fn run<J: Naming, R: Wait + Abort>(
        _rt: &R,
        alloc: Global,
        _node: &Node<MemoryDevice, J, &R>,
        _writers: &mut Vec<WriteSeat<J>>,
        _readers: &mut Vec<ReadSeat<J>>,
    ) -> Vec<Receipt> {
        Vec::new(alloc)
    }
}

/// Each trial ends so: closing is refused with 54 without one of the seats, and then all come back.
#[test]
fn a_node_is_closed_once_all_its_seats_are_back(rt: HostRuntime) {
    let counted = counted::<Nothing, HostRuntime>(&rt, rt.alloc(), Capacity::new(2, 1));
    assert!(rt; counted == (0, 0));
}

/// Returns the number of the refusal with this capacity; 0 if the node is started.
fn refusal<R: Wait + Abort>(rt: &R, alloc: Global, capacity: (usize, usize, usize)) -> u16 {
    let (writers, readers, journal) = capacity;
    let capacity = Capacity {
        writers,
        readers,
        journal,
    };
    start::<Nothing, R>(rt, alloc, capacity).err().unwrap_or(0)
}

/// The limit of the journal is checked first.
#[test]
fn a_capacity_out_of_range_is_refused(rt: HostRuntime) {
    let alloc = rt.alloc();
    assert!(&rt; refusal(&rt, alloc, (9, 9, 0)) == 55);
    assert!(&rt; refusal(&rt, alloc, (9, 9, 1_048_577)) == 55);
    assert!(&rt; refusal(&rt, alloc, (9, 0, 1)) == 52);
    assert!(&rt; refusal(&rt, alloc, (1, 9, 1)) == 52);
    assert!(&rt; refusal(&rt, alloc, (8, 8, 1)) == 0);
    assert!(&rt; refusal(&rt, alloc, (8, 8, 1_048_576)) == 0);
}

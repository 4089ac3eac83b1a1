//! Devices that fail, before the workers start and while they work.

use crate::parts::{Came, failing, plan, told};
use cluster::{ClusterRun, Limits, NoHook, run_cluster_on};
use std::alloc::Global;
use std::process::Abort;
use std::sync::Wait;
use std::thread::Threads;

/// How many calls of its device it takes to begin a node's first life: three make the file, and
/// four begin the life.
const SERVED: u64 = 7;

/// Returns the numbers of the stopped nodes, or the number of the refusal; and what came of the
/// run.
fn stopped<R: Threads + Wait + Abort + Sync>(
    rt: &R,
    alloc: Global,
    turns: u64,
    passed: &[u64],
) -> (Vec<u16>, Result<Came, u16>) {
    let devices = failing(rt, alloc, b"", passed);
    let plan = plan(passed.len() as u64, turns, 4);
    let run = run_cluster_on(rt, alloc, plan, Limits::largest(), devices, &NoHook);
    let numbers = numbers(rt, alloc, run.as_ref().ok());
    (numbers, told(alloc, run))
}

/// Returns the numbers of the stopped nodes.
fn numbers(rt: &impl Abort, alloc: Global, run: Option<&ClusterRun>) -> Vec<u16> {
    let mut numbers = Vec::new(alloc);
    if let Some(run) = run {
        for node in run.stopped.iter() {
            numbers.push(node.number()).ok().expect(rt, "memory");
        }
    }
    numbers
}

/// Node 1 joins and makes three turns; its write in the fourth meets the failure. The others make
/// all their turns, and all three are closed.
#[test]
fn a_node_whose_device_fails_stops_alone(rt: HostRuntime) {
    let passed = [u64::MAX, SERVED, u64::MAX];
    let (numbers, run) = stopped(&rt, rt.alloc(), 8, &passed);
    let wanted = Came {
        calls: 21,
        lost: 0,
        closed: 3,
        receipts: 21,
        kept: 21,
        code: 0,
    };
    assert!(rt; numbers.as_slice() == [1u16].as_slice() && run == Ok(wanted));
}

/// Each write makes four calls of the device: node 0 stops at its second write, in turn 8, and node
/// 2 at its first.
#[test]
fn two_nodes_stop_each_at_its_own_turn(rt: HostRuntime) {
    let passed = [SERVED + 4, u64::MAX, SERVED + 3];
    let (numbers, run) = stopped(&rt, rt.alloc(), 12, &passed);
    let wanted = Came {
        calls: 7 + 13 + 4,
        lost: 0,
        closed: 3,
        receipts: 24,
        kept: 24,
        code: 0,
    };
    assert!(rt; numbers.as_slice() == [0u16, 2].as_slice() && run == Ok(wanted));
}

#[test]
fn a_device_that_fails_before_the_workers_start_is_told(rt: HostRuntime) {
    for passed in 0..SERVED {
        let (_numbers, run) = stopped(&rt, rt.alloc(), 8, &[u64::MAX, passed]);
        assert!(rt; run == Err(30));
    }
    let (_numbers, run) = stopped(&rt, rt.alloc(), 3, &[u64::MAX, SERVED]);
    assert!(rt; run.is_ok_and(|came| came.calls == 7 && came.code == 0));
}

//! What is refused at once, and runs with the least limits.

use crate::parts::{Came, failing, plan, told};
use cluster::{ClusterFault, ClusterPlan, ClusterRun, Limits, NoHook, run_cluster, run_cluster_on};
use node_file::FileFault;
use node_lock::LockFault;
use std::alloc::Global;
use std::process::Abort;
use std::sync::Wait;
use std::thread::Threads;

/// Returns the number with which a run of `nodes` nodes with these limits is refused, 0 if it
/// isn't. There is a device for each number of `passed`, which fails after that number of calls.
fn code<R: Threads + Wait + Abort + Sync>(
    rt: &R,
    alloc: Global,
    nodes: u64,
    limits: (usize, usize),
    passed: &[u64],
) -> u16 {
    let (inbox, journal) = limits;
    let limits = Limits { inbox, journal };
    let devices = failing(rt, alloc, b"", passed);
    let plan = plan(nodes, 1, 0);
    code_of(run_cluster_on(rt, alloc, plan, limits, devices, &NoHook))
}

/// Returns the number with which a run is refused, 0 if it isn't.
fn code_of(run: Result<ClusterRun, ClusterFault>) -> u16 {
    let code = match &run {
        Ok(_run) => 0,
        Err(fault) => fault.code(),
    };
    // Dropped by a call: no case of the proof then takes it apart.
    drop(run);
    code
}

const MOST: u64 = u64::MAX;

/// The number of nodes comes before the limits, and these before the devices.
#[test]
fn refusals_come_in_their_order(rt: HostRuntime) {
    let alloc = rt.alloc();
    assert!(rt; code(&rt, alloc, 0, (0, 0), &[]) == 44);
    assert!(rt; code(&rt, alloc, 17, (0, 0), &[0]) == 44);
    assert!(rt; code(&rt, alloc, MOST, (1, 1), &[0]) == 44);
    assert!(rt; code(&rt, alloc, 1, (0, 1), &[0]) == 55);
    assert!(rt; code(&rt, alloc, 1, (1_025, 1), &[0]) == 55);
    assert!(rt; code(&rt, alloc, 1, (1, 0), &[0]) == 55);
    assert!(rt; code(&rt, alloc, 1, (1, 1_048_577), &[0]) == 55);
    assert!(rt; code(&rt, alloc, 2, (1, 1), &[0]) == 55);
    assert!(rt; code(&rt, alloc, 1, (1, 1), &[0, 0]) == 55);
    assert!(rt; code(&rt, alloc, 1, (1, 1), &[]) == 55);
    assert!(rt; code(&rt, alloc, 2, (1, 1), &[MOST, 0]) == 30);
    assert!(rt; code(&rt, alloc, 2, (1, 1), &[MOST, MOST]) == 0);
    assert!(rt; code(&rt, alloc, 2, (1_024, 1_048_576), &[MOST, MOST]) == 0);
}

/// Returns the number with which a run of one node on a device with these bytes is refused, or 0.
fn code_on<R: Threads + Wait + Abort + Sync>(rt: &R, alloc: Global, bytes: &[u8]) -> u16 {
    let devices = failing(rt, alloc, bytes, &[MOST]);
    let (plan, limits) = (plan(1, 1, 0), Limits::largest());
    code_of(run_cluster_on(rt, alloc, plan, limits, devices, &NoHook))
}

/// Bytes that are no file, the file of another node, and a file of the first version.
#[test]
fn what_a_device_holds_may_be_refused(rt: HostRuntime) {
    assert!(rt; code_on(&rt, rt.alloc(), b"") == 0);
    assert!(rt; code_on(&rt, rt.alloc(), b"PMNODE02\x00\x00\x00") == 0);
    assert!(rt; code_on(&rt, rt.alloc(), b"a letter to a friend") == 31);
    assert!(rt; code_on(&rt, rt.alloc(), b"PMNODE02\x00\x01\x00") == 32);
    assert!(rt; code_on(&rt, rt.alloc(), b"PMNODE01\x00\x00\x00") == 36);
}

#[test]
fn no_cluster_has_seventeen_nodes(rt: HostRuntime) {
    for nodes in [0, 17, MOST] {
        let run = run_cluster(&rt, rt.alloc(), plan(nodes, 1, 0), &NoHook);
        assert!(rt; told(rt.alloc(), run) == Err(44));
    }
}

/// With journals of one entry, each call of a node except the first cuts its journal. All calls are
/// accepted, and the last of each node stands in its journal.
fn run_least<R: Threads + Wait + Abort + Sync>(
    rt: &R,
    alloc: Global,
    plan: ClusterPlan,
    journal: usize,
) -> Result<Came, u16> {
    let devices = failing(rt, alloc, b"", &[MOST; 4]);
    let limits = Limits { inbox: 1, journal };
    let run = run_cluster_on(rt, alloc, plan, limits, devices, &NoHook);
    // How many frames are lost depends on which thread comes first.
    told(alloc, run).map(|came| Came { lost: 0, ..came })
}

#[test]
fn journals_and_inboxes_of_one(rt: HostRuntime) {
    let wanted = Came {
        calls: 4,
        lost: 0,
        closed: 4,
        receipts: 163,
        kept: 4,
        code: 1,
    };
    assert!(rt; run_least(&rt, rt.alloc(), plan(4, 40, 2), 1) == Ok(wanted));
}

/// A run with lost frames is a run of the world all the same.
#[test]
fn inboxes_of_one(rt: HostRuntime) {
    let wanted = Came {
        calls: 163,
        lost: 0,
        closed: 4,
        receipts: 163,
        kept: 163,
        code: 0,
    };
    assert!(rt; run_least(&rt, rt.alloc(), plan(4, 40, 2), 1_048_576) == Ok(wanted));
}

#[test]
fn refusals_print_as_their_names(rt: HostRuntime) {
    let faults = [
        ClusterFault::NoSuchNode,
        ClusterFault::BadLimit,
        ClusterFault::NoThread,
        ClusterFault::Memory,
        ClusterFault::File(FileFault::Device),
        ClusterFault::Node(LockFault::NoSeat),
    ];
    let text = format!(in rt.alloc();
        "{} {} {} {} {} {}",
        faults[0], faults[1], faults[2], faults[3], faults[4], faults[5]
    );
    let text = text.expect(&rt, "memory");
    assert!(rt; text.as_str() == "NoSuchNode BadLimit NoThread Memory Device NoSeat");
    assert!(rt; faults.map(|fault| fault.code()) == [44, 55, 56, 99, 30, 52]);
}

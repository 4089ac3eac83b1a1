//! Workers run side by side: one waits in a gate until another has made all its turns.

use crate::parts::{Came, failing, plan, told};
use cluster::{ClusterRun, Limits, TurnHook, run_cluster, run_cluster_on};
use meta_types::NodeId;
use std::alloc::Global;
use std::sync::Wait;
use std::sync::atomic::{AtomicBool, Ordering};
use std::thread::{self, Threads};

/// How many times a turn that is held looks whether the other was made.
const LOOKS: u32 = 100_000_000;

/// A turn of a node.
type Turn = (u16, u64);

/// One turn waits until another was made.
#[derive(Drop)]
struct Holds {
    held: Turn,
    until: Turn,
    was_made: AtomicBool,
    has_come: AtomicBool,
}

impl Holds {
    fn new(held: Turn, until: Turn) -> Self {
        Holds {
            held,
            until,
            was_made: AtomicBool::new(false),
            has_come: AtomicBool::new(false),
        }
    }

    fn wait(&self) {
        for _look in 0..LOOKS {
            if self.was_made.load(Ordering::SeqCst) {
                self.has_come.store(true, Ordering::SeqCst);
                return;
            }
            thread::yield_now();
        }
    }
}

impl TurnHook for Holds {
    fn before(&self, node: NodeId, turn: u64) {
        if (node.number(), turn) == self.held {
            self.wait();
        }
    }

    fn after(&self, node: NodeId, turn: u64) {
        if (node.number(), turn) == self.until {
            self.was_made.store(true, Ordering::SeqCst);
        }
    }
}

/// Returns what comes of a run of two nodes and eight turns in which a turn is held; and whether
/// that turn was made once the other was, and not at the end of its wait.
fn run_held<R: Threads + Wait + Sync>(
    rt: &R,
    alloc: Global,
    held: Turn,
    until: Turn,
) -> (Result<Came, u16>, bool) {
    let gate = Holds::new(held, until);
    let run = run_cluster(rt, alloc, plan(2, 8, 1), &gate);
    let has_come = gate.has_come.load(Ordering::SeqCst);
    (told(alloc, run), has_come)
}

/// Returns all calls of two nodes and eight turns, with no frame lost.
fn seventeen() -> Result<Came, u16> {
    Ok(Came {
        calls: 17,
        lost: 0,
        closed: 2,
        receipts: 17,
        kept: 17,
        code: 0,
    })
}

// If only the second assertion fails, the wait ended by itself: the other worker was too slow for
// it, or didn't run meanwhile.
#[test]
fn node_1_makes_all_turns_while_node_0_waits(rt: HostRuntime) {
    let (run, has_come) = run_held(&rt, rt.alloc(), (0, 1), (1, 8));
    assert!(rt; run == seventeen());
    assert!(rt; has_come);
}

#[test]
fn node_0_makes_all_turns_while_node_1_waits(rt: HostRuntime) {
    let (run, has_come) = run_held(&rt, rt.alloc(), (1, 1), (0, 8));
    assert!(rt; run == seventeen());
    assert!(rt; has_come);
}

/// An inbox of one frame is full of the JOIN while node 0 waits, so the frames of node 1's two
/// writes are lost; and then the frame of the second of node 0's two writes.
#[test]
fn what_finds_no_room_is_lost_and_counted(rt: HostRuntime) {
    let gate = Holds::new((0, 1), (1, 8));
    let limits = Limits {
        inbox: 1,
        journal: 1_048_576,
    };
    let devices = failing(&rt, rt.alloc(), b"", &[u64::MAX; 2]);
    let run = run_cluster_on(&rt, rt.alloc(), plan(2, 8, 1), limits, devices, &gate);
    let wanted = Came {
        calls: 17,
        lost: 3,
        closed: 2,
        receipts: 17,
        kept: 17,
        code: 0,
    };
    assert!(rt; told(rt.alloc(), run) == Ok(wanted));
}

/// Turns enough that the writes of one node alone send more frames than an inbox may take.
const MANY: u64 = 4_200;

/// Returns how many frames are lost if the inbox of each node takes the first 1,024 that the other
/// sends, and no more.
fn beyond_1024(run: &ClusterRun) -> u64 {
    let (mut of_node_0, mut of_node_1) = (0u64, 0u64);
    for receipt in run.receipts.iter() {
        let sent = receipt.entry.outbox.as_slice().len() as u64;
        if receipt.node.number() == 0 {
            of_node_0 = of_node_0.saturating_add(sent);
        } else {
            of_node_1 = of_node_1.saturating_add(sent);
        }
    }
    of_node_0
        .saturating_sub(1_024)
        .saturating_add(of_node_1.saturating_sub(1_024))
}

/// Neither node takes a frame before the other has sent all: node 0 waits, and then node 1 makes no
/// more turns.
#[test]
fn run_cluster_has_the_largest_inboxes(rt: HostRuntime) {
    let gate = Holds::new((0, 1), (1, MANY));
    let run = run_cluster(&rt, rt.alloc(), plan(2, MANY, 1), &gate);
    let (lost, wanted) = match &run {
        Ok(run) => (run.lost, beyond_1024(run)),
        Err(_fault) => (0, 0),
    };
    drop(run);
    assert!(rt; gate.has_come.load(Ordering::SeqCst));
    assert!(rt; wanted > 0);
    assert!(rt; lost == wanted);
}

//! Runs on devices in memory that don't fail, with the greatest limits.

use crate::parts::{Came, are_in_order, plan, told};
use cluster::{ClusterPlan, NoHook, run_cluster};
use node_events::NodeEvent;
use std::alloc::Global;
use std::sync::Wait;
use std::thread::Threads;

fn run<R: Threads + Wait + Sync>(rt: &R, alloc: Global, plan: ClusterPlan) -> Result<Came, u16> {
    told(alloc, run_cluster(rt, alloc, plan, &NoHook))
}

/// Returns what comes of a run that has `calls` calls and loses no frame.
fn whole(closed: usize, calls: u64) -> Result<Came, u16> {
    Ok(Came {
        calls,
        lost: 0,
        closed,
        receipts: calls as usize,
        kept: calls as usize,
        code: 0,
    })
}

/// Eight turns of each of two nodes, and the join of one.
#[test]
fn two_nodes_make_seventeen_calls_in_eight_turns(rt: HostRuntime) {
    for seed in [0, 1, 7, u64::MAX] {
        assert!(rt; run(&rt, rt.alloc(), plan(2, 8, seed)) == whole(2, 17));
    }
}

/// Each receipt names its entry, and the journals are one run of the world.
#[test]
fn four_nodes_make_two_hundred_turns(rt: HostRuntime) {
    assert!(rt; run(&rt, rt.alloc(), plan(4, 200, 3)) == whole(4, 803));
}

#[test]
fn one_node_makes_its_turns_by_itself(rt: HostRuntime) {
    assert!(rt; run(&rt, rt.alloc(), plan(1, 9, 0)) == whole(1, 9));
    assert!(rt; run(&rt, rt.alloc(), plan(1, 0, 0)) == whole(1, 0));
}

#[test]
fn sixteen_nodes_make_no_turn_but_join(rt: HostRuntime) {
    assert!(rt; run(&rt, rt.alloc(), plan(16, 0, 5)) == whole(16, 15));
}

/// The first word of a `Pcg64` with the seed 2, as another program computed it.
const FIRST_OF_SEED_2: u64 = 1_084_574_603_684_186_893;

/// Returns the word with which the last node joined, in a run without turns.
fn last_word<R: Threads + Wait + Sync>(
    rt: &R,
    alloc: Global,
    nodes: u64,
    seed: u64,
) -> Option<u64> {
    let run = run_cluster(rt, alloc, plan(nodes, 0, seed), &NoHook).ok()?;
    match run.receipts.last()?.entry.event {
        NodeEvent::Join { word, .. } => Some(word),
        _ => None,
    }
}

/// The seed of a node's words is the plan's plus its number, wrapped.
#[test]
fn each_node_has_words_of_its_own(rt: HostRuntime) {
    for (nodes, seed) in [(2, 1), (3, 0), (4, u64::MAX)] {
        assert!(rt; last_word(&rt, rt.alloc(), nodes, seed) == Some(FIRST_OF_SEED_2));
    }
}

#[test]
fn receipts_come_by_nodes_and_places(rt: HostRuntime) {
    let run = run_cluster(&rt, rt.alloc(), plan(3, 20, 1), &NoHook);
    assert!(rt; run.is_ok_and(|run| are_in_order(run.receipts.as_slice())));
}

/// Returns what comes of a run, which is made once more if memory was refused, or with it a thread.
fn run_again<R: Threads + Wait + Sync>(
    rt: &R,
    alloc: Global,
    plan: ClusterPlan,
) -> Result<Came, u16> {
    match run(rt, alloc, plan) {
        Err(56 | 99) => run(rt, alloc, plan),
        other => other,
    }
}

// Both pass whichever single allocation is refused: what was refused memory, a run or its assembly,
// is done again.
#[test]
fn a_cluster_is_run_again_under_refused_memory(rt: HostRuntime) {
    assert!(rt; run_again(&rt, rt.alloc(), plan(1, 5, 0)) == whole(1, 5));
}

#[test]
fn a_run_of_two_nodes_is_assembled_again_under_refused_memory(rt: HostRuntime) {
    assert!(rt; run_again(&rt, rt.alloc(), plan(2, 8, 1)) == whole(2, 17));
}

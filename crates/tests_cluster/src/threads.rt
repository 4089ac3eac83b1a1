//! Runs of threads, made again by one.

use cluster::{ClusterPlan, ClusterRun, NoHook, Workload, run_cluster};
use hash_tree::plain_root;
use node_journal::are_whole;
use node_lock::Closed;
use printing::print_digest;
use run_record::assemble;
use run_text::replay_of;
use scenario::run_over;
use std::alloc::Global;
use std::process::Abort;
use std::sync::Wait;
use std::thread::Threads;

/// Returns the lines that `root` prints of these nodes, of the tables that they ended with.
fn roots(rt: &impl Abort, alloc: Global, closed: &[Closed]) -> Vec<u8> {
    let mut text = Vec::new(alloc);
    for node in closed {
        let root = plain_root(alloc, node.table()).expect(rt, "memory");
        text.extend_from_slice(b"root ").expect(rt, "memory");
        print_digest(&mut text, &root).expect(rt, "memory");
        text.push(b'\n').ok().expect(rt, "memory");
    }
    text
}

/// Returns what running the text of a run prints. The journals of the run are whole.
fn output(rt: &impl Abort, alloc: Global, nodes: u64, run: &ClusterRun) -> Vec<u8> {
    if !are_whole(run.closed.as_slice()) {
        panic!(rt; "whole journals");
    }
    let world = assemble(alloc, run.closed.as_slice(), run.receipts.as_slice());
    let world = world.ok().expect(rt, "a run of the world");
    let text = replay_of(alloc, b"a run", nodes, world.accepted()).expect(rt, "memory");
    drop(world);
    let text = text.expect(rt, "a text");
    let mut output = Vec::new(alloc);
    let done = run_over(alloc, &mut text.as_slice(), &mut output, &[]);
    done.ok().expect(rt, "a scenario");
    output
}

/// Returns whether a run that is made again ends with the tables that its threads had.
fn is_replayed<R: Threads + Wait + Abort + Sync>(rt: &R, alloc: Global, plan: ClusterPlan) -> bool {
    let run = run_cluster(rt, alloc, plan, &NoHook)
        .ok()
        .expect(rt, "a run");
    let output = output(rt, alloc, plan.nodes, &run);
    output.ends_with(roots(rt, alloc, run.closed.as_slice()).as_slice())
}

#[test]
fn runs_of_threads_are_made_again(rt: HostRuntime) {
    for seed in 0..8 {
        let plan = ClusterPlan {
            nodes: 4,
            turns: 60,
            seed,
            workload: Workload::Fixed,
        };
        assert!(&rt; is_replayed(&rt, rt.alloc(), plan));
    }
}

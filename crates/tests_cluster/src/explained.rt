//! Why journals are no run of the world, in words.

use crate::parts::plan;
use cluster::{ClusterRun, NoHook, run_cluster};
use node_journal::Receipt;
use run_record::RecordFault;
use run_text::explain_fault;
use std::alloc::Global;
use std::sync::Wait;
use std::thread::Threads;

/// Makes two turns of one node.
fn run<R: Threads + Wait + Sync>(rt: &R, alloc: Global) -> Option<ClusterRun> {
    run_cluster(rt, alloc, plan(1, 2, 0), &NoHook).ok()
}

/// Returns the words for receipts without a journal; `None` if memory ran out.
fn words(alloc: Global, receipts: &[Receipt]) -> Option<Vec<u8>> {
    explain_fault(alloc, &[], receipts, &RecordFault::StrangeReceipt).ok()
}

/// Returns whether that has these words, twice.
fn is_explained(alloc: Global, receipts: &[Receipt], wanted: &[u8]) -> bool {
    let one = words(alloc, receipts).or_else(|| words(alloc, receipts));
    let other = words(alloc, receipts).or_else(|| words(alloc, receipts));
    one.is_some_and(|text| text.as_slice() == wanted)
        && other.is_some_and(|text| text.as_slice() == wanted)
}

// It passes whichever single allocation is refused, or with it a thread: what was refused is done
// again.
#[test]
fn a_fault_is_explained_again_under_refused_memory(rt: HostRuntime) {
    let alloc = rt.alloc();
    let run = run(&rt, alloc).or_else(|| run(&rt, alloc));
    let wanted = b"node 0, call 1: a receipt tells of it, and the journal ends before\n";
    assert!(rt; run.is_some_and(|run| is_explained(alloc, run.receipts.as_slice(), wanted)));
}

//! A run whose allocations are refused, one at a time.

use crate::scenario_runs::{Done, largest, lww};
use crate::texts::{OUTPUT, TEXT};
use resolvers::Resolver;
use scenario::{ScenarioFault, run_over};
use std::alloc::Global;
use std::process::Abort;
use streams::StreamFault;

const MEMORY: Done = Err(ScenarioFault::Stream(StreamFault::Memory));

/// Returns whether a run ends with its whole output; else it ends for lack of memory with a front
/// of it.
fn is_whole(rt: &impl Abort, alloc: Global, resolvers: &[Box<dyn Resolver>]) -> bool {
    let mut output = Vec::new(alloc);
    let mut reader = TEXT;
    let done = run_over(alloc, &mut reader, &mut output, resolvers);
    let is_whole = done == Ok(());
    let (is_all, is_front) = (
        output.as_slice() == OUTPUT,
        OUTPUT.starts_with(output.as_slice()),
    );
    assert!(rt; is_whole && is_all || done == MEMORY && is_front);
    is_whole
}

// Whichever single allocation is refused, one of two runs is whole: a refused one leaves nothing
// that the next one meets.
#[test]
fn a_run_gives_a_front_of_its_output_under_refused_memory(rt: HostRuntime) {
    let all = [lww(&rt, rt.alloc()), largest(&rt, rt.alloc())];
    let first = is_whole(&rt, rt.alloc(), &all);
    let last = is_whole(&rt, rt.alloc(), &all);
    drop(all);
    assert!(rt; first || last);
}

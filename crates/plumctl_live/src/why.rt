//! Why what a cluster left is no run of the world.

ghost use Rattle.plumctl_live.specs.Live.{MaySayWhy};

use crate::judged::LiveFault;
use cluster::ClusterRun;
use run_record::RecordFault;
use run_text::explain_fault;
use std::alloc::Global;
use world_core::World;

/// Returns what is wrong with what a run left, a line for each thing, as `explain_fault` says it of
/// 60 to 63. Returns nothing of another fault, and nothing if there is no memory for the words.
pub(crate) fn why_of(alloc: Global, run: &ClusterRun, judged: &Result<World, LiveFault>) -> Vec<u8>
    ensures { MaySayWhy judged.now result.items }
{
    match judged {
        Ok(_)
        | Err(LiveFault::Cluster(_) | LiveFault::NotWhole)
        | Err(LiveFault::Record(RecordFault::Memory)) => Vec::new(alloc),
        Err(LiveFault::Record(fault)) => words_of(alloc, run, fault),
    }
}

/// Returns what `explain_fault` says, if there is memory for it.
fn words_of(alloc: Global, run: &ClusterRun, fault: &RecordFault) -> Vec<u8> {
    match explain_fault(alloc, run.closed.as_slice(), run.receipts.as_slice(), fault) {
        Ok(words) => words,
        Err(_) => Vec::new(alloc),
    }
}

//! What became of a cluster of threads.

ghost use Rattle.std.specs.Prelude.{◌≡◌, IfOk, IfErr};
ghost use Rattle.plumctl_live.specs.Live.{IsJudged, RefusesJudging, code_of, fault_name};

use cluster::{ClusterFault, ClusterRun};
use node_journal::are_whole;
use run_record::{RecordFault, assemble};
use std::alloc::Global;
use world_core::World;

/// Why a cluster's run isn't reported as a run of the world.
#[derive(Debug, Drop)]
pub enum LiveFault {
    /// There is no run.
    Cluster(ClusterFault),
    /// What the run left isn't a run of the world.
    Record(RecordFault),
    /// A journal isn't whole: it was cut, or its node isn't in its first life. So nobody can say.
    /// On new devices, with the greatest limits and as many turns as the program takes, all are.
    NotWhole,
}

impl LiveFault {
    /// The number of the refusal, as programs print it, if it has one.
    pub fn code(&self) -> Option<u16>
        ensures { result ≡ code_of self.now }
    {
        match self {
            LiveFault::Cluster(fault) => Some(fault.code()),
            LiveFault::Record(fault) => Some(fault.code()),
            LiveFault::NotWhole => None,
        }
    }

    /// The name of the refusal, as programs print it.
    pub fn name(&self) -> &'static str
        ensures { result.now ≡ fault_name self.now }
    {
        match self {
            LiveFault::Cluster(fault) => fault.name(),
            LiveFault::Record(fault) => fault.name(),
            LiveFault::NotWhole => "NotWhole",
        }
    }
}

/// Judges what a run left, with all its receipts, and returns the run of the world that it is.
///
/// Refused with `NotWhole` if a journal isn't whole; otherwise as [`run_record::assemble`] is.
/// It takes memory for the world.
pub fn judge(alloc: Global, run: &ClusterRun) -> Result<World, LiveFault>
    ensures world { IfOk result (IsJudged run.now) }
    ensures refused { IfErr result (RefusesJudging run.now) }
{
    if !are_whole(run.closed.as_slice()) {
        return Err(LiveFault::NotWhole);
    }
    match assemble(alloc, run.closed.as_slice(), run.receipts.as_slice()) {
        Ok(world) => Ok(world),
        Err(fault) => Err(LiveFault::Record(fault)),
    }
}

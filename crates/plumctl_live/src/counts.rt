//! The counts of a run.

ghost use Rattle.std.specs.Prelude.{◌≡◌};
ghost use Rattle.plumctl_live.specs.Live.{counts_in};

use cluster::ClusterRun;

/// The counts of a run.
#[derive(Clone, Copy, Debug, PartialEq, Eq)]
pub struct Counts {
    /// How many calls the nodes accepted.
    pub calls: u64,
    /// How many frames were lost.
    pub lost: u64,
    /// How many nodes stopped, since their devices failed.
    pub stopped: usize,
}

impl Counts {
    /// Returns the counts of a run.
    pub(crate) fn of(run: &ClusterRun) -> Counts
        ensures { result ≡ counts_in run.now }
    {
        Counts {
            calls: run.calls,
            lost: run.lost,
            stopped: run.stopped.len(),
        }
    }
}

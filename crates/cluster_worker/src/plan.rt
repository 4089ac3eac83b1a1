ghost use Rattle.std.specs.Prelude.{◌≡◌, ◌↔◌, IsTrue};
ghost use Rattle.cluster_worker.specs.Plan.{IsNodeCount, largest, refusal_of_run};

use crate::fault::ClusterFault;
use inbox::MAX_ROOM;
use node_lock::MAX_JOURNAL;

/// How many nodes a cluster has at most.
pub const MAX_NODES: u64 = 16;

/// What the turns of a run ask for.
#[derive(Clone, Copy, Debug, PartialEq, Eq)]
pub enum Workload {
    /// Each fourth turn writes; the others take a frame, or let time go on.
    Fixed,
    /// Each turn draws one of all the events of a node.
    Mixed,
}

/// A run of a cluster: of how many nodes, 1 to 16, numbered from 0; how many turns each of them
/// makes; the seed of their random words, to which each node adds its number; and what its turns
/// ask for.
#[derive(Clone, Copy, Debug, PartialEq, Eq)]
pub struct ClusterPlan {
    pub nodes: u64,
    pub turns: u64,
    pub seed: u64,
    pub workload: Workload,
}

/// How many frames the inbox of a node has room for, 1 to 1,024, and how many entries its journal
/// may have until it is cut, 1 to 1,048,576.
#[derive(Clone, Copy, Debug, PartialEq, Eq)]
pub struct Limits {
    pub inbox: usize,
    pub journal: usize,
}

impl Limits {
    /// Returns the greatest limits.
    pub fn largest() -> Self
        ensures { result ≡ largest }
    {
        Limits {
            inbox: MAX_ROOM,
            journal: MAX_JOURNAL,
        }
    }
}

/// Returns whether a cluster may have this number of nodes.
pub fn is_node_count(nodes: u64) -> bool
    ensures { IsTrue result ↔ IsNodeCount nodes }
{
    nodes > 0 && nodes <= MAX_NODES
}

/// Returns why no cluster is run by this plan and these limits with `devices` devices, if that is
/// so.
pub fn refusal_of(plan: ClusterPlan, limits: Limits, devices: usize) -> Option<ClusterFault>
    ensures { result ≡ refusal_of_run plan limits devices }
{
    if !is_node_count(plan.nodes) {
        return Some(ClusterFault::NoSuchNode);
    }
    if limits.inbox == 0 || limits.inbox > MAX_ROOM {
        return Some(ClusterFault::BadLimit);
    }
    if limits.journal == 0 || limits.journal > MAX_JOURNAL || devices as u64 != plan.nodes {
        return Some(ClusterFault::BadLimit);
    }
    None
}

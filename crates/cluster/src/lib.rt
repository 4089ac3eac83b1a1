//! A workload, not something to build on: a cluster of threads. Each node has a worker, which starts
//! the node, makes its turns and closes it, in a thread of its own. The frames that one node sends to
//! another go through inboxes.
//!
//! ```
//! let plan = ClusterPlan { nodes: 4, turns: 200, seed: 7, workload: Workload::Mixed };
//! let run = run_cluster(rt, alloc, plan, &NoHook)?;
//! if are_whole(&run.closed) {
//!     let world = assemble(alloc, &run.closed, &run.receipts)?; // what they did, as one run
//! }
//! ```
//!
//! Read `run` (`run_cluster_on`) and `threads`; `cluster_worker` has what a worker does in its
//! thread.
#![tactic(auto)]

mod run;
mod threads;

pub use cluster_worker::{
    ClusterFault, ClusterPlan, Limits, MAX_NODES, NoHook, TurnHook, Workload,
};
pub use run::{ClusterRun, run_cluster, run_cluster_on};

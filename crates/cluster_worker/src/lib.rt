//! What a cluster of threads is made of: how the next life of each node is begun in its device; the
//! inboxes that join the nodes; and a worker, which starts a node, makes its turns and closes it.
//!
//! ```
//! let served = begin_all(alloc, devices)?;
//! let (inboxes, passes) = connect(alloc, served.len(), MAX_ROOM)?;
//! // .. in a thread for each node, with what all of them share:
//! let worked = work(&shared, Job { served, passes })?;
//! ```
//!
//! Read `plan`, `turn_hook`, `fault`; then `worker` with `turns`, `source`, `call` and `sending`;
//! `serving` and `passes` hold what is done before.
#![tactic(auto)]

mod call;
mod fault;
mod passes;
mod plan;
mod sending;
mod serving;
mod source;
mod turn_hook;
mod turns;
mod worker;

pub use fault::ClusterFault;
pub use passes::{Passes, close_all, connect};
pub use plan::{ClusterPlan, Limits, MAX_NODES, Workload, is_node_count, refusal_of};
pub use serving::{ServedFile, begin_all};
pub use turn_hook::{NoHook, TurnHook};
pub use turns::Shared;
pub use worker::{Job, Worked, work};

//! What `plumctl live` does: a cluster of threads is run, judged and reported, and written down as
//! a scenario that makes its events again; over any writer, any standard error, any devices. The
//! program itself reads its arguments, opens paths, and removes a recording that isn't whole.
//!
//! ```
//! let plan = ClusterPlan { nodes: 4, turns: 200, seed: 7, workload: Workload::Fixed };
//! let live = run_live(rt, alloc, plan, &NoHook, &mut writer, &mut errors);
//! // printed: live nodes 4 turns 200, calls 803 lost 0, assembled
//! if let Ok(world) = &live.judged {
//!     let text = recording_of(alloc, plan, world)?; // a scenario that leads to this world
//! }
//! ```
//!
//! Read `judged` (`judge`), `why`, `counts`, `text` and `run` (`run_live`, `run_live_on`), then
//! `recording` (`recording_of`, `write_recording`); `folder` makes files for the nodes.
#![tactic(auto)]

mod counts;
mod folder;
mod judged;
pub mod laws;
mod recording;
mod run;
mod text;
mod why;

pub use counts::Counts;
pub use folder::{new_files, tell_unmade};
pub use judged::{LiveFault, judge};
pub use recording::{recording_of, write_recording};
pub use run::{LiveRun, run_live, run_live_on, tell_run};

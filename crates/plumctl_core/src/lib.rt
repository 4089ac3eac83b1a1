//! What the commands of `plumctl` read and print, and how they exit. The program itself only reads
//! its arguments. Their tests are the crate `tests_text`.
//!
//! ```
//! let status = run_frame(alloc, keys, &mut reader, &mut writer, &mut errors);
//! let status = run_scenario(alloc, &mut reader, &mut writer, &mut errors, explain, &NoProgress);
//! ```
//!
//! Read `status` (`run_frame`), `frame` (`frame_lines`), `line`, `scenario_run` with `progress`,
//! `opening` (`tell_unopened`, `tell_cause`), `key_file` (`read_keys`), then `laws`.
#![tactic(auto)]

mod frame;
mod key_file;
pub mod laws;
mod line;
mod opening;
mod progress;
mod scenario_run;
mod status;

pub use frame::{Ended, frame_lines};
pub use key_file::read_keys;
pub use opening::{tell_cause, tell_text, tell_unopened};
pub use progress::{Followed, NoProgress, Progress};
pub use scenario_run::run_scenario;
pub use status::{run_frame, status_of_fault, tell};

//! What `plumctl file` prints of a node's file, and how it exits: over any reader, any writer, and
//! any standard error; and over paths. The program itself only reads its arguments.
//!
//! ```
//! let (status, shown) = report_path(rt, "node-0", Purpose::Copy, &mut writer, &mut errors);
//! if let Some(shown) = shown {
//!     // a clean copy of what was shown
//!     let status = copy_to_path(rt, &shown, "node-0.clean", &mut writer, &mut errors);
//! }
//! ```
//!
//! Read `report` (`file_report`), then `run` (`run_file`, `run_rewrite`) and `paths`
//! (`report_path`, `copy_to_path`); `reading` has what is read of a file, `text` the lines, `cause`
//! what is printed at standard error about a path, and `laws` when that asks whether the path is
//! right. Their rows are paths of the program `rows`.
#![tactic(auto)]

mod cause;
pub mod laws;
mod paths;
mod reading;
mod report;
mod run;
mod text;

pub use cause::cause_of_unmade;
pub use paths::{Purpose, ShownPath, compact_path, copy_to_path, report_path};
pub use report::{Reported, ShownFile, file_report, print};
pub use run::{run_file, run_rewrite};

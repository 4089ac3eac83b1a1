//! Scenarios, explained: what `scenario` prints of each command, and besides, indented, the command
//! with the number of its line, why it was refused, the frames that are on their way after it, and
//! what nodes show that they didn't show before.
//!
//! ```
//! let text = b"nodes 2\njoin 1 0\n";
//! let mut output = Vec::new(alloc);
//! explain_over(alloc, &mut text.as_slice(), &mut output, &[])?;
//! //   1: nodes 2
//! // ok
//! //   2: join 1 0
//! // ok
//! // frame 1 JOIN 1 0
//! //   on their way: 1
//! ```
//!
//! Without its indented lines the output is that of `run_over`. Read `explain` (`Explainer`,
//! `explain_over`), `reason` (why a command was refused), `told` (what was told of nodes),
//! `waiting` (frames on their way), `line`, then `laws`.
#![tactic(auto)]

mod explain;
pub mod laws;
mod line;
mod reason;
mod told;
mod waiting;

pub use explain::{Explainer, explain_over};

//! Scenarios: texts of commands to the nodes of a world, and what each gives. A text is read whole.
//! If lines break a rule, only the number of the first one is printed. Otherwise its commands are
//! run over a new world, one after the other. Each prints a result line and, except for `settle`, a
//! line for each frame that it sent.
//!
//! ```
//! let text = b"nodes 2\nput 0 a/b/k x\nshow 0 a/b/k\n";
//! let mut output = Vec::new(alloc);
//! run_over(alloc, &mut text.as_slice(), &mut output, &[])?;
//! // ok
//! // wrote ctx 0.1:1
//! // ctx 0.1:1 values x
//! ```
//!
//! The language itself is the crate `scenario_text`, and what a command does and prints the crate
//! `scenario_commands`. Read `run` with `input`, then `runner` (in what manner a scenario is run),
//! `fault` and `laws`.
#![tactic(auto)]

pub mod fault;
mod input;
pub mod laws;
mod run;
pub mod runner;

pub use fault::ScenarioFault;
pub use input::read_text;
pub use run::{run_over, run_text};
pub use runner::{Plain, Runner};
pub use scenario_text::{BadLine, Script, parse};

//! One node: a machine from frames in to frames out.
//!
//! Read `state`, `table`, `step` and `attempt`; then a file for each thing that comes (`reading`,
//! `writing`, `taking`, `ticking`, `membership`, ..), `change`, and `commit`.
#![tactic(auto)]

mod announcing;
pub mod attempt;
mod change;
mod commit;
pub mod laws;
mod membership;
mod merging;
mod reading;
mod repair;
pub mod savepoint;
mod saying;
pub mod state;
mod step;
mod table;
mod taking;
mod ticking;
mod watching;
mod writing;

pub use attempt::Attempt;
pub use savepoint::Savepoint;
pub use state::{NodeState, Stepped};

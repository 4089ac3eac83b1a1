//! What a node's program does, and when: who is ticked, joined, exchanged with and given up.
#![tactic(auto)]

mod driven;
mod driving;
pub mod laws;
mod member;
mod plan;
mod task;

pub use driven::Driven;
pub use driving::{add_member, ask, on_failure, on_frame, on_time, wake};
pub use member::Member;
pub use plan::{Pace, Plan};
pub use task::Task;

//! What a node is asked to do, what it answers, and why it refuses.
//!
//! Read `event`, `reply`, then `fault`; `values`, `changes` and `outbox` are lists, and `laws`
//! says that comparisons are what they seem.
#![tactic(auto)]

pub mod changes;
pub mod event;
pub mod fault;
pub mod laws;
pub mod outbox;
pub mod reply;
pub mod values;

pub use changes::Changes;
pub use event::NodeEvent;
pub use fault::StepFault;
pub use outbox::Outbox;
pub use reply::Reply;
pub use values::Values;

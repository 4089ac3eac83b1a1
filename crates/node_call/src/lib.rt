//! The parts of what lies under a node's lock: a step is attempted, all that is handed out is made
//! ready, what the event stores goes into the file, and what it changes is shown to readers. Once
//! these succeeded, keeping the entry can't fail; if one fails, the attempt is taken back.
//!
//! Read `ready`, `storing`, `showing`; then `write`, `making`, `batch` and `storing_all`, which
//! make many writes at once; then `seat`, `acknowledgement`, `laws` and `fault`.
#![tactic(auto)]

mod acknowledgement;
mod batch;
mod fault;
pub mod laws;
mod making;
mod ready;
mod seat;
mod showing;
mod storing;
mod storing_all;
mod write;

pub use acknowledgement::Acknowledgement;
pub use batch::{Batch, BatchRefusal, make_all};
pub use fault::LockFault;
pub use ready::{Ready, prepare};
pub use seat::{WriteSeat, merge_all};
pub use showing::publish_change;
pub use storing::store_in;
pub use storing_all::store_all;
pub use write::Write;

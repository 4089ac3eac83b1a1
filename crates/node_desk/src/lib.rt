//! What lies under a node's lock: its state, its journal, its file and what readers are shown,
//! moved together by one call.
//!
//! ```
//! let done = desk.act(rt, &mut seat, NodeEvent::Write { key, value, context: None })?;
//! // the entry is journaled, the file has the object for good, and readers are shown it
//! reader.learn(done.revision()); // from here on this reader shows it or what came later
//! ```
//!
//! Read `desk`, `acting` (`Desk::act`), `batching` (`Desk::act_all`), `seats`, `starting`,
//! `closing` and `laws`; `node_call` has what a call is made of.
#![tactic(auto)]

mod acting;
mod batching;
mod closing;
mod desk;
pub mod laws;
mod outlets;
mod outlets_all;
mod seats;
mod starting;

pub use batching::Receipts;
pub use closing::NotClosed;
pub use desk::{Desk, MAX_SEATS};
pub use starting::{Capacity, MAX_JOURNAL, NotStarted, Started};

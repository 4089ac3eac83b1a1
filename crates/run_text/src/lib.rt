//! A recorded run in words. If it is a run of the world, a scenario that replays it: whoever runs
//! the text makes the same events, one after the other. If it is none, why: what waits for what, or
//! where a journal and the node differ.
//!
//! ```
//! match assemble(alloc, &closed, &receipts) {
//!     Ok(world) => {
//!         let text = replay_of(alloc, b"200 turns each", 4, world.accepted())?;
//!         // the commands of the text are the accepted events of the world
//!     }
//!     Err(fault) => {
//!         let text = explain_fault(alloc, &closed, &receipts, &fault)?;
//!         // node 1, call 1: takes a frame that no node sent: XROOT from 0 to 1 number 1 root ..
//!     }
//! }
//! ```
//!
//! Read `replay` (`replay_of`), then `spelling` (which runs have a text) and `line`. Then
//! `explain`, `needed` (what an entry needs), `difference` (where a node does something else) and
//! `reply`. Calls are counted from 1, for people.
#![tactic(auto)]

mod difference;
mod explain;
mod line;
mod needed;
mod replay;
mod reply;
mod spelling;

pub use explain::explain_fault;
pub use replay::replay_of;

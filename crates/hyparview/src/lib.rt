//! HyParView: the two views of a node, and the table of what changes them.
//!
//! A node talks to the few members of its active view, and keeps some more in reserve in its
//! passive one. [`Views::step`] is one row of the table: it takes an event with a random word, and
//! says which messages to send, to whom, and who became a neighbour or stopped being one. It knows
//! no transport and no clock: whoever sends the messages says when a peer is down and when a
//! shuffle is due.
//!
//! ```
//! let mut views = Views::new(alloc, node);
//! for out in views.step(ViewEvent::JoinThrough { contact }, word)? {
//!     match out {
//!         ViewOut::Send(to, message) => send(to, message)?,
//!         ViewOut::Up(peer) => link_is_up(peer),
//!         ViewOut::Down(peer) => link_is_down(peer),
//!     }
//! }
//! ```
//!
//! Read `event`, `views`, then `draft` (the small steps) and `rows` (the table). The crate
//! `node_overlay` makes each tenth tick of a node a shuffle.
#![tactic(auto)]

mod draft;
pub mod event;
pub mod laws;
mod rows;
pub mod views;

pub use event::{ViewEvent, ViewOut};
pub use views::Views;

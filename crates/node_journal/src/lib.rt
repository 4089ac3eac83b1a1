//! What a node leaves of a life: the entries of its journal, one for each event that it accepted,
//! and what its calls handed to their callers.
//!
//! ```
//! let given = state.step(event.copy()?)?;
//! journal.push(Entry { event, reply: given.reply, outbox: given.outbox })?;
//! // .. once the node is closed
//! let closed = Closed::from_parts(base, journal, table);
//! ```
//!
//! Read `entry`, `receipt`, then `closed`.
#![tactic(auto)]

mod closed;
mod entry;
mod receipt;

pub use closed::{Closed, are_whole};
pub use entry::Entry;
pub use receipt::Receipt;

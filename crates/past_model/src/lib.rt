//! The past: what happened, what each node knows of it, and the laws that tie it to the arithmetic
//! of clocks.
//!
//! What nodes know is defined by sets of writes and unions; counters come in only when a set is
//! shown as an object. What nodes hold is worked out twice: by sets, and by objects over the same
//! happenings. The second is the machine that the invariant of a world speaks of, and is for proofs
//! alone.
//!
//! ```
//! let plain = Plain::replay(alloc, history)?;
//! let siblings = plain.siblings(alloc, node, &key)?; // what the node has to show under the key
//! ```
//!
//! Read `happening`, `history` (`fits`), `laws`, then `plain`, which works it out by sets, over
//! `moment`, and `object_laws`.
#![tactic(auto)]

pub mod happening;
pub mod history;
pub mod laws;
mod moment;
pub mod object_laws;
pub mod plain;

pub use happening::Happening;
pub use history::fits;
pub use plain::Plain;

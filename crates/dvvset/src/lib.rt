//! Dotted version vector sets: what a store keeps under one key, and what a reader has seen of it.
//!
//! An object, `Entries`, has for each writer the number of its events and the values of the newest
//! of them. A `Vector` has the numbers alone: it is the vector of a read's context.
//!
//! ```
//! let blind = Vector::empty(alloc);
//! let (zero, one) = (Actor::new(NodeId::new(0)?, 1), Actor::new(NodeId::new(1)?, 1));
//! let here = update(alloc, &blind, &Entries::empty(alloc), zero, red)?;
//! let there = update(alloc, &blind, &Entries::empty(alloc), one, blue)?;
//! let both = sync(alloc, &here, &there)?; // shows red and blue
//! let read = join(alloc, &both)?; // the vector of a read
//! let after = update(alloc, &read, &both, one, green)?; // shows green
//! ```
//!
//! Read `entry`, `entries`, `vector` (the types), `merge` (`sync`), `write` (`update`), `compare`,
//! then `laws` and `fault`.
#![tactic(auto)]

pub mod compare;
pub mod entries;
pub mod entry;
pub mod fault;
pub mod laws;
pub mod merge;
pub mod vector;
pub mod write;

pub use compare::{count_of, descends, has_read, knows, same};
pub use entries::{Entries, values};
pub use entry::{Entry, copy_values};
pub use fault::ClockFault;
pub use merge::sync;
pub use vector::{Counter, Vector, join};
pub use write::update;

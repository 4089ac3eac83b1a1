//! The store of one node: a map from key to object.
//!
//! ```
//! let mut store = Store::new(alloc);
//! store.put(actor, key.copy()?, red, None)?; // a blind write
//! let (values, context) = store.look(&key, Source { actor, step: 1 })?; // shows red
//! store.put(actor, key, green, Some(&context))?; // replaces what was read
//! ```
//!
//! Read `store` with `rows`, `put`, `merge`, `context` with `source`, then `laws` and `fault`;
//! `size` says what may be held, `parts` is private.
#![tactic(auto)]

pub mod context;
pub mod fault;
pub mod laws;
pub mod merge;
mod parts;
pub mod put;
pub mod rows;
pub mod size;
pub mod source;
pub mod store;

pub use context::Context;
pub use fault::StoreFault;
pub use merge::Merged;
pub use rows::Rows;
pub use source::Source;
pub use store::Store;

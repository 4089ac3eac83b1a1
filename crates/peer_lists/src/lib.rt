//! Ordered lists of nodes, as views and broadcast keep them: who is in a list, who is left of it,
//! and the choices by a random word.
//!
//! ```
//! let unasked = without_all(alloc, views.passive(), asked)?;
//! let peer = choose(word, unasked.as_slice());
//! ```
//!
//! The definitions in `specs/` also say how a list changes: a member leaves and the list closes up
//! (`without`), or comes last unless it is there (`put_last`). In code these are `shift_remove` and
//! `insert` of an `IndexSet`.
#![tactic(auto)]

pub mod lists;

pub use lists::{choose, has, pick, without_all};

//! The repair of two stores that differ: each message is answered from what is held, and digests
//! lead to the keys that differ.
//!
//! Read `answering`, then `reconciling`; `sides` is private.
#![tactic(auto)]

pub mod answering;
pub mod reconciling;
mod sides;

pub use answering::{answer, start};
pub use reconciling::reconcile;

//! The recorded run: what many nodes did, each by itself, put together into one run of the world
//! that is proved, or why it can't be. First the entries of all journals get an order, in which
//! each comes after one that gives what it needs: the bytes that it takes were sent, and what its
//! write has read was handed out. Then a world makes them.
//!
//! ```
//! if are_whole(&closed) {
//!     // 60: something was taken that nobody sent; 61: some wait for one another
//!     let world = assemble(alloc, &closed, &receipts)?;
//!     // the world's history is the one that all journals tell, and its nodes hold their tables
//! }
//! ```
//!
//! Read `journals`, `giving`, `order` with `order_fault` and `laws` (`hint` and `walk` hold its
//! code); then `assembly` (`assemble`) with `fault`; `replay`, `event` and `checks` hold the code.
#![tactic(auto)]

mod assembly;
mod checks;
mod event;
mod fault;
mod giving;
mod hint;
mod journals;
pub mod laws;
mod order;
mod order_fault;
mod replay;
mod sending;
mod walk;

pub use assembly::assemble;
pub use fault::RecordFault;
pub use giving::{Giver, needs};
pub use journals::{journal_of, last_table};
pub use order::Turn;
pub use order_fault::{OrderFault, Place};
pub use walk::first_places;

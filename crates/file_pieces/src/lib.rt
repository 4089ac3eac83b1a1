//! Reading a node's file piece by piece, in memory for its table, its largest record, and what is
//! looked at behind its closed gate.
//!
//! ```
//! let mut reading = Reading::new(alloc, None);
//! while let Some(piece) = pieces.next() {
//!     reading.push(piece)?;
//! }
//! // as `node_file::open_node` and `node_file::changed_gate` tell of all pieces in one
//! let contents = reading.finish()?;
//! ```
//!
//! Read `reading`; `stage`, `progress`, `first` and `alone` hold the code.
#![tactic(auto)]

mod alone;
mod first;
mod progress;
mod reading;
mod stage;

pub use progress::FileContents;
pub use reading::Reading;

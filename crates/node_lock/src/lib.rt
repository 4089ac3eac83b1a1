//! A node that threads share: a call from any thread makes a step of the proved core, which is
//! journaled, durable if it writes, and shown to readers that take no lock.
//!
//! ```
//! let tokens = (Blank::new(9), Beginning::new());
//! let started = Node::start(rt, alloc, tokens, file, table, capacity)?;
//! let Started { node, mut writers, mut readers } = started;
//! let done = node.put(rt, &mut writers[0], key.copy()?, value, None)?;
//! readers[0].learn(done.revision());
//! let shown = readers[0].peek(&key)?; // without a lock: what was put, or what came later
//! let (closed, device) = node.close(writers, &readers)?;
//! ```
//!
//! Several writes at once, which are stored by one pair of syncs, and made whole or not at all:
//!
//! ```
//! let done = node.write_all(rt, &mut writers[0], writes)?; // a `Write` for each
//! readers[0].learn(&done.revision); // this reader shows all of them, or what came later
//! ```
//!
//! Read `node` (`Node`), then `node_desk` for what a call does under the lock, and `node_readers`
//! for what a reader sees. The refusals, 51 `JournalFull` among them, are those of `LockFault`.
#![tactic(auto)]

mod node;

pub use node::{Node, NotClosed, Started};
pub use node_call::{Acknowledgement, BatchRefusal, LockFault, Write, WriteSeat};
pub use node_desk::{Capacity, MAX_JOURNAL, MAX_SEATS, NotStarted, Receipts};
pub use node_file::MAX_BATCH;
pub use node_journal::{Closed, Entry, Receipt};
pub use node_readers::{Beginning, Naming, PeekFault, ReadSeat, Revision, Shown};

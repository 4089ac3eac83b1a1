//! A node's table, as readers take it: without a lock, and without ever waiting.
//!
//! One thread publishes changes of the table, one after the other: each is a key with the object
//! under it from then on. Each reader has a `ReadSeat`, and sees the table after some number of
//! them: never fewer than it was shown before, and never fewer than it learnt of. The list of
//! changes exists only in proofs. What threads share is one word, its length; and what each of them
//! carries is a `Revision`, how far the history went when it looked.
//!
//! ```
//! let (tail, revision) = Beginning::new().named::<J>();
//! let mut publisher = Publisher::new(alloc, &table, revision, readers, &rt)?;
//! let mut seat = publisher.seat()?;
//! let revision = publisher.publish(&rt, &tail, change)?;
//! seat.learn(&revision);
//! let shown = seat.peek(&key)?; // with the change
//! ```
//!
//! Read `published`, `naming`, `revision`, `beginning` and `tail` (the history); `seat`, `shown`,
//! `fault`, `publisher`, `threads` and `laws` (the readers). `history_rule` and `extent` hold what
//! `logbook` asks for; `spread` is the table that a copy has, and `copies` and `rule` hold what
//! `left_right` asks for.
#![tactic(auto)]

mod beginning;
mod copies;
mod extent;
mod fault;
mod history_rule;
pub mod laws;
mod naming;
mod published;
mod publisher;
mod revision;
mod rule;
mod seat;
mod shown;
mod spread;
mod tail;
mod threads;

pub use beginning::Beginning;
pub use extent::Extent;
pub use fault::PeekFault;
pub use naming::Naming;
pub use published::Published;
pub use publisher::Publisher;
pub use revision::Revision;
pub use seat::ReadSeat;
pub use shown::Shown;
pub use tail::Tail;
pub use threads::side_by_side;

//! An inbox of frames, which many senders fill and one taker empties, each in a thread of its own.
//! No frame is lost or doubled, and the frames of one sender keep their order.
//!
//! ```
//! let Fresh { inbox, mut puts, mut takes } = Inbox::new(alloc, 4)?;
//! // .. each pass of `puts` goes to a thread, and `&inbox` to all
//! inbox.put(rt, &mut pass, frame)?;
//! while let Some(parcel) = inbox.take(rt, &mut takes) { .. }
//! // .. once the threads are joined
//! inbox.hand_back(pass, &mut takes);
//! inbox.close();
//! ```
//!
//! Read `parcel`, `pass`, `inbox`, `fault`, then `laws`; `rule` is what each step at the queue
//! keeps.
#![tactic(auto)]

mod fault;
mod inbox;
pub mod laws;
mod parcel;
mod pass;
mod rule;

pub use fault::{InboxFault, NotPut};
pub use inbox::{Fresh, Inbox, MAX_ROOM};
pub use parcel::Parcel;
pub use pass::{PutPass, TakePass};

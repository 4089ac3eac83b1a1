//! Frames under a seal, by which a receiver knows that the bytes are those that a sender had who
//! has the key.
//!
//! A sealed frame is the frame, and behind it 16 bytes: the first half of HMAC-SHA-256 of the frame
//! under a key of 32 bytes. Two keys may be in use at once, so that one can replace the other while
//! nodes talk.
//!
//! ```
//! let keys = Keys { current: Key::new(bytes), previous: None };
//! let sealed = seal(alloc, &keys, frame)?; // what is sent
//! let frame = open(&keys, delivered)?; // what is handed to the node, or 17 `BadSeal`
//! ```
//!
//! Read `key`, `sealing`, `fault`, then `laws`; `hmac` is private.
#![tactic(auto)]

pub mod fault;
mod hmac;
pub mod key;
pub mod laws;
pub mod sealing;

pub use fault::SealFault;
pub use key::{Key, Keys};
pub use sealing::{SEAL_LEN, open, seal, seal_of};

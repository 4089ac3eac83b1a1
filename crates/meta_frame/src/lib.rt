//! Frames: what nodes send each other, as bytes and back. Their tests are the crate `tests_codec`.
//!
//! ```
//! let frame = Frame { from, to, number: 5, message: Message::Prune };
//! let bytes = encode(alloc, &frame)?;
//! let again = decode(alloc, bytes.as_slice())?; // equal to the frame
//! ```
//!
//! Read `message`, `kinds` (the table of kinds), `encoding`, `header`, `decoding` with `bodies`,
//! `lawful`, `field`, then `laws` and `fault`.
#![tactic(auto)]

mod bodies;
mod copies;
pub mod decoding;
pub mod encoding;
pub mod fault;
pub mod field;
pub mod header;
mod kinds;
pub mod lawful;
pub mod laws;
pub mod message;

pub use decoding::decode;
pub use encoding::{encode, put_object};
pub use fault::FrameFault;
pub use field::{get_key, get_object, get_prefix, get_vector};
pub use frame_fields::{NeighborAnswer, Priority};
pub use header::{HEADER_LEN, Header, MAX_FRAME_LEN, VERSION, read_header};
pub use kinds::kind_name;
pub use lawful::is_lawful;
pub use message::{Frame, Message};

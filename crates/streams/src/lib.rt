//! Readers and writers whose faults have a cause, the lines of a reader within a limit, and writing
//! whole texts: what the commands over standard input and output stand on. Their tests are the
//! crate `tests_text`.
//!
//! ```
//! let mut lines = LineBuffer::new(alloc)?;
//! while lines.next_line(&mut reader, &mut line)? {
//!     write_whole(&mut writer, line.as_slice())?;
//! }
//! // A last line that lacks its line feed is in `line` now; otherwise `line` is empty.
//! write_whole(&mut writer, line.as_slice())?;
//! ```
//!
//! Read `source` and `sink`, `line`, then `fault` and `laws`.
#![tactic(auto)]

mod fault;
pub mod laws;
mod line;
mod sink;
mod source;

pub use fault::StreamFault;
pub use line::{LineBuffer, MAX_INPUT_LEN};
pub use sink::{Sink, flush, write_fault, write_whole};
pub use source::{MayFail, Source};

//! The language of scenarios: texts of commands to the nodes of a world. A text is read whole. If
//! lines break a rule, only the number of the first one is returned.
//!
//! ```
//! let text = b"nodes 2\nput 0 a/b/k x\n";
//! if let Some(mut script) = parse(text, 0)? {
//!     script.nodes(); // 2
//!     script.next(); // Some(Command::Put { node: 0, .. })
//! }
//! ```
//!
//! What is printed of a line that breaks a rule, besides its number, is the line as it stands, and
//! what it wants:
//!
//! ```
//! let text = b"nodes 1\nput 0 a/b x\n";
//! let told = told_of_line(alloc, text, 2)?;
//! // line 2: put 0 a/b x
//! // wanted: put N KEY VALUE [stamp S] [read R]; a/b is wrong: KEY is as a/b/k, of letters, ..
//! ```
//!
//! Read `command`, `verb` and `table` (which words are which command), `number`, `name`, `bytes`
//! and `words` (what words stand for) with `split`, `line`, then `script` (a text) with `fault` and
//! `laws` (what is written reads back). Then `hint` (what is wrong with a line), `near`, `form`,
//! `wrong` (which word), and `told` with `found` and `shown`.
#![tactic(auto)]

pub mod bytes;
pub mod command;
pub mod fault;
mod form;
mod found;
pub mod hint;
pub mod laws;
mod line;
pub mod name;
mod near;
mod number;
pub mod script;
mod shown;
mod split;
mod table;
mod told;
mod verb;
mod words;
pub mod wrong;

pub use bytes::BytesWord;
pub use command::Command;
pub use fault::BadLine;
pub use found::is_skipped;
pub use hint::Hint;
pub use line::Lines;
pub use name::{KeyWord, PrefixWord};
pub use script::{Script, parse};
pub use shown::{add_printable, add_shown, shown_byte};
pub use told::told_of_line;
pub use verb::{VERBS, Verb, verb_of, word_of};
pub use words::Words;
pub use wrong::{Slot, Wrong};

//! A stage: a world in which the commands of scenarios are played, one after the other, with a mark
//! for each frame that was given to its addressee.
//!
//! ```
//! let mut stage = Stage::new(alloc, 2)?;
//! let mut text = Vec::new(alloc);
//! // (`command` was read from a line `put 0 a/b/k x`)
//! stage.obey(&command, &[], &mut text)?; // the text: wrote ctx 0.1:1
//! stage.world().state(0); // what node 0 is now
//! ```
//!
//! The language is the crate `scenario_text`; a whole text is run by the crate `scenario`. Read
//! `stage`, `event`, `deliver`, `look`, `write`, `kinds`, `print`, then `fault` and `laws`.
#![tactic(auto)]

mod deliver;
mod event;
pub mod fault;
mod kinds;
pub mod laws;
mod look;
mod print;
pub mod stage;
mod write;

pub use event::event_of;
pub use fault::StageFault;
pub use print::{print_count, print_frame_of, print_line};
pub use stage::Stage;
pub use write::keys_of;

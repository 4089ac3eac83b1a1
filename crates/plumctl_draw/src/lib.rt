//! The command `draw` of the program `plumctl`, over any reader and writers: a scenario is run as
//! `run` runs it, what happens is noted on the way, and a picture of it is written.
//!
//! ```
//! let status = draw_scenario(rt.alloc(), &mut reader, &mut writer, &mut errors, Excerpt::all());
//! ```
//!
//! A picture is a space-time diagram in SVG: a lane for each node, time downwards, and an arrow
//! from the sending of each frame to its delivery. A browser shows it as it is: it has no script
//! and loads nothing, and it has the colours of a light or a dark background, as the viewer
//! prefers.
//!
//! Read `command` (the whole), `asked` (whether there is something to draw), `drawing` (a scenario
//! drawn), `observer` (what is noted of a run), `labels` and `bands`; then `notes` (what happened),
//! `picture` and `arrows` (what is drawn), `layout` (where), and `svg` (how it is spelled).
#![tactic(auto)]

mod arrows;
mod asked;
mod bands;
mod command;
mod drawing;
mod fault;
mod labels;
mod layout;
mod notes;
mod observer;
mod picture;
mod svg;

pub use command::draw_scenario;
pub use drawing::{Excerpt, MAX_COMMANDS, MAX_MOMENTS};
pub use notes::{CommandLine, DrawnRow, Flight, Group, LaneMark, Notes, Span, bit};
pub use picture::add_picture;

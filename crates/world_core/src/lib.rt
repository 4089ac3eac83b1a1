//! The world: all nodes of a cluster in one value, with the frames that they sent and the images
//! that they left, under any schedule of events, and the history that these tell. Nodes send by
//! themselves; what they sent stays, and is delivered once, often, in any order, or never.
//!
//! ```
//! let mut world = World::new(alloc, 2)?;
//! let join = NodeEvent::Join { contact: NodeId::new(0).unwrap(), word: 0 };
//! world.apply(Event::Step { node: 1, event: join })?; // frame 1: a JOIN
//! world.apply(Event::Deliver { frame: 1, node: 0, word: 0 })?; // each is the other's neighbour
//! let write = NodeEvent::Write { key: key.copy()?, value: red, context: None };
//! let answer = world.apply(Event::Step { node: 0, event: write })?; // it sends a GOSSIP
//! let frame = answer.sent.first;
//! world.apply(Event::Deliver { frame, node: 1, word: 0 })?; // node 1 shows red
//! ```
//!
//! Read `event`, `answer`, `fault`, `world`; then `apply`, `step` (events that are steps of a node)
//! and `restart`; `chronicle` (what is kept of what was accepted), `history` (what that tells), and
//! `laws`. `frames` is the list of what was sent, which keeps what frames have in common only once:
//! the frames that the writes of one key send, each with all its siblings, take memory in
//! proportion to the number of writes.
#![tactic(auto)]

pub mod answer;
pub mod apply;
mod chronicle;
pub mod event;
pub mod fault;
pub mod frames;
mod history;
pub mod laws;
mod restart;
mod step;
pub mod world;

pub use answer::{Accepted, Answer, FrameNumbers};
pub use event::Event;
pub use fault::WorldFault;
pub use frames::Frames;
pub use world::World;

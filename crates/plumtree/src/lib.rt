//! Plumtree: to which peers a node sends an object, and to which only its announcement.
//!
//! Objects go at once to the eager peers. Lazy ones hear at the next tick that there is one
//! (IHAVE), and ask for it (GRAFT) if it hasn't come by another way some ticks later. A link
//! becomes lazy if an object came over it that was known already (PRUNE), which is meant to make a
//! tree of the eager links. It becomes eager again if an object had to be asked for over it.
//!
//! Each call is one row of a table. [`Cast`] holds no objects: its caller says whether one was
//! fresh, and adds it to the [`CastOut::Gossip`] that a call gives out.
//!
//! ```
//! let mut cast = Cast::new(alloc);
//! cast.up(peer)?;
//! for out in cast.on_broadcast(&key, &vector)? {
//!     match out {
//!         CastOut::Gossip { to, round, key } => send_object(to, round, key)?,
//!         CastOut::Send(to, message) => send(to, message)?,
//!     }
//! }
//! ```
//!
//! Read `entry`, `cast`, then `links` and `missing`. `tick` and `changes` foresee a tick, and many
//! changes of who is a peer, before they are made; `savepoint` takes other calls back. What holds
//! of every call is in `laws`.
#![tactic(auto)]

pub mod cast;
pub mod changes;
pub mod entry;
pub mod foreseen;
pub mod laws;
mod links;
mod missing;
pub mod savepoint;
pub mod tick;

pub use cast::Cast;
pub use entry::{CastOut, Noted, PeerChange};
pub use foreseen::Foreseen;
pub use savepoint::Savepoint;

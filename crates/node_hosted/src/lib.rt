//! A node for a host: a program that has a transport, a clock and a disk of its own. The host asks
//! for a step, stores what the step stores, and only then is handed the reply and the frames to
//! send. So no write that a reply has acknowledged is lost, if the host stores records as `record`
//! says.
//!
//! ```
//! let mut node = HostedNode::serve(alloc, &bytes_of_the_file, Some(number))?;
//! store(node.record())?; // at `node.gate()`, as `record` says
//! node.stored(true)?;
//! node.act(NodeEvent::PutOver { key, value })?;
//! store(node.record())?;
//! node.stored(true)?;
//! while let Some(frame) = node.frame() {
//!     send(frame)?;
//!     node.sent();
//! }
//! ```
//!
//! Several steps between `begin_batch` and `end_batch` have their records stored at once, all or
//! none.
//!
//! Read `node` (a hosted node and how it begins), `acting`, `batching`, `handing` (what the host is
//! handed), then `contexts`, `fault`, `unstored` and `laws` (what becomes of the host's file).
#![tactic(auto)]

mod acting;
mod batching;
mod contexts;
mod fault;
mod handing;
pub mod laws;
mod node;
mod unstored;

pub use fault::HostFault;
pub use node::HostedNode;

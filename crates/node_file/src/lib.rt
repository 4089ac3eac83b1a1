//! The file of a node on a device: at whatever moment a crash comes, it holds the table from before
//! a call or the table with the one new object; and each life of the node has a number of its own.
//!
//! ```
//! let device = FileDevice::open(rt, alloc, "node-3")?;
//! let (mut file, mut table, life) = serve(alloc, device, Some(node))?;
//! // .. a write of the node in this life makes `object` under `key`
//! file.append(alloc, &key, &object)?; // durable from here on
//! ```
//!
//! Read `node_file` and `opening`, then `batch` (many objects at once), `hosted` (a file without a
//! device), `record`, `laws` and `fault`; `reading`, `old` (objects of version 1), `contents`,
//! `found`, `putting` and `rewriting` hold the code.
#![tactic(auto)]

mod batch;
mod batch_fault;
mod contents;
mod fault;
mod found;
mod gates;
mod hosted;
pub mod laws;
mod new_object;
mod node_file;
mod old;
mod opening;
mod putting;
mod reading;
mod record;
mod rewriting;

pub use batch::{MAX_BATCH, has_room_for_all};
pub use batch_fault::BatchFault;
pub use fault::FileFault;
pub use found::{MAX_FILE_LEN, MIN_FILE_LEN};
pub use gates::{MAX_LOOKED_AT, changed_gate, end_of_records};
pub use hosted::{Served, clean_copy, serve_bytes, spell_append, spell_append_all};
pub use new_object::NewObject;
pub use node_file::NodeFile;
pub use opening::{create, empty_file, open_node, serve};
pub use reading::read_record;
pub use record::Record;
pub use rewriting::rewrite;

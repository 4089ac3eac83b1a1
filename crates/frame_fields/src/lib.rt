//! The fields that frames are made of: their forms, which values have a spelling, how long it is,
//! and how it is written. `frame_readers` reads them. Their tests are the crate `tests_codec`.
//!
//! Read the forms in `specs/Form.antt` and `specs/Field.antt`; then the types (`digest`, `digests`,
//! `nodes`, `prefixes`, `keys`, `neighbor`), `lawful`, `lengths` and `writing`.
#![tactic(auto)]

pub mod digest;
pub mod digests;
pub mod keys;
pub mod lawful;
pub mod laws;
pub mod lengths;
pub mod neighbor;
pub mod nodes;
pub mod prefixes;
pub mod rows;
pub mod writing;

pub use digest::Digest;
pub use digests::Digests;
pub use keys::{KeyDigest, KeyDigests};
pub use neighbor::{NeighborAnswer, Priority};
pub use nodes::Nodes;
pub use prefixes::{PrefixDigest, PrefixDigests};

//! The tree of digests that stands for a store in an exchange.
//!
//! Each full prefix has 256 leaves, in which its keys stand by the first byte of SHA-256 of their
//! own bytes; 16 inner nodes over 16 leaves each; and a root over these. The root of the tree goes
//! over the roots of the full prefixes, and is computed when it is asked for. An update computes
//! one leaf, one inner node and one prefix root, and for the first key of a full prefix also the
//! digests of an empty one.
//!
//! ```
//! let mut tree = Tree::from_store(alloc, &store)?;
//! tree.update(&key, object_digest(object))?; // after a write under the key
//! tree.root() // equals `plain_root(alloc, &store)?`
//! ```
//!
//! `Held` is a store with its tree; neither changes without the other.
//!
//! Read `tree`, `object`, `held`, then `laws`; `parts`, `prefix_tree`, `leaves`, `bucket`,
//! `hashing` and `text_hasher` are private.
#![tactic(auto)]

mod bucket;
mod hashing;
pub mod held;
pub mod laws;
mod leaves;
pub mod object;
mod parts;
mod prefix_tree;
mod text_hasher;
pub mod tree;

pub use held::Held;
pub use object::object_digest;
pub use tree::{Tree, plain_root};

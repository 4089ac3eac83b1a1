//! Node numbers, names, keys and values: the plain types that every crate of the store speaks of.
//!
//! Each type keeps its limits by itself: a value that exists is in range. A constructor returns a
//! refusal for what is out of range. Only three kinds of call take memory: `copy`,
//! `ByteString::from_slice` and `ByteString::into_vec`.
//!
//! ```
//! let prefix = FullPrefix::new(b"app".to_vec(alloc)?, b"flags".to_vec(alloc)?)?;
//! let key = MetaKey::new(prefix, b"colour".to_vec(alloc)?)?;
//! let red = Value::new(0, Some(b"red".to_vec(alloc)?))?;
//! ```
//!
//! Read `node`, `actor`, `prefix`, `key`, `value`, then `fault`; `bytes` is the string that names
//! are made of, and `laws` says that comparisons are what they seem. `together` takes two results
//! as one.
#![tactic(auto)]

pub mod actor;
pub mod bytes;
pub mod fault;
pub mod key;
pub mod laws;
pub mod node;
pub mod prefix;
pub mod together;
pub mod value;

pub use actor::Actor;
pub use bytes::ByteString;
pub use fault::TypeFault;
pub use key::MetaKey;
pub use node::NodeId;
pub use prefix::FullPrefix;
pub use together::both;
pub use value::Value;

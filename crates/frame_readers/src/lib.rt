//! Readers of the fields that frames are made of, from the front of bytes. Their contracts cite
//! readers on lists; those of `meta_frame`, which reads frames by them, cite forms.
//!
//! ```
//! let (key, rest) = read_key(alloc, bytes)?;
//! let (object, rest) = read_object(alloc, rest)?;
//! ```
//!
//! Read `reading` (numbers, names, objects) and `listing` (lists whose rows rise), then `fault`.
#![tactic(auto)]

pub mod fault;
pub mod listing;
pub mod reading;

pub use fault::FieldFault;

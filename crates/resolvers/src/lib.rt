//! How one of several siblings is chosen: [`Resolver`], which a user's own code may implement, and
//! two that serve most: [`Lww`], the last write by its stamp, and [`Largest`].
//!
//! ```
//! let latest: Box<dyn Resolver> = Box::new(alloc, Lww)?;
//! let chosen = &siblings[latest.resolve(siblings.as_slice())];
//! ```
//!
//! Read `resolver`.
#![tactic(auto)]

pub mod resolver;

pub use resolver::{Largest, Lww, Resolver};

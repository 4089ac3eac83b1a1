//! One node with its images: each of its steps, what each write and each keeping left, and the way
//! back to an image by a restart. Each value is kept once, however many images show it, so the
//! images that writes of one key leave take memory in proportion to their number, not to its
//! square.
//!
//! Read `image`, `node` and `restore`; then `images` (`Images`, `Image`, `Change`), with
//! `kept` and `logs` for how values are kept once.
#![tactic(auto)]

pub mod image;
pub mod images;
mod kept;
mod logs;
pub mod node;
mod restore;

pub use images::{Change, Image, Images};
pub use node::{ImagedNode, ImagedStep};

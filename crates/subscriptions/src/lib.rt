//! The last changes under a full prefix, for those who want to hear of them: [`Watch`]; and the
//! watches of a node, numbered, with the news of a change for them: [`Watches`], [`News`].
//!
//! A watch holds at most as many changes as it has room for. If one more comes, the oldest leaves,
//! and the watch counts it as missed.
//!
//! ```
//! let mut watch = Watch::new(alloc, prefix, 100)?;
//! watch.note(Change { key, vector });
//! let missed = watch.missed();
//! for change in watch.take()? {
//!     show(missed, &change.key, &change.vector)?;
//! }
//! ```
//!
//! Read `change`, `watch`, `watches` with `news`, then `fault`.
#![tactic(auto)]

pub mod change;
pub mod fault;
pub mod news;
pub mod watch;
pub mod watches;

pub use change::Change;
pub use fault::WatchFault;
pub use news::News;
pub use watch::Watch;
pub use watches::{HandedOut, Watches};

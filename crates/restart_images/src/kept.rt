//! An image, as it is kept.

use crate::logs::LoggedEntry;
use meta_types::MetaKey;

/// What an image has instead of what the image of the number `base` has.
#[derive(Debug, Drop)]
pub(crate) struct Kept {
    pub(crate) base: usize,
    pub(crate) change: Option<KeptChange>,
}

/// The key under which something else stands, and the entries of the object that does.
#[derive(Debug, Drop)]
pub(crate) struct KeptChange {
    pub(crate) key: MetaKey,
    pub(crate) entries: Vec<LoggedEntry>,
}

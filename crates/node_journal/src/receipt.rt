ghost use Rattle.std.specs.Prelude.{◌≡◌, IfOk};

use crate::entry::Entry;
use meta_types::NodeId;
use std::alloc::AllocError;

/// What an accepted call of a node hands to its caller: where its entry stands.
#[derive(Debug, Drop)]
pub struct Receipt {
    pub node: NodeId,
    /// The place of the entry in the node's journal, from 0.
    pub place: u64,
    pub entry: Entry,
}

impl Receipt {
    /// Fails only when memory runs out.
    pub fn copy(&self) -> Result<Self, AllocError>
        ensures { IfOk result (λ copy. copy ≡ self.now) }
    {
        Ok(Receipt {
            node: self.node,
            place: self.place,
            entry: self.entry.copy()?,
        })
    }
}

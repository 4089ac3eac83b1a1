ghost use Rattle.std.specs.Prelude.{◌≡◌, IfOk};
ghost use Rattle.plumtree.specs.Savepoint.{rolled_back, savepoint_of, with_noted_back};

use crate::cast::Cast;
use crate::entry::Noted;
use crate::missing::forget_noted;
use indexmap::IndexSet;
use meta_types::NodeId;
use std::alloc::AllocError;
use std::marker::Model;

/// Where a broadcast stood, to come back to: its peers, and how many announcements waited.
#[derive(Drop)]
pub struct Savepoint {
    eager: IndexSet<NodeId>,
    lazy: IndexSet<NodeId>,
    waiting: usize,
}

impl Model for Savepoint {
    ghost use Rattle.plumtree.specs.Lawful.{AreLinks};
    ghost use Rattle.plumtree.specs.Savepoint.{Standing};

    ghost Value = { Standing };

    ghost view = { λ s. record { eager = s.eager.keys; lazy = s.lazy.keys; waiting = s.waiting } };

    ghost invariant = { λ s. AreLinks s.eager.keys s.lazy.keys };
}

impl Cast {
    /// Returns where the broadcast stands. Fails only when memory runs out.
    pub fn savepoint(&self) -> Result<Savepoint, AllocError>
        ensures { IfOk result (λ savepoint. savepoint ≡ savepoint_of self.now) }
    {
        Ok(Savepoint {
            eager: self.eager.clone()?,
            lazy: self.lazy.clone()?,
            waiting: self.queue.len(),
        })
    }

    /// Goes back to the savepoint: the peers are those of the savepoint, and announcements that
    /// were added after it are dropped. That takes back whatever `on_broadcast`, `on_gossip`,
    /// `on_prune` and `on_graft` did. It never fails, and takes no memory.
    pub fn roll_back(&mut self, savepoint: Savepoint)
        ensures { self.new ≡ rolled_back savepoint self.old }
    {
        self.eager = savepoint.eager;
        self.lazy = savepoint.lazy;
        self.queue.truncate(savepoint.waiting);
    }

    /// Takes back an IHAVE that `note_ihave` took last. It never fails, and takes no memory.
    pub fn take_back_ihave(&mut self, noted: Noted)
        ensures { self.new ≡ with_noted_back noted self.old }
    {
        forget_noted(&mut self.missing, noted);
    }
}

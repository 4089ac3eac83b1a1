ghost use Rattle.std.specs.Prelude.{◌≡◌, IfOk};
ghost use Rattle.node_journal.specs.Equal.{journal_entry_eq};

use node_events::{NodeEvent, Outbox, Reply};
use std::alloc::AllocError;

/// An event that a node accepted, with what its step gave: the reply, and the frames to send.
#[derive(Debug, Drop)]
pub struct Entry {
    pub event: NodeEvent,
    pub reply: Reply,
    pub outbox: Outbox,
}

impl Entry {
    /// Fails only when memory runs out.
    pub fn copy(&self) -> Result<Self, AllocError>
        ensures { IfOk result (λ copy. copy ≡ self.now) }
    {
        Ok(Entry {
            event: self.event.copy()?,
            reply: self.reply.copy()?,
            outbox: self.outbox.copy()?,
        })
    }
}

impl PartialEq for Entry {
    ghost use Rattle.std.specs.Prelude.{◌≡◌, ◌↔◌, IsTrue};
    ghost use Rattle.std.specs.Cmp.{partial_equiv_from_equiv};
    ghost use Rattle.node_journal.specs.Equal.{journal_entry_equivalence};

    ghost eq = { journal_entry_eq };

    ghost laws = { partial_equiv_from_equiv journal_entry_equivalence };

    fn eq(&self, other: &Entry) -> bool
        ensures value { result ≡ journal_entry_eq self.now other.now }
        ensures same { IsTrue result ↔ (self.now ≡ other.now) }
    {
        self.event == other.event && (self.reply == other.reply && self.outbox == other.outbox)
    }
}

impl Eq for Entry {
    ghost use Rattle.node_journal.specs.Equal.{journal_entry_equivalence};

    ghost laws = { journal_entry_equivalence };
}

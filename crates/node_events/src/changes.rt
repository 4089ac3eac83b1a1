ghost use Rattle.std.specs.Prelude.{◌≡◌, IfOk};

use std::alloc::{AllocError, Global};
use std::marker::Model;
use subscriptions::Change;

/// Changes that a watch handed out, oldest first.
#[derive(Debug, Drop)]
pub struct Changes {
    changes: Vec<Change>,
}

impl Model for Changes {
    ghost use Rattle.std.specs.Prelude.{List};
    ghost use Rattle.subscriptions.specs.declared.change.Change.{Change};

    ghost Value = { List Change };

    ghost view = { λ c. c.changes.items };
}

impl Changes {
    pub fn new(changes: Vec<Change>) -> Self
        ensures { result ≡ changes.items }
    {
        Changes { changes }
    }

    /// Returns the changes, without taking memory.
    pub fn into_vec(self) -> Vec<Change>
        ensures { result.items ≡ self }
    {
        self.changes
    }

    pub fn as_slice(&self) -> &[Change]
        ensures { result.now ≡ self.now }
    {
        self.changes.as_slice()
    }

    /// Fails only when memory runs out.
    pub fn copy(&self) -> Result<Self, AllocError>
        ensures { IfOk result (λ copy. copy ≡ self.now) }
    {
        let changes = copy_all(*self.changes.allocator(), self.changes.as_slice())?;
        Ok(Changes { changes })
    }
}

fn copy_all(alloc: Global, changes: &[Change]) -> Result<Vec<Change>, AllocError>
    ensures { IfOk result (λ copies. copies.items ≡ changes.now) }
{
    let mut copies = Vec::with_capacity(alloc, changes.len())?;
    for change in changes {
        copies.push(change.copy()?)?;
    }
    Ok(copies)
}

impl PartialEq for Changes {
    ghost use Rattle.std.specs.Prelude.{◌≡◌, ◌↔◌, IsTrue};
    ghost use Rattle.node_events.specs.Equal.{changes_eq, changes_equivalence};
    ghost use Rattle.std.specs.Cmp.{partial_equiv_from_equiv};

    ghost eq = { changes_eq };

    ghost laws = { partial_equiv_from_equiv changes_equivalence };

    fn eq(&self, other: &Changes) -> bool
        ensures value { result ≡ changes_eq self.now other.now }
        ensures same { IsTrue result ↔ (self.now ≡ other.now) }
    {
        self.changes.as_slice() == other.changes.as_slice()
    }
}

impl Eq for Changes {
    ghost use Rattle.node_events.specs.Equal.{changes_equivalence};

    ghost laws = { changes_equivalence };
}

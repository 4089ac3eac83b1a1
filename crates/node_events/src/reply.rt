ghost use Rattle.std.specs.Prelude.{◌≡◌, IfOk};

use crate::changes::Changes;
use crate::values::Values;
use dvvset::Vector;
use meta_store::Context;
use std::alloc::AllocError;

/// What a node answers to an event that it accepted.
#[derive(Debug, Drop)]
pub enum Reply {
    /// To a read: what is shown, and a context for a write that has read it.
    Looked { values: Values, context: Context },
    /// To a write: the vector of what is held now.
    Wrote { vector: Vector },
    /// A frame without an object was taken.
    Took,
    /// A frame was taken whose object counts a write that wasn't known.
    TookFresh,
    /// A frame was taken whose object counts no write that wasn't known.
    TookStale,
    /// It is done, and there is nothing to report.
    Done,
    /// The new watch has this number.
    Watching { number: u64 },
    /// What a watch handed out, and how many changes it had missed.
    Changed { missed: u64, changes: Changes },
}

impl Reply {
    /// Fails only when memory runs out.
    pub fn copy(&self) -> Result<Self, AllocError>
        ensures { IfOk result (λ copy. copy ≡ self.now) }
    {
        Ok(match self {
            Reply::Looked { values, context } => Reply::Looked {
                values: values.copy()?,
                context: context.copy()?,
            },
            Reply::Wrote { vector } => Reply::Wrote {
                vector: vector.copy()?,
            },
            Reply::Took => Reply::Took,
            Reply::TookFresh => Reply::TookFresh,
            Reply::TookStale => Reply::TookStale,
            Reply::Done => Reply::Done,
            Reply::Watching { number } => Reply::Watching { number: *number },
            Reply::Changed { missed, changes } => Reply::Changed {
                missed: *missed,
                changes: changes.copy()?,
            },
        })
    }
}

impl PartialEq for Reply {
    ghost use Rattle.std.specs.Prelude.{◌≡◌, ◌↔◌, IsTrue};
    ghost use Rattle.node_events.specs.EqualEvents.{reply_eq, reply_equivalence};
    ghost use Rattle.std.specs.Cmp.{partial_equiv_from_equiv};

    ghost eq = { reply_eq };

    ghost laws = { partial_equiv_from_equiv reply_equivalence };

    fn eq(&self, other: &Reply) -> bool
        ensures value { result ≡ reply_eq self.now other.now }
        ensures same { IsTrue result ↔ (self.now ≡ other.now) }
    {
        match (self, other) {
            (
                Reply::Looked { values, context },
                Reply::Looked {
                    values: others,
                    context: theirs,
                },
            ) => values == others && context == theirs,
            (Reply::Wrote { vector }, Reply::Wrote { vector: theirs }) => vector == theirs,
            (Reply::Took, Reply::Took) => true,
            (Reply::TookFresh, Reply::TookFresh) => true,
            (Reply::TookStale, Reply::TookStale) => true,
            (Reply::Done, Reply::Done) => true,
            (Reply::Watching { number }, Reply::Watching { number: theirs }) => number == theirs,
            (
                Reply::Changed { missed, changes },
                Reply::Changed {
                    missed: count,
                    changes: theirs,
                },
            ) => missed == count && changes == theirs,
            _ => false,
        }
    }
}

impl Eq for Reply {
    ghost use Rattle.node_events.specs.EqualEvents.{reply_equivalence};

    ghost laws = { reply_equivalence };
}

//! The rule of the book that keeps a history, as `logbook` asks for it. No value of these
//! types is made.

use crate::published::Published;
use logbook::{Gain, Plain, Play, Rule};

/// The first word is the length of the history. Nothing is kept beside it.
pub struct Law;

impl Rule<Published, u64> for Law {
    ghost use Rattle.std.specs.Prelude.{[]};
    ghost use base.Fml.{ftrue};
    ghost use Rattle.node_readers.specs.History.{CountsChanges};

    ghost holds = { λ cells list. CountsChanges cells list };

    ghost first = { [] };

    ghost hinted = { λ n list. Unit {0} };

    ghost shows = { λ list. [] };

    ghost keeps = { λ names list. ftrue };

    ghost moves = { λ ask before after answer. Unit {0} };
}

/// Adding a change gains nothing beside it.
pub struct Nothing;

impl Gain<Published, u64> for Nothing {
    ghost use base.Fml.{ftrue};

    ghost after = { λ names about answer. ftrue };
}

/// A change is added at the end.
pub struct Add;

impl Play<Published, u64> for Add {
    ghost use Rattle.node_readers.specs.History.{AddsChange};

    ghost then = { AddsChange };
}

impl Plain<Published, Published, u64> for Add {
    ghost use Rattle.std.specs.Prelude.{None};

    ghost ask = { λ change. change };

    ghost state = { λ change. None };
}

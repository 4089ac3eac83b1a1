ghost use Rattle.std.specs.Prelude.{◌≡◌, []};

use crate::extent::Extent;
use crate::history_rule::Law;
use crate::naming::Naming;
use crate::published::Published;
use crate::revision::Revision;
use crate::tail::Tail;
use logbook::{Seen, Start, Word};
use std::marker::Model;

/// A history without a change, which is of no node yet. Contracts see it as its book.
#[derive(Drop)]
pub struct Beginning {
    word: Word<Published, u64, Law>,
    seen: Seen<Published, u64, Law>,
}

impl Model for Beginning {
    ghost use Rattle.std.specs.Prelude.{◌≡◌, []};
    ghost use Rattle.logbook.specs.Pages.{Book};
    ghost use Rattle.node_readers.specs.History.{word_of};

    ghost Value = { Book };

    ghost view = { λ b. b.seen.book };

    ghost invariant = { λ b. (b.seen.log ≡ []) × (b.word ≡ word_of b.seen.book) };
}

impl Beginning {
    /// It takes no memory.
    pub fn new() -> Self {
        let (seen, mut first, _second) = Seen::open(Start::alone(), 0, 0);
        Beginning {
            word: Word::tracked(0, &mut first),
            seen,
        }
    }

    /// Returns the history of the node whose book this is, without a change: where its first change
    /// is added, and how far it goes.
    pub fn named<J: Naming>(self) -> (Tail<J>, Revision<J>)
        requires book { self ≡ J.book }
        ensures { result.1 ≡ [] }
    {
        let Beginning { word, seen } = self;
        let extent = Extent::first(seen);
        (Tail::new(word), Revision::of(&extent))
    }
}

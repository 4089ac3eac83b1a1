ghost use Rattle.std.specs.Prelude.{◌≡◌, ◌<◌, ◌++◌, ◌∷◌, [], length, MatchBool, IsTrue};
ghost use mathlib.Core.List.{IsPrefix};
ghost use Rattle.node_readers.specs.History.{word_of, most_changes};

use crate::history_rule::{Add, Law, Nothing};
use crate::published::Published;
use logbook::{Offer, Seen, Word};
use std::marker::Model;

/// A history up to some change: whose book it is in, and the changes. What readers take has one,
/// since no type there may name the node; all else has a `Revision`.
#[derive(Drop)]
pub struct Extent {
    number: u64,
    seen: Seen<Published, u64, Law>,
}

impl Model for Extent {
    ghost use Rattle.std.specs.Prelude.{◌≡◌, length};
    ghost use Rattle.node_readers.specs.History.{Extent as Parts};

    ghost Value = { Parts };

    ghost view = { λ e. record { book = e.seen.book; list = e.seen.log } };

    ghost invariant = { λ e. e.number ≡ length e.seen.log };
}

impl Extent {
    /// Makes the extent of a history to which nothing was added.
    pub(crate) fn first(seen: Seen<Published, u64, Law>) -> Self
        requires { seen.log ≡ [] }
        ensures { result ≡ record { book = seen.book; list = [] } }
    {
        Extent { number: 0, seen }
    }

    /// Returns how many changes there are.
    pub fn number(&self) -> u64
        ensures { result ≡ length self.now.list }
    {
        self.number
    }

    /// Returns a copy of it. It takes no memory.
    pub fn again(&self) -> Self
        ensures { result ≡ self.now }
    {
        Extent {
            number: self.number,
            seen: self.seen.again(),
        }
    }

    /// Returns whether it has all changes of the other, which is of the same book.
    pub(crate) fn covers(&self, other: &Extent) -> bool
        requires { other.now.book ≡ self.now.book }
        ensures yes { IsTrue result → IsPrefix other.now.list self.now.list }
        ensures no { IsPrefix other.now.list self.now.list → IsTrue result }
        ensures otherwise { MatchBool result (Unit {0}) (IsPrefix self.now.list other.now.list) }
    {
        let mut both = self.seen.again();
        both.learn(&other.seen);
        other.number <= self.number
    }

    /// Adds a change to all that it has, and returns whether it did. It did not if the history had
    /// gone on beyond it; then it has all that there was.
    pub(crate) fn add(&mut self, word: &Word<Published, u64, Law>, change: &Published) -> bool
        requires word { word.now ≡ word_of self.old.book }
        requires room { length self.old.list < most_changes }
        ensures book { self.new.book ≡ self.old.book }
        ensures list { MatchBool result
            (self.new.list ≡ self.old.list ++ change.now ∷ [])
            (IsPrefix self.old.list self.new.list × (length self.old.list < length self.new.list)) }
    {
        let mut offer: Offer<Published, u64, Law, Nothing> = self
            .seen
            .plain::<Nothing, Published, Add>(change);
        let mut pen = self.seen.no_pen();
        let number = self.number;
        let found = word.compare_exchange::<Add, Nothing>(
            number,
            number + 1,
            &mut self.seen,
            &mut offer,
            &mut pen,
        );
        self.number = if found == number { number + 1 } else { found };
        found == number
    }
}

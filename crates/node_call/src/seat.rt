ghost use Rattle.std.specs.Prelude.{◌≡◌, ◌≤◌, ◌+◌, length, sum_by};

use std::marker::Model;
use std::sync::ledger::{Book, Ledger, Share};

/// The right to make calls of one node. It counts those that were accepted, only in proofs: it has
/// no bytes, and may go to another thread.
#[derive(Drop)]
pub struct WriteSeat<L: Ledger> {
    share: Share<L>,
    ghost one: { share.parts ≡ 1 },
}

impl<L: Ledger> Model for WriteSeat<L> {
    ghost use Rattle.std.specs.Prelude.{ℕ};

    /// How many calls it made that were accepted.
    ghost Value = { ℕ };

    ghost view = { λ seat. seat.share.amount };
}

impl<L: Ledger> WriteSeat<L> {
    /// Returns the seat of one part of a ledger.
    pub fn of(share: Share<L>) -> Self
        requires { share.parts ≡ 1 }
        ensures { result ≡ share.amount }
    {
        WriteSeat { share }
    }

    /// Counts one accepted call, in the seat and in the book of all.
    pub fn count(&mut self, book: &mut Book<L>)
        ensures seat { self.new ≡ self.old + 1 }
        ensures total { book.new.total ≡ book.old.total + 1 }
    {
        book.add(&mut self.share, 1);
    }

    /// Counts as many accepted calls.
    pub fn count_all(&mut self, calls: usize, book: &mut Book<L>)
        ensures seat { self.new ≡ self.old + calls }
        ensures total { book.new.total ≡ book.old.total + calls }
    {
        book.add(&mut self.share, calls as u64);
    }

    /// Returns its part of the ledger, with what it counted.
    pub fn into_share(self) -> Share<L>
        ensures parts { result.parts ≡ 1 }
        ensures amount { result.amount ≡ self }
    {
        self.share
    }
}

/// Puts all seats back into the share that is left. All of them together are no more than the
/// ledger.
pub fn merge_all<L: Ledger>(rest: &mut Share<L>, seats: Vec<WriteSeat<L>>)
    ensures parts { rest.new.parts ≡ rest.old.parts + length seats.items }
    ensures amount { rest.new.amount ≡ rest.old.amount + sum_by (λ s. s) seats.items }
    ensures apart { rest.new.parts ≤ L.parts }
{
    for given in seats {
        rest.merge(given.into_share());
    }
    let none = rest.empty();
    rest.merge(none);
}

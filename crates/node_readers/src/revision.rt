ghost use Rattle.std.specs.Prelude.{◌≡◌, ◌↔◌, ◌<◌, ◌≤◌, ◌+◌, ◌++◌, ◌∷◌, ◌⊎◌, [], length, MatchBool, IsTrue};
ghost use mathlib.Core.List.{IsPrefix};
ghost use Rattle.node_readers.specs.History.{most_changes};

use crate::extent::Extent;
use crate::naming::Naming;
use crate::published::Published;
use crate::tail::Tail;
use std::marker::{Model, PhantomData};

/// The most changes of a history.
const MAX_CHANGES: u64 = 1 << 62;

/// How far the history of a node goes: the changes up to one of them. At run time it is their
/// number. Of two revisions of one node, the one with fewer changes is a beginning of the other.
#[derive(Drop)]
pub struct Revision<J: Naming> {
    extent: Extent,
    of: PhantomData<J>,
}

impl<J: Naming> Model for Revision<J> {
    ghost use Rattle.std.specs.Prelude.{◌≡◌, List};
    ghost use Rattle.node_readers.specs.Published.{Published};

    ghost Value = { List Published };

    ghost view = { λ r. r.extent.list };

    ghost invariant = { λ r. r.extent.book ≡ J.book };
}

impl<J: Naming> Revision<J> {
    /// Returns the revision of a history that is known to be of this node.
    pub fn of(extent: &Extent) -> Self
        requires { extent.now.book ≡ J.book }
        ensures { result ≡ extent.now.list }
    {
        Revision {
            extent: extent.again(),
            of: PhantomData,
        }
    }

    /// Returns the history up to it, without the name of the node.
    pub fn extent(&self) -> &Extent
        ensures book { result.now.book ≡ J.book }
        ensures list { result.now.list ≡ self.now }
    {
        &self.extent
    }

    /// Returns how many changes there are.
    pub fn number(&self) -> u64
        ensures { result ≡ length self.now }
    {
        self.extent.number()
    }

    /// Returns a copy of it. It takes no memory.
    pub fn again(&self) -> Self
        ensures { result ≡ self.now }
    {
        Revision {
            extent: self.extent.again(),
            of: PhantomData,
        }
    }

    /// Returns the one of two revisions that has more changes; the other is a beginning of it. It
    /// takes no memory.
    pub fn later(&self, other: &Revision<J>) -> Self
        ensures one { (result ≡ self.now) ⊎ (result ≡ other.now) }
        ensures this { IsPrefix self.now result }
        ensures that { IsPrefix other.now result }
    {
        if self.extent.covers(&other.extent) {
            self.again()
        } else {
            other.again()
        }
    }

    /// Returns whether it has all changes of the other. It takes no memory.
    pub fn covers(&self, other: &Revision<J>) -> bool
        ensures { IsTrue result ↔ IsPrefix other.now self.now }
    {
        self.extent.covers(&other.extent)
    }

    /// Returns whether one more change may be added: there are fewer than 2 to the power of 62.
    pub fn has_room(&self) -> bool
        ensures { IsTrue result ↔ (length self.now < most_changes) }
    {
        self.extent.number() < MAX_CHANGES
    }

    /// Returns whether so many more changes may be added: there are then at most 2 to the power of
    /// 62.
    pub fn has_room_for(&self, changes: usize) -> bool
        ensures { IsTrue result ↔ (length self.now + changes ≤ most_changes) }
    {
        let number = self.extent.number();
        number <= MAX_CHANGES && changes as u64 <= MAX_CHANGES - number
    }

    /// Adds a change to all that it has, and returns whether it did. It did not if the history had
    /// gone on beyond it, as when two threads add at once; then nothing was added, and it has all
    /// that there was. It takes no memory and never waits.
    pub fn add(&mut self, tail: &Tail<J>, change: &Published) -> bool
        requires room { length self.old < most_changes }
        ensures { MatchBool result
            (self.new ≡ self.old ++ change.now ∷ [])
            (IsPrefix self.old self.new × (length self.old < length self.new)) }
    {
        self.extent.add(tail.word(), change)
    }
}

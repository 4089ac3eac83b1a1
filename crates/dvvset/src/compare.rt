//! Comparing clocks, and asking them for a writer. These calls take no memory and always succeed.

ghost use Rattle.std.specs.Prelude.{◌≡◌, ◌≤◌, ◌↔◌, ◌∷◌, [], ℕ, map, IsTrue};
ghost use Rattle.dvvset.specs.Object.{IsVector};
ghost use Rattle.dvvset.specs.Clock.{count_for, descends, join, same};
ghost use Rattle.dvvset.specs.Writer.{count_of, shapes};

use crate::entries::Entries;
use crate::entry::Entry;
use crate::vector::{Counter, Vector};
use meta_types::Actor;

/// Returns how many events of the writer the entries know: 0 if it has no entry. Takes no memory.
pub fn count_of(entries: &[Entry], id: Actor) -> u64
    ensures { result ≡ count_of entries.now id }
{
    for entry in entries {
        if entry.id() == id {
            return entry.count();
        }
    }
    0
}

/// Returns whether each counter of `b` is at most the counter of `a`: then whoever has read `a` has
/// read all that `b` has. An absent counter is 0. One pass over both.
pub fn descends(a: &Vector, b: &Vector) -> bool
    ensures value { result ≡ descends a.now b.now }
    ensures counters { IsTrue result ↔ ((w : ℕ) → count_for b.now w ≤ count_for a.now w) }
{
    descends_over(a.counters(), b.counters())
}

/// Returns whether the object knows each event that the vector counts. One pass over both.
pub fn has_read(object: &Entries, vector: &Vector) -> bool
    ensures { result ≡ descends (join object.now) vector.now }
{
    descends_over(object.entries(), vector.counters())
}

/// Returns whether the object knows each event that the other knows. One pass over both.
pub fn knows(object: &Entries, other: &Entries) -> bool
    ensures { result ≡ descends (join object.now) (join other.now) }
{
    descends_over(object.entries(), other.entries())
}

/// An element of an object or of a vector: it counts the events of one writer.
trait Counts {
    ghost use Rattle.std.specs.Prelude.{◌≡◌};
    ghost use Rattle.dvvset.specs.Object.{Counter as Parts};

    ghost counter: { Self → Parts };

    fn counter(&self) -> Counter
        ensures { result ≡ counter self.now };
}

impl Counts for Counter {
    ghost counter = { λ counter. counter };

    fn counter(&self) -> Counter {
        *self
    }
}

impl Counts for Entry {
    ghost counter = { λ entry. record { id = entry.id; count = entry.count } };

    fn counter(&self) -> Counter {
        Counter::new(self.id(), self.count())
    }
}

/// Does what `descends` does for two lists whose writers rise strictly, in one pass over both.
fn descends_over<A: Counts, B: Counts>(a: &[A], b: &[B]) -> bool
    requires a { IsVector (map A.counter a.now) }
    requires b { IsVector (map B.counter b.now) }
    ensures { result ≡ descends (map A.counter a.now) (map B.counter b.now) }
{
    let (mut i, mut j) = (0, 0);
    while j < b.len() {
        if i == a.len() {
            return false;
        }
        let x = a[i].counter();
        let y = b[j].counter();
        if y.id() < x.id() {
            return false;
        }
        if x.id() == y.id() {
            if x.count() < y.count() {
                return false;
            }
            j += 1;
        }
        i += 1;
    }
    true
}

/// Returns whether two objects have the same writers, each with equal numbers of events and of
/// values.
pub fn same(a: &Entries, b: &Entries) -> bool
    ensures value { result ≡ same a.now b.now }
    ensures shapes { IsTrue result ↔ (shapes a.now ≡ shapes b.now) }
{
    are_same(a.entries(), b.entries())
}

fn are_same(a: &[Entry], b: &[Entry]) -> bool
    ensures { result ≡ same a.now b.now }
{
    if a.len() != b.len() {
        return false;
    }
    for (i, x) in a.iter().enumerate() {
        if !is_same(x, &b[i]) {
            return false;
        }
    }
    true
}

fn is_same(x: &Entry, y: &Entry) -> bool
    ensures { result ≡ same (x.now ∷ []) (y.now ∷ []) }
{
    x.id() == y.id() && x.count() == y.count() && x.values().len() == y.values().len()
}

//! Laws of objects and of faults. The contract of a function is the law; its body does nothing, or
//! compares.

ghost use Rattle.std.specs.Prelude.{◌≡◌, ◌↔◌, ℕ, List, IsTrue};
ghost use Rattle.dvvset.specs.Object.{Entry, IsObject};
ghost use Rattle.dvvset.specs.Writer.{entry_of};

use crate::fault::ClockFault;

/// Objects in which each writer has the same entry, or none, are equal. So the laws of merging and
/// writing, which speak of one writer at a time, determine the results.
pub fn entries_determine_an_object()
    ensures { (a b : List Entry) → IsObject a → IsObject b → ((w : ℕ) → entry_of a w ≡ entry_of b w)
        → a ≡ b }
{}

/// Faults are equal exactly if they are the same.
pub fn equal_faults_are_the_same(one: &ClockFault, other: &ClockFault) -> bool
    ensures { IsTrue result ↔ (one.now ≡ other.now) }
{
    one == other
}

//! That `==` is equality. The contract of a function is the law; its body compares.

ghost use Rattle.std.specs.Prelude.{◌≡◌, ◌↔◌, IsTrue};

use crate::fault::StepFault;

/// Faults are equal exactly if they are the same.
pub fn equal_faults_are_the_same(one: &StepFault, other: &StepFault) -> bool
    ensures { IsTrue result ↔ (one.now ≡ other.now) }
{
    one == other
}

//! A law of faults. The function compares, and its contract is the law.

ghost use Rattle.std.specs.Prelude.{◌≡◌, ◌↔◌, IsTrue};

use crate::fault::StreamFault;

/// Two faults compare equal exactly if they are the same.
pub fn equal_faults_are_the_same(one: StreamFault, other: StreamFault) -> bool
    ensures { IsTrue result ↔ (one ≡ other) }
{
    one == other
}

//! Laws of inboxes. The contract of a function is the law.

ghost use Rattle.std.specs.Prelude.{◌≡◌, ◌↔◌, IsTrue};
ghost use Rattle.inbox.specs.Law.{AllIsHere};

use crate::fault::InboxFault;

/// Once as many passes came back as were given, what was taken and then what is left has each
/// parcel as often as it was put, and the parcels of each sender in the order they were put.
pub fn all_is_here()
    ensures { AllIsHere }
{}

/// Faults are equal exactly if they are the same.
pub fn equal_faults_are_the_same(one: &InboxFault, other: &InboxFault) -> bool
    ensures { IsTrue result ↔ (one.now ≡ other.now) }
{
    one == other
}

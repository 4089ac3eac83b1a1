//! What rows of prefixes and rows of keys have in common.

ghost use Rattle.std.specs.Prelude.{◌≡◌};
ghost use Rattle.frame_fields.specs.Field.{is_before};

use std::cmp::Ordering;

/// The most rows of a list.
pub const MAX_ROWS: u16 = 8_192;

/// Returns whether one string stands before another in byte order.
pub fn is_before(one: &[u8], other: &[u8]) -> bool
    ensures { result ≡ is_before one.now other.now }
{
    one.cmp(other) == Ordering::Less
}

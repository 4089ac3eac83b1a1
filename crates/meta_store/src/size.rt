//! Whether an object is small enough.

ghost use Rattle.std.specs.Prelude.{◌≡◌, ◌↔◌, true, IsTrue};
ghost use Rattle.std.specs.List.{list_all};
ghost use Rattle.frame_fields.specs.Field.{has_value};
ghost use Rattle.meta_store.specs.Table.{has_few_values, is_small_enough, IsHeld};

use crate::merge::MAX_MERGED_LEN;
use dvvset::{Entries, Entry};
use frame_fields::lawful::all_are_bare;
use frame_fields::lengths::object_len;

/// The most entries of an object.
pub const MAX_ENTRIES: usize = 65_535;

/// The most values of one writer that an object may show.
pub const MAX_VALUES_OF_A_WRITER: usize = 65_535;

/// Returns whether no entry shows more values than a frame can count.
fn have_few_values(entries: &[Entry]) -> bool
    ensures { result ≡ list_all has_few_values entries.now }
{
    entries
        .iter()
        .all(|entry| entry.values().len() <= MAX_VALUES_OF_A_WRITER)
}

/// Returns whether a store may hold the object: it shows a value, has at most 65,535 entries and
/// 65,535 values of each writer, and as a field of a frame at most 16,000,000 bytes. It goes over
/// the values once, and takes no memory.
pub fn may_be_held(object: &Entries) -> bool
    ensures { IsTrue result ↔ IsHeld object.now }
{
    !all_are_bare(object.entries()) && is_small_enough(object, MAX_MERGED_LEN)
}

/// Returns whether an object that shows a value has few enough entries, few enough values of each
/// writer, and as a field of a frame at most `most` bytes. It goes over the values once, and takes
/// no memory.
pub(crate) fn is_small_enough(object: &Entries, most: usize) -> bool
    requires { has_value object.now ≡ true }
    ensures { result ≡ is_small_enough most object.now }
{
    let entries = object.entries();
    entries.len() <= MAX_ENTRIES && have_few_values(entries) && object_len(object) <= most
}

//! Laws of tables and of faults. The contract of a function is the law; its body does nothing, or
//! compares.

ghost use Rattle.std.specs.Prelude.{◌≡◌, ◌↔◌, ℕ, ◌<◌, List, None, Some, length, get_or, IsTrue};
ghost use Rattle.std.specs.FinMap.{find};
ghost use Rattle.meta_types.specs.Name.{Key, IsKey};
ghost use Rattle.meta_types.specs.Order.{KeyBefore, key_cmp};
ghost use Rattle.dvvset.specs.Object.{Entry};
ghost use Rattle.meta_store.specs.Table.{IsTable, Table, object_at, with_former, with_object, without_object};

use crate::fault::StoreFault;

/// Tables that show the same under every key are equal, so what `here` and `elsewhere` of `put` and
/// `merge` say determines what a store holds.
pub fn look_ups_determine_a_table()
    ensures { (table other : Table) → IsTable table → IsTable other
        → ((key : Key) → IsKey key → object_at table key ≡ object_at other key) → table ≡ other }
{}

/// Each key of a table stands before each later one.
pub fn keys_rise()
    ensures { (table : Table) → IsTable table → (i j : ℕ) (d : Key × List Entry) → i < j
        → j < length table → KeyBefore (get_or table i d).0 (get_or table j d).0 }
{}

/// What is held under a new key and forgotten again leaves the table as it was.
pub fn forgetting_takes_back_what_was_held()
    ensures { (table : Table) (key : Key) (object : List Entry) → IsTable table
        → find key_cmp key table ≡ None
        → without_object key (with_object key object table) ≡ table }
{}

/// What is held under any key, and taken back by what the key held before, leaves the table as it
/// was.
pub fn a_hold_is_taken_back()
    ensures { (table : Table) (key : Key) (object : List Entry) → IsTable table
        → with_former key (find key_cmp key table) (with_object key object table) ≡ table }
{}

/// What is held under a key is found there.
pub fn what_is_held_is_found()
    ensures { (table : Table) (key : Key) (object : List Entry)
        → find key_cmp key (with_object key object table) ≡ Some object }
{}

/// Faults are equal exactly if they are the same.
pub fn equal_faults_are_the_same(one: &StoreFault, other: &StoreFault) -> bool
    ensures { IsTrue result ↔ (one.now ≡ other.now) }
{
    one == other
}

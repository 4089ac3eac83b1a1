ghost use Rattle.std.specs.Prelude.{◌≡◌, ◌≢◌, ◌+◌, ◌↔◌, [], IfOk, IsTrue, All};
ghost use Rattle.meta_types.specs.Value.{IsValue};
ghost use Rattle.dvvset.specs.Object.{IsEntry, IsObject};
ghost use Rattle.dvvset.specs.Clock.{values_of};

use crate::entry::{Entry, push_copies};
use crate::fault::ClockFault;
use crate::merge::push_entries;
use meta_types::Value;
use std::alloc::{AllocError, Global};
use std::marker::Model;

/// An object: what is kept under one key. Its entries stand in the order of their writers; the
/// object without entries is the absent object.
#[derive(Debug, Drop)]
pub struct Entries {
    entries: Vec<Entry>,
}

impl Model for Entries {
    ghost use Rattle.std.specs.Prelude.{List};
    ghost use Rattle.dvvset.specs.Object.{Entry as Parts, IsObject};

    ghost Value = { List Parts };

    ghost view = { λ e. e.entries.items };

    ghost invariant = { λ e. IsObject e.entries.items };
}

impl Entries {
    ghost use Rattle.std.specs.Prelude.{◌≡◌, ◌≢◌, ◌↔◌, [], IfOk, IfErr, IsOk, IsTrue};
    ghost use Rattle.dvvset.specs.Object.{IsObject};
    ghost use Rattle.dvvset.specs.declared.fault.ClockFault.TheVariants.{BadEntries};

    /// Returns the absent object.
    pub fn empty(alloc: Global) -> Self
        ensures { result ≡ [] }
    {
        Entries {
            entries: Vec::new(alloc),
        }
    }

    /// Returns the object of these parts, which must be those of an object.
    pub fn new(entries: Vec<Entry>) -> Self
        requires { IsObject entries.items }
        ensures { result ≡ entries.items }
    {
        Entries { entries }
    }

    /// Returns the object of these parts. Refused with 21 `BadEntries` if they are not those of an
    /// object, and only then: if writers don't rise strictly, a count is 0, or an entry shows more
    /// values than its count. What was handed in is dropped with a refusal.
    pub fn from_parts(entries: Vec<Entry>) -> Result<Self, ClockFault>
        ensures range { IsOk result ↔ IsObject entries.items }
        ensures value { IfOk result (λ object. object ≡ entries.items) }
        ensures fault { IfErr result (λ fault. fault ≡ BadEntries) }
    {
        if is_object(entries.as_slice()) {
            Ok(Entries { entries })
        } else {
            Err(ClockFault::BadEntries)
        }
    }

    /// Returns the parts, without taking memory.
    pub fn into_parts(self) -> Vec<Entry>
        ensures value { result.items ≡ self }
        ensures lawful { IsObject self }
    {
        self.entries
    }

    pub fn entries(&self) -> &[Entry]
        ensures value { result.now ≡ self.now }
        ensures lawful { IsObject self.now }
    {
        self.entries.as_slice()
    }

    /// Returns whether the object is the absent one.
    pub fn is_empty(&self) -> bool
        ensures { IsTrue result ↔ (self.now ≡ []) }
    {
        self.entries.is_empty()
    }

    /// Returns whether the object shows a value.
    pub fn has_value(&self) -> bool
        ensures { IsTrue result ↔ (values_of self.now ≢ []) }
    {
        show_a_value(self.entries.as_slice())
    }

    pub fn copy(&self) -> Result<Self, AllocError>
        ensures { IfOk result (λ copy. copy ≡ self.now) }
    {
        let entries = copy_entries(*self.entries.allocator(), self.entries.as_slice())?;
        Ok(Entries { entries })
    }
}

/// Returns copies of the values that an object shows, by writer, and of each writer the newest
/// first.
pub fn values(alloc: Global, object: &Entries) -> Result<Vec<Value>, AllocError>
    ensures { IfOk result (λ values. values.items ≡ values_of object.now) }
{
    let mut values = Vec::new(alloc);
    for entry in object.entries() {
        push_copies(&mut values, entry.values())?;
    }
    Ok(values)
}

fn show_a_value(entries: &[Entry]) -> bool
    ensures { IsTrue result ↔ (values_of entries.now ≢ []) }
{
    for entry in entries {
        if !entry.values().is_empty() {
            return true;
        }
    }
    false
}

fn copy_entries(alloc: Global, entries: &[Entry]) -> Result<Vec<Entry>, AllocError>
    ensures { IfOk result (λ copy. copy.items ≡ entries.now) }
{
    let mut copy = Vec::with_capacity(alloc, entries.len())?;
    push_entries(&mut copy, entries)?;
    Ok(copy)
}

/// Returns whether entries are those of an object.
fn is_object(entries: &[Entry]) -> bool
    ensures { IsTrue result ↔ IsObject entries.now }
{
    let mut low = 0;
    for entry in entries {
        let id = entry.id().number();
        if id < low || !is_entry(entry) {
            return false;
        }
        low = id + 1;
    }
    true
}

/// Returns whether an entry is lawful by itself.
fn is_entry(entry: &Entry) -> bool
    ensures { IsTrue result ↔ IsEntry entry.now }
{
    let _ = entry.id().number();
    1 <= entry.count() && entry.values().len() as u64 <= entry.count() && are_values(entry.values())
}

/// Always true: the type of a value keeps what is asked of it. It is asked here so that the
/// contract of an object can say it of all its values.
fn are_values(values: &[Value]) -> bool
    ensures holds { All IsValue values.now }
    ensures answer { IsTrue result }
{
    for value in values {
        let _ = value.stamp();
    }
    true
}

impl PartialEq for Entries {
    ghost use Rattle.std.specs.Prelude.{◌≡◌, ◌↔◌, IsTrue};
    ghost use Rattle.std.specs.Cmp.{partial_equiv_from_equiv};
    ghost use Rattle.dvvset.specs.Equal.{entries_eq, entries_equivalence};

    ghost eq = { entries_eq };

    ghost laws = { partial_equiv_from_equiv entries_equivalence };

    fn eq(&self, other: &Entries) -> bool
        ensures value { result ≡ entries_eq self.now other.now }
        ensures same { IsTrue result ↔ (self.now ≡ other.now) }
    {
        self.entries.as_slice() == other.entries.as_slice()
    }
}

impl Eq for Entries {
    ghost use Rattle.dvvset.specs.Equal.{entries_equivalence};

    ghost laws = { entries_equivalence };
}

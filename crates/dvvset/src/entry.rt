ghost use Rattle.std.specs.Prelude.{◌≡◌, ◌<◌, ◌+◌, ◌++◌, ◌∷◌, IfOk, OnOk};
ghost use Rattle.meta_types.specs.Failing.{FailsWith};
ghost use Rattle.dvvset.specs.Clock.{cover, cut};
ghost use Rattle.dvvset.specs.declared.fault.ClockFault.TheVariants.{CounterSpent, Memory};

use crate::fault::ClockFault;
use meta_types::{Actor, Value};
use std::alloc::{AllocError, Global};
use std::marker::Model;

/// The events of one writer: how many there were, and the values of the newest of them, newest
/// first.
///
/// An entry may have any parts: `Entries::from_parts` refuses those that are not lawful.
#[derive(Debug, Drop)]
pub struct Entry {
    id: Actor,
    count: u64,
    values: Vec<Value>,
}

impl Model for Entry {
    ghost use Rattle.dvvset.specs.Object.{Entry as Parts};

    ghost Value = { Parts };

    ghost view = { λ e. record { id = e.id; count = e.count; values = e.values.items } };
}

impl Entry {
    pub fn new(id: Actor, count: u64, values: Vec<Value>) -> Self
        ensures { result ≡ record { id = id; count = count; values = values.items } }
    {
        Entry { id, count, values }
    }

    pub fn id(&self) -> Actor
        ensures { result ≡ self.now.id }
    {
        self.id
    }

    /// Returns how many events the writer has.
    pub fn count(&self) -> u64
        ensures { result ≡ self.now.count }
    {
        self.count
    }

    /// Returns the values of its newest events, newest first.
    pub fn values(&self) -> &[Value]
        ensures { result.now ≡ self.now.values }
    {
        self.values.as_slice()
    }

    /// Returns the writer, its count and its values, without taking memory.
    pub fn into_parts(self) -> (Actor, u64, Vec<Value>)
        ensures writer { (result.0 ≡ self.id) × (result.1 ≡ self.count) }
        ensures values { result.2.items ≡ self.values }
    {
        (self.id, self.count, self.values)
    }

    pub fn copy(&self) -> Result<Self, AllocError>
        ensures { IfOk result (λ copy. copy ≡ self.now) }
    {
        let values = copy_values(*self.values.allocator(), self.values.as_slice())?;
        Ok(Entry {
            id: self.id,
            count: self.count,
            values,
        })
    }

    /// Returns how many of its events are no longer shown.
    pub(crate) fn cover(&self) -> u64
        ensures { result ≡ cover self.now }
    {
        self.count.saturating_sub(self.values.len() as u64)
    }

    /// Returns a copy of the entry without the values of the events up to number `low`.
    pub(crate) fn cut(&self, low: u64) -> Result<Self, AllocError>
        ensures { IfOk result (λ entry. entry ≡ cut self.now low) }
    {
        let kept = self.count.saturating_sub(low).min(self.values.len() as u64) as usize;
        let values = copy_values(*self.values.allocator(), &self.values[..kept])?;
        Ok(Entry {
            id: self.id,
            count: self.count,
            values,
        })
    }

    /// Returns the entry with one more event, whose value goes in front. No value is copied.
    pub(crate) fn raised(self, value: Value) -> Result<Self, ClockFault>
        ensures value { IfOk result
            (λ entry. entry ≡ record {
              id = self.id;
              count = self.count + 1;
              values = value ∷ self.values;
            }) }
        ensures room { OnOk result (self.count < u64.MAX) }
        ensures fault { FailsWith Memory (λ fault. (fault ≡ CounterSpent)
            × (self.count ≡ u64.MAX)) result }
    {
        let Entry {
            id,
            count,
            mut values,
        } = self;
        if count == u64::MAX {
            return Err(ClockFault::CounterSpent);
        }
        values.insert(0, value)?;
        Ok(Entry {
            id,
            count: count + 1,
            values,
        })
    }
}

/// Returns copies of values, in their order. Fails only when memory runs out.
pub fn copy_values(alloc: Global, values: &[Value]) -> Result<Vec<Value>, AllocError>
    ensures { IfOk result (λ copies. copies.items ≡ values.now) }
{
    let mut copies = Vec::with_capacity(alloc, values.len())?;
    push_copies(&mut copies, values)?;
    Ok(copies)
}

/// Adds copies of values at the end, in their order. If memory runs out, some of them may have been
/// added.
pub(crate) fn push_copies(copies: &mut Vec<Value>, values: &[Value]) -> Result<(), AllocError>
    ensures { OnOk result (copies.new.items ≡ copies.old.items ++ values.now) }
{
    for value in values {
        copies.push(value.copy()?)?;
    }
    Ok(())
}

impl PartialEq for Entry {
    ghost use Rattle.std.specs.Prelude.{◌≡◌, ◌↔◌, IsTrue};
    ghost use Rattle.std.specs.Cmp.{partial_equiv_from_equiv};
    ghost use Rattle.dvvset.specs.Equal.{entry_eq, entry_equivalence};

    ghost eq = { entry_eq };

    ghost laws = { partial_equiv_from_equiv entry_equivalence };

    fn eq(&self, other: &Entry) -> bool
        ensures value { result ≡ entry_eq self.now other.now }
        ensures same { IsTrue result ↔ (self.now ≡ other.now) }
    {
        self.id == other.id
            && self.count == other.count
            && self.values.as_slice() == other.values.as_slice()
    }
}

impl Eq for Entry {
    ghost use Rattle.dvvset.specs.Equal.{entry_equivalence};

    ghost laws = { entry_equivalence };
}

ghost use Rattle.std.specs.Prelude.{◌≡◌, ◌+◌, ◌↔◌, IfOk, IsTrue};
ghost use Rattle.dvvset.specs.Object.{IsVector};
ghost use Rattle.dvvset.specs.Clock.{join};

use crate::entries::Entries;
use crate::entry::Entry;
use crate::fault::ClockFault;
use meta_types::Actor;
use std::alloc::{AllocError, Global};
use std::marker::Model;

/// How many events of one writer are known.
#[derive(Clone, Copy, Debug, PartialEq, Eq)]
pub struct Counter {
    id: Actor,
    count: u64,
}

impl Model for Counter {
    ghost use Rattle.dvvset.specs.Object.{Counter as Parts};

    ghost Value = { Parts };

    ghost view = { λ c. record { id = c.id; count = c.count } };

    ghost inverse = { λ c. record { id = c.id; count = c.count } };
}

impl Counter {
    pub fn new(id: Actor, count: u64) -> Self
        ensures { result ≡ record { id = id; count = count } }
    {
        Counter { id, count }
    }

    pub fn id(self) -> Actor
        ensures { result ≡ self.id }
    {
        self.id
    }

    pub fn count(self) -> u64
        ensures { result ≡ self.count }
    {
        self.count
    }
}

/// A vector: how many events of each writer are known, in the order of the writers. A read's
/// context has one; the vector without counters has read nothing.
#[derive(Debug, Drop)]
pub struct Vector {
    counters: Vec<Counter>,
}

impl Model for Vector {
    ghost use Rattle.std.specs.Prelude.{List};
    ghost use Rattle.dvvset.specs.Object.{Counter as Parts, IsVector};

    ghost Value = { List Parts };

    ghost view = { λ v. v.counters.items };

    ghost invariant = { λ v. IsVector v.counters.items };
}

impl Vector {
    ghost use Rattle.std.specs.Prelude.{◌≡◌, ◌↔◌, [], IfOk, IfErr, IsOk, IsTrue};
    ghost use Rattle.dvvset.specs.Object.{IsVector};
    ghost use Rattle.dvvset.specs.declared.fault.ClockFault.TheVariants.{BadEntries};

    /// Returns the vector that has read nothing.
    pub fn empty(alloc: Global) -> Self
        ensures { result ≡ [] }
    {
        Vector {
            counters: Vec::new(alloc),
        }
    }

    /// Returns the vector of these parts, which must be those of a vector.
    pub fn new(counters: Vec<Counter>) -> Self
        requires { IsVector counters.items }
        ensures { result ≡ counters.items }
    {
        Vector { counters }
    }

    /// Returns the vector of these parts. Refused with 21 `BadEntries` if they are not those of a
    /// vector, and only then: if writers don't rise strictly or a count is 0. What was handed in is
    /// dropped with a refusal.
    pub fn from_parts(counters: Vec<Counter>) -> Result<Self, ClockFault>
        ensures range { IsOk result ↔ IsVector counters.items }
        ensures value { IfOk result (λ vector. vector ≡ counters.items) }
        ensures fault { IfErr result (λ fault. fault ≡ BadEntries) }
    {
        if is_vector(counters.as_slice()) {
            Ok(Vector { counters })
        } else {
            Err(ClockFault::BadEntries)
        }
    }

    /// Returns the parts, without taking memory.
    pub fn into_parts(self) -> Vec<Counter>
        ensures value { result.items ≡ self }
        ensures lawful { IsVector self }
    {
        self.counters
    }

    pub fn counters(&self) -> &[Counter]
        ensures value { result.now ≡ self.now }
        ensures lawful { IsVector self.now }
    {
        self.counters.as_slice()
    }

    /// Returns whether the vector has read nothing.
    pub fn is_empty(&self) -> bool
        ensures { IsTrue result ↔ (self.now ≡ []) }
    {
        self.counters.is_empty()
    }

    pub fn copy(&self) -> Result<Self, AllocError>
        ensures { IfOk result (λ copy. copy ≡ self.now) }
    {
        let counters = self.counters.clone()?;
        Ok(Vector { counters })
    }
}

/// Returns the vector of an object: how many events of each writer it knows, shown or not.
pub fn join(alloc: Global, object: &Entries) -> Result<Vector, AllocError>
    ensures value { IfOk result (λ vector. vector ≡ join object.now) }
    ensures lawful { IfOk result (λ vector. IsVector vector) }
{
    let counters = counters_of(alloc, object.entries())?;
    Ok(Vector { counters })
}

fn counters_of(alloc: Global, entries: &[Entry]) -> Result<Vec<Counter>, AllocError>
    ensures { IfOk result (λ counters. counters.items ≡ join entries.now) }
{
    let mut counters = Vec::with_capacity(alloc, entries.len())?;
    for entry in entries {
        counters.push(Counter::new(entry.id(), entry.count()))?;
    }
    Ok(counters)
}

/// Returns whether counters are those of a vector.
fn is_vector(counters: &[Counter]) -> bool
    ensures { IsTrue result ↔ IsVector counters.now }
{
    let mut low = 0;
    for counter in counters {
        let id = counter.id().number();
        if id < low || counter.count() == 0 {
            return false;
        }
        low = id + 1;
    }
    true
}

impl PartialEq for Vector {
    ghost use Rattle.std.specs.Prelude.{◌≡◌, ◌↔◌, IsTrue};
    ghost use Rattle.std.specs.Cmp.{partial_equiv_from_equiv};
    ghost use Rattle.dvvset.specs.Equal.{counters_eq, counters_equivalence};

    ghost eq = { counters_eq };

    ghost laws = { partial_equiv_from_equiv counters_equivalence };

    fn eq(&self, other: &Vector) -> bool
        ensures value { result ≡ counters_eq self.now other.now }
        ensures same { IsTrue result ↔ (self.now ≡ other.now) }
    {
        self.counters.as_slice() == other.counters.as_slice()
    }
}

impl Eq for Vector {
    ghost use Rattle.dvvset.specs.Equal.{counters_equivalence};

    ghost laws = { counters_equivalence };
}

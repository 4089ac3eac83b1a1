//! One more event of a writer.

ghost use Rattle.std.specs.Prelude.{◌≡◌, ◌≢◌, ◌<◌, [], max, IfOk, OnOk};
ghost use Rattle.meta_types.specs.Failing.{FailsWith};
ghost use Rattle.dvvset.specs.Object.{IsObject};
ghost use Rattle.dvvset.specs.Clock.{blanks, raise, count_for, update, values_of};
ghost use Rattle.dvvset.specs.Writer.{count_of, IsWritten};
ghost use Rattle.dvvset.specs.Place.{IsPlace};
ghost use Rattle.dvvset.specs.declared.fault.ClockFault.TheVariants.{CounterSpent, Memory};

use crate::entries::Entries;
use crate::entry::Entry;
use crate::fault::ClockFault;
use crate::merge::merge;
use crate::vector::{Counter, Vector};
use meta_types::{Actor, Value};
use std::alloc::{AllocError, Global};

/// Returns counters as entries that show nothing.
fn blanks(alloc: Global, counters: &[Counter]) -> Result<Vec<Entry>, AllocError>
    ensures { IfOk result (λ entries. entries.items ≡ blanks counters.now) }
{
    let mut entries = Vec::with_capacity(alloc, counters.len())?;
    for counter in counters {
        entries.push(Entry::new(counter.id(), counter.count(), Vec::new(alloc)))?;
    }
    Ok(entries)
}

/// Returns the place of the first entry whose writer is not below this one.
fn place(entries: &[Entry], id: Actor) -> usize
    ensures { IsPlace id entries.now result }
{
    for (at, entry) in entries.iter().enumerate() {
        if id <= entry.id() {
            return at;
        }
    }
    entries.len()
}

/// Returns the entries with one more event of a writer.
fn raise(entries: Vec<Entry>, id: Actor, value: Value) -> Result<Vec<Entry>, ClockFault>
    requires { IsObject entries.items }
    ensures value { IfOk result (λ raised. raised.items ≡ raise id value entries.items) }
    ensures room { OnOk result (count_of entries.items id < u64.MAX) }
    ensures fault { FailsWith Memory (λ fault. (fault ≡ CounterSpent)
        × (count_of entries.items id ≡ u64.MAX)) result }
{
    let mut entries = entries;
    let at = place(entries.as_slice(), id);
    if at < entries.len() && entries[at].id() == id {
        let entry = entries.remove(at).raised(value)?;
        entries.insert(at, entry)?;
        return Ok(entries);
    }
    let mut values = Vec::with_capacity(*entries.allocator(), 1)?;
    values.push(value)?;
    entries.insert(at, Entry::new(id, 1, values))?;
    Ok(entries)
}

/// Returns the object after a write by `id` that has read the vector. Values that the vector has
/// read are no longer shown; the others stay beside the new one as siblings. Refused with 20
/// `CounterSpent` exactly if the writer's counter, in the vector or in the object, is at its
/// greatest value, unless memory runs out. The value is dropped with a refusal. It takes memory for
/// the entries, the vector's too, and for copies of the values that stay.
pub fn update(
    alloc: Global,
    read: &Vector,
    object: &Entries,
    id: Actor,
    value: Value,
) -> Result<Entries, ClockFault>
    ensures value { IfOk result (λ written. written ≡ update read.now object.now id value) }
    ensures lawful { IfOk result (λ written. IsObject written) }
    ensures writers { IfOk result (λ written. IsWritten read.now object.now id value written) }
    ensures shows { IfOk result (λ written. values_of written ≢ []) }
    ensures room { OnOk result (max (count_for read.now id) (count_of object.now id) < u64.MAX) }
    ensures fault { FailsWith Memory (λ fault. (fault ≡ CounterSpent)
        × (max (count_for read.now id) (count_of object.now id) ≡ u64.MAX)) result }
{
    let _ = (id.number(), value.stamp());
    let read = blanks(alloc, read.counters())?;
    let known = merge(alloc, read.as_slice(), object.entries())?;
    let written = raise(known, id, value)?;
    Ok(Entries::new(written))
}

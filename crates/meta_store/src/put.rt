//! Writes.

ghost use Rattle.std.specs.Prelude.{◌≡◌, ◌≢◌, [], None, false, IfOk, IfSome, IfNone, OnOk, OnErr};
ghost use Rattle.meta_types.specs.Failing.{FailsBy};
ghost use Rattle.std.specs.Option.{option_copied};
ghost use Rattle.meta_types.specs.Name.{Key};
ghost use Rattle.meta_store.specs.Table.{IsHeld, object_at, with_object};
ghost use Rattle.dvvset.specs.Clock.{update};
ghost use Rattle.meta_store.specs.Context.{vector_read};
ghost use Rattle.meta_store.specs.Step.{is_full_for, is_of_another_key, refusal_of_put, refusal_of_update, object_after_put};
ghost use Rattle.meta_store.specs.declared.fault.StoreFault.TheVariants.{Memory};

use crate::context::Context;
use crate::fault::StoreFault;
use crate::size::is_small_enough;
use crate::store::Store;
use dvvset::{Entries, Vector, update};
use meta_types::{Actor, MetaKey, Value};
use std::alloc::Global;

/// The most bytes of an object after a write, as its field of a frame.
pub const MAX_WRITTEN_LEN: usize = 1_048_576;

impl Store {
    /// Returns the object that `put` would hold. Nothing changes. Refused as `put` is; then the
    /// value is dropped.
    pub fn preview_put(
        &self,
        id: Actor,
        key: &MetaKey,
        value: Value,
        context: Option<&Context>,
    ) -> Result<Entries, StoreFault>
        ensures value { IfOk result
            (λ object. object ≡ object_after_put self.now id key.now value
            (option_copied context.entry)) }
        ensures held { IfOk result IsHeld }
        ensures no_refusal { OnOk result
            (refusal_of_put self.now id key.now value (option_copied context.entry) ≡ None) }
        ensures fault { FailsBy Memory
            (refusal_of_put self.now id key.now value (option_copied context.entry)) result }
    {
        if is_of_another_key(key, context) {
            return Err(StoreFault::WrongKey);
        }
        if !self.has_room_for(key) {
            return Err(StoreFault::StoreFull);
        }
        let alloc = self.allocator();
        let (nothing, absent) = (Vector::empty(alloc), Entries::empty(alloc));
        let read = vector_read(context, &nothing);
        written(alloc, read, self.object_or(key, &absent), id, value)
    }

    /// Writes the value under the key, by `id`. The write has read what its context says, or
    /// nothing if it has no context: the values that were read are no longer shown, and the others
    /// stay beside the new one as siblings. The context counts even if nothing is held, or less
    /// than it has read. Nothing changes under other keys.
    ///
    /// Refused, in this order, with 26 `WrongKey` if the context is of another key, 25 `StoreFull`
    /// for a new key if 8,192 are held, 20 `CounterSpent` if the writer's counter, in what is held
    /// or in what was read, is 18,446,744,073,709,551,615, and 27 `ObjectTooLarge` if the object
    /// would have more than 65,535 entries, more than 65,535 values of one writer, or more than
    /// 1,048,576 bytes as its field of a frame; 99 `Memory` may stand in place of any other result.
    /// Then nothing changes. Key and value are dropped with a refusal.
    pub fn put(
        &mut self,
        id: Actor,
        key: MetaKey,
        value: Value,
        context: Option<&Context>,
    ) -> Result<(), StoreFault>
        ensures value { OnOk result
            (self.new ≡ with_object key
            (object_after_put self.old id key value (option_copied context.entry)) self.old) }
        ensures here { OnOk result
            (object_at self.new key ≡ object_after_put self.old id key value
            (option_copied context.entry)) }
        ensures elsewhere { OnOk result ((other : Key) → other ≢ key
            → object_at self.new other ≡ object_at self.old other) }
        ensures no_refusal { OnOk result
            (refusal_of_put self.old id key value (option_copied context.entry) ≡ None) }
        ensures fault { FailsBy Memory
            (refusal_of_put self.old id key value (option_copied context.entry)) result }
        ensures same { OnErr result (self.new ≡ self.old) }
    {
        // The key is dropped by calls: if it were dropped in place, each call of this function
        // would clear the room of its parts.
        match self.put_or_make(id, &key, value, context) {
            Ok(Some(object)) => Ok(self.hold(key, object)?),
            Ok(None) => {
                drop(key);
                Ok(())
            }
            Err(fault) => {
                drop(key);
                Err(fault)
            }
        }
    }

    /// Does what `put` does if the key is held. If it isn't, nothing changes, and the object that
    /// is to be held under it is returned.
    fn put_or_make(
        &mut self,
        id: Actor,
        key: &MetaKey,
        value: Value,
        context: Option<&Context>,
    ) -> Result<Option<Entries>, StoreFault>
        ensures put { IfOk result (λ left. IfNone left
            (self.new ≡ with_object key.now
            (object_after_put self.old id key.now value (option_copied context.entry)) self.old)) }
        ensures made { IfOk result (λ left. IfSome left (λ object. IsHeld object
            × (object ≡ object_after_put self.old id key.now value (option_copied context.entry))
            × (is_full_for self.old key.now ≡ false))) }
        ensures unchanged { IfOk result (λ left. IfSome left (λ object. self.new ≡ self.old)) }
        ensures no_refusal { OnOk result
            (refusal_of_put self.old id key.now value (option_copied context.entry) ≡ None) }
        ensures fault { FailsBy Memory
            (refusal_of_put self.old id key.now value (option_copied context.entry)) result }
        ensures same { OnErr result (self.new ≡ self.old) }
    {
        if is_of_another_key(key, context) {
            return Err(StoreFault::WrongKey);
        }
        let nothing = Vector::empty(self.allocator());
        let vector = vector_read(context, &nothing);
        let Some(value) = self.put_held(id, key, value, vector)? else {
            return Ok(None);
        };
        if !self.has_room_for(key) {
            return Err(StoreFault::StoreFull);
        }
        let absent = Entries::empty(self.allocator());
        let object = written(self.allocator(), vector, &absent, id, value)?;
        Ok(Some(object))
    }
}

/// Returns whether there is a context, and it is of another key.
fn is_of_another_key(key: &MetaKey, context: Option<&Context>) -> bool
    ensures { result ≡ is_of_another_key key.now (option_copied context.entry) }
{
    context.is_some_and(|context| context.key() != key)
}

/// Returns the vector of the context, or `nothing` if there is none.
fn vector_read<'a>(context: Option<&'a Context>, nothing: &'a Vector) -> &'a Vector
    requires { nothing.now ≡ [] }
    ensures { result.now ≡ vector_read (option_copied context.entry) }
{
    context.map_or(nothing, |context| context.vector())
}

/// Returns the object that a write makes of the one that is held, or of the absent one.
pub(crate) fn written(
    alloc: Global,
    read: &Vector,
    held: &Entries,
    id: Actor,
    value: Value,
) -> Result<Entries, StoreFault>
    ensures value { IfOk result (λ object. object ≡ update read.now held.now id value) }
    ensures held { IfOk result IsHeld }
    ensures no_refusal { OnOk result (refusal_of_update read.now held.now id value ≡ None) }
    ensures fault { FailsBy Memory (refusal_of_update read.now held.now id value) result }
{
    let object = update(alloc, read, held, id, value)?;
    if !is_small_enough(&object, MAX_WRITTEN_LEN) {
        return Err(StoreFault::ObjectTooLarge);
    }
    Ok(object)
}

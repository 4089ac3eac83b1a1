//! The rows under one full prefix.

ghost use Rattle.std.specs.Prelude.{◌≡◌, [], ◌∷◌, length, map, false, IfErr, IfOk, IfNone, IfSome, OnOk, OnErr, None, Some, is_none, is_some};
ghost use Rattle.std.specs.Option.{option_copied};
ghost use Rattle.std.specs.FinMap.{find, put};
ghost use Rattle.meta_types.specs.Name.{IsName};
ghost use Rattle.meta_types.specs.Order.{bytes_cmp};
ghost use Rattle.meta_types.specs.Failing.{FailsBy};
ghost use Rattle.dvvset.specs.Clock.{update};
ghost use Rattle.meta_store.specs.Kept.{AreRows, object_of_row, without_row};
ghost use Rattle.meta_store.specs.Table.{IsHeld};
ghost use Rattle.meta_store.specs.Step.{refusal_of_update};
ghost use Rattle.meta_store.specs.declared.fault.StoreFault.TheVariants.{Memory};

use crate::fault::StoreFault;
use crate::put::written;
use dvvset::{Entries, Vector};
use meta_types::{Actor, ByteString, FullPrefix, MetaKey, Value};
use std::alloc::{AllocError, Global};
use std::collections::BTreeMap;
use std::collections::btree_map::Iter;
use std::marker::Model;
use std::mem;

/// What a store holds under one full prefix: the keys' own bytes in byte order, each with its
/// object.
#[derive(Debug, Drop)]
pub struct Rows {
    by_key: BTreeMap<ByteString, Entries>,
}

impl Model for Rows {
    ghost use Rattle.meta_store.specs.Kept.{AreRows, Rows};

    ghost Value = { Rows };

    ghost view = { λ o. o.by_key.entries };

    ghost invariant = { λ o. AreRows o.by_key.entries };
}

impl Rows {
    /// Returns the rows of one key with its object.
    pub(crate) fn of_one(
        alloc: Global,
        key: ByteString,
        object: Entries,
    ) -> Result<Self, AllocError>
        requires in_range { IsName 256 key }
        ensures { IfOk result (λ rows. rows ≡ (key, object) ∷ []) }
    {
        let mut by_key = BTreeMap::new(alloc);
        by_key.insert(key, object)?;
        Ok(Rows { by_key })
    }

    /// Holds the object under the key in place of what is held there, and returns whether the key
    /// is new. Fails only when memory runs out for a new key, and then nothing changes.
    pub(crate) fn hold(&mut self, key: ByteString, object: Entries) -> Result<bool, AllocError>
        requires in_range { IsName 256 key }
        ensures value { OnOk result (self.new ≡ put bytes_cmp key object self.old) }
        ensures is_new { IfOk result (λ is_new. is_new ≡ is_none (find bytes_cmp key self.old)) }
        ensures absent { OnErr result (find bytes_cmp key self.old ≡ None) }
        ensures same { OnErr result (self.new ≡ self.old) }
    {
        let before = self.by_key.insert(key, object)?;
        Ok(before.is_none())
    }

    /// Puts the object in the place of the one that is held under the key, and returns that one. If
    /// the key isn't held, the object comes back and nothing changes. It takes no memory.
    pub(crate) fn replace(&mut self, key: &ByteString, object: Entries) -> Result<Entries, Entries>
        ensures value { OnOk result (self.new ≡ put bytes_cmp key.now object self.old) }
        ensures before { IfOk result (λ before. find bytes_cmp key.now self.old ≡ Some before) }
        ensures absent { OnErr result (find bytes_cmp key.now self.old ≡ None) }
        ensures back { IfErr result (λ back. back ≡ object) }
        ensures same { OnErr result (self.new ≡ self.old) }
    {
        let Some(held) = self.by_key.get_mut(key) else {
            return Err(object);
        };
        Ok(mem::replace(held, object))
    }

    /// Writes to the key by `id`, with what the write has read, if the key is held; it is searched
    /// for once. If it isn't held, the value comes back. If the write is refused or the value comes
    /// back, nothing changes.
    pub(crate) fn put_held(
        &mut self,
        alloc: Global,
        id: Actor,
        key: &ByteString,
        value: Value,
        read: &Vector,
    ) -> Result<Option<Value>, StoreFault>
        ensures value { IfOk result (λ left. IfNone left
            (self.new ≡ put bytes_cmp key.now
            (update read.now (object_of_row key.now self.old) id value) self.old)) }
        ensures held { IfOk result (λ left. IfNone left
            (IsHeld (update read.now (object_of_row key.now self.old) id value))) }
        ensures no_refusal { IfOk result (λ left. IfNone left
            (refusal_of_update read.now (object_of_row key.now self.old) id value ≡ None)) }
        ensures found { IfOk result (λ left. IfNone left
            (is_none (find bytes_cmp key.now self.old) ≡ false)) }
        ensures left { IfOk result (λ left. IfSome left
            (λ back. (back ≡ value)
            × ((object_of_row key.now self.old ≡ []) × (self.new ≡ self.old)))) }
        ensures fault { FailsBy Memory
            (refusal_of_update read.now (object_of_row key.now self.old) id value) result }
        ensures refused { OnErr result (is_none (find bytes_cmp key.now self.old) ≡ false) }
        ensures same { OnErr result (self.new ≡ self.old) }
    {
        let Some(held) = self.by_key.get_mut(key) else {
            return Ok(Some(value));
        };
        let object = written(alloc, read, held, id, value)?;
        *held = object;
        Ok(None)
    }

    /// Takes the key and its object out, and returns whether it was held. It takes no memory.
    pub(crate) fn forget(&mut self, key: &ByteString) -> bool
        ensures value { self.new ≡ without_row key.now self.old }
        ensures was_held { result ≡ is_some (find bytes_cmp key.now self.old) }
    {
        self.by_key.remove(key).is_some()
    }

    /// Returns the object that is held under the key of these bytes.
    pub fn object(&self, key: &ByteString) -> Option<&Entries>
        ensures { option_copied result ≡ find bytes_cmp key.now self.now }
    {
        self.by_key.get(key)
    }

    /// Returns how many keys there are.
    pub fn len(&self) -> usize
        ensures { result ≡ length self.now }
    {
        self.by_key.len()
    }

    /// Goes over the keys in byte order, each with its object, without taking memory.
    pub fn iter(&self) -> Iter<'_, ByteString, Entries>
        ensures rows { result ≡ self.now }
        ensures in_range { AreRows self.now }
    {
        self.by_key.iter()
    }

    /// Returns the keys under this full prefix, in order. They are copies.
    pub(crate) fn keys(
        &self,
        alloc: Global,
        prefix: &FullPrefix,
    ) -> Result<Vec<MetaKey>, AllocError>
        ensures { IfOk result (λ keys. keys.items
            ≡ map (λ row. record { prefix = prefix.now; key = row.0 }) self.now) }
    {
        let mut keys = Vec::with_capacity(alloc, self.by_key.len())?;
        for (key, _) in self.by_key.iter() {
            keys.push(MetaKey::under(prefix.copy()?, key.copy()?))?;
        }
        Ok(keys)
    }

    /// Fails only when memory runs out.
    pub(crate) fn copy(&self, alloc: Global) -> Result<Self, AllocError>
        ensures { IfOk result (λ copy. copy ≡ self.now) }
    {
        let mut by_key = BTreeMap::new(alloc);
        for (key, object) in self.by_key.iter() {
            by_key.insert(key.copy()?, object.copy()?)?;
        }
        Ok(Rows { by_key })
    }
}

impl PartialEq for Rows {
    ghost use Rattle.std.specs.Prelude.{◌≡◌, ◌↔◌, IsTrue};
    ghost use Rattle.std.specs.Cmp.{partial_equiv_from_equiv};
    ghost use Rattle.meta_store.specs.Equal.{rows_eq, rows_equivalence};

    ghost eq = { rows_eq };

    ghost laws = { partial_equiv_from_equiv rows_equivalence };

    fn eq(&self, other: &Rows) -> bool
        ensures value { result ≡ rows_eq self.now other.now }
        ensures same { IsTrue result ↔ (self.now ≡ other.now) }
    {
        self.by_key == other.by_key
    }
}

impl Eq for Rows {
    ghost use Rattle.meta_store.specs.Equal.{rows_equivalence};

    ghost laws = { rows_equivalence };
}

ghost use Rattle.std.specs.Prelude.{◌≡◌, [], length, None, Some, IfErr, IfOk, OnOk, OnErr, IfSome, IfNone, false, IsTrue, ◌↔◌};
ghost use Rattle.std.specs.Option.{option_copied};
ghost use Rattle.std.specs.FinMap.{find};
ghost use Rattle.meta_types.specs.Order.{key_cmp};
ghost use Rattle.meta_types.specs.Failing.{FailsBy};
ghost use Rattle.dvvset.specs.Clock.{join, update, values_of};
ghost use Rattle.meta_store.specs.Table.{IsHeld, IsTable, is_stale, keys_under, object_at, prefixes_of, with_object, without_object};
ghost use Rattle.meta_store.specs.Kept.{AreParts, table_of};
ghost use Rattle.meta_store.specs.Context.{reading_at};
ghost use Rattle.meta_store.specs.Step.{is_full_for, refusal_of_update};
ghost use Rattle.meta_store.specs.declared.fault.StoreFault.TheVariants.{Memory};

use crate::context::Context;
use crate::fault::StoreFault;
use crate::parts::{copy_parts, put_part, remove_part, replace_in_part};
use crate::rows::Rows;
use crate::source::Source;
use dvvset::{Entries, Vector, has_read, join, values};
use meta_types::{Actor, FullPrefix, MetaKey, Value};
use std::alloc::{AllocError, Global};
use std::collections::BTreeMap;
use std::collections::btree_map::Iter;
use std::marker::Model;

/// The most keys of a store.
pub const MAX_KEYS: usize = 8_192;

/// What one node holds: a map from key to object, by full prefix and then by the keys' own bytes,
/// so that a full prefix is kept once. Each object held shows a value; a key without an object is
/// read as one with the absent object.
#[derive(Debug, Drop)]
pub struct Store {
    alloc: Global,
    parts: BTreeMap<FullPrefix, Rows>,
    len: usize,
}

impl Model for Store {
    ghost use Rattle.std.specs.Prelude.{◌≡◌, length};
    ghost use Rattle.meta_store.specs.Table.{Table};
    ghost use Rattle.meta_store.specs.Kept.{AreParts, table_of};

    ghost Value = { Table };

    ghost view = { λ s. table_of s.parts.entries };

    ghost invariant = { λ s. record {
      parts : AreParts s.parts.entries;
      counted : s.len ≡ length (table_of s.parts.entries);
    } };
}

impl Store {
    /// Makes a store that holds nothing. It takes no memory; memory for what is held comes from the
    /// allocator.
    pub fn new(alloc: Global) -> Self
        ensures { result ≡ [] }
    {
        Store {
            alloc,
            parts: BTreeMap::new(alloc),
            len: 0,
        }
    }

    /// Returns how many keys are held, at most 8,192.
    pub fn len(&self) -> usize
        ensures value { result ≡ length self.now }
        ensures is_table { IsTable self.now }
    {
        self.len
    }

    /// Returns whether no key is held.
    pub fn is_empty(&self) -> bool
        ensures { IsTrue result ↔ (self.now ≡ []) }
    {
        self.len == 0
    }

    /// Returns the object that is held under the key.
    pub fn object(&self, key: &MetaKey) -> Option<&Entries>
        ensures value { option_copied result ≡ find key_cmp key.now self.now }
        ensures lawful { IfSome result (λ object. IsHeld object.now) }
    {
        self.parts.get(key.prefix())?.object(key.own_bytes())
    }

    /// Returns the values under the key, by writer and of each writer the newest first, and the
    /// vector of their object. Several values are siblings. Both are empty if nothing is held. They
    /// are copies. Fails only when memory runs out.
    pub fn get(&self, key: &MetaKey) -> Result<(Vec<Value>, Vector), AllocError>
        ensures values { IfOk result
            (λ read. read.0.items ≡ values_of (object_at self.now key.now)) }
        ensures vector { IfOk result (λ read. read.1 ≡ join (object_at self.now key.now)) }
    {
        let absent = Entries::empty(self.alloc);
        read(self.alloc, self.object_or(key, &absent))
    }

    /// Returns the values under the key, as `get` has them, and a context for a later write that
    /// has read them, as `context` makes it. Fails only when memory runs out.
    pub fn look(&self, key: &MetaKey, source: Source) -> Result<(Vec<Value>, Context), AllocError>
        ensures values { IfOk result
            (λ read. read.0.items ≡ values_of (object_at self.now key.now)) }
        ensures context { IfOk result (λ read. read.1 ≡ reading_at self.now key.now source) }
    {
        let (values, vector) = self.get(key)?;
        Ok((values, Context::new(key.copy()?, vector, source)))
    }

    /// Returns a context for a later write that has read what is under the key; if nothing is held,
    /// its vector has read nothing. `source` says who reads. No value is copied. Fails only when
    /// memory runs out.
    pub fn context(&self, key: &MetaKey, source: Source) -> Result<Context, AllocError>
        ensures { IfOk result (λ context. context ≡ reading_at self.now key.now source) }
    {
        Ok(Context::new(key.copy()?, self.vector(key)?, source))
    }

    /// Returns the vector of the object under the key, which has read nothing if nothing is held.
    fn vector(&self, key: &MetaKey) -> Result<Vector, AllocError>
        ensures { IfOk result (λ vector. vector ≡ join (object_at self.now key.now)) }
    {
        let absent = Entries::empty(self.alloc);
        join(self.alloc, self.object_or(key, &absent))
    }

    /// Returns whether the object under the key has read all that the vector has. It takes no
    /// memory.
    pub fn is_stale(&self, key: &MetaKey, vector: &Vector) -> bool
        ensures { result ≡ is_stale self.now key.now vector.now }
    {
        let absent = Entries::empty(self.alloc);
        has_read(self.object_or(key, &absent), vector)
    }

    /// Returns whether an object may be held under the key: it is held, or there are fewer keys
    /// than 8,192. It takes no memory.
    pub fn has_room_for(&self, key: &MetaKey) -> bool
        ensures { IsTrue result ↔ (is_full_for self.now key.now ≡ false) }
    {
        self.len < MAX_KEYS || self.object(key).is_some()
    }

    /// Holds the object under the key, in place of what is held there. It is for filling a store
    /// with what another one has held. Fails only when memory runs out for a new key, and then
    /// nothing changes. A key that is held is never refused.
    pub fn hold(&mut self, key: MetaKey, object: Entries) -> Result<(), AllocError>
        requires held { IsHeld object }
        requires room { is_full_for self.old key ≡ false }
        ensures value { OnOk result (self.new ≡ with_object key object self.old) }
        ensures absent { OnErr result (find key_cmp key self.old ≡ None) }
        ensures same { OnErr result (self.new ≡ self.old) }
    {
        let (prefix, own) = key.into_parts();
        if put_part(self.alloc, &mut self.parts, prefix, own, object)? {
            self.len += 1;
        }
        Ok(())
    }

    /// Writes to the key by `id`, with what the write has read, if the key is held; it is searched
    /// for once. If it isn't held, the value comes back. If the write is refused or the value comes
    /// back, nothing changes.
    pub(crate) fn put_held(
        &mut self,
        id: Actor,
        key: &MetaKey,
        value: Value,
        read: &Vector,
    ) -> Result<Option<Value>, StoreFault>
        ensures value { IfOk result (λ left. IfNone left
            (self.new ≡ with_object key.now
            (update read.now (object_at self.old key.now) id value) self.old)) }
        ensures no_refusal { IfOk result (λ left. IfNone left
            (refusal_of_update read.now (object_at self.old key.now) id value ≡ None)) }
        ensures found { IfOk result (λ left. IfNone left
            (is_full_for self.old key.now ≡ false)) }
        ensures left { IfOk result (λ left. IfSome left
            (λ back. (back ≡ value)
            × ((object_at self.old key.now ≡ []) × (self.new ≡ self.old)))) }
        ensures fault { FailsBy Memory
            (refusal_of_update read.now (object_at self.old key.now) id value) result }
        ensures refused { OnErr result (is_full_for self.old key.now ≡ false) }
        ensures same { OnErr result (self.new ≡ self.old) }
    {
        let alloc = self.alloc;
        let Some(rows) = self.parts.get_mut(key.prefix()) else {
            return Ok(Some(value));
        };
        rows.put_held(alloc, id, key.own_bytes(), value, read)
    }

    /// Puts the object in the place of the one that is held under the key, and returns that one. If
    /// the key isn't held, the object comes back and nothing changes. It takes no memory.
    pub fn replace(&mut self, key: &MetaKey, object: Entries) -> Result<Entries, Entries>
        requires { IsHeld object }
        ensures value { OnOk result (self.new ≡ with_object key.now object self.old) }
        ensures before { IfOk result (λ before. find key_cmp key.now self.old ≡ Some before) }
        ensures lawful { IfOk result IsHeld }
        ensures absent { OnErr result (find key_cmp key.now self.old ≡ None) }
        ensures back { IfErr result (λ back. back ≡ object) }
        ensures same { OnErr result (self.new ≡ self.old) }
    {
        replace_in_part(&mut self.parts, key.prefix(), key.own_bytes(), object)
    }

    /// Takes the key and its object out again. Nothing changes if the key isn't held. It takes no
    /// memory. It is for taking back a merge or a `hold` under a new key, if what belongs to it
    /// elsewhere could not be kept. It is no deletion, which is a write of a tombstone: what is
    /// forgotten isn't known, so a node would count its own writes under the key from 1 again.
    pub fn forget(&mut self, key: &MetaKey)
        ensures { self.new ≡ without_object key.now self.old }
    {
        if remove_part(&mut self.parts, key.prefix(), key.own_bytes()) {
            self.len -= 1;
        }
    }

    /// Returns the keys under the full prefix, in order; none if it holds none. They are copies.
    /// Fails only when memory runs out.
    pub fn list(&self, prefix: &FullPrefix) -> Result<Vec<MetaKey>, AllocError>
        ensures { IfOk result (λ keys. keys.items ≡ keys_under prefix.now self.now) }
    {
        match self.parts.get(prefix) {
            Some(rows) => rows.keys(self.alloc, prefix),
            None => Ok(Vec::new(self.alloc)),
        }
    }

    /// Returns the full prefixes that hold a key, in order. They are copies. Fails only when memory
    /// runs out.
    pub fn prefixes(&self) -> Result<Vec<FullPrefix>, AllocError>
        ensures { IfOk result (λ prefixes. prefixes.items ≡ prefixes_of self.now) }
    {
        let mut prefixes = Vec::with_capacity(self.alloc, self.parts.len())?;
        for prefix in self.parts.keys() {
            prefixes.push(prefix.copy()?)?;
        }
        Ok(prefixes)
    }

    /// Goes over the full prefixes in order, each with its keys and their objects: all that is
    /// held, without taking memory.
    pub fn iter(&self) -> Iter<'_, FullPrefix, Rows>
        ensures rows { table_of result ≡ self.now }
        ensures parts { AreParts result }
    {
        self.parts.iter()
    }

    /// Fails only when memory runs out.
    pub fn copy(&self) -> Result<Self, AllocError>
        ensures { IfOk result (λ copy. copy ≡ self.now) }
    {
        Ok(Store {
            alloc: self.alloc,
            parts: copy_parts(self.alloc, &self.parts)?,
            len: self.len,
        })
    }

    /// Returns the object under the key, or `absent` if nothing is held.
    pub(crate) fn object_or<'a>(&'a self, key: &MetaKey, absent: &'a Entries) -> &'a Entries
        requires { absent.now ≡ [] }
        ensures { result.now ≡ object_at self.now key.now }
    {
        self.object(key).unwrap_or(absent)
    }

    pub(crate) fn allocator(&self) -> Global {
        self.alloc
    }
}

/// Returns copies of the values of an object and of its vector. Fails only when memory runs out.
fn read(alloc: Global, object: &Entries) -> Result<(Vec<Value>, Vector), AllocError>
    ensures values { IfOk result (λ read. read.0.items ≡ values_of object.now) }
    ensures vector { IfOk result (λ read. read.1 ≡ join object.now) }
{
    Ok((values(alloc, object)?, join(alloc, object)?))
}

impl PartialEq for Store {
    ghost use Rattle.std.specs.Prelude.{◌≡◌, ◌↔◌, IsTrue};
    ghost use Rattle.std.specs.Cmp.{partial_equiv_from_equiv};
    ghost use Rattle.meta_store.specs.Equal.{table_eq, table_equivalence};

    ghost eq = { table_eq };

    ghost laws = { partial_equiv_from_equiv table_equivalence };

    /// Returns whether both hold the same objects under the same keys. It takes no memory.
    fn eq(&self, other: &Store) -> bool
        ensures value { result ≡ table_eq self.now other.now }
        ensures same { IsTrue result ↔ (self.now ≡ other.now) }
    {
        self.parts == other.parts
    }
}

impl Eq for Store {
    ghost use Rattle.meta_store.specs.Equal.{table_equivalence};

    ghost laws = { table_equivalence };
}

//! A table that is spread over buckets.

ghost use Rattle.std.specs.Prelude.{◌≡◌, ◌<◌, [], length, IfOk, OnOk, OnErr};
ghost use Rattle.std.specs.Option.{option_copied};
ghost use Rattle.std.specs.FinMap.{find};
ghost use Rattle.meta_types.specs.Order.{key_cmp};
ghost use Rattle.meta_store.specs.Kept.{rows_under};
ghost use Rattle.meta_store.specs.Table.{IsHeld, with_object};
ghost use Rattle.node_readers.specs.Spread.{AreHeld, IsSpreadOf, TakesRows, bucket_at, bucket_of, bucket_count, with_spread};

use dvvset::Entries;
use meta_store::{Rows, Store};
use meta_types::{FullPrefix, MetaKey};
use std::alloc::{AllocError, Global};
use std::marker::Model;

/// How many buckets there are.
const BUCKETS: usize = 1_024;

/// Returns the number of a key's bucket, by its own bytes.
fn bucket_of(key: &MetaKey) -> usize
    ensures value { result ≡ bucket_of key.now }
    ensures in_range { result < bucket_count }
{
    let mut number = 0;
    for byte in key.key() {
        number = (number * 131 + *byte as usize) % 65_536;
    }
    number % BUCKETS
}

/// A store for each bucket, which holds the keys that belong there.
#[derive(Drop)]
pub struct SpreadTable {
    buckets: Vec<Store>,
}

impl Model for SpreadTable {
    ghost use Rattle.std.specs.Prelude.{◌≡◌, length};
    ghost use Rattle.node_readers.specs.Spread.{Spread, bucket_count};

    ghost Value = { Spread };

    ghost view = { λ s. s.buckets.items };

    ghost invariant = { λ s. length s.buckets.items ≡ bucket_count };
}

impl SpreadTable {
    /// Makes a table that holds nothing.
    fn empty(alloc: Global) -> Result<Self, AllocError>
        ensures { IfOk result (IsSpreadOf []) }
    {
        let mut buckets = Vec::with_capacity(alloc, BUCKETS)?;
        for _bucket in 0..BUCKETS {
            buckets.push(Store::new(alloc))?;
        }
        Ok(SpreadTable { buckets })
    }

    /// Makes a table of copies of what a store holds. Fails only when memory runs out.
    pub(crate) fn of(alloc: Global, store: &Store) -> Result<Self, AllocError>
        ensures { IfOk result (IsSpreadOf store.now) }
    {
        let mut spread = SpreadTable::empty(alloc)?;
        for (prefix, rows) in store.iter() {
            spread.hold_rows(prefix, rows)?;
        }
        Ok(spread)
    }

    /// Holds copies of the objects of a full prefix.
    fn hold_rows(&mut self, prefix: &FullPrefix, rows: &Rows) -> Result<(), AllocError>
        requires held { AreHeld rows.now }
        ensures { OnOk result (TakesRows (rows_under prefix.now rows.now) self.old self.new) }
    {
        for (own, object) in rows.iter() {
            self.hold(MetaKey::under(prefix.copy()?, own.copy()?), object.copy()?)?;
        }
        Ok(())
    }

    pub(crate) fn object(&self, key: &MetaKey) -> Option<&Entries>
        ensures { option_copied result ≡ find key_cmp key.now (bucket_at key.now self.now) }
    {
        self.buckets[bucket_of(key)].object(key)
    }

    /// Holds the object under the key, in place of what is held there. Fails only when memory runs
    /// out, and then nothing changes.
    pub(crate) fn hold(&mut self, key: MetaKey, object: Entries) -> Result<(), AllocError>
        requires held { IsHeld object }
        ensures value { OnOk result (self.new ≡ with_spread key object self.old) }
        ensures room { bucket_of key < length self.old }
        ensures same { OnErr result (self.new ≡ self.old) }
    {
        let number = bucket_of(&key);
        hold_in(&mut self.buckets[number], key, object)
    }

    /// Fails only when memory runs out.
    pub(crate) fn copy(&self, alloc: Global) -> Result<Self, AllocError>
        ensures { IfOk result (λ copy. copy ≡ self.now) }
    {
        let mut buckets = Vec::with_capacity(alloc, self.buckets.len())?;
        for bucket in self.buckets.as_slice() {
            buckets.push(bucket.copy()?)?;
        }
        Ok(SpreadTable { buckets })
    }
}

/// Holds the object under the key in its bucket.
fn hold_in(bucket: &mut Store, key: MetaKey, object: Entries) -> Result<(), AllocError>
    requires { IsHeld object }
    ensures value { OnOk result (bucket.new ≡ with_object key object bucket.old) }
    ensures same { OnErr result (bucket.new ≡ bucket.old) }
{
    if !bucket.has_room_for(&key) {
        return Err(AllocError);
    }
    bucket.hold(key, object)
}

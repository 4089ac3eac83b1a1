//! Merges.

ghost use Rattle.std.specs.Prelude.{◌≡◌, ◌≢◌, true, not, [], List, Ok, None, IfOk, IfSome, OnOk, OnErr};
ghost use Rattle.meta_types.specs.Failing.{FailsBy};
ghost use Rattle.meta_types.specs.Name.{Key};
ghost use Rattle.dvvset.specs.Clock.{join, sync};
ghost use Rattle.past_model.specs.declared.happening.Happening.{Happening};
ghost use Rattle.past_model.specs.Sets.{Places, union};
ghost use Rattle.past_model.specs.Past.{writes};
ghost use Rattle.past_model.specs.History.{IsHistory};
ghost use Rattle.past_model.specs.Shown.{IsObjectOf};
ghost use Rattle.meta_store.specs.Table.{IsHeld, is_stale, object_at};
ghost use Rattle.meta_store.specs.Step.{is_full_for, table_after_merge, answer_of_merge, merged_if_fresh, object_after_merge, refusal_of_merge, refusal_of_sync};
ghost use Rattle.meta_store.specs.declared.fault.StoreFault.TheVariants.{Memory};
ghost use Rattle.meta_store.specs.declared.merge.Merged.TheVariants.{Stale};

use crate::fault::StoreFault;
use crate::size::is_small_enough;
use crate::store::{MAX_KEYS, Store};
use dvvset::{Entries, knows, sync};
use frame_fields::lawful::all_are_bare;
use meta_types::MetaKey;
use std::alloc::Global;

/// The most bytes of an object after a merge, as its field of a frame.
pub const MAX_MERGED_LEN: usize = 16_000_000;

/// What a merge did.
#[derive(Clone, Copy, Debug, PartialEq, Eq)]
pub enum Merged {
    /// What came counts a write that was not known: the merge is held now.
    Fresh,
    /// What came counts no write that was not known: nothing changed.
    Stale,
}

impl Store {
    /// Merges an object that came from another store into what is held under the key. If it counts
    /// no write that isn't known, this returns `Stale`, and nothing changes; that takes no memory
    /// and is never refused. Nothing changes under other keys.
    ///
    /// What isn't stale is refused, in this order, with 21 `BadEntries` if the merge would show no
    /// value, which happens only with forged objects, 25 `StoreFull` for a new key if 8,192 are
    /// held, and 27 `ObjectTooLarge` if the merge would have more than 65,535 entries, more than
    /// 65,535 values of one writer, or more than 16,000,000 bytes as its field of a frame; 99
    /// `Memory` may stand in place of any other result. Then nothing changes. Key and object are
    /// dropped with a refusal.
    pub fn merge(&mut self, key: MetaKey, object: Entries) -> Result<Merged, StoreFault>
        ensures stale { is_stale self.old key (join object) ≡ true → result ≡ Ok Stale }
        ensures value { OnOk result (self.new ≡ table_after_merge self.old key object) }
        ensures answer { IfOk result (λ answer. answer ≡ answer_of_merge self.old key object) }
        ensures here { OnOk result
            (object_at self.new key ≡ object_after_merge self.old key object) }
        ensures elsewhere { OnOk result ((other : Key) → other ≢ key
            → object_at self.new other ≡ object_at self.old other) }
        ensures union { OnOk result ((hs : List Happening) → IsHistory hs
            → (S T : Places)
            → IsObjectOf (writes hs) key S (object_at self.old key)
            → IsObjectOf (writes hs) key T object
            → IsObjectOf (writes hs) key (union S T) (object_at self.new key)) }
        ensures no_refusal { OnOk result (refusal_of_merge self.old key object ≡ None) }
        ensures fault { FailsBy Memory (refusal_of_merge self.old key object) result }
        ensures same { OnErr result (self.new ≡ self.old) }
    {
        let Some(merged) = self.preview_merge(&key, &object)? else {
            return Ok(Merged::Stale);
        };
        self.hold(key, merged)?;
        Ok(Merged::Fresh)
    }

    /// Returns the object that `merge` would hold, or none if what came is stale; that takes no
    /// memory and is never refused. Nothing changes. Refused as `merge` is.
    pub fn preview_merge(
        &self,
        key: &MetaKey,
        came: &Entries,
    ) -> Result<Option<Entries>, StoreFault>
        ensures stale { is_stale self.now key.now (join came.now) ≡ true → result ≡ Ok None }
        ensures value { IfOk result
            (λ merged. merged ≡ merged_if_fresh self.now key.now came.now) }
        ensures held { IfOk result (λ merged. IfSome merged IsHeld) }
        ensures no_refusal { OnOk result (refusal_of_merge self.now key.now came.now ≡ None) }
        ensures fault { FailsBy Memory (refusal_of_merge self.now key.now came.now) result }
    {
        let alloc = self.allocator();
        let absent = Entries::empty(alloc);
        let (held, has_room) = self.held_or(key, &absent);
        if knows(held, came) {
            return Ok(None);
        }
        Ok(Some(synced(alloc, held, came, has_room)?))
    }

    /// Returns the object under the key, or `absent` if nothing is held, and whether an object may
    /// be held there.
    fn held_or<'a>(&'a self, key: &MetaKey, absent: &'a Entries) -> (&'a Entries, bool)
        requires { absent.now ≡ [] }
        ensures object { result.0.now ≡ object_at self.now key.now }
        ensures room { not result.1 ≡ is_full_for self.now key.now }
    {
        match self.object(key) {
            Some(held) => (held, true),
            None => (absent, self.len() < MAX_KEYS),
        }
    }
}

/// Returns the merge of what is held and what came.
fn synced(
    alloc: Global,
    held: &Entries,
    came: &Entries,
    has_room: bool,
) -> Result<Entries, StoreFault>
    ensures value { IfOk result (λ object. object ≡ sync held.now came.now) }
    ensures held { IfOk result IsHeld }
    ensures no_refusal { OnOk result
        (refusal_of_sync held.now came.now (not has_room) ≡ None) }
    ensures fault { FailsBy Memory (refusal_of_sync held.now came.now (not has_room)) result }
{
    let merged = sync(alloc, held, came)?;
    if all_are_bare(merged.entries()) {
        return Err(StoreFault::BadEntries);
    }
    if !has_room {
        return Err(StoreFault::StoreFull);
    }
    if !is_small_enough(&merged, MAX_MERGED_LEN) {
        return Err(StoreFault::ObjectTooLarge);
    }
    Ok(merged)
}

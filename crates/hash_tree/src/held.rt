ghost use Rattle.std.specs.Prelude.{◌≡◌, ◌≢◌, IfErr, IfOk, IfSome, OnOk, OnErr, None, Some, false};
ghost use Rattle.std.specs.FinMap.{find};
ghost use Rattle.meta_types.specs.Order.{key_cmp};
ghost use Rattle.hash_tree.specs.Tree.{object_digest, rows_of};
ghost use Rattle.meta_store.specs.Step.{is_full_for};
ghost use Rattle.meta_store.specs.Table.{IsHeld, Table, with_former, with_object, without_object};

use crate::object::object_digest;
use crate::tree::Tree;
use dvvset::Entries;
use frame_fields::Digest;
use meta_store::Store;
use meta_types::MetaKey;
use std::alloc::{AllocError, AllocFailed, Global};
use std::marker::Model;

/// What a node holds: its store, with the tree that stands for it. Both change together.
#[derive(Debug, Drop)]
pub struct Held {
    store: Store,
    tree: Tree,
}

impl Model for Held {
    ghost use Rattle.std.specs.Prelude.{◌≡◌};
    ghost use Rattle.hash_tree.specs.Tree.{rows_of};
    ghost use Rattle.meta_store.specs.Table.{Table};

    ghost Value = { Table };

    ghost view = { λ h. h.store };

    ghost invariant = { λ h. h.tree ≡ rows_of h.store };
}

impl Held {
    /// Makes a `Held` of what the store holds. Fails only when memory runs out, and then the store
    /// is dropped.
    pub fn new(alloc: Global, store: Store) -> Result<Self, AllocError>
        ensures { IfOk result (λ held. held ≡ store) }
    {
        let tree = Tree::from_store(alloc, &store)?;
        Ok(Held { store, tree })
    }

    /// Makes a `Held` of what the store holds, as `new` does; but if memory runs out, the store
    /// comes back.
    pub fn from_store(alloc: Global, store: Store) -> Result<Self, AllocFailed<Store>>
        ensures held { IfOk result (λ held. held ≡ store) }
        ensures back { IfErr result (λ failed. failed.value ≡ store) }
    {
        match Tree::from_store(alloc, &store) {
            Ok(tree) => Ok(Held { store, tree }),
            Err(_) => Err(AllocFailed { value: store }),
        }
    }

    /// Returns the store and its tree, without taking memory.
    pub fn into_parts(self) -> (Store, Tree)
        ensures store { result.0 ≡ self }
        ensures tree { result.1 ≡ rows_of self }
    {
        (self.store, self.tree)
    }

    /// Returns the store, without taking memory. The tree is dropped.
    pub fn into_store(self) -> Store
        ensures { result ≡ self }
    {
        self.store
    }

    pub fn store(&self) -> &Store
        ensures { result.now ≡ self.now }
    {
        &self.store
    }

    pub fn tree(&self) -> &Tree
        ensures { result.now ≡ rows_of self.now }
    {
        &self.tree
    }

    /// Holds this object under the key, in place of what is held there. Fails only when memory runs
    /// out, and then nothing changes.
    pub fn hold(&mut self, key: &MetaKey, object: Entries) -> Result<(), AllocError>
        requires held { IsHeld object }
        requires room { is_full_for self.old key.now ≡ false }
        ensures value { OnOk result (self.new ≡ with_object key.now object self.old) }
        ensures same { OnErr result (self.new ≡ self.old) }
    {
        self.replace(key, object)?;
        Ok(())
    }

    /// Holds this object under the key, as `hold` does, and returns what was held there before: what
    /// `put_back` takes to take this back. Fails only when memory runs out for a new key, and then
    /// nothing changes.
    pub fn replace(&mut self, key: &MetaKey, object: Entries) -> Result<Option<Entries>, AllocError>
        requires held { IsHeld object }
        requires room { is_full_for self.old key.now ≡ false }
        ensures value { OnOk result (self.new ≡ with_object key.now object self.old) }
        ensures before { IfOk result (λ before. before ≡ find key_cmp key.now self.old) }
        ensures lawful { IfOk result (λ before. IfSome before IsHeld) }
        ensures absent { OnErr result (find key_cmp key.now self.old ≡ None) }
        ensures same { OnErr result (self.new ≡ self.old) }
    {
        let digest = object_digest(&object);
        match self.replace_held(key, object, digest) {
            Ok(before) => Ok(Some(before)),
            Err(object) => {
                self.hold_new(key, object, digest)?;
                Ok(None)
            }
        }
    }

    /// Takes a change under the key back: puts there what `replace` returned, or takes the key out
    /// if it held nothing. It takes no memory.
    pub fn put_back(&mut self, key: &MetaKey, before: Option<Entries>)
        requires held { find key_cmp key.now self.old ≢ None }
        requires lawful { IfSome before IsHeld }
        ensures { self.new ≡ with_former key.now before self.old }
    {
        match before {
            Some(object) => {
                let digest = object_digest(&object);
                // It isn't refused, since the key is held.
                let replaced = self.replace_held(key, object, digest);
                drop(replaced);
            }
            None => self.forget(key),
        }
    }

    /// Takes the key out of both. Nothing changes if it isn't held. It takes no memory.
    fn forget(&mut self, key: &MetaKey)
        ensures { self.new ≡ without_object key.now self.old }
    {
        self.store.forget(key);
        self.tree.forget(key);
    }

    /// Puts the object in the place of the one that is held under the key, and returns that one. If
    /// the key isn't held, the object comes back and nothing changes. It takes no memory.
    fn replace_held(
        &mut self,
        key: &MetaKey,
        object: Entries,
        digest: Digest,
    ) -> Result<Entries, Entries>
        requires held { IsHeld object }
        requires digest { digest ≡ object_digest object }
        ensures value { OnOk result (self.new ≡ with_object key.now object self.old) }
        ensures before { IfOk result (λ before. find key_cmp key.now self.old ≡ Some before) }
        ensures lawful { IfOk result IsHeld }
        ensures absent { OnErr result (find key_cmp key.now self.old ≡ None) }
        ensures back { IfErr result (λ back. back ≡ object) }
        ensures same { OnErr result (self.new ≡ self.old) }
    {
        let before = self.store.replace(key, object)?;
        self.tree.set(key, digest);
        Ok(before)
    }

    /// Holds this object under a key that isn't held. Fails only when memory runs out, and then
    /// nothing changes.
    fn hold_new(&mut self, key: &MetaKey, object: Entries, digest: Digest) -> Result<(), AllocError>
        requires held { IsHeld object }
        requires digest { digest ≡ object_digest object }
        requires room { is_full_for self.old key.now ≡ false }
        ensures value { OnOk result (self.new ≡ with_object key.now object self.old) }
        ensures same { OnErr result (self.new ≡ self.old) }
    {
        let own = key.copy()?;
        self.store.hold(own, object)?;
        match self.tree.update(key, digest) {
            Ok(()) => Ok(()),
            Err(error) => {
                self.store.forget(key);
                Err(error)
            }
        }
    }

    /// Fails only when memory runs out.
    pub fn copy(&self) -> Result<Self, AllocError>
        ensures { IfOk result (λ copy. copy ≡ self.now) }
    {
        let (store, tree) = (self.store.copy()?, self.tree.copy()?);
        Ok(Held { store, tree })
    }
}

ghost use Rattle.std.specs.Prelude.{◌≡◌, IfOk};
ghost use Rattle.meta_store.specs.Table.{IsHeld};

use dvvset::Entries;
use meta_types::MetaKey;
use std::alloc::AllocError;
use std::marker::Model;

/// A change that is published: a key, and the object under it from then on. The object shows a
/// value, and is one that a store may hold.
#[derive(Debug, Drop)]
pub struct Published {
    key: MetaKey,
    object: Entries,
}

impl Model for Published {
    ghost use Rattle.meta_store.specs.Table.{IsHeld};
    ghost use Rattle.node_readers.specs.Published.{Published as Parts};

    ghost Value = { Parts };

    ghost view = { λ p. record { key = p.key; object = p.object } };

    ghost invariant = { λ p. IsHeld p.object };
}

impl Published {
    /// Makes the change to this object under this key.
    pub fn new(key: MetaKey, object: Entries) -> Self
        requires held { IsHeld object }
        ensures { result ≡ record { key = key; object = object } }
    {
        Published { key, object }
    }

    /// Returns the key that it changes.
    pub fn key(&self) -> &MetaKey
        ensures { result.now ≡ self.now.key }
    {
        &self.key
    }

    /// Returns the object under the key from then on.
    pub fn object(&self) -> &Entries
        ensures value { result.now ≡ self.now.object }
        ensures held { IsHeld self.now.object }
    {
        &self.object
    }

    /// Fails only when memory runs out.
    pub fn copy(&self) -> Result<Self, AllocError>
        ensures { IfOk result (λ copy. copy ≡ self.now) }
    {
        Ok(Published {
            key: self.key.copy()?,
            object: self.object.copy()?,
        })
    }
}

ghost use Rattle.std.specs.Prelude.{◌≡◌, IfOk};

use crate::source::Source;
use dvvset::Vector;
use meta_types::MetaKey;
use std::alloc::AllocError;
use std::marker::Model;

/// What a read hands out for a later write: the key that was read, the vector of the object there,
/// and who read. Only `Store::look` and `Store::context` make one, and `copy` another.
#[derive(Debug, Drop, PartialEq, Eq)]
pub struct Context {
    key: MetaKey,
    vector: Vector,
    source: Source,
}

impl Model for Context {
    ghost use Rattle.meta_store.specs.Context.{Reading};

    ghost Value = { Reading };

    ghost view = { λ c. record { key = c.key; vector = c.vector; source = c.source } };

    ghost inverse = { λ r. record { key = r.key; vector = r.vector; source = r.source } };
}

impl Context {
    pub(crate) fn new(key: MetaKey, vector: Vector, source: Source) -> Self
        ensures { result ≡ record { key = key; vector = vector; source = source } }
    {
        Context {
            key,
            vector,
            source,
        }
    }

    /// Returns the key that was read.
    pub fn key(&self) -> &MetaKey
        ensures { result.now ≡ self.now.key }
    {
        &self.key
    }

    /// Returns the vector of the object that stood there: what a write with this context has read.
    pub fn vector(&self) -> &Vector
        ensures { result.now ≡ self.now.vector }
    {
        &self.vector
    }

    pub fn source(&self) -> Source
        ensures { result ≡ self.now.source }
    {
        self.source
    }

    /// Fails only when memory runs out.
    pub fn copy(&self) -> Result<Self, AllocError>
        ensures { IfOk result (λ copy. copy ≡ self.now) }
    {
        Ok(Context {
            key: self.key.copy()?,
            vector: self.vector.copy()?,
            source: self.source,
        })
    }
}

ghost use Rattle.std.specs.Prelude.{◌≡◌, IfOk};

use dvvset::Vector;
use meta_types::MetaKey;
use std::alloc::AllocError;
use std::marker::Model;

/// A key whose object changed, by a write or a fresh merge, and its context after that.
#[derive(Debug, Drop, PartialEq, Eq)]
pub struct Change {
    pub key: MetaKey,
    pub vector: Vector,
}

impl Change {
    /// Fails only when memory runs out.
    pub fn copy(&self) -> Result<Self, AllocError>
        ensures { IfOk result (λ copy. copy ≡ self.now) }
    {
        let (key, vector) = (self.key.copy()?, self.vector.copy()?);
        Ok(Change { key, vector })
    }
}

ghost use Rattle.std.specs.Prelude.{◌≡◌, IfOk};
ghost use Rattle.dvvset.specs.Clock.{join, values_of};

use dvvset::{Entries, Vector, join, values};
use meta_types::Value;
use std::alloc::{AllocError, Global};

/// What a look showed under a key.
#[derive(Debug, Drop, PartialEq, Eq)]
pub struct Shown {
    /// Siblings if there are several, by writer, and the newest of each writer first; none if
    /// nothing is held.
    pub values: Vec<Value>,
    /// The vector of their object, which has read nothing if nothing is held.
    pub vector: Vector,
}

/// Returns the values of an object, and its vector. They are copies.
pub(crate) fn shown_of(alloc: Global, object: &Entries) -> Result<Shown, AllocError>
    ensures values { IfOk result (λ it. it.values.items ≡ values_of object.now) }
    ensures vector { IfOk result (λ it. it.vector ≡ join object.now) }
{
    Ok(Shown {
        values: values(alloc, object)?,
        vector: join(alloc, object)?,
    })
}

ghost use Rattle.std.specs.Prelude.{◌≡◌, ◌↔◌, IsTrue};
ghost use Rattle.frame_fields.specs.Field.{digests};

use crate::digest::Digest;
use std::alloc::AllocError;
use std::marker::Model;

/// How many digests there are.
const PARTS: usize = 16;

/// The digests of the sixteen parts of something, in their order.
#[derive(Debug, Drop)]
pub struct Digests {
    parts: Vec<Digest>,
}

impl Model for Digests {
    ghost use Rattle.std.specs.Prelude.{ℕ, List};
    ghost use Rattle.frame_fields.specs.Field.{digests};

    ghost Value = { List (List ℕ) };

    ghost view = { λ d. d.parts.items };

    ghost invariant = { λ d. digests.Fits d.parts.items };
}

impl Digests {
    ghost use Rattle.std.specs.Prelude.{◌≡◌, ◌↔◌, IfOk, IfSome, IsSome};
    ghost use Rattle.frame_fields.specs.Field.{digests};

    /// Returns the list of these digests, which must be sixteen.
    pub fn new(parts: Vec<Digest>) -> Self
        requires { digests.Fits parts.items }
        ensures { result ≡ parts.items }
    {
        Digests { parts }
    }

    /// Returns the list of these digests, or `None` if they are not sixteen, and only then. With
    /// `None`, what was handed in is dropped.
    pub fn from_parts(parts: Vec<Digest>) -> Option<Self>
        ensures range { IsSome result ↔ digests.Fits parts.items }
        ensures value { IfSome result (λ digests. digests ≡ parts.items) }
    {
        if are_digests(parts.as_slice()) {
            Some(Digests { parts })
        } else {
            None
        }
    }

    /// Returns the parts, without taking memory.
    pub fn into_vec(self) -> Vec<Digest>
        ensures { result.items ≡ self }
    {
        self.parts
    }

    pub fn as_slice(&self) -> &[Digest]
        ensures value { result.now ≡ self.now }
        ensures lawful { digests.Fits self.now }
    {
        self.parts.as_slice()
    }

    pub fn copy(&self) -> Result<Self, AllocError>
        ensures { IfOk result (λ copy. copy ≡ self.now) }
    {
        let parts = self.parts.clone()?;
        Ok(Digests { parts })
    }
}

/// Returns whether there are sixteen digests. The type of a digest keeps what is asked of each, as
/// for node numbers.
fn are_digests(parts: &[Digest]) -> bool
    ensures { IsTrue result ↔ digests.Fits parts.now }
{
    for digest in parts {
        let _ = digest.bytes();
    }
    parts.len() == PARTS
}

impl PartialEq for Digests {
    ghost use Rattle.std.specs.Prelude.{◌≡◌, ◌↔◌, IsTrue};
    ghost use Rattle.std.specs.Cmp.{partial_equiv_from_equiv};
    ghost use Rattle.frame_fields.specs.Equal.{digests_eq, digests_equivalence};

    ghost eq = { digests_eq };

    ghost laws = { partial_equiv_from_equiv digests_equivalence };

    fn eq(&self, other: &Digests) -> bool
        ensures value { result ≡ digests_eq self.now other.now }
        ensures same { IsTrue result ↔ (self.now ≡ other.now) }
    {
        self.parts.as_slice() == other.parts.as_slice()
    }
}

impl Eq for Digests {
    ghost use Rattle.frame_fields.specs.Equal.{digests_equivalence};

    ghost laws = { digests_equivalence };
}

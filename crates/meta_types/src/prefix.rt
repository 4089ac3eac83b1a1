ghost use Rattle.std.specs.Prelude.{◌≡◌, ◌↔◌, IsTrue};
ghost use Rattle.meta_types.specs.Name.{IsName};

use crate::bytes::ByteString;
use crate::fault::TypeFault;
use std::alloc::AllocError;
use std::cmp::Ordering;
use std::marker::Model;

/// The most bytes of a prefix, and of a sub-prefix.
pub const MAX_PREFIX_LEN: usize = 64;

/// A full prefix: a prefix and a sub-prefix, byte strings of 1 to 64 bytes each.
///
/// Full prefixes are ordered by prefix, then by sub-prefix, in byte order.
#[derive(Debug, Drop, PartialEq, Eq)]
pub struct FullPrefix {
    prefix: ByteString,
    sub: ByteString,
}

impl Model for FullPrefix {
    ghost use Rattle.meta_types.specs.Name.{Prefix, IsFullPrefix};

    ghost Value = { Prefix };

    ghost view = { λ p. record { prefix = p.prefix; sub = p.sub } };

    ghost invariant = { λ p. IsFullPrefix (record { prefix = p.prefix; sub = p.sub }) };

    ghost inverse = { λ p. record { prefix = p.prefix; sub = p.sub } };
}

/// Returns whether a name has a length in range.
pub(crate) fn is_name(bytes: &[u8], most: usize) -> bool
    ensures { IsTrue result ↔ IsName most bytes.now }
{
    !bytes.is_empty() && bytes.len() <= most
}

impl FullPrefix {
    ghost use Rattle.std.specs.Prelude.{◌≡◌, ◌↔◌, IfOk, IsOk, IfErr};
    ghost use Rattle.meta_types.specs.Name.{Prefix, IsName, IsFullPrefix};
    ghost use Rattle.meta_types.specs.declared.fault.TypeFault.TheVariants.{BadName};

    /// Returns the full prefix of these parts. Refused with 1 `BadName` if a length is out of
    /// range, and only then. What was handed in is dropped with a refusal: a caller that needs it
    /// afterwards compares its length first.
    pub fn new(prefix: Vec<u8>, sub: Vec<u8>) -> Result<Self, TypeFault>
        ensures range { IsOk result
            ↔ IsFullPrefix (record { prefix = prefix.items; sub = sub.items }) }
        ensures value { IfOk result (λ p. p ≡ record { prefix = prefix.items; sub = sub.items }) }
        ensures fault { IfErr result (λ fault. fault ≡ BadName) }
    {
        if is_name(prefix.as_slice(), MAX_PREFIX_LEN) && is_name(sub.as_slice(), MAX_PREFIX_LEN) {
            Ok(FullPrefix {
                prefix: ByteString::new(prefix),
                sub: ByteString::new(sub),
            })
        } else {
            Err(TypeFault::BadName)
        }
    }

    /// Returns the full prefix of two parts whose lengths are in range. It takes no memory.
    pub fn of(prefix: ByteString, sub: ByteString) -> Self
        requires in_range { IsFullPrefix (record { prefix = prefix; sub = sub }) }
        ensures { result ≡ record { prefix = prefix; sub = sub } }
    {
        FullPrefix { prefix, sub }
    }

    pub fn prefix(&self) -> &[u8]
        ensures value { result.now ≡ self.now.prefix }
        ensures in_range { IsFullPrefix self.now }
    {
        self.prefix.as_slice()
    }

    pub fn sub(&self) -> &[u8]
        ensures value { result.now ≡ self.now.sub }
        ensures in_range { IsFullPrefix self.now }
    {
        self.sub.as_slice()
    }

    pub fn copy(&self) -> Result<Self, AllocError>
        ensures { IfOk result (λ copy. copy ≡ self.now) }
    {
        Ok(FullPrefix {
            prefix: self.prefix.copy()?,
            sub: self.sub.copy()?,
        })
    }
}

impl Ord for FullPrefix {
    ghost use Rattle.std.specs.Prelude.{◌≡◌, ◌↔◌};
    ghost use Rattle.std.specs.declared.cmp.Ordering.TheVariants.{Less};
    ghost use Rattle.std.proofs.Common.{rules};
    ghost use Rattle.std.specs.Cmp.Rules.{comparing};
    ghost use Rattle.meta_types.specs.Order.{prefix_cmp, PrefixBefore};

    ghost cmp = { prefix_cmp };

    ghost total = { Prim.search (comparing, rules) };

    ghost matches_partial_cmp = { Prim.search (comparing, rules) };

    ghost matches_eq = { Prim.search (comparing, rules) };

    fn cmp(&self, other: &FullPrefix) -> Ordering
        ensures value { result ≡ prefix_cmp self.now other.now }
        ensures before { (result ≡ Less) ↔ PrefixBefore self.now other.now }
    {
        self.prefix
            .cmp(&other.prefix)
            .then(self.sub.cmp(&other.sub))
    }
}

impl PartialOrd for FullPrefix {
    ghost use Rattle.std.specs.Ordering.{as_partial_cmp};
    ghost use Rattle.std.specs.Cmp.{partial_order_from_own_ties};
    ghost use Rattle.std.specs.Cmp.Rules.{comparing};
    ghost use Rattle.std.proofs.Common.{rules};
    ghost use Rattle.meta_types.specs.Order.{prefix_cmp};

    ghost partial_cmp = { as_partial_cmp prefix_cmp };

    ghost laws = { partial_order_from_own_ties
        (Prim.search (comparing, rules)) (Prim.search (comparing, rules)) };

    fn partial_cmp(&self, other: &FullPrefix) -> Option<Ordering> {
        Some(self.cmp(other))
    }
}

use crate::bytes::ByteString;
use crate::fault::TypeFault;
use crate::prefix::{FullPrefix, is_name};
use std::alloc::AllocError;
use std::cmp::Ordering;
use std::marker::Model;

/// The most bytes of a key under its full prefix.
pub const MAX_KEY_LEN: usize = 256;

/// A key: a full prefix, and a byte string of 1 to 256 bytes under it.
///
/// Keys are ordered by full prefix, then by their own bytes, in byte order.
#[derive(Debug, Drop, PartialEq, Eq)]
pub struct MetaKey {
    prefix: FullPrefix,
    key: ByteString,
}

impl Model for MetaKey {
    ghost use Rattle.meta_types.specs.Name.{Key, IsKey};

    ghost Value = { Key };

    ghost view = { λ k. record { prefix = k.prefix; key = k.key } };

    ghost invariant = { λ k. IsKey (record { prefix = k.prefix; key = k.key }) };

    ghost inverse = { λ k. record { prefix = k.prefix; key = k.key } };
}

impl MetaKey {
    ghost use Rattle.std.specs.Prelude.{◌≡◌, ◌↔◌, IfOk, IsOk, IfErr};
    ghost use Rattle.meta_types.specs.Name.{Key, IsName, IsKey};
    ghost use Rattle.meta_types.specs.declared.fault.TypeFault.TheVariants.{BadName};

    /// Returns the key of these parts. Refused with 1 `BadName` if the length is out of range,
    /// and only then. What was handed in is dropped with a refusal: a caller that needs it
    /// afterwards compares its length first.
    pub fn new(prefix: FullPrefix, key: Vec<u8>) -> Result<Self, TypeFault>
        ensures range { IsOk result ↔ IsName 256 key.items }
        ensures value { IfOk result (λ k. k ≡ record { prefix = prefix; key = key.items }) }
        ensures fault { IfErr result (λ fault. fault ≡ BadName) }
    {
        if is_name(key.as_slice(), MAX_KEY_LEN) {
            // (for its type)
            let _ = prefix.prefix();
            Ok(MetaKey {
                prefix,
                key: ByteString::new(key),
            })
        } else {
            Err(TypeFault::BadName)
        }
    }

    pub fn prefix(&self) -> &FullPrefix
        ensures value { result.now ≡ self.now.prefix }
        ensures in_range { IsKey self.now }
    {
        &self.prefix
    }

    /// Returns the bytes of the key itself, without its prefix.
    pub fn key(&self) -> &[u8]
        ensures value { result.now ≡ self.now.key }
        ensures in_range { IsKey self.now }
    {
        self.key.as_slice()
    }

    /// Returns the bytes of the key itself as a `ByteString`, by which ordered maps find a key
    /// under its prefix.
    pub fn own_bytes(&self) -> &ByteString
        ensures value { result.now ≡ self.now.key }
        ensures in_range { IsKey self.now }
    {
        &self.key
    }

    /// Returns the full prefix and the key's own bytes, without taking memory.
    pub fn into_parts(self) -> (FullPrefix, ByteString)
        ensures prefix { result.0 ≡ self.prefix }
        ensures key { result.1 ≡ self.key }
        ensures in_range { IsKey self }
    {
        (self.prefix, self.key)
    }

    /// Returns the key of a full prefix and own bytes whose length is in range. It takes no memory.
    pub fn under(prefix: FullPrefix, key: ByteString) -> Self
        requires in_range { IsName 256 key }
        ensures { result ≡ record { prefix = prefix; key = key } }
    {
        // (for its type)
        let _ = prefix.prefix();
        MetaKey { prefix, key }
    }

    pub fn copy(&self) -> Result<Self, AllocError>
        ensures { IfOk result (λ copy. copy ≡ self.now) }
    {
        Ok(MetaKey {
            prefix: self.prefix.copy()?,
            key: self.key.copy()?,
        })
    }
}

impl Ord for MetaKey {
    ghost use Rattle.std.specs.Prelude.{◌≡◌, ◌↔◌};
    ghost use Rattle.std.specs.declared.cmp.Ordering.TheVariants.{Less};
    ghost use Rattle.std.proofs.Common.{rules};
    ghost use Rattle.std.specs.Cmp.Rules.{comparing};
    ghost use Rattle.meta_types.specs.Order.{key_cmp, KeyBefore};

    ghost cmp = { key_cmp };

    ghost total = { Prim.search (comparing, rules) };

    ghost matches_partial_cmp = { Prim.search (comparing, rules) };

    ghost matches_eq = { Prim.search (comparing, rules) };

    fn cmp(&self, other: &MetaKey) -> Ordering
        ensures value { result ≡ key_cmp self.now other.now }
        ensures before { (result ≡ Less) ↔ KeyBefore self.now other.now }
    {
        self.prefix
            .cmp(&other.prefix)
            .then(self.key.cmp(&other.key))
    }
}

impl PartialOrd for MetaKey {
    ghost use Rattle.std.specs.Ordering.{as_partial_cmp};
    ghost use Rattle.std.specs.Cmp.{partial_order_from_own_ties};
    ghost use Rattle.std.specs.Cmp.Rules.{comparing};
    ghost use Rattle.std.proofs.Common.{rules};
    ghost use Rattle.meta_types.specs.Order.{key_cmp};

    ghost partial_cmp = { as_partial_cmp key_cmp };

    ghost laws = { partial_order_from_own_ties
        (Prim.search (comparing, rules)) (Prim.search (comparing, rules)) };

    fn partial_cmp(&self, other: &MetaKey) -> Option<Ordering> {
        Some(self.cmp(other))
    }
}

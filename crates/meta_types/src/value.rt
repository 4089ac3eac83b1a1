use crate::bytes::ByteString;
use crate::fault::TypeFault;
use std::alloc::AllocError;
use std::cmp::Ordering;
use std::marker::Model;

/// The most bytes of a value's body.
pub const MAX_BODY_LEN: usize = 1024;

/// What a write stores: a stamp, which the writer chooses and the store never reads, and a body of
/// 0 to 1,024 bytes, or none for a tombstone.
///
/// Values are ordered by stamp; at equal stamps a tombstone is least, then byte order decides.
#[derive(Debug, Drop, PartialEq, Eq)]
pub struct Value {
    stamp: u64,
    body: Option<ByteString>,
}

impl Model for Value {
    ghost use Rattle.meta_types.specs.Value.{ValueParts, IsValue};

    ghost Value = { ValueParts };

    ghost view = { λ v. record { stamp = v.stamp; body = v.body } };

    ghost invariant = { λ v. IsValue (record { stamp = v.stamp; body = v.body }) };

    ghost inverse = { λ v. record { stamp = v.stamp; body = v.body } };
}

impl Value {
    ghost use Rattle.std.specs.Prelude.{◌≡◌, ◌↔◌, IfOk, IsOk, IfErr};
    ghost use Rattle.std.specs.Option.{option_copied};
    ghost use Rattle.meta_types.specs.Value.{ValueParts, IsBody, IsValue, body_of};
    ghost use Rattle.meta_types.specs.declared.fault.TypeFault.TheVariants.{ValueTooLong};

    /// Returns the value of these parts. Refused with 2 `ValueTooLong` if the body is too long,
    /// and only then. What was handed in is dropped with a refusal: a caller that needs it
    /// afterwards compares its length first.
    pub fn new(stamp: u64, body: Option<Vec<u8>>) -> Result<Self, TypeFault>
        ensures range { IsOk result ↔ IsBody (body_of body) }
        ensures value { IfOk result (λ v. v ≡ record { stamp = stamp; body = body_of body }) }
        ensures fault { IfErr result (λ fault. fault ≡ ValueTooLong) }
    {
        match body {
            None => Ok(Value { stamp, body: None }),
            Some(bytes) => {
                if bytes.len() <= MAX_BODY_LEN {
                    Ok(Value {
                        stamp,
                        body: Some(ByteString::new(bytes)),
                    })
                } else {
                    Err(TypeFault::ValueTooLong)
                }
            }
        }
    }

    /// Returns the value of a stamp and a body whose length is in range. It takes no memory.
    pub fn of(stamp: u64, body: Option<ByteString>) -> Self
        requires in_range { IsBody body }
        ensures { result ≡ record { stamp = stamp; body = body } }
    {
        Value { stamp, body }
    }

    pub fn stamp(&self) -> u64
        ensures value { result ≡ self.now.stamp }
        ensures in_range { IsValue self.now }
    {
        self.stamp
    }

    /// Returns the bytes of the body, or none for a tombstone.
    pub fn body(&self) -> Option<&[u8]>
        ensures value { option_copied result ≡ self.now.body }
        ensures in_range { IsValue self.now }
    {
        match &self.body {
            None => None,
            Some(bytes) => Some(bytes.as_slice()),
        }
    }

    pub fn copy(&self) -> Result<Self, AllocError>
        ensures { IfOk result (λ copy. copy ≡ self.now) }
    {
        let body = match &self.body {
            None => None,
            Some(bytes) => Some(bytes.copy()?),
        };
        Ok(Value {
            stamp: self.stamp,
            body,
        })
    }
}

impl Ord for Value {
    ghost use Rattle.std.specs.Prelude.{◌≡◌, ◌↔◌};
    ghost use Rattle.std.specs.declared.cmp.Ordering.TheVariants.{Less};
    ghost use Rattle.std.proofs.Common.{rules};
    ghost use Rattle.std.specs.Cmp.Rules.{comparing};
    ghost use Rattle.meta_types.specs.Order.{value_cmp, ValueBefore};
    ghost use Rattle.meta_types.specs.Ties.{value_ties};

    ghost cmp = { value_cmp };

    ghost total = { Prim.search (comparing, rules) };

    ghost matches_partial_cmp = { Prim.search (comparing, rules) };

    ghost matches_eq = { value_ties };

    fn cmp(&self, other: &Value) -> Ordering
        ensures value { result ≡ value_cmp self.now other.now }
        ensures before { (result ≡ Less) ↔ ValueBefore self.now other.now }
    {
        let stamps = self.stamp.cmp(&other.stamp);
        stamps.then(self.body.cmp(&other.body))
    }
}

impl PartialOrd for Value {
    ghost use Rattle.std.specs.Ordering.{as_partial_cmp};
    ghost use Rattle.std.specs.Cmp.{partial_order_from_own_ties};
    ghost use Rattle.std.specs.Cmp.Rules.{comparing};
    ghost use Rattle.std.proofs.Common.{rules};
    ghost use Rattle.meta_types.specs.Order.{value_cmp};
    ghost use Rattle.meta_types.specs.Ties.{value_ties};

    ghost partial_cmp = { as_partial_cmp value_cmp };

    ghost laws = { partial_order_from_own_ties
        (Prim.search (comparing, rules) depth 9) value_ties };

    fn partial_cmp(&self, other: &Value) -> Option<Ordering> {
        Some(self.cmp(other))
    }
}

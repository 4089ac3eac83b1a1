ghost use Rattle.std.specs.Prelude.{◌≡◌};
ghost use Rattle.meta_types.specs.Fault.{code_of, fault_name};
ghost use Rattle.meta_types.specs.declared.fault.TypeFault.TheVariants.{Memory};

use std::alloc::{AllocError, AllocFailed};
use thiserror::Error;

/// Why a node number, a name or a value was refused. It prints as the name of the variant.
#[derive(Debug, Drop, Error, PartialEq, Eq)]
#[error("{}", self.name())]
pub enum TypeFault {
    /// 1: the length of a prefix, a sub-prefix or a key is out of range.
    BadName,
    /// 2: the body of a value is longer than a value may be.
    ValueTooLong,
    /// 3: no node can have this number.
    BadNode,
    /// 99: an allocation was refused. No call of this crate returns it: a copy returns
    /// `AllocError`, which `?` turns into this.
    Memory,
}

impl TypeFault {
    /// Returns the number of the refusal, as programs print it.
    pub fn code(&self) -> u16
        ensures { result ≡ code_of self.now }
    {
        match self {
            TypeFault::BadName => 1,
            TypeFault::ValueTooLong => 2,
            TypeFault::BadNode => 3,
            TypeFault::Memory => 99,
        }
    }

    /// Returns the name of the refusal, as programs print it.
    pub fn name(&self) -> &'static str
        ensures { result.now ≡ fault_name self.now }
    {
        match self {
            TypeFault::BadName => "BadName",
            TypeFault::ValueTooLong => "ValueTooLong",
            TypeFault::BadNode => "BadNode",
            TypeFault::Memory => "Memory",
        }
    }
}

impl From<AllocError> for TypeFault {
    ghost from_gives = { λ _ fault. fault ≡ Memory };

    fn from(_error: AllocError) -> TypeFault {
        TypeFault::Memory
    }
}

impl<T: Drop> From<AllocFailed<T>> for TypeFault {
    ghost from_gives = { λ _ fault. fault ≡ Memory };

    fn from(_error: AllocFailed<T>) -> TypeFault {
        TypeFault::Memory
    }
}

ghost use Rattle.std.specs.Prelude.{◌≡◌};
ghost use Rattle.dvvset.specs.Fault.{code_of, fault_name};
ghost use Rattle.dvvset.specs.declared.fault.ClockFault.TheVariants.{Memory};

use meta_types::TypeFault;
use std::alloc::{AllocError, AllocFailed};
use thiserror::Error;

/// Why a clock's call was refused. It prints as the name of the variant.
#[derive(Debug, Drop, Error, PartialEq, Eq)]
#[error("{}", self.name())]
pub enum ClockFault {
    /// 20: the writer's counter is at its greatest value, so it can have no further event.
    CounterSpent,
    /// 21: the parts are no object, or no vector.
    BadEntries,
    /// 99: an allocation was refused.
    Memory,
}

impl ClockFault {
    /// Returns the number of the refusal, as programs print it.
    pub fn code(&self) -> u16
        ensures { result ≡ code_of self.now }
    {
        match self {
            ClockFault::CounterSpent => 20,
            ClockFault::BadEntries => 21,
            ClockFault::Memory => TypeFault::Memory.code(),
        }
    }

    /// Returns the name of the refusal, as programs print it.
    pub fn name(&self) -> &'static str
        ensures { result.now ≡ fault_name self.now }
    {
        match self {
            ClockFault::CounterSpent => "CounterSpent",
            ClockFault::BadEntries => "BadEntries",
            ClockFault::Memory => "Memory",
        }
    }
}

impl From<AllocError> for ClockFault {
    ghost from_gives = { λ _ fault. fault ≡ Memory };

    fn from(_error: AllocError) -> ClockFault {
        ClockFault::Memory
    }
}

impl<T: Drop> From<AllocFailed<T>> for ClockFault {
    ghost from_gives = { λ _ fault. fault ≡ Memory };

    fn from(_error: AllocFailed<T>) -> ClockFault {
        ClockFault::Memory
    }
}

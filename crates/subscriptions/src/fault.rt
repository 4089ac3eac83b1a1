ghost use Rattle.std.specs.Prelude.{◌≡◌};
ghost use Rattle.subscriptions.specs.Fault.{code_of, fault_name};
ghost use Rattle.subscriptions.specs.declared.fault.WatchFault.TheVariants.{Memory};

use meta_types::TypeFault;
use std::alloc::{AllocError, AllocFailed};
use thiserror::Error;

/// Why there is no watch, or none of that number. It prints as the name of the variant.
#[derive(Debug, Drop, Error, PartialEq, Eq)]
#[error("{}", self.name())]
pub enum WatchFault {
    /// 28: the capacity is 0, or more than 1,024; or there are 16 watches.
    BadWatch,
    /// 29: there is no watch of this number.
    NoSuchWatch,
    /// 99: an allocation was refused.
    Memory,
}

impl WatchFault {
    /// Returns the number of the refusal, as programs print it.
    pub fn code(&self) -> u16
        ensures { result ≡ code_of self.now }
    {
        match self {
            WatchFault::BadWatch => 28,
            WatchFault::NoSuchWatch => 29,
            WatchFault::Memory => TypeFault::Memory.code(),
        }
    }

    /// Returns the name of the refusal, as programs print it.
    pub fn name(&self) -> &'static str
        ensures { result.now ≡ fault_name self.now }
    {
        match self {
            WatchFault::BadWatch => "BadWatch",
            WatchFault::NoSuchWatch => "NoSuchWatch",
            WatchFault::Memory => "Memory",
        }
    }
}

impl From<AllocError> for WatchFault {
    ghost from_gives = { λ _ fault. fault ≡ Memory };

    fn from(_error: AllocError) -> WatchFault {
        WatchFault::Memory
    }
}

impl<T: Drop> From<AllocFailed<T>> for WatchFault {
    ghost from_gives = { λ _ fault. fault ≡ Memory };

    fn from(_error: AllocFailed<T>) -> WatchFault {
        WatchFault::Memory
    }
}

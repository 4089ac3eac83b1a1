ghost use Rattle.std.specs.Prelude.{◌≡◌};
ghost use Rattle.meta_store.specs.Fault.{code_of, fault_name};
ghost use Rattle.meta_store.specs.declared.fault.StoreFault.TheVariants.{Memory};

use dvvset::ClockFault;
use std::alloc::{AllocError, AllocFailed};
use thiserror::Error;

/// Why a store refused a call. It prints as the name of the variant.
#[derive(Debug, Drop, Error, PartialEq, Eq)]
#[error("{}", self.name())]
pub enum StoreFault {
    /// 20: the writer's counter, in what is held or in what was read, is
    /// 18,446,744,073,709,551,615, so it can have no further event.
    CounterSpent,
    /// 21: the merge would show no value.
    BadEntries,
    /// 25: the key is new, and the store holds 8,192.
    StoreFull,
    /// 26: the context is of another key.
    WrongKey,
    /// 27: what would be held has more than 65,535 entries, or shows more than 65,535 values of one
    /// writer; or as an object's field of a frame it has more than 1,048,576 bytes after a write,
    /// or 16,000,000 after a merge.
    ObjectTooLarge,
    /// 99: an allocation was refused. It may stand in place of any other refusal.
    Memory,
}

impl StoreFault {
    /// Returns the number of the refusal, as programs print it.
    pub fn code(&self) -> u16
        ensures { result ≡ code_of self.now }
    {
        match self {
            StoreFault::CounterSpent => ClockFault::CounterSpent.code(),
            StoreFault::BadEntries => ClockFault::BadEntries.code(),
            StoreFault::StoreFull => 25,
            StoreFault::WrongKey => 26,
            StoreFault::ObjectTooLarge => 27,
            StoreFault::Memory => ClockFault::Memory.code(),
        }
    }

    /// Returns the name of the refusal, as programs print it.
    pub fn name(&self) -> &'static str
        ensures { result.now ≡ fault_name self.now }
    {
        match self {
            StoreFault::CounterSpent => "CounterSpent",
            StoreFault::BadEntries => "BadEntries",
            StoreFault::StoreFull => "StoreFull",
            StoreFault::WrongKey => "WrongKey",
            StoreFault::ObjectTooLarge => "ObjectTooLarge",
            StoreFault::Memory => "Memory",
        }
    }
}

impl From<AllocError> for StoreFault {
    ghost from_gives = { λ _ fault. fault ≡ Memory };

    fn from(_error: AllocError) -> StoreFault {
        StoreFault::Memory
    }
}

impl<T: Drop> From<AllocFailed<T>> for StoreFault {
    ghost from_gives = { λ _ fault. fault ≡ Memory };

    fn from(_error: AllocFailed<T>) -> StoreFault {
        StoreFault::Memory
    }
}

/// The refusal of a clock, under the same name.
impl From<ClockFault> for StoreFault {
    ghost use Rattle.meta_store.specs.Fault.{of_clock};

    ghost from_gives = { λ clock fault. fault ≡ of_clock clock };

    fn from(fault: ClockFault) -> StoreFault {
        match fault {
            ClockFault::CounterSpent => StoreFault::CounterSpent,
            ClockFault::BadEntries => StoreFault::BadEntries,
            ClockFault::Memory => StoreFault::Memory,
        }
    }
}

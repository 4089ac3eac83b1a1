ghost use Rattle.std.specs.Prelude.{◌≡◌};
ghost use Rattle.scenario_commands.specs.Fault.{code_of, fault_name};
ghost use Rattle.scenario_commands.specs.declared.fault.StageFault.TheVariants as faults;

use std::alloc::{AllocError, AllocFailed};
use thiserror::Error;

/// Why a command was not obeyed to its end. It prints as the name of the fault.
#[derive(Clone, Copy, Debug, Error, PartialEq, Eq)]
#[error("{}", self.name())]
pub enum StageFault {
    /// 71: a `settle` would deliver more than 100,000 frames.
    Limit,
    /// 99: memory was refused.
    Memory,
}

impl StageFault {
    /// Returns the number of the fault, as programs print it.
    pub fn code(self) -> u16
        ensures { result ≡ code_of self }
    {
        match self {
            StageFault::Limit => 71,
            StageFault::Memory => 99,
        }
    }

    /// Returns the name of the fault, as programs print it.
    pub fn name(&self) -> &'static str
        ensures { result.now ≡ fault_name self.now }
    {
        match self {
            StageFault::Limit => "Limit",
            StageFault::Memory => "Memory",
        }
    }
}

impl From<AllocError> for StageFault {
    ghost from_gives = { λ _ fault. fault ≡ faults.Memory };

    fn from(_error: AllocError) -> StageFault {
        StageFault::Memory
    }
}

impl<T: Drop> From<AllocFailed<T>> for StageFault {
    ghost from_gives = { λ _ fault. fault ≡ faults.Memory };

    fn from(_error: AllocFailed<T>) -> StageFault {
        StageFault::Memory
    }
}

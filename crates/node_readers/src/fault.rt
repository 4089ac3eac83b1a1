ghost use Rattle.std.specs.Prelude.{◌≡◌};
ghost use Rattle.node_readers.specs.Fault.{code_of, fault_name};
ghost use Rattle.node_readers.specs.declared.fault.PeekFault.TheVariants.{Memory};

use std::alloc::AllocError;
use thiserror::Error;

/// Why a look was refused. It prints as the name of the variant.
#[derive(Debug, Drop, Error, PartialEq, Eq)]
#[error("{}", self.name())]
pub enum PeekFault {
    /// 34: nothing more is published, or the seat learnt of a change that was never published.
    Stopped,
    /// 99: an allocation was refused.
    Memory,
}

impl PeekFault {
    /// Returns the number of the refusal, as programs print it.
    pub fn code(&self) -> u16
        ensures { result ≡ code_of self.now }
    {
        match self {
            PeekFault::Stopped => 34,
            PeekFault::Memory => 99,
        }
    }

    /// Returns the name of the refusal, as programs print it.
    pub fn name(&self) -> &'static str
        ensures { result.now ≡ fault_name self.now }
    {
        match self {
            PeekFault::Stopped => "Stopped",
            PeekFault::Memory => "Memory",
        }
    }
}

impl From<AllocError> for PeekFault {
    ghost from_gives = { λ _ fault. fault ≡ Memory };

    fn from(_error: AllocError) -> Self {
        PeekFault::Memory
    }
}

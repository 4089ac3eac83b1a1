ghost use Rattle.std.specs.Prelude.{◌≡◌};
ghost use Rattle.streams.specs.Fault.{code_of, fault_name};
ghost use Rattle.streams.specs.declared.fault.StreamFault.TheVariants.{Memory};

use std::alloc::{AllocError, AllocFailed};
use thiserror::Error;

/// Why a run over a reader and a writer stopped. It prints as the name of the variant.
#[derive(Clone, Copy, Debug, Error, PartialEq, Eq)]
#[error("{}", self.name())]
pub enum StreamFault {
    /// 7: the reader failed. An interruption is such a fault too.
    Read,
    /// 8: the input has more bytes than a program reads.
    InputTooLong,
    /// The writer failed, or takes no more. It has no number.
    Write,
    /// The other end of the writer is closed. It has no number.
    BrokenPipe,
    /// 99: an allocation was refused.
    Memory,
}

impl StreamFault {
    /// Returns the number of the fault, as programs print it.
    pub fn code(self) -> Option<u16>
        ensures { result ≡ code_of self }
    {
        match self {
            StreamFault::Read => Some(7),
            StreamFault::InputTooLong => Some(8),
            StreamFault::Write | StreamFault::BrokenPipe => None,
            StreamFault::Memory => Some(99),
        }
    }

    /// Returns the name of the fault, as programs print it.
    pub fn name(&self) -> &'static str
        ensures { result.now ≡ fault_name self.now }
    {
        match self {
            StreamFault::Read => "Read",
            StreamFault::InputTooLong => "InputTooLong",
            StreamFault::Write => "Write",
            StreamFault::BrokenPipe => "BrokenPipe",
            StreamFault::Memory => "Memory",
        }
    }
}

impl From<AllocError> for StreamFault {
    ghost from_gives = { λ _ fault. fault ≡ Memory };

    fn from(_error: AllocError) -> StreamFault {
        StreamFault::Memory
    }
}

impl<T: Drop> From<AllocFailed<T>> for StreamFault {
    ghost from_gives = { λ _ fault. fault ≡ Memory };

    fn from(_error: AllocFailed<T>) -> StreamFault {
        StreamFault::Memory
    }
}

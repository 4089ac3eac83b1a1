ghost use Rattle.std.specs.Prelude.{◌≡◌};
ghost use Rattle.inbox.specs.Fault.{code_of, fault_name};
ghost use Rattle.inbox.specs.declared.fault.InboxFault.TheVariants.{Memory};

use meta_types::ByteString;
use std::alloc::{AllocError, AllocFailed};
use thiserror::Error;

/// Why an inbox wasn't made, or a frame not put. It prints as the name of the refusal.
#[derive(Debug, Drop, Error, PartialEq, Eq)]
#[error("{}", self.name())]
pub enum InboxFault {
    /// 50: the inbox was full.
    Full,
    /// 53: the inbox is closed.
    Closed,
    /// 55: an inbox has room for 1 to 1,024 frames.
    BadLimit,
    /// 99: an allocation was refused.
    Memory,
}

impl InboxFault {
    /// Returns the number of the refusal, as programs print it.
    pub fn code(&self) -> u16
        ensures { result ≡ code_of self.now }
    {
        match self {
            InboxFault::Full => 50,
            InboxFault::Closed => 53,
            InboxFault::BadLimit => 55,
            InboxFault::Memory => 99,
        }
    }

    /// Returns the name of the refusal, as programs print it.
    pub fn name(&self) -> &'static str
        ensures { result.now ≡ fault_name self.now }
    {
        match self {
            InboxFault::Full => "Full",
            InboxFault::Closed => "Closed",
            InboxFault::BadLimit => "BadLimit",
            InboxFault::Memory => "Memory",
        }
    }
}

impl From<AllocError> for InboxFault {
    ghost from_gives = { λ _ fault. fault ≡ Memory };

    fn from(_error: AllocError) -> Self {
        InboxFault::Memory
    }
}

impl<T: Drop> From<AllocFailed<T>> for InboxFault {
    ghost from_gives = { λ _ fault. fault ≡ Memory };

    fn from(_error: AllocFailed<T>) -> Self {
        InboxFault::Memory
    }
}

/// A frame that wasn't put, with the reason.
#[derive(Debug, Drop)]
pub struct NotPut {
    pub fault: InboxFault,
    pub frame: ByteString,
}

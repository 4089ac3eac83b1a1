use node_lock::{LockFault, PeekFault};
use std::alloc::{AllocError, AllocFailed};
use std::io;
use thiserror::Error;

/// What ended a thread's part of a storm before its time was over.
#[derive(Debug, Drop, Error)]
#[error("{}", self.name())]
pub(crate) enum Trouble {
    /// A write, or a cut of the journal, was refused.
    Write(LockFault),
    /// A look was refused.
    Look(PeekFault),
    /// A look showed less than an earlier one, or than what had been learnt.
    WentBack,
    /// There are no keys to be written.
    NoKey,
    /// A write returned something other than a vector.
    NoVector,
    /// A value could not be made, or a line could not be printed.
    Io,
    /// An allocation was refused.
    Memory,
}

impl Trouble {
    /// Returns what it prints as.
    fn name(&self) -> &'static str {
        match self {
            Trouble::Write(fault) => fault.name(),
            Trouble::Look(fault) => fault.name(),
            Trouble::WentBack => "WentBack",
            Trouble::NoKey => "NoKey",
            Trouble::NoVector => "NoVector",
            Trouble::Io => "Io",
            Trouble::Memory => "Memory",
        }
    }
}

impl From<LockFault> for Trouble {
    fn from(fault: LockFault) -> Self {
        Trouble::Write(fault)
    }
}

impl From<PeekFault> for Trouble {
    fn from(fault: PeekFault) -> Self {
        Trouble::Look(fault)
    }
}

impl From<io::Error> for Trouble {
    fn from(_error: io::Error) -> Self {
        Trouble::Io
    }
}

impl From<AllocError> for Trouble {
    fn from(_error: AllocError) -> Self {
        Trouble::Memory
    }
}

impl<T: Drop> From<AllocFailed<T>> for Trouble {
    fn from(_error: AllocFailed<T>) -> Self {
        Trouble::Memory
    }
}

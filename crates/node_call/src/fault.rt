ghost use Rattle.std.specs.Prelude.{◌≡◌};
ghost use Rattle.node_call.specs.Fault.{code_of, fault_name};
ghost use Rattle.node_call.specs.declared.fault.LockFault.TheVariants.{Memory};

use node_events::StepFault;
use std::alloc::{AllocError, AllocFailed};
use thiserror::Error;

/// Why a call of a node under its lock was refused. It prints as the name of the refusal.
#[derive(Debug, Drop, Error, PartialEq, Eq)]
#[error("{}", self.name())]
pub enum LockFault {
    /// The refusal of the node's step. It is never 99.
    Step(StepFault),
    /// 30: a call of the device failed, which stops the node.
    Device,
    /// 33: the file would be too long.
    FileFull,
    /// 34: the node is stopped.
    Stopped,
    /// 51: the journal has as many entries as it may, or the life as many steps as are counted.
    JournalFull,
    /// 52: there is no seat left.
    NoSeat,
    /// 54: not all seats that are out were handed in.
    SeatsMissing,
    /// 55: the limit of the journal is out of range.
    BadLimit,
    /// 99: an allocation was refused.
    Memory,
}

impl LockFault {
    /// Returns the number of the refusal, as programs print it.
    pub fn code(&self) -> u16
        ensures { result ≡ code_of self.now }
    {
        match self {
            LockFault::Step(fault) => fault.code(),
            LockFault::Device => 30,
            LockFault::FileFull => 33,
            LockFault::Stopped => 34,
            LockFault::JournalFull => 51,
            LockFault::NoSeat => 52,
            LockFault::SeatsMissing => 54,
            LockFault::BadLimit => 55,
            LockFault::Memory => 99,
        }
    }

    /// Returns the name of the refusal, as programs print it.
    pub fn name(&self) -> &'static str
        ensures { result.now ≡ fault_name self.now }
    {
        match self {
            LockFault::Step(fault) => fault.name(),
            LockFault::Device => "Device",
            LockFault::FileFull => "FileFull",
            LockFault::Stopped => "Stopped",
            LockFault::JournalFull => "JournalFull",
            LockFault::NoSeat => "NoSeat",
            LockFault::SeatsMissing => "SeatsMissing",
            LockFault::BadLimit => "BadLimit",
            LockFault::Memory => "Memory",
        }
    }
}

impl From<AllocError> for LockFault {
    ghost from_gives = { λ _ fault. fault ≡ Memory };

    fn from(_error: AllocError) -> Self {
        LockFault::Memory
    }
}

impl<T: Drop> From<AllocFailed<T>> for LockFault {
    ghost from_gives = { λ _ fault. fault ≡ Memory };

    fn from(_error: AllocFailed<T>) -> Self {
        LockFault::Memory
    }
}

impl From<StepFault> for LockFault {
    ghost use Rattle.node_call.specs.Fault.{of_step};

    ghost from_gives = { λ step fault. fault ≡ of_step step };

    fn from(fault: StepFault) -> Self {
        match fault {
            StepFault::Memory => LockFault::Memory,
            fault => LockFault::Step(fault),
        }
    }
}

ghost use Rattle.std.specs.Prelude.{◌≡◌};
ghost use Rattle.node_hosted.specs.Fault.{code_of, fault_name};
ghost use Rattle.node_hosted.specs.declared.fault.HostFault.TheVariants.{Memory};

use meta_types::TypeFault;
use node_events::StepFault;
use std::alloc::{AllocError, AllocFailed};
use thiserror::Error;

/// Why a call of a hosted node was refused. It prints as the name of the refusal.
#[derive(Debug, Drop, Error, PartialEq, Eq)]
#[error("{}", self.name())]
pub enum HostFault {
    /// 1, 2 or 3: a name, a value or the number of a node is out of range. It is never 99.
    Argument(TypeFault),
    /// The refusal of the node's step. It is never 99.
    Step(StepFault),
    /// 33: the file would be too long.
    FileFull,
    /// 34: the node is stopped, since the host failed to store a record.
    Stopped,
    /// 37: the host hasn't stored or fetched all that an earlier step gave, or a batch is open.
    Pending,
    /// 38: there is no record to store, no reply with a context, or no batch that is open.
    Nothing,
    /// 43: there is no context of this number.
    NoSuchRead,
    /// 99: an allocation was refused.
    Memory,
}

impl HostFault {
    /// Returns the number of the refusal.
    pub fn code(&self) -> u16
        ensures { result ≡ code_of self.now }
    {
        match self {
            HostFault::Argument(fault) => fault.code(),
            HostFault::Step(fault) => fault.code(),
            HostFault::FileFull => 33,
            HostFault::Stopped => 34,
            HostFault::Pending => 37,
            HostFault::Nothing => 38,
            HostFault::NoSuchRead => 43,
            HostFault::Memory => 99,
        }
    }

    /// Returns the name of the refusal.
    pub fn name(&self) -> &'static str
        ensures { result.now ≡ fault_name self.now }
    {
        match self {
            HostFault::Argument(fault) => fault.name(),
            HostFault::Step(fault) => fault.name(),
            HostFault::FileFull => "FileFull",
            HostFault::Stopped => "Stopped",
            HostFault::Pending => "Pending",
            HostFault::Nothing => "Nothing",
            HostFault::NoSuchRead => "NoSuchRead",
            HostFault::Memory => "Memory",
        }
    }
}

impl From<AllocError> for HostFault {
    ghost from_gives = { λ _ fault. fault ≡ Memory };

    fn from(_error: AllocError) -> Self {
        HostFault::Memory
    }
}

impl<T: Drop> From<AllocFailed<T>> for HostFault {
    ghost from_gives = { λ _ fault. fault ≡ Memory };

    fn from(_error: AllocFailed<T>) -> Self {
        HostFault::Memory
    }
}

impl From<StepFault> for HostFault {
    ghost use Rattle.node_hosted.specs.Fault.{of_refused_step};

    ghost from_gives = { λ step fault. fault ≡ of_refused_step step };

    fn from(fault: StepFault) -> Self {
        match fault {
            StepFault::Memory => HostFault::Memory,
            fault => HostFault::Step(fault),
        }
    }
}

impl From<TypeFault> for HostFault {
    ghost use Rattle.node_hosted.specs.Fault.{of_type};

    ghost from_gives = { λ typed fault. fault ≡ of_type typed };

    fn from(fault: TypeFault) -> Self {
        match fault {
            TypeFault::Memory => HostFault::Memory,
            fault => HostFault::Argument(fault),
        }
    }
}

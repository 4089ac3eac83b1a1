ghost use Rattle.std.specs.Prelude.{◌≡◌};
ghost use Rattle.world_core.specs.Fault.{code_of, fault_name};
ghost use Rattle.world_core.specs.declared.fault.WorldFault.TheVariants.{Memory};

use meta_types::TypeFault;
use node_events::StepFault;
use std::alloc::{AllocError, AllocFailed};
use thiserror::Error;

/// Why a world refused an event. It prints as the name of the refusal.
#[derive(Debug, Drop, Error, PartialEq, Eq)]
#[error("{}", self.name())]
pub enum WorldFault {
    /// 35: the node is in the life of the number 4,294,967,295, and there is no number for another.
    IncarnationSpent,
    /// 42: no frame has this number.
    NoSuchFrame,
    /// 43: no read has this number, or a write came with a context of its own.
    NoSuchRead,
    /// 44: the world has no node of this number, or would have none or more than 16.
    NoSuchNode,
    /// 45: bytes that came of themselves, not as a frame of the world, are a frame.
    LooksLikeFrame,
    /// 46: the node has no image of this number.
    NoSuchImage,
    /// 3, 10 to 16, 20, 25 to 29 or 40: what the node answers. It is never 99.
    Step(StepFault),
    /// 99: an allocation was refused. It may come in place of any other outcome.
    Memory,
}

impl WorldFault {
    /// Returns the number of the refusal, as programs print it.
    pub fn code(&self) -> u16
        ensures { result ≡ code_of self.now }
    {
        match self {
            WorldFault::IncarnationSpent => 35,
            WorldFault::NoSuchFrame => 42,
            WorldFault::NoSuchRead => 43,
            WorldFault::NoSuchNode => 44,
            WorldFault::LooksLikeFrame => 45,
            WorldFault::NoSuchImage => 46,
            WorldFault::Step(fault) => fault.code(),
            WorldFault::Memory => TypeFault::Memory.code(),
        }
    }

    /// Returns the name of the refusal, as programs print it.
    pub fn name(&self) -> &'static str
        ensures { result.now ≡ fault_name self.now }
    {
        match self {
            WorldFault::IncarnationSpent => "IncarnationSpent",
            WorldFault::NoSuchFrame => "NoSuchFrame",
            WorldFault::NoSuchRead => "NoSuchRead",
            WorldFault::NoSuchNode => "NoSuchNode",
            WorldFault::LooksLikeFrame => "LooksLikeFrame",
            WorldFault::NoSuchImage => "NoSuchImage",
            WorldFault::Step(fault) => fault.name(),
            WorldFault::Memory => "Memory",
        }
    }
}

impl From<AllocError> for WorldFault {
    ghost from_gives = { λ _ fault. fault ≡ Memory };

    fn from(_error: AllocError) -> WorldFault {
        WorldFault::Memory
    }
}

impl<T: Drop> From<AllocFailed<T>> for WorldFault {
    ghost from_gives = { λ _ fault. fault ≡ Memory };

    fn from(_error: AllocFailed<T>) -> WorldFault {
        WorldFault::Memory
    }
}

/// The refusal of a step, or `Memory`.
impl From<StepFault> for WorldFault {
    ghost use Rattle.world_core.specs.Fault.{of_step};

    ghost from_gives = { λ step fault. fault ≡ of_step step };

    fn from(fault: StepFault) -> WorldFault {
        match fault {
            StepFault::Memory => WorldFault::Memory,
            fault => WorldFault::Step(fault),
        }
    }
}

ghost use Rattle.std.specs.Prelude.{◌≡◌};
ghost use Rattle.node_events.specs.Fault.{code_of, fault_name};
ghost use Rattle.node_events.specs.declared.fault.StepFault.TheVariants.{Memory};

use meta_frame::FrameFault;
use meta_store::StoreFault;
use meta_types::TypeFault;
use std::alloc::{AllocError, AllocFailed};
use subscriptions::WatchFault;
use thiserror::Error;

/// Why a node refused an event. It prints as the name of the refusal.
#[derive(Debug, Drop, Error, PartialEq, Eq)]
#[error("{}", self.name())]
pub enum StepFault {
    /// 3: the contact or peer is the node itself.
    BadNode,
    /// 10 to 16: why the bytes are no frame. It is never 99.
    Frame(FrameFault),
    /// 20, 21, 25, 26 or 27: the refusal of the node's store. It is never 99.
    Store(StoreFault),
    /// 28: the capacity of a watch is 0 or more than 1,024, or the node has 16 watches.
    BadWatch,
    /// 29: the node has no watch of this number.
    NoSuchWatch,
    /// 40: the frame is addressed to another node.
    NotAddressed,
    /// 99: an allocation was refused. It may come in place of any other outcome.
    Memory,
}

impl StepFault {
    /// Returns the number of the refusal, as programs print it.
    pub fn code(&self) -> u16
        ensures { result ≡ code_of self.now }
    {
        match self {
            StepFault::BadNode => TypeFault::BadNode.code(),
            StepFault::Frame(fault) => fault.code(),
            StepFault::Store(fault) => fault.code(),
            StepFault::BadWatch => WatchFault::BadWatch.code(),
            StepFault::NoSuchWatch => WatchFault::NoSuchWatch.code(),
            StepFault::NotAddressed => 40,
            StepFault::Memory => TypeFault::Memory.code(),
        }
    }

    /// Returns the name of the refusal, as programs print it.
    pub fn name(&self) -> &'static str
        ensures { result.now ≡ fault_name self.now }
    {
        match self {
            StepFault::BadNode => "BadNode",
            StepFault::Frame(fault) => fault.name(),
            StepFault::Store(fault) => fault.name(),
            StepFault::BadWatch => "BadWatch",
            StepFault::NoSuchWatch => "NoSuchWatch",
            StepFault::NotAddressed => "NotAddressed",
            StepFault::Memory => "Memory",
        }
    }
}

impl From<AllocError> for StepFault {
    ghost from_gives = { λ _ fault. fault ≡ Memory };

    fn from(_error: AllocError) -> StepFault {
        StepFault::Memory
    }
}

impl<T: Drop> From<AllocFailed<T>> for StepFault {
    ghost from_gives = { λ _ fault. fault ≡ Memory };

    fn from(_error: AllocFailed<T>) -> StepFault {
        StepFault::Memory
    }
}

/// The refusal of a store, or `Memory`.
impl From<StoreFault> for StepFault {
    ghost use Rattle.node_events.specs.Fault.{of_store};

    ghost from_gives = { λ store fault. fault ≡ of_store store };

    fn from(fault: StoreFault) -> StepFault {
        match fault {
            StoreFault::Memory => StepFault::Memory,
            fault => StepFault::Store(fault),
        }
    }
}

/// The refusal of bytes, or `Memory`.
impl From<FrameFault> for StepFault {
    ghost use Rattle.node_events.specs.Fault.{of_frame};

    ghost from_gives = { λ frame fault. fault ≡ of_frame frame };

    fn from(fault: FrameFault) -> StepFault {
        match fault {
            FrameFault::Memory => StepFault::Memory,
            fault => StepFault::Frame(fault),
        }
    }
}

/// The refusal of a watch, under the same name.
impl From<WatchFault> for StepFault {
    ghost use Rattle.node_events.specs.Fault.{of_watch};

    ghost from_gives = { λ watch fault. fault ≡ of_watch watch };

    fn from(fault: WatchFault) -> StepFault {
        match fault {
            WatchFault::BadWatch => StepFault::BadWatch,
            WatchFault::NoSuchWatch => StepFault::NoSuchWatch,
            WatchFault::Memory => StepFault::Memory,
        }
    }
}

ghost use Rattle.std.specs.Prelude.{◌≡◌};
ghost use Rattle.run_record.specs.Fault.{code_of, fault_name, of_order};
ghost use Rattle.run_record.specs.declared.fault.RecordFault.TheVariants.{Memory};

use crate::{OrderFault, Place};
use std::alloc::{AllocError, AllocFailed};
use thiserror::Error;

/// Why journals and receipts are no run of the world. It prints as the name of the refusal.
#[derive(Debug, Drop, Error)]
#[error("{}", self.name())]
pub enum RecordFault {
    /// 60: the entry there takes bytes that no journal sent, or has read what no journal handed
    /// out.
    Unsent(Place),
    /// 61: these entries wait for one another, of a node at most one.
    Stuck { places: Vec<Place> },
    /// 62: the journal of the node of this number, with its replies and frames, is no run of a node
    /// that ends with the table that it was closed with.
    Unequal { node: usize },
    /// 63: a receipt is of no entry of a journal.
    StrangeReceipt,
    /// 99: an allocation was refused.
    Memory,
}

impl RecordFault {
    /// Returns the number of the refusal, as programs print it.
    pub fn code(&self) -> u16
        ensures { result ≡ code_of self.now }
    {
        match self {
            RecordFault::Unsent(_) => 60,
            RecordFault::Stuck { .. } => 61,
            RecordFault::Unequal { .. } => 62,
            RecordFault::StrangeReceipt => 63,
            RecordFault::Memory => 99,
        }
    }

    /// Returns the name of the refusal, as programs print it.
    pub fn name(&self) -> &'static str
        ensures { result.now ≡ fault_name self.now }
    {
        match self {
            RecordFault::Unsent(_) => "Unsent",
            RecordFault::Stuck { .. } => "Stuck",
            RecordFault::Unequal { .. } => "Unequal",
            RecordFault::StrangeReceipt => "StrangeReceipt",
            RecordFault::Memory => "Memory",
        }
    }
}

impl From<AllocError> for RecordFault {
    ghost from_gives = { λ _ fault. fault ≡ Memory };

    fn from(_error: AllocError) -> Self {
        RecordFault::Memory
    }
}

impl<T: Drop> From<AllocFailed<T>> for RecordFault {
    ghost from_gives = { λ _ fault. fault ≡ Memory };

    fn from(_error: AllocFailed<T>) -> Self {
        RecordFault::Memory
    }
}

impl From<OrderFault> for RecordFault {
    ghost from_gives = { λ order fault. fault ≡ of_order order };

    fn from(fault: OrderFault) -> Self {
        match fault {
            OrderFault::Unsent(place) => RecordFault::Unsent(place),
            OrderFault::Stuck { places } => RecordFault::Stuck { places },
            OrderFault::Memory => RecordFault::Memory,
        }
    }
}

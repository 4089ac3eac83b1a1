ghost use Rattle.std.specs.Prelude.{◌≡◌};
ghost use Rattle.node_file.specs.Fault.{code_of, fault_name, of_device};
ghost use Rattle.node_file.specs.declared.fault.FileFault.TheVariants.{Memory};

use devices::DeviceFault;
use meta_store::StoreFault;
use std::alloc::{AllocError, AllocFailed};
use thiserror::Error;

/// Why a call on a node's file was refused. It prints as the name of the refusal.
#[derive(Debug, Drop, Error, PartialEq, Eq)]
#[error("{}", self.name())]
pub enum FileFault {
    /// 25 `StoreFull`: the file holds more keys than a store. 27 `ObjectTooLarge`: a store may not
    /// hold the object. It is no other refusal of a store.
    Store(StoreFault),
    /// 30: a call of the device failed, as the count of its failures shows.
    Device,
    /// 31: the bytes are no file; from this offset on they aren't what a file has there.
    Damaged { at: usize },
    /// 32: the file is of another node than the one that was asked for.
    OtherNode,
    /// 33: the file would have more than 1,099,511,627,776 bytes.
    FileFull,
    /// 34: an append failed after the device may have changed. The file has to be opened again
    /// first.
    Stopped,
    /// 35: the last life has the greatest number that there is, 4,294,967,295.
    IncarnationSpent,
    /// 36: the file is of version 1, which has no lives. It has to be rewritten first.
    OldVersion,
    /// 99: an allocation was refused.
    Memory,
}

impl FileFault {
    /// Returns the number of the refusal, as programs print it.
    pub fn code(&self) -> u16
        ensures { result ≡ code_of self.now }
    {
        match self {
            FileFault::Store(fault) => fault.code(),
            FileFault::Device => 30,
            FileFault::Damaged { .. } => 31,
            FileFault::OtherNode => 32,
            FileFault::FileFull => 33,
            FileFault::Stopped => 34,
            FileFault::IncarnationSpent => 35,
            FileFault::OldVersion => 36,
            FileFault::Memory => StoreFault::Memory.code(),
        }
    }

    /// Returns the name of the refusal, as programs print it.
    pub fn name(&self) -> &'static str
        ensures { result.now ≡ fault_name self.now }
    {
        match self {
            FileFault::Store(fault) => fault.name(),
            FileFault::Device => "Device",
            FileFault::Damaged { .. } => "Damaged",
            FileFault::OtherNode => "OtherNode",
            FileFault::FileFull => "FileFull",
            FileFault::Stopped => "Stopped",
            FileFault::IncarnationSpent => "IncarnationSpent",
            FileFault::OldVersion => "OldVersion",
            FileFault::Memory => "Memory",
        }
    }
}

impl From<AllocError> for FileFault {
    ghost from_gives = { λ _ fault. fault ≡ Memory };

    fn from(_error: AllocError) -> FileFault {
        FileFault::Memory
    }
}

impl<T: Drop> From<AllocFailed<T>> for FileFault {
    ghost from_gives = { λ _ fault. fault ≡ Memory };

    fn from(_error: AllocFailed<T>) -> FileFault {
        FileFault::Memory
    }
}

impl From<DeviceFault> for FileFault {
    ghost from_gives = { λ device fault. fault ≡ of_device device };

    fn from(fault: DeviceFault) -> FileFault {
        match fault {
            DeviceFault::Memory => FileFault::Memory,
            DeviceFault::Failed => FileFault::Device,
        }
    }
}

ghost use Rattle.std.specs.Prelude.{◌≡◌};
ghost use Rattle.cluster_worker.specs.Fault.{code_of, fault_name};
ghost use Rattle.cluster_worker.specs.declared.fault.ClusterFault.TheVariants.{Memory};

use node_file::FileFault;
use node_lock::LockFault;
use std::alloc::{AllocError, AllocFailed};
use thiserror::Error;

/// Why a run of a cluster was refused. It prints as the name of the refusal.
#[derive(Debug, Drop, Error, PartialEq, Eq)]
#[error("{}", self.name())]
pub enum ClusterFault {
    /// 30 if a device failed before the workers started; 25, 31 to 33, 35 or 36 if what it holds is
    /// no file in which the node's next life begins. It is never 34 or 99.
    File(FileFault),
    /// 44: a cluster has 1 to 16 nodes.
    NoSuchNode,
    /// 55: a limit is out of range, or the devices are not as many as the nodes.
    BadLimit,
    /// 56: a thread couldn't be made.
    NoThread,
    /// 54 if a node isn't closed, for which no cause is known. A run returns this for no other
    /// refusal of a node; it is never 99.
    Node(LockFault),
    /// 99: an allocation was refused, here or in a worker.
    Memory,
}

impl ClusterFault {
    /// Returns the number of the refusal, as programs print it.
    pub fn code(&self) -> u16
        ensures { result ≡ code_of self.now }
    {
        match self {
            ClusterFault::File(fault) => fault.code(),
            ClusterFault::NoSuchNode => 44,
            ClusterFault::BadLimit => 55,
            ClusterFault::NoThread => 56,
            ClusterFault::Node(fault) => fault.code(),
            ClusterFault::Memory => 99,
        }
    }

    /// Returns the name of the refusal, as programs print it.
    pub fn name(&self) -> &'static str
        ensures { result.now ≡ fault_name self.now }
    {
        match self {
            ClusterFault::File(fault) => fault.name(),
            ClusterFault::NoSuchNode => "NoSuchNode",
            ClusterFault::BadLimit => "BadLimit",
            ClusterFault::NoThread => "NoThread",
            ClusterFault::Node(fault) => fault.name(),
            ClusterFault::Memory => "Memory",
        }
    }
}

impl From<AllocError> for ClusterFault {
    ghost from_gives = { λ _ fault. fault ≡ Memory };

    fn from(_error: AllocError) -> Self {
        ClusterFault::Memory
    }
}

impl<T: Drop> From<AllocFailed<T>> for ClusterFault {
    ghost from_gives = { λ _ fault. fault ≡ Memory };

    fn from(_error: AllocFailed<T>) -> Self {
        ClusterFault::Memory
    }
}

impl From<FileFault> for ClusterFault {
    ghost use Rattle.cluster_worker.specs.Fault.{of_file};

    ghost from_gives = { λ file fault. fault ≡ of_file file };

    fn from(fault: FileFault) -> Self {
        match fault {
            FileFault::Memory => ClusterFault::Memory,
            fault => ClusterFault::File(fault),
        }
    }
}

impl From<LockFault> for ClusterFault {
    ghost use Rattle.cluster_worker.specs.Fault.{of_node};

    ghost from_gives = { λ node fault. fault ≡ of_node node };

    fn from(fault: LockFault) -> Self {
        match fault {
            LockFault::Memory => ClusterFault::Memory,
            fault => ClusterFault::Node(fault),
        }
    }
}

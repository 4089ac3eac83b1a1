ghost use Rattle.std.specs.Prelude.{◌≡◌};
ghost use Rattle.run_record.specs.declared.order_fault.OrderFault.TheVariants.{Memory};

use std::alloc::{AllocError, AllocFailed};

/// The place of an entry: the number of its node, and how many entries of that node come before it.
#[derive(Clone, Copy, Debug, PartialEq, Eq)]
pub struct Place {
    pub node: usize,
    pub place: usize,
}

/// Why journals have no order.
#[derive(Debug, Drop)]
pub enum OrderFault {
    /// 60: the entry there takes bytes that no entry sent, or has read what no entry handed out.
    Unsent(Place),
    /// 61: these entries wait for one another: what each of them needs is given only by entries
    /// that stand at the places listed, or after them. At most one place is listed for each node,
    /// in the order of the nodes' numbers.
    Stuck { places: Vec<Place> },
    /// 99: an allocation was refused.
    Memory,
}

impl From<AllocError> for OrderFault {
    ghost from_gives = { λ _ fault. fault ≡ Memory };

    fn from(_error: AllocError) -> Self {
        OrderFault::Memory
    }
}

impl<T: Drop> From<AllocFailed<T>> for OrderFault {
    ghost from_gives = { λ _ fault. fault ≡ Memory };

    fn from(_error: AllocFailed<T>) -> Self {
        OrderFault::Memory
    }
}

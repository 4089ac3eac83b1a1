ghost use Rattle.std.specs.Prelude.{◌≡◌};
ghost use Rattle.frame_readers.specs.declared.fault.FieldFault.TheVariants.{Memory};

use std::alloc::{AllocError, AllocFailed};

/// Why a field was not read.
#[derive(Debug, Drop)]
pub enum FieldFault {
    Memory,
    /// The field is cut, or breaks its rule; this many bytes were left at its first byte.
    Left(usize),
}

impl From<AllocError> for FieldFault {
    ghost from_gives = { λ _ fault. fault ≡ Memory };

    fn from(_error: AllocError) -> FieldFault {
        FieldFault::Memory
    }
}

impl<T: Drop> From<AllocFailed<T>> for FieldFault {
    ghost from_gives = { λ _ fault. fault ≡ Memory };

    fn from(_error: AllocFailed<T>) -> FieldFault {
        FieldFault::Memory
    }
}

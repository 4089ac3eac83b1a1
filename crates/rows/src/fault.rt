use std::alloc::{AllocError, AllocFailed};

/// Why a line was not done.
#[derive(Clone, Copy)]
pub enum RowFault {
    /// A word is unknown, missing or too many, or a number is none that may stand there.
    Mistyped,
    /// It names what isn't there, or changes nothing.
    Idle,
    Memory,
}

impl RowFault {
    /// Returns what is printed of the fault of a line. Fails if the fault is not the line's.
    pub fn word(self) -> Result<&'static str, AllocError> {
        match self {
            RowFault::Mistyped => Ok("mistyped"),
            RowFault::Idle => Ok("idle"),
            RowFault::Memory => Err(AllocError),
        }
    }
}

impl From<AllocError> for RowFault {
    fn from(_error: AllocError) -> RowFault {
        RowFault::Memory
    }
}

impl<T: Drop> From<AllocFailed<T>> for RowFault {
    fn from(_error: AllocFailed<T>) -> RowFault {
        RowFault::Memory
    }
}

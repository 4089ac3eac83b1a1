use crate::fault::FileFault;
use thiserror::Error;

/// Why a batch was refused.
#[derive(Debug, Drop, Error, PartialEq, Eq)]
pub enum BatchFault {
    /// It has more than [`MAX_BATCH`](crate::MAX_BATCH) objects.
    #[error("TooMany")]
    TooMany,
    /// The object at this place, counted from 0, is the first that is refused: 33 `FileFull` or 27
    /// `ObjectTooLarge`.
    #[error("{fault} at {place}")]
    Object { place: usize, fault: FileFault },
    /// 34 `Stopped`, 30 `Device` or 99 `Memory`.
    #[error("{}", .0)]
    File(FileFault),
}

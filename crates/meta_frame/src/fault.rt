ghost use Rattle.std.specs.Prelude.{◌≡◌};
ghost use Rattle.meta_frame.specs.Fault.{code_of, fault_name};
ghost use Rattle.meta_frame.specs.declared.fault.FrameFault.TheVariants.{Memory};

use meta_types::TypeFault;
use std::alloc::{AllocError, AllocFailed};
use thiserror::Error;

/// Why bytes are no frame, or a frame can't be written. It prints as the name of the variant.
#[derive(Debug, Drop, Error, PartialEq, Eq)]
#[error("{}", self.name())]
pub enum FrameFault {
    /// 10: fewer bytes than a header, or than a header and its body.
    Short,
    /// 11: the first two bytes are not those of a frame.
    BadMagic,
    /// 12: a version other than 2.
    BadVersion,
    /// 13: no message has this kind.
    BadKind,
    /// 14: the frame has more than 16,777,216 bytes.
    TooLong,
    /// 15: a field is cut, or breaks its rule, or bytes of the body are left after its last field;
    /// `at` is the offset of the first byte of that field, or of those bytes.
    BadBody { at: usize },
    /// 16: more bytes than a header and its body.
    LeftOver,
    /// 99: an allocation was refused.
    Memory,
}

impl FrameFault {
    /// Returns the number of the refusal, as programs print it.
    pub fn code(&self) -> u16
        ensures { result ≡ code_of self.now }
    {
        match self {
            FrameFault::Short => 10,
            FrameFault::BadMagic => 11,
            FrameFault::BadVersion => 12,
            FrameFault::BadKind => 13,
            FrameFault::TooLong => 14,
            FrameFault::BadBody { .. } => 15,
            FrameFault::LeftOver => 16,
            FrameFault::Memory => TypeFault::Memory.code(),
        }
    }

    /// Returns the name of the refusal, as programs print it.
    pub fn name(&self) -> &'static str
        ensures { result.now ≡ fault_name self.now }
    {
        match self {
            FrameFault::Short => "Short",
            FrameFault::BadMagic => "BadMagic",
            FrameFault::BadVersion => "BadVersion",
            FrameFault::BadKind => "BadKind",
            FrameFault::TooLong => "TooLong",
            FrameFault::BadBody { .. } => "BadBody",
            FrameFault::LeftOver => "LeftOver",
            FrameFault::Memory => "Memory",
        }
    }
}

impl From<AllocError> for FrameFault {
    ghost from_gives = { λ _ fault. fault ≡ Memory };

    fn from(_error: AllocError) -> FrameFault {
        FrameFault::Memory
    }
}

impl<T: Drop> From<AllocFailed<T>> for FrameFault {
    ghost from_gives = { λ _ fault. fault ≡ Memory };

    fn from(_error: AllocFailed<T>) -> FrameFault {
        FrameFault::Memory
    }
}

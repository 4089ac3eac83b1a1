ghost use Rattle.std.specs.Prelude.{◌≡◌};
ghost use Rattle.sealed_frames.specs.Fault.{code_of, fault_name};

use thiserror::Error;

/// Why bytes weren't opened, or are no keys. It prints as the name of the variant.
#[derive(Clone, Copy, Debug, Error, PartialEq, Eq)]
#[error("{}", self.name())]
pub enum SealFault {
    /// 17: the last 16 bytes aren't the seal of what stands before them, under any of the keys.
    BadSeal,
    /// 18: the bytes are no keys, which have 32 bytes, or 64.
    BadKey,
}

impl SealFault {
    /// Returns the number of the refusal, as programs print it.
    pub fn code(&self) -> u16
        ensures { result ≡ code_of self.now }
    {
        match self {
            SealFault::BadSeal => 17,
            SealFault::BadKey => 18,
        }
    }

    /// Returns the name of the refusal, as programs print it.
    pub fn name(&self) -> &'static str
        ensures { result.now ≡ fault_name self.now }
    {
        match self {
            SealFault::BadSeal => "BadSeal",
            SealFault::BadKey => "BadKey",
        }
    }
}

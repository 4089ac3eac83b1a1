ghost use Rattle.std.specs.Prelude.{◌≡◌, codes};

use thiserror::Error;

/// 70: this line, counted from 1, is the first that breaks a rule. It prints as the name of the
/// fault.
#[derive(Clone, Copy, Debug, Error, PartialEq, Eq)]
#[error("{}", self.name())]
pub struct BadLine {
    pub line: u64,
}

impl BadLine {
    /// Returns the number of the fault, as programs print it.
    pub fn code(self) -> u16
        ensures { result ≡ 70 }
    {
        70
    }

    /// Returns the name of the fault, as programs print it.
    pub fn name(&self) -> &'static str
        ensures { result.now ≡ codes "BadLine" }
    {
        "BadLine"
    }
}

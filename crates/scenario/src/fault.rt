ghost use Rattle.std.specs.Prelude.{◌≡◌};
ghost use Rattle.scenario.specs.Fault.{code_of, fault_name, of_stage};
ghost use Rattle.scenario.specs.declared.fault.ScenarioFault.TheVariants as faults;
ghost use Rattle.streams.specs.declared.fault.StreamFault.TheVariants as streams;

use scenario_commands::StageFault;
use scenario_text::BadLine;
use std::alloc::{AllocError, AllocFailed};
use streams::StreamFault;
use thiserror::Error;

/// Why a scenario ended before its last line. It prints as the name of the fault.
#[derive(Clone, Copy, Debug, Error, PartialEq, Eq)]
#[error("{}", self.name())]
pub enum ScenarioFault {
    /// 70: this line, counted from 1, is the first that breaks a rule.
    BadLine { line: u64 },
    /// 71: a `settle` would deliver more than 100,000 frames.
    Limit,
    /// 7, 8 or 99, or the writer failed.
    Stream(StreamFault),
}

impl ScenarioFault {
    /// Returns the number of the fault, as programs print it. A writer that failed has none.
    pub fn code(self) -> Option<u16>
        ensures { result ≡ code_of self }
    {
        match self {
            ScenarioFault::BadLine { .. } => Some(70),
            ScenarioFault::Limit => Some(71),
            ScenarioFault::Stream(fault) => fault.code(),
        }
    }

    /// Returns the name of the fault, as programs print it.
    pub fn name(&self) -> &'static str
        ensures { result.now ≡ fault_name self.now }
    {
        match self {
            ScenarioFault::BadLine { .. } => "BadLine",
            ScenarioFault::Limit => "Limit",
            ScenarioFault::Stream(fault) => fault.name(),
        }
    }
}

impl From<AllocError> for ScenarioFault {
    ghost from_gives = { λ _ fault. fault ≡ faults.Stream streams.Memory };

    fn from(_error: AllocError) -> ScenarioFault {
        ScenarioFault::Stream(StreamFault::Memory)
    }
}

impl<T: Drop> From<AllocFailed<T>> for ScenarioFault {
    ghost from_gives = { λ _ fault. fault ≡ faults.Stream streams.Memory };

    fn from(_error: AllocFailed<T>) -> ScenarioFault {
        ScenarioFault::Stream(StreamFault::Memory)
    }
}

/// The fault of a text that has a line that breaks a rule.
impl From<BadLine> for ScenarioFault {
    ghost from_gives = { λ bad fault. fault ≡ faults.BadLine bad.line };

    fn from(fault: BadLine) -> ScenarioFault {
        ScenarioFault::BadLine { line: fault.line }
    }
}

/// The fault of a command that was not obeyed to its end.
impl From<StageFault> for ScenarioFault {
    ghost from_gives = { λ stage fault. fault ≡ of_stage stage };

    fn from(fault: StageFault) -> ScenarioFault {
        match fault {
            StageFault::Limit => ScenarioFault::Limit,
            StageFault::Memory => ScenarioFault::Stream(StreamFault::Memory),
        }
    }
}

/// The fault of a reader or a writer.
impl From<StreamFault> for ScenarioFault {
    ghost from_gives = { λ stream fault. fault ≡ faults.Stream stream };

    fn from(fault: StreamFault) -> ScenarioFault {
        ScenarioFault::Stream(fault)
    }
}

use scenario::ScenarioFault;
use std::alloc::AllocError;
use streams::StreamFault;

/// Why no picture was drawn.
#[derive(Clone, Copy)]
pub(crate) enum DrawFault {
    /// The scenario didn't run to its end, or memory ran out.
    Scenario(ScenarioFault),
    /// The part has more commands, or more moments, than a picture can show.
    TooLong { commands: u64, moments: u64 },
}

impl From<AllocError> for DrawFault {
    fn from(_error: AllocError) -> DrawFault {
        DrawFault::Scenario(ScenarioFault::Stream(StreamFault::Memory))
    }
}

impl From<ScenarioFault> for DrawFault {
    fn from(fault: ScenarioFault) -> DrawFault {
        DrawFault::Scenario(fault)
    }
}

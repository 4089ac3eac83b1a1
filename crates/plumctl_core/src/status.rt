//! How a run ends for who started the program: the exit status, and what is printed at standard
//! error.

ghost use Rattle.std.specs.Prelude.{◌≡◌, ◌≢◌, option_copied};
ghost use Rattle.plumctl_core.specs.Status.{status_of_end, status_of_fault, line_of_fault, EndsFrames, TellsFault};

use crate::frame::{Ended, frame_lines};
use sealed_frames::Keys;
use std::alloc::Global;
use streams::{Sink, Source, StreamFault, write_whole};

impl Ended {
    /// Returns the exit status: 0 if each line was printed as a frame, 1 if one was refused.
    pub fn status(self) -> u8
        ensures { result ≡ status_of_end self }
    {
        match self {
            Ended::AllPrinted => 0,
            Ended::SomeRefused => 1,
        }
    }
}

/// Returns the exit status of a fault: 1 for 8 `InputTooLong`, 3 for a fault of reading or writing,
/// 4 for 99 `Memory`.
pub fn status_of_fault(fault: StreamFault) -> u8
    ensures { result ≡ status_of_fault fault }
{
    match fault {
        StreamFault::InputTooLong => 1,
        StreamFault::Read | StreamFault::Write | StreamFault::BrokenPipe => 3,
        StreamFault::Memory => 4,
    }
}

/// Returns the line that reports a fault, with its line feed. It is empty for a broken pipe: who
/// closed it knows.
pub(crate) fn line_of_fault(fault: StreamFault) -> &'static str
    ensures { result.now ≡ line_of_fault fault }
{
    match fault {
        StreamFault::Read => "error 7 Read\n",
        StreamFault::InputTooLong => "error 8 InputTooLong\n",
        StreamFault::Write => "error: the output could not be written\n",
        StreamFault::BrokenPipe => "",
        StreamFault::Memory => "error 99 Memory\n",
    }
}

/// Prints a fault at standard error, on a line of its own, and returns the exit status. Where
/// standard error fails nothing more is done, and what it holds back is not passed on: it is to
/// hold nothing back. The status is never 2, which stands for wrong arguments.
pub fn tell<E: Sink>(errors: &mut E, fault: StreamFault) -> u8
    ensures status { result ≡ status_of_fault fault }
    ensures told { TellsFault (E.at errors.old) (E.at errors.new) fault }
    ensures run { result ≢ 2 }
{
    let _ = write_whole(errors, line_of_fault(fault).as_bytes());
    status_of_fault(fault)
}

/// Runs `frame` as `frame_lines` does, prints a fault at `errors`, and returns the exit status: 0
/// if each line was a frame, 1 if one was refused or the input is too long, 3 if reading
/// or writing failed, 4 if memory was refused.
pub fn run_frame<R: Source, W: Sink, E: Sink>(
    alloc: Global,
    keys: Option<&Keys>,
    reader: &mut R,
    writer: &mut W,
    errors: &mut E,
) -> u8
    ensures run { result ≢ 2 }
    ensures ends { EndsFrames (option_copied keys.entry) (R.at reader.old) (R.at reader.new)
        (W.at writer.old) (W.at writer.new) (E.at errors.old) (E.at errors.new) result }
{
    match frame_lines(alloc, keys, reader, writer) {
        Ok(ended) => ended.status(),
        Err(fault) => tell(errors, fault),
    }
}

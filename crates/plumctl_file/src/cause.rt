//! Why a path is of no use, in plain words.

ghost use Rattle.std.specs.Prelude.{◌≡◌, ◌≢◌};
ghost use Rattle.plumctl_core.specs.Opening.{cause_line};
ghost use Rattle.plumctl_file.specs.Ends.{EndsUnopened, EndsWithDevice, cause_of_path, cause_of_unmade};

use crate::report::print;
use devices::OpenFault;
use plumctl_core::{tell, tell_cause};
use streams::{Sink, StreamFault};

/// Why a file that was opened is not shown.
pub(crate) const READ_FAILED: &str = "could not be read";

/// Why a file that was made is no copy.
pub(crate) const WRITE_FAILED: &str = "could not be written";

/// Why bytes are no file from their first byte on.
pub(crate) const BEGINS_OTHERWISE: &str =
    "does not begin as a node file does; is this the right path?";

/// Returns why the file at a path couldn't be opened to be read.
pub(crate) fn cause_of_path(fault: OpenFault) -> &'static str
    ensures { result.now ≡ cause_of_path fault }
{
    match fault {
        OpenFault::Memory => "",
        OpenFault::Missing => "not found",
        OpenFault::Exists => "is there already",
        OpenFault::NotAFile => "is no regular file",
        OpenFault::InUse => "is in use by a node, or is being written",
        OpenFault::Linked => "has a second name, a hard link",
        OpenFault::Failed => "may not be read or locked, or the disk failed",
    }
}

/// Returns why nothing could be made at a path.
pub fn cause_of_unmade(fault: OpenFault) -> &'static str
    ensures { result.now ≡ cause_of_unmade fault }
{
    match fault {
        OpenFault::Memory => "",
        OpenFault::Missing => "its folder is not there",
        OpenFault::Exists => "is there already, and nothing is written over",
        OpenFault::NotAFile => "is no regular file",
        OpenFault::InUse => "is in use, or another process makes it",
        OpenFault::Linked => "has a second name, a hard link",
        OpenFault::Failed => "may not be made or locked, or the disk failed",
    }
}

/// Prints the line of a device that failed, prints at standard error which path that is and why,
/// and returns the exit status.
pub(crate) fn tell_device<W: Sink, E: Sink>(
    writer: &mut W,
    errors: &mut E,
    path: &str,
    cause: &str,
) -> u8
    ensures not_usage { result ≢ 2 }
    ensures ends { EndsWithDevice (cause_line path.now cause.now)
        (record { writer = W.at writer.old; errors = E.at errors.old })
        (record { writer = W.at writer.new; errors = E.at errors.new }) result }
{
    match print(writer, b"error 30 Device\n") {
        Ok(()) => {
            tell_cause(errors, "", path, cause);
            3
        }
        Err(fault) => tell(errors, fault),
    }
}

/// Tells that the file at a path couldn't be opened to be read, and returns the exit status.
pub(crate) fn tell_unread<W: Sink, E: Sink>(
    writer: &mut W,
    errors: &mut E,
    path: &str,
    fault: OpenFault,
) -> u8
    ensures not_usage { result ≢ 2 }
    ensures ends { EndsUnopened cause_of_path path.now fault
        (record { writer = W.at writer.old; errors = E.at errors.old })
        (record { writer = W.at writer.new; errors = E.at errors.new }) result }
{
    match fault {
        OpenFault::Memory => tell(errors, StreamFault::Memory),
        fault => tell_device(writer, errors, path, cause_of_path(fault)),
    }
}

/// Tells that nothing could be made at a path, and returns the exit status.
pub(crate) fn tell_unmade<W: Sink, E: Sink>(
    writer: &mut W,
    errors: &mut E,
    path: &str,
    fault: OpenFault,
) -> u8
    ensures not_usage { result ≢ 2 }
    ensures ends { EndsUnopened cause_of_unmade path.now fault
        (record { writer = W.at writer.old; errors = E.at errors.old })
        (record { writer = W.at writer.new; errors = E.at errors.new }) result }
{
    match fault {
        OpenFault::Memory => tell(errors, StreamFault::Memory),
        fault => tell_device(writer, errors, path, cause_of_unmade(fault)),
    }
}

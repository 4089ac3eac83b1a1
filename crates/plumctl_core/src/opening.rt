//! What is printed at standard error about a path that is of no use. It takes no memory.

ghost use Rattle.std.specs.Prelude.{◌≡◌, ◌≢◌, ◌++◌};
ghost use Rattle.plumctl_core.specs.Opening.{EndsAtOpening, TellsText, WritesText, cause_line, cause_of_kind, shown_text};

use crate::status::{line_of_fault, status_of_fault, tell};
use scenario_text::shown_byte;
use std::io::ErrorKind;
use streams::{Sink, StreamFault, write_whole};

/// The cause, by the kind of the error.
fn cause_of_kind(kind: ErrorKind) -> &'static str
    ensures { result.now ≡ cause_of_kind kind }
{
    match kind {
        ErrorKind::NotFound => "not found",
        ErrorKind::NotADirectory => "not found, since a part of its path is no folder",
        ErrorKind::PermissionDenied => "may not be read",
        ErrorKind::IsADirectory => "is a folder",
        ErrorKind::FilesystemLoop => "is a link that leads in a circle",
        ErrorKind::InvalidFilename => "the name is too long, or none of a file",
        _ => "could not be opened",
    }
}

fn write_text<W: Sink>(writer: &mut W, text: &[u8]) -> Result<(), StreamFault>
    ensures { WritesText (W.at writer.old) (W.at writer.new) text.now result }
{
    write_whole(writer, text)
}

/// Writes the bytes, with `?` for those that can't be printed.
fn write_printable<W: Sink>(writer: &mut W, bytes: &[u8]) -> Result<(), StreamFault>
    ensures { WritesText (W.at writer.old) (W.at writer.new) (shown_text bytes.now) result }
{
    for byte in bytes {
        write_text(writer, &[shown_byte(*byte)])?;
    }
    Ok(())
}

fn write_cause<W: Sink>(
    writer: &mut W,
    line: &str,
    name: &str,
    cause: &str,
) -> Result<(), StreamFault>
    ensures { WritesText (W.at writer.old) (W.at writer.new)
        (line.now ++ cause_line name.now cause.now) result }
{
    write_text(writer, line.as_bytes())?;
    write_text(writer, b"cause: ")?;
    write_printable(writer, name.as_bytes())?;
    write_text(writer, b": ")?;
    write_text(writer, cause.as_bytes())?;
    write_text(writer, b"\n")
}

/// Prints a text at standard error, as far as that takes it.
#[tactic(auto, using(crate::proofs::Writing::told_of))]
pub fn tell_text<E: Sink>(errors: &mut E, text: &[u8])
    ensures { TellsText (E.at errors.old) (E.at errors.new) text.now }
{
    let _ = write_text(errors, text);
}

/// Prints at standard error `line`, which is empty or ends in a line feed, and then the line that
/// names a path and says why it is of no use: `cause: node-0: not found`. A byte of the name that
/// can't be printed is shown as `?`.
#[tactic(auto, using(crate::proofs::Writing::told_of))]
pub fn tell_cause<E: Sink>(errors: &mut E, line: &str, name: &str, cause: &str)
    ensures { TellsText (E.at errors.old) (E.at errors.new)
        (line.now ++ cause_line name.now cause.now) }
{
    let _ = write_cause(errors, line, name, cause);
}

/// Prints at standard error that the file of this name can't be opened, by the kind of the error,
/// and returns the exit status: `error 7 Read`, then a line with the name and the cause, and 3; or
/// `error 99 Memory`, and 4, if the error is one of memory. The status is never 2, which stands for
/// wrong arguments.
pub fn tell_unopened<E: Sink>(errors: &mut E, name: &str, kind: ErrorKind) -> u8
    ensures run { result ≢ 2 }
    ensures ends { EndsAtOpening name.now kind (E.at errors.old) (E.at errors.new) result }
{
    if matches!(kind, ErrorKind::OutOfMemory) {
        return tell(errors, StreamFault::Memory);
    }
    tell_cause(
        errors,
        line_of_fault(StreamFault::Read),
        name,
        cause_of_kind(kind),
    );
    status_of_fault(StreamFault::Read)
}

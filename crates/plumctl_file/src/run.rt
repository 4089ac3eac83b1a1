//! The command `file`.

ghost use Rattle.std.specs.Prelude.{◌≡◌, ◌≢◌, None};
ghost use Rattle.plumctl_file.specs.Ends.{EndsCopy, EndsFile, EndsRewrite, RefusesCopy, TellsRefusal, TellsWarning, cause_of, no_copy, status_of_refusal};
ghost use Rattle.plumctl_file.specs.Reported.{is_memory};
ghost use Rattle.plumctl_core.specs.Opening.{TellsText};

use crate::cause::{BEGINS_OTHERWISE, READ_FAILED, WRITE_FAILED, tell_device};
use crate::report::{Reported, ShownFile, file_report};
use devices::Device;
use node_file::{FileFault, rewrite};
use plumctl_core::{tell, tell_cause, tell_text};
use std::alloc::Global;
use streams::{Sink, Source, StreamFault};

/// Returns why bytes are refused, if that is said at standard error.
fn cause_of(fault: &FileFault) -> &'static str
    ensures { result.now ≡ cause_of fault.now }
{
    match fault {
        FileFault::Device => READ_FAILED,
        FileFault::Damaged { at: 0 } => BEGINS_OTHERWISE,
        _ => "",
    }
}

fn status_of_refusal(fault: &FileFault) -> u8
    ensures { result ≡ status_of_refusal fault.now }
{
    match fault {
        FileFault::Device => 3,
        FileFault::Memory => 4,
        _ => 1,
    }
}

/// Prints at `errors` the cause of a refusal whose line was printed, if it has one, and returns the
/// exit status.
fn refused<E: Sink>(errors: &mut E, path: &str, fault: &FileFault) -> u8
    ensures { TellsRefusal path.now (cause_of fault.now) (status_of_refusal fault.now)
        (E.at errors.old) (E.at errors.new) result }
{
    let cause = cause_of(fault);
    if cause.is_empty() {
        return status_of_refusal(fault);
    }
    tell_cause(errors, "", path, cause);
    status_of_refusal(fault)
}

/// Prints at `errors` the warning of a file that was shown, if it has one, and returns the exit
/// status.
fn told_warning<E: Sink>(errors: &mut E, warning: &[u8]) -> u8
    ensures { TellsWarning warning.now (E.at errors.old) (E.at errors.new) result }
{
    if warning.is_empty() {
        return 0;
    }
    tell_text(errors, warning);
    1
}

/// Reports what a reader gives of the file at a path, and returns the exit status with what was
/// reported: 0 if a file was shown, 1 if the bytes are no file, or one with too many keys, or one
/// whose closed gate shows that it was changed, 3 if the reader failed or the report couldn't be
/// written, 4 if memory was refused. Prints what `file_report` prints; and at `errors` the path and
/// that it couldn't be read, or that its bytes don't begin as a node file does, the warning of a
/// changed gate, and a fault of the writer, or of memory.
pub fn run_file<R: Source, W: Sink, E: Sink>(
    alloc: Global,
    path: &str,
    reader: &mut R,
    writer: &mut W,
    errors: &mut E,
) -> (u8, Reported)
    ensures not_usage { result.0 ≢ 2 }
    ensures ends { EndsFile path.now (R.at reader.old) (R.at reader.new)
        (record { writer = W.at writer.old; errors = E.at errors.old })
        (record { writer = W.at writer.new; errors = E.at errors.new }) result.0 result.1 }
{
    let reported = file_report(alloc, reader, writer);
    let status = match &reported {
        Reported::Shown(shown) => told_warning(errors, shown.warning()),
        Reported::Refused(fault) => refused(errors, path, fault),
        Reported::Stopped(fault) => tell(errors, *fault),
    };
    (status, reported)
}

/// What is said if a copy was asked for of a file with a changed gate.
const NO_COPY: &[u8] = b"error: no copy is made, since it would lack those records\n";

/// Prints at `errors` that no copy is made of a file whose warning was printed, and returns the exit
/// status.
pub(crate) fn tell_no_copy<E: Sink>(errors: &mut E) -> u8
    ensures status { result ≡ 1 }
    ensures told { TellsText (E.at errors.old) (E.at errors.new) no_copy }
{
    tell_text(errors, NO_COPY);
    1
}

/// Makes the target, whose path is `out`, a clean copy of a file that was shown, with the same node,
/// last life and table. Returns the exit status: 0 if every crash leaves the copy there, 3 if the
/// target failed, which prints `error 30 Device`, 4 if memory was refused. After 3 and 4 the target
/// may hold anything. The report was printed before.
///
/// Of a file with a warning no copy is made, which would lack the records behind the gate: that is
/// printed at `errors`, the target stays as it is, and the status is 1.
pub fn run_rewrite<T: Device, W: Sink, E: Sink>(
    alloc: Global,
    shown: &ShownFile,
    out: &str,
    target: &mut T,
    writer: &mut W,
    errors: &mut E,
) -> u8
    ensures not_usage { result ≢ 2 }
    ensures warned { shown.now.changed_gate ≢ None → RefusesCopy
        (record { writer = W.at writer.old; errors = E.at errors.old })
        (record { writer = W.at writer.new; errors = E.at errors.new }) result }
    ensures untouched { shown.now.changed_gate ≢ None → target.new ≡ target.old }
    ensures ends { shown.now.changed_gate ≡ None → EndsRewrite out.now shown.now
        (T.content target.new) (T.may_leave target.new) (T.failed target.old) (T.failed target.new)
        (record { writer = W.at writer.old; errors = E.at errors.old })
        (record { writer = W.at writer.new; errors = E.at errors.new }) result }
{
    let file = shown.contents();
    match file.changed_gate {
        Some(_) => tell_no_copy(errors),
        None => {
            let made = rewrite(alloc, file.node, &file.table, file.life, target);
            copied(out, made, writer, errors)
        }
    }
}

/// Prints how the making of a copy ended, if it failed, and returns the exit status.
fn copied<W: Sink, E: Sink>(
    out: &str,
    made: Result<(), FileFault>,
    writer: &mut W,
    errors: &mut E,
) -> u8
    ensures not_usage { result ≢ 2 }
    ensures ends { EndsCopy out.now made
        (record { writer = W.at writer.old; errors = E.at errors.old })
        (record { writer = W.at writer.new; errors = E.at errors.new }) result }
{
    match made {
        Ok(()) => 0,
        Err(fault) => {
            if is_memory(&fault) {
                tell(errors, StreamFault::Memory)
            } else {
                tell_device(writer, errors, out, WRITE_FAILED)
            }
        }
    }
}

pub(crate) fn is_memory(fault: &FileFault) -> bool
    ensures { result ≡ is_memory fault.now }
{
    matches!(fault, FileFault::Memory)
}

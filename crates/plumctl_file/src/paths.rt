//! The command `file` over paths: which path is opened how.

ghost use Rattle.std.specs.Prelude.{◌≡◌, ◌≢◌, None};
ghost use Rattle.plumctl_file.specs.Ends.{RefusesCopy};

use crate::cause::{tell_unmade, tell_unread};
use crate::report::{Reported, ShownFile};
use crate::run::{run_file, run_rewrite, tell_no_copy};
use devices::{FileDevice, NewName, OpenFault, ReadLock};
use std::fs::{self, File};
use streams::{MayFail, Sink};

/// What the file at a path is opened for.
#[derive(Clone, Copy)]
pub enum Purpose {
    /// A report. It takes no lock: a node may have the file, and write to it.
    Report,
    /// A report and a copy. No node may have the file, or begin a life in it meanwhile.
    Copy,
}

/// A file at a path that was shown.
#[derive(Drop)]
pub struct ShownPath {
    shown: ShownFile,
    /// It holds the lock of the file, if a copy is to be made.
    device: FileDevice,
}

impl ShownPath {
    pub fn file(&self) -> &ShownFile
        ensures { result.now ≡ self.now.shown }
    {
        &self.shown
    }
}

impl Purpose {
    /// Opens the file at a path to be read, and holds it, if a copy is to be made.
    fn open(self, rt: &HostRuntime, path: &str) -> Result<(FileDevice, File), OpenFault> {
        let lock = match self {
            Purpose::Report => ReadLock::NotTaken,
            Purpose::Copy => ReadLock::Taken,
        };
        // It refuses what is no file, and reads none of the bytes.
        let device = FileDevice::open_front(rt, rt.alloc(), path, lock, 0)?;
        let file = fs::open(rt, path)?;
        Ok((device, file))
    }
}

/// Reports the file at a path, by `run_file`, and returns the exit status, which is never 2, the
/// status of wrong arguments, with the file, if it was shown. No more of it is read than a report
/// needs: up to a fault, or `node_file::MAX_LOOKED_AT` bytes behind the end of its records.
pub fn report_path<W: Sink, E: Sink>(
    rt: &HostRuntime,
    path: &str,
    purpose: Purpose,
    writer: &mut W,
    errors: &mut E,
) -> (u8, Option<ShownPath>)
    ensures { result.0 ≢ 2 }
{
    let (device, file) = match purpose.open(rt, path) {
        Ok(opened) => opened,
        Err(fault) => return (tell_unread(writer, errors, path, fault), None),
    };
    match run_file(rt.alloc(), path, &mut MayFail(file), writer, errors) {
        (status, Reported::Shown(shown)) => (status, Some(ShownPath { shown, device })),
        (status, _) => (status, None),
    }
}

/// Makes a clean copy of a file that was shown, by `run_rewrite`, at a path where nothing is, and
/// returns the exit status, which is never 2, the status of wrong arguments. Unless the copy is
/// whole and on the disk, nothing is at the path. Of a file with a warning none is made.
pub fn copy_to_path<W: Sink, E: Sink>(
    rt: &HostRuntime,
    shown: &ShownPath,
    out: &str,
    writer: &mut W,
    errors: &mut E,
) -> u8
    ensures not_usage { result ≢ 2 }
    ensures warned { shown.now.shown.changed_gate ≢ None → RefusesCopy
        (record { writer = W.at writer.old; errors = E.at errors.old })
        (record { writer = W.at writer.new; errors = E.at errors.new }) result }
{
    match shown.shown.contents().changed_gate {
        Some(_) => tell_no_copy(errors),
        None => {
            let made = NewName::at(rt, rt.alloc(), out);
            copy(rt, &shown.shown, out, made, writer, errors)
        }
    }
}

/// Puts a clean copy in the place of a file that was shown for a copy, at this path, and returns
/// the exit status, which is never 2, the status of wrong arguments. No node has the file until
/// the copy is there. Unless that is whole and on the disk, the file stays as it was; so does a file
/// with a warning, of which none is made.
pub fn compact_path<W: Sink, E: Sink>(
    rt: &HostRuntime,
    shown: &ShownPath,
    path: &str,
    writer: &mut W,
    errors: &mut E,
) -> u8
    ensures not_usage { result ≢ 2 }
    ensures warned { shown.now.shown.changed_gate ≢ None → RefusesCopy
        (record { writer = W.at writer.old; errors = E.at errors.old })
        (record { writer = W.at writer.new; errors = E.at errors.new }) result }
{
    match shown.shown.contents().changed_gate {
        Some(_) => tell_no_copy(errors),
        None => {
            let made = NewName::over(rt, rt.alloc(), path, &shown.device);
            copy(rt, &shown.shown, path, made, writer, errors)
        }
    }
}

/// Makes a clean copy, and gives it the name that it is to have.
fn copy<W: Sink, E: Sink>(
    rt: &HostRuntime,
    shown: &ShownFile,
    out: &str,
    made: Result<(FileDevice, NewName), OpenFault>,
    writer: &mut W,
    errors: &mut E,
) -> u8
    ensures { result ≢ 2 }
{
    let (mut target, name) = match made {
        Ok(made) => made,
        Err(fault) => return tell_unmade(writer, errors, out, fault),
    };
    let status = run_rewrite(rt.alloc(), shown, out, &mut target, writer, errors);
    if status != 0 {
        name.discard(rt);
        return status;
    }
    match name.put(rt, target) {
        Ok(_) => 0,
        Err(fault) => tell_unmade(writer, errors, out, fault),
    }
}

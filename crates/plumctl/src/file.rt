//! The command `file`, over the streams of the process.

ghost use Rattle.std.specs.Prelude.{◌≢◌};

use crate::command::OUTPUT_LEN;
use crate::progress::{Known, told};
use plumctl_core::tell;
use plumctl_file::{Purpose, compact_path, copy_to_path, report_path};
use std::io::BufWriter;
use std::sync::Wait;
use std::thread::Threads;
use streams::{MayFail, StreamFault};

/// Where a clean copy of a file is put.
#[derive(Clone, Copy)]
pub enum Copied<'a> {
    /// At this path, where nothing is yet.
    New(&'a str),
    /// In the place of the file.
    Same,
}

/// Does `file`, and reports at a terminal that it takes time. Returns the exit status.
pub fn file<R: Threads + Wait + Sync>(
    rt: &HostRuntime,
    handle: &R,
    path: &str,
    copied: Option<Copied<'_>>,
) -> u8 {
    told(rt, handle, Known::Nothing, || report(rt, path, copied))
}

/// Reports the file at a path, and makes a clean copy, if that is asked for and a file was shown
/// whose gates don't show a change. Returns the exit status, which is never 2, the status of wrong
/// arguments.
fn report(rt: &HostRuntime, path: &str, copied: Option<Copied<'_>>) -> u8
    ensures { result ≢ 2 }
{
    let mut errors = MayFail(rt.stderr());
    let Ok(buffered) = BufWriter::with_capacity(rt.alloc(), OUTPUT_LEN, rt.stdout()) else {
        return tell(&mut errors, StreamFault::Memory);
    };
    let mut writer = MayFail(buffered);
    let purpose = match copied {
        Some(_) => Purpose::Copy,
        None => Purpose::Report,
    };
    let (status, shown) = report_path(rt, path, purpose, &mut writer, &mut errors);
    let Some(shown) = shown else {
        return status;
    };
    match copied {
        None => status,
        Some(Copied::New(out)) => copy_to_path(rt, &shown, out, &mut writer, &mut errors),
        Some(Copied::Same) => compact_path(rt, &shown, path, &mut writer, &mut errors),
    }
}

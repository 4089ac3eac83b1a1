//! The command `live`, over the streams of the process. `arguments` reads its words.

ghost use Rattle.std.specs.Prelude.{◌≢◌, All, IfOk, IfSome};
ghost use Rattle.devices.specs.Device.{IsDurable};
ghost use Rattle.run_record.specs.Record.{IsOfARun};

use crate::command::OUTPUT_LEN;
use crate::progress::{Known, Turns, told};
use cluster::ClusterPlan;
use devices::{Device, FileDevice, NewName, OpenFault};
use plumctl_core::{tell, tell_text};
use plumctl_live::{LiveRun, new_files, run_live, run_live_on, tell_unmade, write_recording};
use std::io::BufWriter;
use std::sync::Wait;
use std::thread::Threads;
use streams::{MayFail, Sink, StreamFault};

/// What `live` is asked for.
#[derive(Clone, Copy)]
pub struct LiveArguments<'a> {
    pub plan: ClusterPlan,
    /// Where the run is written down as a scenario.
    pub record: Option<&'a str>,
    /// The folder of the nodes' files. If there is none, they are in memory.
    pub files: Option<&'a str>,
}

/// Does `live`, and reports at a terminal how far it is. Returns the exit status.
pub fn live<R: Threads + Wait + Sync>(
    rt: &HostRuntime,
    handle: &R,
    asked: LiveArguments<'_>,
) -> u8 {
    let turns = Turns::new(asked.plan);
    told(rt, handle, Known::Turns(&turns), || {
        run(rt, handle, asked, &turns)
    })
}

/// Makes the file of the recording and the folder of the nodes first, so that no run is lost
/// because they can't be made, and then runs the threads. Returns the exit status, which is never
/// 2, the status of wrong arguments.
fn run<R: Threads + Wait + Sync>(
    rt: &HostRuntime,
    handle: &R,
    asked: LiveArguments<'_>,
    turns: &Turns,
) -> u8
    ensures { result ≢ 2 }
{
    let mut errors = MayFail(rt.stderr());
    let Ok(buffered) = BufWriter::with_capacity(rt.alloc(), OUTPUT_LEN, rt.stdout()) else {
        return tell(&mut errors, StreamFault::Memory);
    };
    let mut writer = MayFail(buffered);
    let target = match target_of(rt, asked) {
        Ok(target) => target,
        Err(unmade) => return unmade.tell(&mut errors),
    };
    let devices = match devices_of(rt, asked) {
        Ok(devices) => devices,
        Err(unmade) => {
            if let Some((device, name)) = target {
                drop(device);
                name.discard(rt);
            }
            return unmade.tell(&mut errors);
        }
    };
    let live = run_on(
        rt,
        handle,
        asked.plan,
        devices,
        turns,
        &mut writer,
        &mut errors,
    );
    match (target, asked.record) {
        (Some(target), Some(path)) => record(rt, asked.plan, &live, path, target, &mut errors),
        _ => live.status,
    }
}

/// A path at which nothing could be made, and why.
#[derive(Clone, Copy)]
struct Unmade<'a> {
    path: &'a str,
    fault: OpenFault,
}

impl<'a> Unmade<'a> {
    /// Prints the path and the cause at standard error, and returns the exit status.
    fn tell<E: Sink>(self, errors: &mut E) -> u8
        ensures { result ≢ 2 }
    {
        tell_unmade(errors, self.path, self.fault)
    }
}

/// Returns the file of the recording, which has its name once all of it is written, if one is
/// asked for.
fn target_of<'a>(
    rt: &HostRuntime,
    asked: LiveArguments<'a>,
) -> Result<Option<(FileDevice, NewName)>, Unmade<'a>> {
    let Some(path) = asked.record else {
        return Ok(None);
    };
    match NewName::at(rt, rt.alloc(), path) {
        Ok(target) => Ok(Some(target)),
        Err(fault) => Err(Unmade { path, fault }),
    }
}

/// Returns the files of the nodes, if they are asked for.
fn devices_of<'a>(
    rt: &HostRuntime,
    asked: LiveArguments<'a>,
) -> Result<Option<Vec<FileDevice>>, Unmade<'a>>
    ensures { IfOk result (λ found. IfSome found (λ devices.
        All (λ d. IsDurable (⟦<FileDevice as Device>⟧.content d)
        (⟦<FileDevice as Device>⟧.may_leave d)) devices.items)) }
{
    let Some(path) = asked.files else {
        return Ok(None);
    };
    match new_files(rt, path, asked.plan.nodes) {
        Ok(devices) => Ok(Some(devices)),
        Err(fault) => Err(Unmade { path, fault }),
    }
}

/// Runs the threads on these devices, or in memory if there are none, and prints what became of
/// them.
fn run_on<R: Threads + Wait + Sync, W: Sink, E: Sink>(
    rt: &HostRuntime,
    handle: &R,
    plan: ClusterPlan,
    devices: Option<Vec<FileDevice>>,
    turns: &Turns,
    writer: &mut W,
    errors: &mut E,
) -> LiveRun
    requires { IfSome devices (λ devices.
        All (λ d. IsDurable (⟦<FileDevice as Device>⟧.content d)
        (⟦<FileDevice as Device>⟧.may_leave d)) devices.items) }
    ensures not_usage { result.status ≢ 2 }
    ensures world { IfOk result.judged (IsOfARun plan.nodes) }
{
    let live = match devices {
        Some(devices) => run_live_on(handle, rt.alloc(), plan, devices, turns, writer, errors),
        None => run_live(handle, rt.alloc(), plan, turns, writer, errors),
    };
    if let Some(counts) = live.counts {
        turns.count(counts);
    }
    live
}

/// Printed at standard error if a run is written down that couldn't be reported.
const RECORDED: &[u8] = b"note: the run is recorded all the same\n";

/// Writes down a run, if it is one of the world, in the file that is to have this path; also one
/// that couldn't be reported, since nobody can repeat it. Nothing is at the path unless all of it
/// was written. Returns the exit status: the greater of the run's and the recording's.
fn record<E: Sink>(
    rt: &HostRuntime,
    plan: ClusterPlan,
    live: &LiveRun,
    path: &str,
    target: (FileDevice, NewName),
    errors: &mut E,
) -> u8
    requires not_usage { live.now.status ≢ 2 }
    requires world { IfOk live.now.judged (IsOfARun plan.nodes) }
    ensures { result ≢ 2 }
{
    let (mut target, name) = target;
    let Ok(world) = &live.judged else {
        name.discard(rt);
        return live.status;
    };
    let status = write_recording(rt.alloc(), plan, world, path, &mut target, errors);
    if status != 0 {
        name.discard(rt);
        return live.status.max(status);
    }
    match name.put(rt, target) {
        Ok(_) => {
            if live.status != 0 {
                tell_text(errors, RECORDED);
            }
            live.status
        }
        Err(fault) => live.status.max(Unmade { path, fault }.tell(errors)),
    }
}

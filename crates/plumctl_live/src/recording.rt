//! A run that was judged, written down as a scenario.

ghost use Rattle.std.specs.Prelude.{◌≡◌, ◌≢◌, ◌↔◌, ◌++◌, IfOk, IfSome, IsErrOf, IsSome, OnOk};
ghost use Rattle.devices.specs.Device.{HasFailed};
ghost use Rattle.devices.specs.declared.device.DeviceFault.TheVariants.{Failed};
ghost use Rattle.run_record.specs.Record.{IsOfARun};
ghost use Rattle.plumctl_live.specs.Recording.{EndsRecording, HasRecording, IsRecording, IsStored, about, note_of, option_of};

use crate::folder::tell_device;
use cluster::{ClusterPlan, Workload};
use devices::{Device, DeviceFault};
use plumctl_core::tell;
use printing::print_number;
use run_text::replay_of;
use scenario_text::add_printable;
use std::alloc::{AllocError, Global};
use streams::{MAX_INPUT_LEN, Sink, StreamFault, write_whole};
use world_core::World;

/// Adds the option for a workload.
fn add_option(text: &mut Vec<u8>, workload: Workload) -> Result<(), AllocError>
    ensures { OnOk result (text.new.items ≡ text.old.items ++ option_of workload) }
{
    match workload {
        Workload::Fixed => Ok(()),
        Workload::Mixed => text.extend_from_slice(b" --mixed"),
    }
}

/// The comment on top of a recording.
fn about(alloc: Global, plan: ClusterPlan) -> Result<Vec<u8>, AllocError>
    ensures { IfOk result (λ text. text.items ≡ about plan) }
{
    let mut text = Vec::new(alloc);
    text.extend_from_slice(b"what the threads of 'plumctl live ")?;
    print_number(&mut text, plan.nodes)?;
    text.push(b' ')?;
    print_number(&mut text, plan.turns)?;
    text.push(b' ')?;
    print_number(&mut text, plan.seed)?;
    add_option(&mut text, plan.workload)?;
    text.extend_from_slice(b"' did, call by call; at last the root of each node")?;
    Ok(text)
}

/// Returns the run of the world as a scenario, whose comment on top names this plan. A run of it to
/// its end, with two resolvers at hand as `plumctl run` has them, makes the same events, and comes
/// to the same world: with the same replies and frames.
///
/// Returns `None` exactly if the run has no text: if one of its events has no spelling, as a write
/// under a name of other characters. Those of the workers of a cluster have one. No contract says
/// so.
///
/// It takes memory for the text.
pub fn recording_of(
    alloc: Global,
    plan: ClusterPlan,
    world: &World,
) -> Result<Option<Vec<u8>>, AllocError>
    requires { IsOfARun plan.nodes world.now }
    ensures some { IfOk result (λ found. IsSome found ↔ HasRecording plan world.now) }
    ensures makes { IfOk result (λ found. IfSome found (λ text.
        IsRecording plan world.now text.items)) }
{
    let about = about(alloc, plan)?;
    replay_of(alloc, about.as_slice(), plan.nodes, world.accepted())
}

/// Writes the text at the front of the device, so that every crash leaves it there.
fn store<T: Device>(target: &mut T, text: &[u8]) -> Result<(), DeviceFault>
    ensures stored { OnOk result (IsStored T.content T.may_leave text.now target.old target.new) }
    ensures cause { IsErrOf result Failed → HasFailed (T.failed target.old) (T.failed target.new) }
{
    target.drop_copy();
    target.write_at(0, text)?;
    target.sync()
}

/// Returns what is printed at standard error about a recording of `len` bytes at this path.
fn note_of(alloc: Global, path: &str, len: usize) -> Result<Vec<u8>, AllocError>
    ensures { IfOk result (λ note. note.items ≡ note_of path.now len) }
{
    let mut note = Vec::new(alloc);
    if len > MAX_INPUT_LEN {
        note.extend_from_slice(b"note: ")?;
        add_printable(&mut note, path.as_bytes())?;
        note.extend_from_slice(b" is longer than 67108864 bytes, so 'plumctl run' refuses it\n")?;
    }
    Ok(note)
}

/// Writes the run down at the front of the device at this path, which is to be empty, and returns
/// the exit status: 0 if every crash leaves the recording there, 1 if the run has none, 3
/// where the device failed, 4 if memory was refused. Prints at `errors` why, if the status
/// isn't 0; the device may hold anything then. Where it is 0, prints a note there if the recording
/// is too long to be run.
pub fn write_recording<T: Device, E: Sink>(
    alloc: Global,
    plan: ClusterPlan,
    world: &World,
    path: &str,
    target: &mut T,
    errors: &mut E,
) -> u8
    requires { IsOfARun plan.nodes world.now }
    ensures not_usage { result ≢ 2 }
    ensures ends { EndsRecording T.content T.may_leave T.failed path.now plan world.now
        target.old target.new (E.at errors.old) (E.at errors.new) result }
{
    let text = match recording_of(alloc, plan, world) {
        Ok(Some(text)) => text,
        Ok(None) => {
            let _ = write_whole(errors, b"error: the run has no text\n");
            return 1;
        }
        Err(_) => return tell(errors, StreamFault::Memory),
    };
    let Ok(note) = note_of(alloc, path, text.len()) else {
        return tell(errors, StreamFault::Memory);
    };
    match store(target, text.as_slice()) {
        Ok(()) => {
            let _ = write_whole(errors, note.as_slice());
            0
        }
        Err(DeviceFault::Memory) => tell(errors, StreamFault::Memory),
        Err(DeviceFault::Failed) => tell_device(errors, path, "could not be written"),
    }
}

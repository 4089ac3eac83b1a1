//! A folder with a new file for each node, and what is printed about a path at which nothing could
//! be made.

ghost use Rattle.std.specs.Prelude.{◌≡◌, ◌≢◌, length, All, IfOk};
ghost use Rattle.devices.specs.Device.{IsDurable};
ghost use Rattle.plumctl_live.specs.Recording.{EndsUnmade, TellsDevice};

use devices::{Device, FileDevice, OpenFault};
use plumctl_core::{tell, tell_cause};
use plumctl_file::cause_of_unmade;
use std::alloc::{AllocError, Global};
use std::fs;
use streams::{Sink, StreamFault};

/// The path of a node's file in a folder.
fn path_of(alloc: Global, folder: &str, node: u64) -> Result<String, AllocError> {
    format!(in alloc; "{folder}/node-{node}")
}

/// Makes the file of a node.
fn new_file(rt: &HostRuntime, folder: &str, node: u64) -> Result<FileDevice, OpenFault>
    ensures { IfOk result (λ d. IsDurable
        (⟦<FileDevice as Device>⟧.content d) (⟦<FileDevice as Device>⟧.may_leave d)) }
{
    match path_of(rt.alloc(), folder, node) {
        Ok(path) => FileDevice::create(rt, rt.alloc(), path.as_str(), b""),
        Err(_) => Err(OpenFault::Memory),
    }
}

/// Makes a folder, where nothing is, and in it an empty file for each of `nodes` nodes: `node-0`,
/// `node-1` and so on. Refused with `Exists`, `Missing` of the folder above it, `Failed` or
/// `Memory`; what was made stays.
pub fn new_files(rt: &HostRuntime, folder: &str, nodes: u64) -> Result<Vec<FileDevice>, OpenFault>
    ensures many { IfOk result (λ devices. length devices.items ≡ nodes) }
    ensures durable { IfOk result (λ devices. All (λ d. IsDurable
        (⟦<FileDevice as Device>⟧.content d) (⟦<FileDevice as Device>⟧.may_leave d))
        devices.items) }
{
    fs::create_dir(rt, folder)?;
    let mut devices = Vec::new(rt.alloc());
    for node in 0..nodes {
        let device = new_file(rt, folder, node)?;
        if devices.push(device).is_err() {
            return Err(OpenFault::Memory);
        }
    }
    Ok(devices)
}

/// Prints at standard error that a device failed, at which path and why, and returns the exit
/// status.
pub(crate) fn tell_device<E: Sink>(errors: &mut E, path: &str, cause: &str) -> u8
    ensures ends { TellsDevice path.now cause.now (E.at errors.old) (E.at errors.new) result }
    ensures not_usage { result ≢ 2 }
{
    tell_cause(errors, "error 30 Device\n", path, cause);
    3
}

/// Prints at standard error that nothing could be made at a path, the file of a recording or the
/// folder of the nodes, and why, and returns the exit status: 4 if memory was refused, 3 otherwise.
pub fn tell_unmade<E: Sink>(errors: &mut E, path: &str, fault: OpenFault) -> u8
    ensures ends { EndsUnmade path.now fault (E.at errors.old) (E.at errors.new) result }
    ensures not_usage { result ≢ 2 }
{
    match fault {
        OpenFault::Memory => tell(errors, StreamFault::Memory),
        fault => tell_device(errors, path, cause_of_unmade(fault)),
    }
}

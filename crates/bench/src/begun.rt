//! Begins a life of a node in its file, or reads the file.

ghost use Rattle.std.specs.Prelude.{IfOk};
ghost use Rattle.devices.specs.Device.{IsDurable};
ghost use Rattle.node_desk.specs.Starting.{IsFileOf};

use crate::rows::node;
use crate::samples::refused;
use devices::{Device, FileDevice, MemoryDevice};
use meta_store::Store;
use node_file::{NodeFile, empty_file, open_node, serve};
use std::alloc::Global;
use std::io;

/// Begins the first life of node 0 in a device in memory.
pub(crate) fn begin_in_memory(alloc: Global) -> io::Result<(NodeFile<MemoryDevice>, Store)>
    ensures { IfOk result (λ r.
        IsFileOf (⟦<MemoryDevice as Device>⟧.content) r.0.node r.0.life r.1 r.0) }
{
    let new = empty_file(node(0)?).to_vec(alloc)?;
    served(alloc, MemoryDevice::new(alloc, new)?)
}

/// Begins the first life of node 0 in a new file at the path.
pub(crate) fn begin_at(rt: &HostRuntime, path: &str) -> io::Result<(NodeFile<FileDevice>, Store)>
    ensures { IfOk result (λ r.
        IsFileOf (⟦<FileDevice as Device>⟧.content) r.0.node r.0.life r.1 r.0) }
{
    let new = empty_file(node(0)?);
    let device = FileDevice::create(rt, rt.alloc(), path, &new).map_err(refused)?;
    served(rt.alloc(), device)
}

/// Begins the next life of the node whose file is at the path; if there is no file, of node 0.
pub(crate) fn go_on_at(rt: &HostRuntime, path: &str) -> io::Result<(NodeFile<FileDevice>, Store)>
    ensures { IfOk result (λ r.
        IsFileOf (⟦<FileDevice as Device>⟧.content) r.0.node r.0.life r.1 r.0) }
{
    let new = empty_file(node(0)?);
    let device = FileDevice::open_or_create(rt, rt.alloc(), path, &new).map_err(refused)?;
    served(rt.alloc(), device)
}

/// Begins the next life of the node whose file the device holds.
fn served<D: Device + Drop>(alloc: Global, device: D) -> io::Result<(NodeFile<D>, Store)>
    requires { IsDurable (D.content device) (D.may_leave device) }
    ensures { IfOk result (λ r. IsFileOf D.content r.0.node r.0.life r.1 r.0) }
{
    match serve(alloc, device, None) {
        Ok((file, table, _life)) => Ok((file, table)),
        Err((_, fault)) => Err(refused(fault)),
    }
}

/// Returns the table that the file at the path holds, and the number of its last life, 0 for none.
/// Nothing is written.
pub(crate) fn read(rt: &HostRuntime, path: &str) -> io::Result<(Store, u32)> {
    let device = FileDevice::open_to_read(rt, rt.alloc(), path).map_err(refused)?;
    match open_node(rt.alloc(), device, None) {
        Ok((_file, table, life)) => Ok((table, life)),
        Err((_, fault)) => Err(refused(fault)),
    }
}

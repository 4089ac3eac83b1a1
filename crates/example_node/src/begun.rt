//! Begins a life of a node in its file.

ghost use Rattle.std.specs.Prelude.{IfOk};
ghost use Rattle.devices.specs.Device.{IsDurable};
ghost use Rattle.node_desk.specs.Starting.{IsFileOf};

use devices::{Device, FileDevice};
use meta_store::Store;
use meta_types::NodeId;
use node_file::{NodeFile, empty_file, serve};
use std::alloc::Global;
use std::io;

/// Returns the error that stands for any refusal.
pub(crate) fn refused<E: Drop>(_refusal: E) -> io::Error {
    io::Error::from(io::ErrorKind::Other)
}

/// Begins the next life of the node whose file is at the path; if there is no file, of node 0.
pub(crate) fn begin(rt: &HostRuntime, path: &str) -> io::Result<(NodeFile<FileDevice>, Store)>
    ensures { IfOk result (λ r.
        IsFileOf (⟦<FileDevice as Device>⟧.content) r.0.node r.0.life r.1 r.0) }
{
    let new = empty_file(NodeId::new(0).map_err(refused)?);
    let device = FileDevice::open_or_create(rt, rt.alloc(), path, &new).map_err(refused)?;
    served(rt.alloc(), device)
}

/// Begins the next life of the node whose file the device holds.
fn served(alloc: Global, device: FileDevice) -> io::Result<(NodeFile<FileDevice>, Store)>
    requires { IsDurable (⟦<FileDevice as Device>⟧.content device)
        (⟦<FileDevice as Device>⟧.may_leave device) }
    ensures { IfOk result (λ r.
        IsFileOf (⟦<FileDevice as Device>⟧.content) r.0.node r.0.life r.1 r.0) }
{
    match serve(alloc, device, None) {
        Ok((file, table, _life)) => Ok((file, table)),
        Err((_, fault)) => Err(refused(fault)),
    }
}

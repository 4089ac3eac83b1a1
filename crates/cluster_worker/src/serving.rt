//! Begins the next life of each node in its device, before the workers start.

ghost use Rattle.std.specs.Prelude.{◌≡◌, ◌≤◌, length, map, All, None, Some, IfOk, IfErr, OnOk};
ghost use Rattle.devices.specs.Device.{IsDurable};
ghost use Rattle.node_file.specs.Refusal.{refusal_of_serve};
ghost use Rattle.node_file.specs.View.{IsSettled};
ghost use Rattle.cluster_worker.specs.Serving.{CanServeAll, IsServed, RefusesServing, RefusesServingOne, file_bytes, life_of_file, life_on, lives_from, next_life, refusal_on};

use crate::fault::ClusterFault;
use devices::Device;
use meta_store::Store;
use meta_types::NodeId;
use node_file::{NodeFile, create, serve};
use std::alloc::Global;

/// A node's file, in the life that was begun in it, with the table that it holds.
#[derive(Drop)]
pub struct ServedFile<D: Device> {
    pub file: NodeFile<D>,
    pub table: Store,
}

/// Begins the node's next life in the file that the device holds.
fn begin_next<D: Device + Drop>(
    alloc: Global,
    device: D,
    node: NodeId,
) -> Result<ServedFile<D>, ClusterFault>
    requires pending { IsDurable (D.content device) (D.may_leave device) }
    ensures served { IfOk result (λ s. IsServed D.content s.file s.table) }
    ensures none { OnOk result (refusal_of_serve (Some node) (D.content device) ≡ None) }
    ensures settled { IfOk result (λ s. IsSettled D.content D.may_leave s.file) }
    ensures life { IfOk result
        (λ s. life_of_file s.file s.table ≡ next_life node (D.content device)) }
    ensures refused { IfErr result (RefusesServing D.failed device node (D.content device)) }
{
    match serve(alloc, device, Some(node)) {
        Ok((file, table, _life)) => Ok(ServedFile { file, table }),
        Err((_device, fault)) => Err(ClusterFault::from(fault)),
    }
}

/// Begins the node's next life on the device. On an empty one a file is made first.
fn begin<D: Device + Drop>(
    alloc: Global,
    device: D,
    node: NodeId,
) -> Result<ServedFile<D>, ClusterFault>
    requires pending { IsDurable (D.content device) (D.may_leave device) }
    ensures served { IfOk result (λ s. IsServed D.content s.file s.table) }
    ensures none { OnOk result (refusal_on node (D.content device) ≡ None) }
    ensures settled { IfOk result (λ s. IsSettled D.content D.may_leave s.file) }
    ensures life { IfOk result
        (λ s. life_of_file s.file s.table ≡ life_on node (D.content device)) }
    ensures refused { IfErr result
        (RefusesServing D.failed device node (file_bytes node (D.content device))) }
{
    if device.len() > 0 {
        return begin_next(alloc, device, node);
    }
    match create(device, node) {
        Ok(file) => begin_next(alloc, file.into_device(), node),
        Err((_device, fault)) => Err(ClusterFault::from(fault)),
    }
}

/// Begins a life of each of the nodes 0, 1 and so on, in the order of their devices. Refused as
/// `node_file::serve` is, of the first device that can't be served.
pub fn begin_all<D: Device + Drop>(
    alloc: Global,
    devices: Vec<D>,
) -> Result<Vec<ServedFile<D>>, ClusterFault>
    requires number { length devices.items ≤ 16 }
    requires pending { All (λ d. IsDurable (D.content d) (D.may_leave d)) devices.items }
    ensures can { OnOk result (CanServeAll D.content devices.items) }
    ensures served { IfOk result (λ all. All (λ s. IsServed D.content s.file s.table) all.items) }
    ensures settled { IfOk result
        (λ all. All (λ s. IsSettled D.content D.may_leave s.file) all.items) }
    ensures lives { IfOk result (λ all. map (λ s. life_of_file s.file s.table) all.items
        ≡ lives_from 0 (map D.content devices.items)) }
    ensures refused { IfErr result (RefusesServingOne D.content D.failed devices.items) }
{
    let mut all = Vec::with_capacity(alloc, devices.len())?;
    for device in devices {
        let node = NodeId::new(all.len() as u16).unwrap();
        all.push_reserved(begin(alloc, device, node)?);
    }
    Ok(all)
}

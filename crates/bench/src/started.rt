//! Starting a node, and closing it.

ghost use Rattle.std.specs.Prelude.{◌≡◌, ◌≤◌};
ghost use Rattle.node_desk.specs.Starting.{IsFileOf};

use crate::samples::refused;
use devices::Device;
use meta_store::Store;
use node_file::NodeFile;
use node_lock::{
    Beginning, Capacity, Closed, Naming, Node, NotStarted, ReadSeat, Started, WriteSeat,
};
use std::alloc::Global;
use std::io;
use std::sync::Wait;
use std::sync::ledger::Blank;

/// Starts the node of this file, with the seats of `capacity`.
pub(crate) fn start<'a, D: Device + Drop, J: Naming, R: Wait>(
    rt: &'a R,
    alloc: Global,
    tokens: (Blank, Beginning),
    file: NodeFile<D>,
    table: Store,
    capacity: Capacity,
) -> io::Result<Started<D, J, &'a R>>
    requires ledger { (tokens.0.name ≡ J.name) × (tokens.0.parts ≡ J.parts) }
    requires book { tokens.1 ≡ J.book }
    requires enough { 9 ≤ J.parts }
    requires opening { table ≡ J.opening }
    requires served { IsFileOf D.content J.node J.incarnation J.opening file }
{
    let started: Result<Started<D, J, &R>, NotStarted<D>> = Node::start(
        rt, alloc, tokens, file, table, capacity,
    );
    match started {
        Ok(started) => Ok(started),
        Err(not) => Err(refused(not)),
    }
}

/// Closes the node, whose seats are all handed in, and drops its file.
pub(crate) fn close<D: Device + Drop, J: Naming, R: Wait>(
    node: Node<D, J, &R>,
    writers: Vec<WriteSeat<J>>,
    readers: Vec<ReadSeat<J>>,
) -> io::Result<Closed> {
    match node.close(writers, readers.as_slice()) {
        Ok((closed, device)) => {
            drop(device);
            Ok(closed)
        }
        Err(not) => Err(refused(not)),
    }
}

//! The measures of a node whose file is in memory.

ghost use Rattle.std.specs.Prelude.{◌≡◌, ◌≤◌};
ghost use Rattle.node_desk.specs.Starting.{IsFileOf};

use crate::begun::begin_in_memory;
use crate::lock::{calls, gossips, holding, looks, peeks, seats};
use crate::samples::refused;
use crate::started::{close, start};
use devices::{Device, MemoryDevice};
use meta_store::Store;
use node_file::NodeFile;
use node_lock::{Beginning, Naming, Node, Started, WriteSeat};
use std::alloc::Global;
use std::io;
use std::marker::Brand;
use std::rt::Clock;
use std::sync::Wait;
use std::sync::ledger::Blank;
use std::thread::Threads;

/// What is measured.
#[derive(Clone, Copy)]
pub(crate) enum Work {
    /// Readers look while a writer writes.
    Peeks,
    /// One thread looks.
    Looks,
    /// One thread calls.
    Calls(Calls),
}

/// What one thread calls.
#[derive(Clone, Copy)]
pub(crate) enum Calls {
    /// It writes.
    PutOver,
    /// It takes what a neighbour wrote.
    Gossip,
    /// It fills the node, and cuts its journal.
    Hold,
}

/// Measures the work on a new node.
pub(crate) fn measure<R: Threads + Wait + Clock + Print + Sync>(
    rt: &R,
    alloc: Global,
    work: Work,
) -> io::Result<()> {
    let (file, table) = begin_in_memory(alloc)?;
    let tokens = (Blank::new(9), Beginning::new());
    use_node::<Brand, R>(rt, alloc, tokens, file, table, work)
}

/// Starts the node, lends it, and closes it.
fn use_node<J: Naming + Send + Sync, R: Threads + Wait + Clock + Print + Sync>(
    rt: &R,
    alloc: Global,
    tokens: (Blank, Beginning),
    file: NodeFile<MemoryDevice>,
    table: Store,
    work: Work,
) -> io::Result<()>
    requires ledger { (tokens.0.name ≡ J.name) × (tokens.0.parts ≡ J.parts) }
    requires book { tokens.1 ≡ J.book }
    requires enough { 9 ≤ J.parts }
    requires opening { table ≡ J.opening }
    requires served { IsFileOf (⟦<MemoryDevice as Device>⟧.content)
        J.node J.incarnation J.opening file }
{
    let Started {
        node,
        mut writers,
        mut readers,
    } = start(rt, alloc, tokens, file, table, seats())?;
    let done = match work {
        Work::Peeks => peeks::run(rt, alloc, &node, &mut writers, &mut readers),
        Work::Looks => looks::run(rt, alloc, &node, &mut writers, &mut readers),
        Work::Calls(calls) => call(rt, alloc, &node, &mut writers, calls),
    };
    drop(close::<MemoryDevice, J, R>(node, writers, readers)?);
    done
}

/// Makes the calls with one of the seats.
fn call<J: Naming, R: Wait + Clock + Print>(
    rt: &R,
    alloc: Global,
    node: &Node<MemoryDevice, J, &R>,
    writers: &mut Vec<WriteSeat<J>>,
    calls: Calls,
) -> io::Result<()> {
    let Some(mut seat) = writers.pop() else {
        return Err(refused(()));
    };
    let done = match calls {
        Calls::PutOver => calls::run(rt, alloc, node, &mut seat),
        Calls::Gossip => gossips::run(rt, alloc, node, &mut seat),
        Calls::Hold => holding::run(rt, alloc, node, &mut seat),
    };
    writers.push(seat).map_err(refused).and(done)
}

//! A node that holds much, and does nothing with it: how much memory it takes, the system tells.

use crate::lock::KEYS;
use crate::lock::writing::fill;
use crate::rows::{Rows, node as number};
use crate::samples::refused;
use crate::subject::Subject;
use devices::MemoryDevice;
use node_lock::{Naming, Node, WriteSeat};
use std::alloc::Global;
use std::io;
use std::sync::Wait;

/// Fills the node, and cuts its journal.
pub(crate) fn run<J: Naming, R: Wait>(
    rt: &R,
    alloc: Global,
    node: &Node<MemoryDevice, J, &R>,
    seat: &mut WriteSeat<J>,
) -> io::Result<()> {
    let rows = Rows::new(alloc, KEYS)?;
    let done = fill(rt, &rows, node, seat);
    drop(rows);
    done?;
    let _entries = node.cut(rt, seat).map_err(refused)?;
    Ok(())
}

/// Fills a bare node with the same.
pub(crate) fn run_bare(alloc: Global) -> io::Result<()> {
    let rows = Rows::new(alloc, KEYS)?;
    let done = fill_bare(alloc, &rows);
    drop(rows);
    done
}

fn fill_bare(alloc: Global, rows: &Rows) -> io::Result<()> {
    let mut bare = Subject::new(alloc, number(0)?)?;
    let done = bare.fill(rows);
    drop(bare);
    done
}

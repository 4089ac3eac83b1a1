//! Writes of a node under its lock.

use crate::rows::{Dice, Rows};
use crate::samples::refused;
use devices::Device;
use meta_types::{MetaKey, both};
use node_lock::{Naming, Node, Write, WriteSeat};
use std::alloc::Global;
use std::io;
use std::sync::Wait;

/// Writes the value of the rows under the key, over what the node holds there.
pub(crate) fn put_over<D: Device + Drop, J: Naming, R: Wait>(
    rt: &R,
    rows: &Rows,
    node: &Node<D, J, &R>,
    seat: &mut WriteSeat<J>,
    key: &MetaKey,
) -> io::Result<()> {
    let (key, value) = rows.copies(key)?;
    drop(node.put_over(rt, seat, key, value).map_err(refused)?);
    Ok(())
}

/// Writes the value under each of the keys.
pub(crate) fn fill<D: Device + Drop, J: Naming, R: Wait>(
    rt: &R,
    rows: &Rows,
    node: &Node<D, J, &R>,
    seat: &mut WriteSeat<J>,
) -> io::Result<()> {
    for key in rows.keys() {
        put_over(rt, rows, node, seat, key)?;
    }
    Ok(())
}

/// Makes a batch of `count` writes, of the value of the rows under keys that look random.
pub(crate) fn put_all<D: Device + Drop, J: Naming, R: Wait>(
    rt: &R,
    alloc: Global,
    rows: &Rows,
    node: &Node<D, J, &R>,
    seat: &mut WriteSeat<J>,
    dice: &mut Dice,
    count: u64,
) -> io::Result<()> {
    let mut writes = Vec::new(alloc);
    let done = add_writes(rows, dice, count, &mut writes);
    let (writes, ()) = both(Ok(writes), done)?;
    drop(node.write_all(rt, seat, writes).map_err(refused)?);
    Ok(())
}

fn add_writes(rows: &Rows, dice: &mut Dice, count: u64, writes: &mut Vec<Write>) -> io::Result<()> {
    for _write in 0..count {
        let (key, value) = rows.copies(rows.any_key(dice)?)?;
        writes.push(Write::PutOver { key, value }).map_err(refused)?;
    }
    Ok(())
}

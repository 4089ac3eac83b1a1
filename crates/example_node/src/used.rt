//! Starts a node, uses it and closes it.

ghost use Rattle.std.specs.Prelude.{◌≡◌, ◌≤◌, length};
ghost use Rattle.node_desk.specs.Starting.{IsFileOf};

use crate::begun::refused;
use devices::{Device, FileDevice};
use meta_store::Store;
use meta_types::{MetaKey, Value, both};
use node_file::NodeFile;
use node_lock::{Beginning, Capacity, Naming, Node, NotStarted, ReadSeat, Started, WriteSeat};
use std::alloc::Global;
use std::io;
use std::sync::Wait;
use std::sync::ledger::Blank;

/// Starts the node, writes a value over what it holds under the key, and closes it. Returns what a
/// reader that learnt of the write is shown, and how many entries the journal had.
pub(crate) fn written<J: Naming, R: Wait>(
    rt: &R,
    alloc: Global,
    tokens: (Blank, Beginning),
    file: NodeFile<FileDevice>,
    table: Store,
    key: MetaKey,
    value: Value,
) -> io::Result<String>
    requires ledger { (tokens.0.name ≡ J.name) × (tokens.0.parts ≡ J.parts) }
    requires book { tokens.1 ≡ J.book }
    requires enough { 9 ≤ J.parts }
    requires opening { table ≡ J.opening }
    requires served { IsFileOf (⟦<FileDevice as Device>⟧.content)
        J.node J.incarnation J.opening file }
{
    let started: Result<Started<FileDevice, J, &R>, NotStarted<FileDevice>> = Node::start(
        rt,
        alloc,
        tokens,
        file,
        table,
        Capacity::new(1, 1),
    );
    match started {
        Ok(started) => used(rt, alloc, started, key, value),
        Err(not) => Err(refused(not)),
    }
}

fn used<J: Naming, R: Wait>(
    rt: &R,
    alloc: Global,
    started: Started<FileDevice, J, &R>,
    key: MetaKey,
    value: Value,
) -> io::Result<String>
    requires writers { 1 ≤ length started.writers.items }
    requires readers { 1 ≤ length started.readers.items }
{
    let Started {
        node,
        mut writers,
        mut readers,
    } = started;
    let shown = write(
        rt,
        alloc,
        &node,
        &mut writers[0],
        &mut readers[0],
        key,
        value,
    );
    let entries = close(node, writers, readers);
    let (shown, entries) = both(shown, entries)?;
    Ok(format!(in alloc; "{shown}; {entries} in the journal")?)
}

/// Writes the value, and returns what a reader that learnt of it is shown.
fn write<J: Naming, R: Wait>(
    rt: &R,
    alloc: Global,
    node: &Node<FileDevice, J, &R>,
    writer: &mut WriteSeat<J>,
    reader: &mut ReadSeat<J>,
    key: MetaKey,
    value: Value,
) -> io::Result<String> {
    let again = key.copy().map_err(refused);
    let done = node.put_over(rt, writer, key, value).map_err(refused);
    let (again, done) = both(again, done)?;
    reader.learn(done.revision());
    drop(done);
    let said = said(alloc, reader, &again);
    drop(again);
    said
}

/// Returns what a reader is shown under the key, without waiting.
fn said<J: Naming>(alloc: Global, reader: &mut ReadSeat<J>, key: &MetaKey) -> io::Result<String> {
    let shown = reader.peek(key).map_err(refused)?;
    let said = format!(in alloc; "shown {}", text_of(shown.values.first()));
    drop(shown);
    Ok(said?)
}

/// Returns the value, as it is printed.
fn text_of(value: Option<&Value>) -> &str {
    let Some(value) = value else {
        return "nothing";
    };
    match value.body() {
        Some(body) => std::str::from_utf8(body).unwrap_or("bytes"),
        None => "a tombstone",
    }
}

/// Closes the node, and returns how many entries its journal had.
fn close<J: Naming, R: Wait>(
    node: Node<FileDevice, J, &R>,
    writers: Vec<WriteSeat<J>>,
    readers: Vec<ReadSeat<J>>,
) -> io::Result<usize> {
    match node.close(writers, readers.as_slice()) {
        Ok(left) => {
            let entries = left.0.journal().len();
            drop(left);
            Ok(entries)
        }
        Err(not) => Err(refused(not)),
    }
}

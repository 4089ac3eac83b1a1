//! A node that is started for a trial.

ghost use Rattle.std.specs.Prelude.{◌≡◌, ◌≤◌, IfSome};
ghost use Rattle.devices.specs.Device.{IsDurable};
ghost use Rattle.node_desk.specs.Starting.{IsFileOf};

use devices::{Device, MemoryDevice};
use meta_store::Store;
use meta_types::{FullPrefix, MetaKey, NodeId, Value};
use node_file::{NodeFile, create, serve};
use node_lock::{
    Beginning, Capacity, Closed, Naming, Node, NotClosed, NotStarted, ReadSeat, Receipt, Started,
    WriteSeat,
};
use std::alloc::Global;
use std::marker::Brand;
use std::process::Abort;
use std::sync::Wait;
use std::sync::ledger::Blank;

/// What is tried on a node, which is lent with its seats. It returns the receipts that it got.
pub(crate) trait Trial {
    fn run<J: Naming, R: Wait + Abort>(
        rt: &R,
        alloc: Global,
        node: &Node<MemoryDevice, J, &R>,
        writers: &mut Vec<WriteSeat<J>>,
        readers: &mut Vec<ReadSeat<J>>,
    ) -> Vec<Receipt>
        requires { 9 ≤ J.parts };
}

/// What a trial left: the closed node, and the receipts.
#[derive(Drop)]
pub(crate) struct Left {
    pub closed: Closed,
    pub receipts: Vec<Receipt>,
}

/// Puts a letter under the key of the digit 1. Returns the place of the entry, or the number of the
/// refusal.
pub(crate) fn put<D: Device + Drop, J: Naming, R: Wait + Abort>(
    rt: &R,
    alloc: Global,
    node: &Node<D, J, &R>,
    seat: &mut WriteSeat<J>,
    letter: u8,
) -> Result<u64, u16> {
    let key = key(rt, alloc, b'1');
    let value = value(rt, alloc, letter);
    match node.put(rt, seat, key, value, None) {
        Ok(done) => {
            let place = done.receipt().place;
            drop(done);
            Ok(place)
        }
        Err(fault) => Err(fault.code()),
    }
}

/// Puts a letter under the key of the digit 1, and lets the reader learn of it.
pub(crate) fn put_and_learn<D: Device + Drop, J: Naming, R: Wait + Abort>(
    rt: &R,
    alloc: Global,
    node: &Node<D, J, &R>,
    seat: &mut WriteSeat<J>,
    letter: u8,
    reader: &mut ReadSeat<J>,
) {
    let key = key(rt, alloc, b'1');
    let value = value(rt, alloc, letter);
    match node.put(rt, seat, key, value, None) {
        Ok(done) => {
            reader.learn(done.revision());
            drop(done);
        }
        Err(_) => panic!(rt; "an accepted call"),
    }
}

/// Returns how many values a reader is shown under the key, or the number of the refusal.
pub(crate) fn shown<J: Naming>(
    rt: &impl Abort,
    alloc: Global,
    reader: &mut ReadSeat<J>,
) -> Result<usize, u16> {
    match reader.peek(&key(rt, alloc, b'1')) {
        Ok(shown) => Ok(shown.values.len()),
        Err(fault) => Err(fault.code()),
    }
}

/// Returns a copy of these bytes. It is asked for once more if memory was refused.
pub(crate) fn bytes(rt: &impl Abort, alloc: Global, bytes: &[u8]) -> Vec<u8> {
    match bytes.to_vec(alloc) {
        Ok(copy) => copy,
        Err(_) => bytes.to_vec(alloc).expect(rt, "memory once more"),
    }
}

/// Returns the full prefix a/b.
pub(crate) fn prefix(rt: &impl Abort, alloc: Global) -> FullPrefix {
    let a = bytes(rt, alloc, b"a");
    FullPrefix::new(a, bytes(rt, alloc, b"b")).expect(rt, "a prefix")
}

/// Returns the key a/b/k and a digit.
pub(crate) fn key(rt: &impl Abort, alloc: Global, digit: u8) -> MetaKey {
    let prefix = prefix(rt, alloc);
    MetaKey::new(prefix, bytes(rt, alloc, &[b'k', digit])).expect(rt, "a key")
}

/// Returns a value of one letter.
pub(crate) fn value(rt: &impl Abort, alloc: Global, letter: u8) -> Value {
    Value::new(0, Some(bytes(rt, alloc, &[letter]))).expect(rt, "a value")
}

/// Returns a device in memory with an empty file of node 0, synced.
pub(crate) fn open_first(rt: &impl Abort, alloc: Global) -> MemoryDevice
    ensures { IsDurable (⟦<MemoryDevice as Device>⟧.content result)
        (⟦<MemoryDevice as Device>⟧.may_leave result) }
{
    let device = MemoryDevice::new(alloc, Vec::new(alloc)).expect(rt, "memory");
    match create(device, NodeId::new(0).expect(rt, "a node")) {
        Ok(made) => made.into_device(),
        Err(_) => panic!(rt; "a file"),
    }
}

/// Returns the file that the device holds, in its node's next life.
pub(crate) fn next_life<D: Device + Drop>(
    rt: &impl Abort,
    alloc: Global,
    device: D,
) -> (NodeFile<D>, Store)
    requires { IsDurable (D.content device) (D.may_leave device) }
    ensures { IsFileOf D.content result.0.node result.0.life result.1 result.0 }
{
    match serve(alloc, device, None) {
        Ok((file, table, _life)) => (file, table),
        Err(_) => panic!(rt; "a life"),
    }
}

/// Returns a new file of node 0 in memory, in its first life, with its table; `None` if memory was
/// refused.
fn first_life(alloc: Global) -> Option<(NodeFile<MemoryDevice>, Store)>
    ensures { IfSome result (λ r. IsFileOf (⟦<MemoryDevice as Device>⟧.content)
        r.0.node r.0.life r.1 r.0) }
{
    let device = MemoryDevice::new(alloc, Vec::new(alloc)).ok()?;
    let made = create(device, NodeId::new(0).ok()?).ok()?;
    let (file, table, _life) = serve(alloc, made.into_device(), None).ok()?;
    Some((file, table))
}

/// Returns what a trial leaves on a new node with these seats.
pub(crate) fn tried<T: Trial, R: Wait + Abort>(rt: &R, alloc: Global, capacity: Capacity) -> Left {
    start::<T, R>(rt, alloc, capacity).ok().expect(rt, "a node")
}

/// Returns how many steps the base of what a trial leaves has, and how many entries the journal.
pub(crate) fn counted<T: Trial, R: Wait + Abort>(
    rt: &R,
    alloc: Global,
    capacity: Capacity,
) -> (u64, usize) {
    let left = tried::<T, R>(rt, alloc, capacity);
    let counted = (left.closed.base().steps(), left.closed.journal().len());
    drop(left);
    counted
}

/// Returns what a trial leaves, or the number of the refusal if the node isn't started.
pub(crate) fn start<T: Trial, R: Wait + Abort>(
    rt: &R,
    alloc: Global,
    capacity: Capacity,
) -> Result<Left, u16> {
    let (file, table) = match first_life(alloc) {
        Some(first) => first,
        None => first_life(alloc).expect(rt, "memory once more"),
    };
    let tokens = (Blank::new(9), Beginning::new());
    begun::<Brand, T, R>(rt, alloc, tokens, file, table, capacity)
}

fn begun<J: Naming, T: Trial, R: Wait + Abort>(
    rt: &R,
    alloc: Global,
    tokens: (Blank, Beginning),
    file: NodeFile<MemoryDevice>,
    table: Store,
    capacity: Capacity,
) -> Result<Left, u16>
    requires ledger { (tokens.0.name ≡ J.name) × (tokens.0.parts ≡ J.parts) }
    requires book { tokens.1 ≡ J.book }
    requires enough { 9 ≤ J.parts }
    requires opening { table ≡ J.opening }
    requires served { IsFileOf (⟦<MemoryDevice as Device>⟧.content)
        J.node J.incarnation J.opening file }
{
    let started = started(rt, alloc, tokens, file, table, capacity)?;
    Ok(leave::<J, T, R>(rt, alloc, started))
}

/// Starts the node of this file. Returns the number of the refusal if it isn't started.
pub(crate) fn started<'a, D: Device + Drop, J: Naming, R: Wait + Abort>(
    rt: &'a R,
    alloc: Global,
    tokens: (Blank, Beginning),
    file: NodeFile<D>,
    table: Store,
    capacity: Capacity,
) -> Result<Started<D, J, &'a R>, u16>
    requires ledger { (tokens.0.name ≡ J.name) × (tokens.0.parts ≡ J.parts) }
    requires book { tokens.1 ≡ J.book }
    requires enough { 9 ≤ J.parts }
    requires opening { table ≡ J.opening }
    requires served { IsFileOf D.content J.node J.incarnation J.opening file }
{
    let started: Result<Started<D, J, &R>, NotStarted<D>> = Node::start(
        rt, alloc, tokens, file, table, capacity,
    );
    match started {
        Ok(started) => Ok(started),
        Err(not) => {
            let code = not.fault.code();
            drop(not);
            Err(code)
        }
    }
}

/// Tries it on the node, and closes the node, at first without one of its seats.
fn leave<J: Naming, T: Trial, R: Wait + Abort>(
    rt: &R,
    alloc: Global,
    started: Started<MemoryDevice, J, &R>,
) -> Left
    requires { 9 ≤ J.parts }
{
    let Started {
        node,
        mut writers,
        mut readers,
    } = started;
    let receipts = T::run(rt, alloc, &node, &mut writers, &mut readers);
    let seat = writers.pop().expect(rt, "a seat");
    let not = not_closed(rt, node, writers, readers.as_slice());
    let closed = close_with(rt, not, seat, readers.as_slice());
    assert!(rt; are_stopped(rt, alloc, readers.as_mut_slice()));
    drop(readers);
    Left { closed, receipts }
}

/// Returns whether each reader is refused with 34, as the readers of a closed node are.
fn are_stopped<J: Naming>(rt: &impl Abort, alloc: Global, readers: &mut [ReadSeat<J>]) -> bool {
    let mut are_stopped = true;
    for reader in readers.iter_mut() {
        are_stopped = are_stopped & (shown(rt, alloc, reader) == Err(34));
    }
    are_stopped
}

/// Returns why the node isn't closed, and what comes back.
fn not_closed<'r, J: Naming, R: Wait + Abort>(
    rt: &R,
    node: Node<MemoryDevice, J, &'r R>,
    writers: Vec<WriteSeat<J>>,
    readers: &[ReadSeat<J>],
) -> NotClosed<MemoryDevice, J, &'r R> {
    match node.close(writers, readers) {
        Ok(_) => panic!(rt; "it is closed without a seat"),
        Err(not) => not,
    }
}

/// Closes the node with this seat too.
fn close_with<J: Naming, R: Wait + Abort>(
    rt: &R,
    not: NotClosed<MemoryDevice, J, &R>,
    seat: WriteSeat<J>,
    readers: &[ReadSeat<J>],
) -> Closed {
    let NotClosed {
        fault,
        node,
        mut seats,
    } = not;
    assert!(rt; fault.code() == 54);
    seats.push(seat).ok().expect(rt, "memory");
    let (closed, device) = close(rt, node, seats, readers);
    drop(device);
    closed
}

/// Closes the node. Returns what it leaves, and its device.
pub(crate) fn close<D: Device + Drop, J: Naming, R: Wait + Abort>(
    rt: &R,
    node: Node<D, J, &R>,
    writers: Vec<WriteSeat<J>>,
    readers: &[ReadSeat<J>],
) -> (Closed, D) {
    match node.close(writers, readers) {
        Ok(left) => left,
        Err(_) => panic!(rt; "a node that is closed"),
    }
}

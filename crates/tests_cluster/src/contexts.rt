//! A node under its lock writes with what another one read: journals of both, and one run.

ghost use Rattle.std.specs.Prelude.{◌≡◌, ◌≤◌};
ghost use Rattle.devices.specs.Device.{IsDurable};
ghost use Rattle.node_desk.specs.Starting.{IsFileOf};

use devices::{Device, MemoryDevice};
use meta_store::{Context, Store};
use meta_types::{FullPrefix, MetaKey, NodeId, Value};
use node_events::Reply;
use node_file::{NodeFile, create, serve};
use node_journal::are_whole;
use node_lock::{
    Acknowledgement, Beginning, Capacity, Closed, LockFault, Naming, Node, NotStarted, Receipt,
    Started,
};
use run_record::assemble;
use std::alloc::Global;
use std::marker::Brand;
use std::process::Abort;
use std::sync::Wait;
use std::sync::ledger::Blank;

/// What is left of a node, its receipts, and what it read last.
#[derive(Drop)]
struct Left {
    closed: Closed,
    receipts: Vec<Receipt>,
    read: Context,
}

fn key(rt: &impl Abort, alloc: Global) -> MetaKey {
    let a = b"a".to_vec(alloc).expect(rt, "memory");
    let b = b"b".to_vec(alloc).expect(rt, "memory");
    let prefix = FullPrefix::new(a, b).expect(rt, "a prefix");
    MetaKey::new(prefix, b"k".to_vec(alloc).expect(rt, "memory")).expect(rt, "a key")
}

fn value(rt: &impl Abort, alloc: Global, letter: u8) -> Value {
    let body = vec![in alloc; letter; 1].expect(rt, "memory");
    Value::new(0, Some(body)).expect(rt, "a value")
}

/// Returns a new file of the node in memory, in its first life, with its table.
fn first_life(rt: &impl Abort, alloc: Global, node: NodeId) -> (NodeFile<MemoryDevice>, Store)
    ensures { IsFileOf (⟦<MemoryDevice as Device>⟧.content)
        result.0.node result.0.life result.1 result.0 }
{
    let device = MemoryDevice::new(alloc, Vec::new(alloc)).expect(rt, "memory");
    let made = match create(device, node) {
        Ok(made) => made.into_device(),
        Err(_) => panic!(rt; "a file"),
    };
    match serve(alloc, made, None) {
        Ok((file, table, _life)) => (file, table),
        Err(_) => panic!(rt; "a life"),
    }
}

/// Returns the receipt of an accepted call.
fn receipt_of<J: Naming>(rt: &impl Abort, done: Result<Acknowledgement<J>, LockFault>) -> Receipt {
    match done {
        Ok(done) => done.into_receipt(),
        Err(_) => panic!(rt; "an accepted call"),
    }
}

/// Returns a copy of what a read read.
fn context_of(rt: &impl Abort, receipt: &Receipt) -> Context {
    match &receipt.entry.reply {
        Reply::Looked { context, .. } => context.copy().expect(rt, "memory"),
        _ => panic!(rt; "a read"),
    }
}

/// Lets a node write a letter with this context, and read. Then it is closed.
fn write_and_read<J: Naming, R: Wait + Abort>(
    rt: &R,
    alloc: Global,
    started: Started<MemoryDevice, J, &R>,
    letter: u8,
    context: Option<Context>,
) -> Left {
    let Started {
        node,
        mut writers,
        readers,
    } = started;
    let seat = writers.get_mut(0).expect(rt, "a seat");
    let (own, value) = (key(rt, alloc), value(rt, alloc, letter));
    let wrote = receipt_of(rt, node.put(rt, seat, own, value, context));
    let looked = receipt_of(rt, node.get(rt, seat, key(rt, alloc)));
    let read = context_of(rt, &looked);
    let mut receipts = Vec::new(alloc);
    receipts.push(wrote).ok().expect(rt, "memory");
    receipts.push(looked).ok().expect(rt, "memory");
    let closed = match node.close(writers, readers.as_slice()) {
        Ok((closed, _device)) => closed,
        Err(_) => panic!(rt; "a node that is closed"),
    };
    drop(readers);
    Left {
        closed,
        receipts,
        read,
    }
}

/// Starts a node, which writes and reads.
fn used<J: Naming, R: Wait + Abort>(
    rt: &R,
    alloc: Global,
    tokens: (Blank, Beginning),
    served: (NodeFile<MemoryDevice>, Store),
    letter: u8,
    context: Option<Context>,
) -> Left
    requires ledger { (tokens.0.name ≡ J.name) × (tokens.0.parts ≡ J.parts) }
    requires book { tokens.1 ≡ J.book }
    requires enough { 9 ≤ J.parts }
    requires opening { served.1 ≡ J.opening }
    requires served { IsFileOf (⟦<MemoryDevice as Device>⟧.content)
        J.node J.incarnation J.opening served.0 }
{
    let capacity = Capacity {
        writers: 1,
        readers: 0,
        journal: 16,
    };
    let started: Result<Started<MemoryDevice, J, &R>, NotStarted<MemoryDevice>> = Node::start(
        rt, alloc, tokens, served.0, served.1, capacity,
    );
    match started {
        Ok(started) => write_and_read(rt, alloc, started, letter, context),
        Err(_) => panic!(rt; "a node"),
    }
}

/// Returns what is left of a new node of this number, which wrote a letter with this context.
fn lived<R: Wait + Abort>(
    rt: &R,
    alloc: Global,
    number: u16,
    letter: u8,
    context: Option<Context>,
) -> Left {
    let node = NodeId::new(number).expect(rt, "a node");
    let served = first_life(rt, alloc, node);
    let tokens = (Blank::new(9), Beginning::new());
    used::<Brand, R>(rt, alloc, tokens, served, letter, context)
}

/// Returns the number of the fault with which what two nodes left isn't assembled, 0 if it is.
fn code_of(rt: &impl Abort, alloc: Global, first: Left, second: Left) -> u16 {
    let (mut closed, mut receipts) = (Vec::new(alloc), first.receipts);
    let mut others = second.receipts;
    receipts.append(&mut others).ok().expect(rt, "memory");
    closed.push(first.closed).ok().expect(rt, "memory");
    closed.push(second.closed).ok().expect(rt, "memory");
    if !are_whole(closed.as_slice()) {
        return 1;
    }
    match assemble(alloc, closed.as_slice(), receipts.as_slice()) {
        Ok(_world) => 0,
        Err(fault) => fault.code(),
    }
}

#[test]
fn a_node_writes_with_what_another_one_read(rt: HostRuntime) {
    let alloc = rt.alloc();
    let zero = lived(&rt, alloc, 0, b'x', None);
    let read = zero.read.copy().expect(&rt, "memory");
    let one = lived(&rt, alloc, 1, b'y', Some(read));
    assert!(&rt; code_of(&rt, alloc, zero, one) == 0);
}

#[test]
fn what_no_journal_read_is_60(rt: HostRuntime) {
    let alloc = rt.alloc();
    let zero = lived(&rt, alloc, 0, b'x', None);
    let two = lived(&rt, alloc, 2, b'z', None);
    let read = two.read.copy().expect(&rt, "memory");
    drop(two);
    let one = lived(&rt, alloc, 1, b'y', Some(read));
    assert!(&rt; code_of(&rt, alloc, zero, one) == 60);
}

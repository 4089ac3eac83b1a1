//! A reader looks while a call holds the node's lock, in a device that waits.

ghost use Rattle.std.specs.Prelude.{◌≡◌, ◌≤◌};
ghost use Rattle.node_desk.specs.Starting.{IsFileOf};

use crate::parts::{close, next_life, open_first, put, put_and_learn, shown, started};
use devices::{Device, DeviceFault, MemoryDevice};
use meta_store::Store;
use node_file::NodeFile;
use node_lock::{Beginning, Capacity, Naming, Node, ReadSeat, Started, WriteSeat};
use std::alloc::Global;
use std::marker::Brand;
use std::process::Abort;
use std::sync::ledger::Blank;
use std::sync::{Mutex, Wait};
use std::thread::{self, Threads};

/// How many times a wait looks whether a gate has moved.
const TURNS: u32 = 1_000_000;

/// How far a device that waits and the test are.
#[derive(Clone, Copy, PartialEq, Eq)]
enum Gate {
    /// Syncs don't wait.
    Open,
    /// The next sync waits.
    Closed,
    /// A sync is waiting.
    Reached,
}

/// Waits until the gate is in this state. Returns whether it came to be.
fn waits_for<R: Wait>(rt: &R, gate: &Mutex<Gate>, wanted: Gate) -> bool {
    for _turn in 0..TURNS {
        if *gate.lock(rt) == wanted {
            return true;
        }
        thread::yield_now();
    }
    false
}

/// A device whose sync waits at a gate.
#[derive(Drop)]
struct WaitsAt<'g, D: Device, R: Wait> {
    inner: D,
    gate: &'g Mutex<Gate>,
    rt: &'g R,
}

impl<'g, D: Device, R: Wait> WaitsAt<'g, D, R> {
    fn wait(&self) {
        if *self.gate.lock(self.rt) == Gate::Closed {
            *self.gate.lock(self.rt) = Gate::Reached;
            waits_for(self.rt, self.gate, Gate::Open);
        }
    }
}

impl<'g, D: Device, R: Wait> Device for WaitsAt<'g, D, R> {
    ghost content = { λ d. D.content d.inner };

    ghost may_leave = { λ d c. D.may_leave d.inner c };

    ghost moment = { λ d. D.moment d.inner };

    ghost left_since = { λ d t c. D.left_since d.inner t c };

    ghost failed = { λ d. D.failed d.inner };

    ghost now_counts = { λ d t c le now. D.now_counts d.inner t c le now };

    ghost now_is_all = { λ d c left. D.now_is_all d.inner c left };

    ghost what_is_read_is_left = { λ d. D.what_is_read_is_left d.inner };

    fn failures(&self) -> u64 {
        self.inner.failures()
    }

    fn len(&self) -> usize {
        self.inner.len()
    }

    fn held(&self) -> Option<&[u8]> {
        self.inner.held()
    }

    fn read_at(&mut self, at: usize, buffer: &mut [u8]) -> Result<(), DeviceFault> {
        self.inner.read_at(at, buffer)
    }

    fn write_at(&mut self, at: usize, bytes: &[u8]) -> Result<(), DeviceFault> {
        self.inner.write_at(at, bytes)
    }

    fn cut(&mut self, len: usize) -> Result<(), DeviceFault> {
        self.inner.cut(len)
    }

    fn sync(&mut self) -> Result<(), DeviceFault> {
        self.wait();
        self.inner.sync()
    }

    fn drop_copy(&mut self) {
        self.inner.drop_copy();
    }
}

/// Waits until a call waits inside the device, looks, and lets the call go on. Returns what the
/// reader is shown.
fn look_meanwhile<J: Naming, R: Wait + Abort>(
    rt: &R,
    alloc: Global,
    gate: &Mutex<Gate>,
    reader: &mut ReadSeat<J>,
) -> Result<usize, u16> {
    assert!(rt; waits_for(rt, gate, Gate::Reached));
    let seen = shown(rt, alloc, reader);
    *gate.lock(rt) = Gate::Open;
    seen
}

/// Writes once, lets the reader learn of it, and writes once more while the reader looks. Returns
/// what the reader is shown meanwhile, and at last.
fn looked<J: Naming + Send + Sync, R: Threads + Wait + Abort + Sync>(
    rt: &R,
    alloc: Global,
    gate: &Mutex<Gate>,
    node: &Node<WaitsAt<MemoryDevice, R>, J, &R>,
    writer: &mut WriteSeat<J>,
    reader: &mut ReadSeat<J>,
) -> (Result<usize, u16>, Result<usize, u16>) {
    put_and_learn(rt, alloc, node, writer, b'x', reader);
    *gate.lock(rt) = Gate::Closed;
    let (place, seen) = thread::join(
        rt,
        || put(rt, alloc, node, writer, b'y'),
        || look_meanwhile(rt, alloc, gate, reader),
    );
    assert!(rt; place == Ok(1));
    (seen, shown(rt, alloc, reader))
}

/// Lends the node and a seat of each kind, and closes it.
fn used<J: Naming + Send + Sync, R: Threads + Wait + Abort + Sync>(
    rt: &R,
    alloc: Global,
    gate: &Mutex<Gate>,
    started: Started<WaitsAt<MemoryDevice, R>, J, &R>,
) -> ((Result<usize, u16>, Result<usize, u16>), usize) {
    let Started {
        node,
        mut writers,
        mut readers,
    } = started;
    let mut writer = writers.pop().expect(rt, "a seat");
    let mut reader = readers.pop().expect(rt, "a reader");
    let came = looked(rt, alloc, gate, &node, &mut writer, &mut reader);
    writers.push(writer).ok().expect(rt, "memory");
    readers.push(reader).ok().expect(rt, "memory");
    let left = close(rt, node, writers, readers.as_slice());
    drop(readers);
    let entries = left.0.journal().len();
    drop(left);
    (came, entries)
}

fn begun<'g, J: Naming + Send + Sync, R: Threads + Wait + Abort + Sync>(
    rt: &R,
    alloc: Global,
    gate: &'g Mutex<Gate>,
    tokens: (Blank, Beginning),
    file: NodeFile<WaitsAt<'g, MemoryDevice, R>>,
    table: Store,
) -> ((Result<usize, u16>, Result<usize, u16>), usize)
    requires ledger { (tokens.0.name ≡ J.name) × (tokens.0.parts ≡ J.parts) }
    requires book { tokens.1 ≡ J.book }
    requires enough { 9 ≤ J.parts }
    requires opening { table ≡ J.opening }
    requires served { IsFileOf (⟦<WaitsAt<'g, MemoryDevice, R> as Device>⟧.content)
        J.node J.incarnation J.opening file }
{
    let started: Result<Started<WaitsAt<'g, MemoryDevice, R>, J, &R>, u16> = started(
        rt,
        alloc,
        tokens,
        file,
        table,
        Capacity::new(1, 1),
    );
    used(rt, alloc, gate, started.ok().expect(rt, "a node"))
}

/// Runs the trial on a device that waits. Returns what the reader is shown meanwhile and at last,
/// and how many entries the journal had.
fn tried<R: Threads + Wait + Abort + Sync>(
    rt: &R,
    alloc: Global,
) -> ((Result<usize, u16>, Result<usize, u16>), usize) {
    let gate = Mutex::new(Gate::Open);
    let device = WaitsAt {
        inner: open_first(rt, alloc),
        gate: &gate,
        rt,
    };
    let (file, table) = next_life(rt, alloc, device);
    let tokens = (Blank::new(9), Beginning::new());
    begun::<Brand, R>(rt, alloc, &gate, tokens, file, table)
}

#[test]
fn a_reader_does_not_wait_for_a_call_that_waits_in_its_device(rt: HostRuntime) {
    assert!(&rt; tried(&rt, rt.alloc()) == ((Ok(1), Ok(2)), 2));
}

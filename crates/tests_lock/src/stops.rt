//! A device that fails at each of its calls, one run for each, under a node.

ghost use Rattle.std.specs.Prelude.{◌≡◌, ◌≤◌};
ghost use Rattle.node_desk.specs.Starting.{IsFileOf};

use crate::parts::{close, key, next_life, open_first, put, started};
use devices::{Device, FailsAfter, MemoryDevice};
use meta_store::Store;
use node_file::NodeFile;
use node_lock::{Beginning, Capacity, LockFault, Naming, Started};
use std::alloc::Global;
use std::marker::Brand;
use std::process::Abort;
use std::sync::Wait;
use std::sync::ledger::Blank;

type Failing = FailsAfter<MemoryDevice>;

/// What came of three writes: what each returned, how many entries the journal had, and the device.
struct Came {
    answers: [Result<u64, u16>; 3],
    entries: usize,
    device: MemoryDevice,
}

/// Returns the number of the refusal, 0 for none.
fn code<T: Drop>(answer: Result<T, LockFault>) -> u16 {
    match answer {
        Ok(_) => 0,
        Err(fault) => fault.code(),
    }
}

/// Writes three times, asks the stopped node for a cut and for a seat, and closes it.
fn write<J: Naming, R: Wait + Abort>(
    rt: &R,
    alloc: Global,
    started: Started<Failing, J, &R>,
) -> Came
    requires { 9 ≤ J.parts }
{
    let Started {
        node,
        mut writers,
        readers,
    } = started;
    let mut seat = writers.pop().expect(rt, "a seat");
    let answers = [
        put(rt, alloc, &node, &mut seat, b'x'),
        put(rt, alloc, &node, &mut seat, b'y'),
        put(rt, alloc, &node, &mut seat, b'z'),
    ];
    assert!(rt; code(node.cut(rt, &seat)) == 34 && code(node.new_seat(rt)) == 34);
    writers.push(seat).ok().expect(rt, "memory");
    let (closed, device) = close(rt, node, writers, readers.as_slice());
    drop(readers);
    let entries = closed.journal().len();
    drop(closed);
    Came {
        answers,
        entries,
        device: device.into_inner(),
    }
}

fn begun<J: Naming, R: Wait + Abort>(
    rt: &R,
    alloc: Global,
    tokens: (Blank, Beginning),
    file: NodeFile<Failing>,
    table: Store,
) -> Came
    requires ledger { (tokens.0.name ≡ J.name) × (tokens.0.parts ≡ J.parts) }
    requires book { tokens.1 ≡ J.book }
    requires enough { 9 ≤ J.parts }
    requires opening { table ≡ J.opening }
    requires served { IsFileOf (⟦<Failing as Device>⟧.content) J.node J.incarnation J.opening file }
{
    let started: Result<Started<Failing, J, &R>, u16> = started(
        rt,
        alloc,
        tokens,
        file,
        table,
        Capacity::new(1, 0),
    );
    write(rt, alloc, started.ok().expect(rt, "a node"))
}

/// Returns what comes of three writes on a device that passes `passed` of their calls.
fn after<R: Wait + Abort>(rt: &R, alloc: Global, passed: u64) -> Came {
    let device = FailsAfter::new(open_first(rt, alloc), passed.saturating_add(4));
    let (file, table) = next_life(rt, alloc, device);
    let tokens = (Blank::new(9), Beginning::new());
    begun::<Brand, R>(rt, alloc, tokens, file, table)
}

/// Returns how many writes stand under the key in what the device reads as.
fn written(rt: &impl Abort, alloc: Global, device: MemoryDevice) -> u64 {
    let mut device = device;
    device.sync().ok().expect(rt, "a sync");
    let (file, table) = next_life(rt, alloc, device);
    drop(file);
    let key = key(rt, alloc, b'1');
    match table.object(&key) {
        Some(object) => object
            .entries()
            .first()
            .map(|entry| entry.count())
            .unwrap_or(0),
        None => 0,
    }
}

/// Returns what the write at `place` returns if `accepted` writes are accepted before the device
/// fails.
fn wanted(place: u64, accepted: u64) -> Result<u64, u16> {
    if place < accepted {
        return Ok(place);
    }
    Err(if place == accepted { 30 } else { 34 })
}

/// Each write makes four calls: those before the failure are accepted, the next is refused with 30,
/// and then the node is stopped; the file has what was acknowledged, and perhaps what failed.
#[test]
fn a_device_that_fails_stops_the_node(rt: HostRuntime) {
    for passed in 0..12 {
        let Came {
            answers,
            entries,
            device,
        } = after(&rt, rt.alloc(), passed);
        let accepted = passed / 4;
        let [first, second, third] = answers;
        assert!(&rt; first == wanted(0, accepted));
        assert!(&rt; second == wanted(1, accepted));
        assert!(&rt; third == wanted(2, accepted));
        assert!(&rt; entries as u64 == accepted);
        let written = written(&rt, rt.alloc(), device);
        assert!(&rt; written == accepted || written == accepted.saturating_add(1));
    }
}

//! Threads that share a node. What is asserted doesn't depend on which of them comes first.

ghost use Rattle.std.specs.Prelude.{◌≡◌, ◌≤◌};
ghost use Rattle.node_desk.specs.Starting.{IsFileOf};

use crate::parts::{close, key, next_life, open_first, put_and_learn, shown, started, value};
use devices::{Device, MemoryDevice};
use meta_store::Store;
use node_file::NodeFile;
use node_lock::{Beginning, Capacity, Naming, Node, ReadSeat, Started, WriteSeat};
use std::alloc::Global;
use std::marker::Brand;
use std::process::Abort;
use std::sync::Wait;
use std::sync::ledger::Blank;
use std::thread::{self, Threads};

/// How many writes each of two threads makes.
const EACH: usize = 100;

/// How a thread writes.
#[derive(Clone, Copy)]
enum Writing {
    /// Beside what the node holds.
    Beside,
    /// Over what the node holds.
    Over,
}

/// Writes once, and returns the place.
fn write_once<J: Naming, R: Wait + Abort>(
    rt: &R,
    alloc: Global,
    node: &Node<MemoryDevice, J, &R>,
    seat: &mut WriteSeat<J>,
    how: Writing,
) -> u64 {
    let (key, value) = (key(rt, alloc, b'1'), value(rt, alloc, b'x'));
    let done = match how {
        Writing::Beside => node.put(rt, seat, key, value, None),
        Writing::Over => node.put_over(rt, seat, key, value),
    };
    done.ok()
        .expect(rt, "an accepted call")
        .into_receipt()
        .place
}

/// Writes `EACH` times, and returns the places.
fn write<J: Naming, R: Wait + Abort>(
    rt: &R,
    alloc: Global,
    node: &Node<MemoryDevice, J, &R>,
    seat: WriteSeat<J>,
    how: Writing,
) -> (WriteSeat<J>, Vec<u64>) {
    let mut seat = seat;
    let mut places = Vec::new(alloc);
    for _write in 0..EACH {
        let place = write_once(rt, alloc, node, &mut seat, how);
        places.push(place).ok().expect(rt, "memory");
    }
    (seat, places)
}

/// Looks `EACH` times, and is never shown fewer values than before.
fn look<J: Naming, R: Wait + Abort>(rt: &R, alloc: Global, reader: ReadSeat<J>) -> ReadSeat<J> {
    let mut reader = reader;
    let mut last = 0;
    for _look in 0..EACH {
        let seen = shown(rt, alloc, &mut reader).ok().expect(rt, "a look");
        assert!(rt; seen >= last);
        last = seen;
    }
    reader
}

/// Lets two threads write. Returns the places of all receipts.
fn write_both<J: Naming + Send + Sync, R: Threads + Wait + Abort + Sync>(
    rt: &R,
    alloc: Global,
    node: &Node<MemoryDevice, J, &R>,
    writers: &mut Vec<WriteSeat<J>>,
    how: Writing,
) -> Vec<u64> {
    let first = writers.pop().expect(rt, "a seat");
    let second = writers.pop().expect(rt, "a seat");
    let ((first, mut places), (second, mut others)) = thread::join(
        rt,
        move || write(rt, alloc, node, first, how),
        move || write(rt, alloc, node, second, how),
    );
    writers.push(first).ok().expect(rt, "memory");
    writers.push(second).ok().expect(rt, "memory");
    places.append(&mut others).ok().expect(rt, "memory");
    places
}

/// Lets one thread write while another looks. Returns how many values the reader is shown at last,
/// once it learnt of one more write.
fn write_and_look<J: Naming + Send + Sync, R: Threads + Wait + Abort + Sync>(
    rt: &R,
    alloc: Global,
    node: &Node<MemoryDevice, J, &R>,
    writers: &mut Vec<WriteSeat<J>>,
    readers: &mut Vec<ReadSeat<J>>,
    how: Writing,
) -> Result<usize, u16> {
    let writer = writers.pop().expect(rt, "a seat");
    let reader = readers.pop().expect(rt, "a reader");
    let ((mut writer, places), mut reader) = thread::join(
        rt,
        move || write(rt, alloc, node, writer, how),
        move || look(rt, alloc, reader),
    );
    drop(places);
    put_and_learn(rt, alloc, node, &mut writer, b'x', &mut reader);
    let seen = shown(rt, alloc, &mut reader);
    writers.push(writer).ok().expect(rt, "memory");
    readers.push(reader).ok().expect(rt, "memory");
    seen
}

/// What came of both: the places of the receipts of two threads that wrote side by side, what a
/// reader beside a writer was shown at last, and how many entries there are.
#[derive(Drop)]
struct Came {
    places: Vec<u64>,
    seen: Result<usize, u16>,
    entries: usize,
}

fn used<J: Naming + Send + Sync, R: Threads + Wait + Abort + Sync>(
    rt: &R,
    alloc: Global,
    started: Started<MemoryDevice, J, &R>,
    how: Writing,
) -> Came {
    let Started {
        node,
        mut writers,
        mut readers,
    } = started;
    let places = write_both(rt, alloc, &node, &mut writers, how);
    let seen = write_and_look(rt, alloc, &node, &mut writers, &mut readers, how);
    let left = close(rt, node, writers, readers.as_slice());
    drop(readers);
    let entries = left.0.journal().len();
    drop(left);
    Came {
        places,
        seen,
        entries,
    }
}

/// Returns the node that the file begins, with seats for two writers and a reader.
fn begun<J: Naming + Send + Sync, R: Threads + Wait + Abort + Sync>(
    rt: &R,
    alloc: Global,
    tokens: (Blank, Beginning),
    file: NodeFile<MemoryDevice>,
    table: Store,
    how: Writing,
) -> Came
    requires ledger { (tokens.0.name ≡ J.name) × (tokens.0.parts ≡ J.parts) }
    requires book { tokens.1 ≡ J.book }
    requires enough { 9 ≤ J.parts }
    requires opening { table ≡ J.opening }
    requires served { IsFileOf (⟦<MemoryDevice as Device>⟧.content)
        J.node J.incarnation J.opening file }
{
    let started: Result<Started<MemoryDevice, J, &R>, u16> = started(
        rt,
        alloc,
        tokens,
        file,
        table,
        Capacity::new(2, 1),
    );
    used(rt, alloc, started.ok().expect(rt, "a node"), how)
}

/// Returns whether these are the places from 0 on, each once.
fn are_all_places(places: &[u64]) -> bool {
    let mut is_there = [false; 2 * EACH];
    for place in places {
        match is_there.get_mut(*place as usize) {
            Some(there) if !*there => *there = true,
            _ => return false,
        }
    }
    places.len() == 2 * EACH
}

/// Returns whether there is an entry and a place of each write, and the reader is shown this many
/// values.
fn is_as_wanted(came: &Came, seen: usize) -> bool {
    are_all_places(&came.places) && came.seen == Ok(seen) && came.entries == 301
}

/// Returns what came of it on a new node.
fn shared<R: Threads + Wait + Abort + Sync>(rt: &R, alloc: Global, how: Writing) -> Came {
    let (file, table) = next_life(rt, alloc, open_first(rt, alloc));
    let tokens = (Blank::new(9), Beginning::new());
    begun::<Brand, R>(rt, alloc, tokens, file, table, how)
}

#[test]
fn threads_share_a_node(rt: HostRuntime) {
    let came = shared(&rt, rt.alloc(), Writing::Beside);
    assert!(&rt; is_as_wanted(&came, 3 * EACH + 1));
}

/// One value is left of all that threads write over each other. The last write stands beside it.
#[test]
fn threads_write_over_each_other(rt: HostRuntime) {
    let came = shared(&rt, rt.alloc(), Writing::Over);
    assert!(&rt; is_as_wanted(&came, 2));
}

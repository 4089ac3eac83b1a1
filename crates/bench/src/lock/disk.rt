//! Writes and batches on a file, each acknowledged once it is durable.

ghost use Rattle.std.specs.Prelude.{◌≡◌, ◌≤◌};
ghost use Rattle.node_desk.specs.Starting.{IsFileOf};

use crate::begun::begin_at;
use crate::file::bare::bare_writes;
use crate::lock::writing::{put_all, put_over};
use crate::lock::{KEYS, callers, seats};
use crate::rows::{Dice, Rows};
use crate::samples::{median, print, rate, refused};
use crate::started::{close, start};
use devices::{Device, FileDevice};
use meta_store::Store;
use node_file::NodeFile;
use node_lock::{Beginning, Naming, Node, Started, WriteSeat};
use std::alloc::Global;
use std::fs::{self, OpenOptions};
use std::io;
use std::marker::Brand;
use std::rt::Clock;
use std::sync::Wait;
use std::sync::ledger::Blank;
use std::thread::Threads;
use std::time::Instant;

/// How many calls there are; the median time counts.
const CALLS: usize = 40;

/// How many writes the batches have.
const BATCHES: [u64; 3] = [1, 16, 256];

/// What one thread calls.
#[derive(Clone, Copy)]
pub(crate) enum Call {
    /// `Node::put_over`.
    PutOver,
    /// `Node::write_all` of this many writes.
    WriteAll(u64),
}

/// What is measured on a file.
#[derive(Clone, Copy)]
pub(crate) enum Work {
    /// One thread makes calls.
    Alone(Call),
    /// Threads write side by side.
    Callers,
}

/// Measures batches of each size, each on a new file in the folder.
pub(crate) fn measure_batches<R: Threads + Wait + Clock + Print + Sync>(
    rt: &HostRuntime,
    handle: &R,
    folder: &str,
) -> io::Result<()> {
    for count in BATCHES {
        measure(rt, handle, folder, Work::Alone(Call::WriteAll(count)))?;
    }
    Ok(())
}

/// Measures the work on a new file in the folder, which is then removed. `handle` is the same
/// runtime, as what may start threads and wait.
pub(crate) fn measure<R: Threads + Wait + Clock + Print + Sync>(
    rt: &HostRuntime,
    handle: &R,
    folder: &str,
    work: Work,
) -> io::Result<()> {
    let path = format!(in rt.alloc(); "{folder}/bench-lock.tmp")?;
    let done = measure_file(rt, handle, path.as_str(), work);
    drop(path);
    done
}

fn measure_file<R: Threads + Wait + Clock + Print + Sync>(
    rt: &HostRuntime,
    handle: &R,
    path: &str,
    work: Work,
) -> io::Result<()> {
    let before = measure_at(rt, handle, path, work)?;
    let len = len_of(rt, path)?;
    let growth = len.saturating_sub(before) / CALLS;
    match work {
        Work::Alone(Call::PutOver) => println!(rt; "put_over_growth {growth} bytes")?,
        Work::Alone(Call::WriteAll(count)) => measure_bare(rt, path, count, len, growth)?,
        Work::Callers => {}
    }
    fs::remove_file(rt, path)
}

/// Prints how often in a second the writes and syncs of a batch of `count` writes are made bare:
/// of `size` bytes, behind the `len` bytes of the file at the path.
fn measure_bare(
    rt: &HostRuntime,
    path: &str,
    count: u64,
    len: usize,
    size: usize,
) -> io::Result<()> {
    let mut options = OpenOptions::new();
    let file = options.write(true).open(rt, path)?;
    let mut samples = Vec::new(rt.alloc());
    let done = bare_writes(rt, &file, len as u64, size, CALLS, &mut samples);
    drop(file);
    done?;
    let pace = rate(1, median(samples.as_mut_slice()));
    println!(rt; "bare_pairs_{count} {pace} pairs/s")
}

/// Returns how many bytes the file at the path has.
fn len_of(rt: &HostRuntime, path: &str) -> io::Result<usize> {
    let device = FileDevice::open_to_read(rt, rt.alloc(), path).map_err(refused)?;
    let len = device.len();
    drop(device);
    Ok(len)
}

/// Measures the work on a new file. Returns how many bytes it had before.
fn measure_at<R: Threads + Wait + Clock + Print + Sync>(
    rt: &HostRuntime,
    handle: &R,
    path: &str,
    work: Work,
) -> io::Result<usize> {
    let (file, table) = begin_at(rt, path)?;
    let before = file.device().len();
    let tokens = (Blank::new(9), Beginning::new());
    use_node::<Brand, R>(handle, rt.alloc(), tokens, file, table, work)?;
    Ok(before)
}

/// Starts the node, lends it, and closes it.
fn use_node<J: Naming + Send + Sync, R: Threads + Wait + Clock + Print + Sync>(
    rt: &R,
    alloc: Global,
    tokens: (Blank, Beginning),
    file: NodeFile<FileDevice>,
    table: Store,
    work: Work,
) -> io::Result<()>
    requires ledger { (tokens.0.name ≡ J.name) × (tokens.0.parts ≡ J.parts) }
    requires book { tokens.1 ≡ J.book }
    requires enough { 9 ≤ J.parts }
    requires opening { table ≡ J.opening }
    requires served { IsFileOf (⟦<FileDevice as Device>⟧.content)
        J.node J.incarnation J.opening file }
{
    let Started {
        node,
        mut writers,
        readers,
    } = start(rt, alloc, tokens, file, table, seats())?;
    let done = match work {
        Work::Alone(call) => run(rt, alloc, &node, &mut writers, call),
        Work::Callers => callers::run(rt, alloc, &node, &mut writers),
    };
    drop(close::<FileDevice, J, R>(node, writers, readers)?);
    done
}

/// Prints how many writes are acknowledged in a second.
fn run<J: Naming, R: Wait + Clock + Print>(
    rt: &R,
    alloc: Global,
    node: &Node<FileDevice, J, &R>,
    writers: &mut Vec<WriteSeat<J>>,
    call: Call,
) -> io::Result<()> {
    let Some(mut seat) = writers.pop() else {
        return Err(refused(()));
    };
    let done = measure_calls(rt, alloc, node, &mut seat, call);
    writers.push(seat).map_err(refused).and(done)
}

fn measure_calls<J: Naming, R: Wait + Clock + Print>(
    rt: &R,
    alloc: Global,
    node: &Node<FileDevice, J, &R>,
    seat: &mut WriteSeat<J>,
    call: Call,
) -> io::Result<()> {
    let rows = Rows::new(alloc, KEYS)?;
    let done = measure_rows(rt, alloc, &rows, node, seat, call);
    drop(rows);
    done
}

fn measure_rows<J: Naming, R: Wait + Clock + Print>(
    rt: &R,
    alloc: Global,
    rows: &Rows,
    node: &Node<FileDevice, J, &R>,
    seat: &mut WriteSeat<J>,
    call: Call,
) -> io::Result<()> {
    let mut samples = [0u128; CALLS];
    let mut dice = Dice::new(10);
    for sample in samples.iter_mut() {
        *sample = time_of_call(rt, alloc, rows, node, seat, &mut dice, call)?;
    }
    let nanos = median(&mut samples);
    match call {
        Call::PutOver => print(rt, "put_over_fdatasync", rate(1, nanos), "ops/s"),
        Call::WriteAll(count) => println!(rt; "write_all_{count} {} ops/s", rate(count, nanos)),
    }
}

fn time_of_call<J: Naming, R: Wait + Clock>(
    rt: &R,
    alloc: Global,
    rows: &Rows,
    node: &Node<FileDevice, J, &R>,
    seat: &mut WriteSeat<J>,
    dice: &mut Dice,
    call: Call,
) -> io::Result<u128> {
    let start = Instant::now(rt)?;
    match call {
        Call::PutOver => put_over(rt, rows, node, seat, rows.any_key(dice)?)?,
        Call::WriteAll(count) => put_all(rt, alloc, rows, node, seat, dice, count)?,
    }
    Ok(start.elapsed(rt)?.as_nanos())
}

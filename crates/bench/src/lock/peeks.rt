//! Readers that look while a writer writes, each in a thread of its own.

use crate::lock::KEYS;
use crate::lock::writing::{fill, put_over};
use crate::rows::{Dice, Rows};
use crate::samples::{median, rate, refused};
use devices::{Device, MemoryDevice};
use meta_types::both;
use node_lock::{Naming, Node, ReadSeat, WriteSeat};
use std::alloc::{AllocError, Global};
use std::io;
use std::rt::Clock;
use std::sync::Wait;
use std::sync::atomic::{AtomicBool, AtomicU64, Ordering};
use std::thread::{self, Threads};
use std::time::{Duration, Instant};

/// For how many milliseconds a writer writes in a sample.
const SPAN: u64 = 300;

/// For how many milliseconds a paced writer rests after each write, like a writer that waits for a
/// disk.
const PAUSE: u64 = 1;

/// How many samples there are; the median counts.
const SAMPLES: usize = 3;

/// How often a reader looks before it asks whether the writer is done.
const LOOKS: u32 = 32;

/// How many readers look, and whether the writer is paced.
const SETTINGS: [(usize, bool); 4] = [(1, true), (4, true), (1, false), (4, false)];

#[derive(Clone, Copy)]
struct Setting {
    readers: usize,
    is_paced: bool,
}

/// What the threads share besides the node.
#[derive(Drop)]
struct Shared {
    alloc: Global,
    rows: Rows,
    /// Whether the writer is done.
    is_over: AtomicBool,
    /// How many readers have begun.
    begun: AtomicU64,
}

/// A seat that comes back from its thread, and how many times the call was made; `None` if a call
/// was refused.
pub(crate) type Done<S> = (S, Option<u64>);

/// Prints how often readers look and a writer writes, in each setting.
pub(crate) fn run<J: Naming + Send + Sync, R: Threads + Wait + Clock + Print + Sync>(
    rt: &R,
    alloc: Global,
    node: &Node<MemoryDevice, J, &R>,
    writers: &mut Vec<WriteSeat<J>>,
    readers: &mut Vec<ReadSeat<J>>,
) -> io::Result<()> {
    let shared = Shared {
        alloc,
        rows: Rows::new(alloc, KEYS)?,
        is_over: AtomicBool::new(false),
        begun: AtomicU64::new(0),
    };
    let done = measure_all(rt, node, &shared, writers, readers);
    drop(shared);
    done
}

fn measure_all<J: Naming + Send + Sync, R: Threads + Wait + Clock + Print + Sync>(
    rt: &R,
    node: &Node<MemoryDevice, J, &R>,
    shared: &Shared,
    writers: &mut Vec<WriteSeat<J>>,
    readers: &mut Vec<ReadSeat<J>>,
) -> io::Result<()> {
    fill_by(rt, &shared.rows, node, writers)?;
    for (count, is_paced) in SETTINGS {
        let setting = Setting {
            readers: count,
            is_paced,
        };
        measure(rt, node, shared, writers, readers, setting)?;
    }
    Ok(())
}

/// Writes the value under each of the keys, by one of the seats.
pub(crate) fn fill_by<J: Naming, R: Wait>(
    rt: &R,
    rows: &Rows,
    node: &Node<MemoryDevice, J, &R>,
    writers: &mut Vec<WriteSeat<J>>,
) -> io::Result<()> {
    let Some(mut seat) = writers.pop() else {
        return Err(refused(()));
    };
    let done = fill(rt, rows, node, &mut seat);
    writers.push(seat).map_err(refused).and(done)
}

fn measure<J: Naming + Send + Sync, R: Threads + Wait + Clock + Print + Sync>(
    rt: &R,
    node: &Node<MemoryDevice, J, &R>,
    shared: &Shared,
    writers: &mut Vec<WriteSeat<J>>,
    readers: &mut Vec<ReadSeat<J>>,
    setting: Setting,
) -> io::Result<()> {
    let (mut reads, mut writes) = ([0u128; SAMPLES], [0u128; SAMPLES]);
    for (read, written) in reads.iter_mut().zip(writes.iter_mut()) {
        let (looks, puts) = sample(rt, node, shared, writers, readers, setting)?;
        *read = looks;
        *written = puts;
    }
    print(rt, setting, "reads", median(&mut reads))?;
    print(rt, setting, "writes", median(&mut writes))
}

/// Prints a rate: how often in a second `what` was done.
fn print<R: Print>(rt: &R, setting: Setting, what: &str, rate: u128) -> io::Result<()> {
    let Setting { readers, is_paced } = setting;
    let pace = if is_paced { "paced" } else { "busy" };
    println!(rt; "peek_{readers}_readers_{pace}_{what} {rate} {what}/s")
}

/// Returns how many reads, and how many writes, were made in a second.
fn sample<J: Naming + Send + Sync, R: Threads + Wait + Clock + Sync>(
    rt: &R,
    node: &Node<MemoryDevice, J, &R>,
    shared: &Shared,
    writers: &mut Vec<WriteSeat<J>>,
    readers: &mut Vec<ReadSeat<J>>,
    setting: Setting,
) -> io::Result<(u128, u128)> {
    let Some(seat) = writers.pop() else {
        return Err(refused(()));
    };
    let (seat, seats) = both(Ok(seat), taken(shared.alloc, readers, setting.readers))?;
    let start = Instant::now(rt).ok();
    let (written, looked) = side_by_side(rt, node, shared, setting.is_paced, seat, seats);
    let time = start.and_then(|start| start.elapsed(rt).ok());
    match (back(writers, written), all_back(readers, looked), time) {
        (Some(writes), Some(reads), Some(time)) => {
            let nanos = time.as_nanos();
            Ok((rate(reads, nanos), rate(writes, nanos)))
        }
        _ => Err(refused(())),
    }
}

/// Takes `count` of the seats, or all if there are fewer.
pub(crate) fn taken<S: Drop>(
    alloc: Global,
    seats: &mut Vec<S>,
    count: usize,
) -> Result<Vec<S>, AllocError> {
    let mut taken = Vec::new(alloc);
    for _seat in 0..count {
        if let Some(seat) = seats.pop() {
            taken.push(seat)?;
        }
    }
    Ok(taken)
}

/// Puts the seat back. Returns how many times the call was made.
fn back<S: Drop>(seats: &mut Vec<S>, done: Done<S>) -> Option<u64> {
    let (seat, count) = done;
    match seats.push(seat) {
        Ok(()) => count,
        Err(_) => None,
    }
}

/// Puts all seats back. Returns how many times the call was made in sum.
pub(crate) fn all_back<S: Drop>(
    seats: &mut Vec<S>,
    done: Result<Vec<Done<S>>, AllocError>,
) -> Option<u64> {
    let mut sum = Some(0u64);
    for one in done.ok()? {
        sum = match (sum, back(seats, one)) {
            (Some(sum), Some(count)) => Some(sum.saturating_add(count)),
            _ => None,
        };
    }
    sum
}

/// Lets each seat work in a thread of its own.
fn side_by_side<J: Naming + Send + Sync, R: Threads + Wait + Clock + Sync>(
    rt: &R,
    node: &Node<MemoryDevice, J, &R>,
    shared: &Shared,
    is_paced: bool,
    seat: WriteSeat<J>,
    seats: Vec<ReadSeat<J>>,
) -> (
    Done<WriteSeat<J>>,
    Result<Vec<Done<ReadSeat<J>>>, AllocError>,
) {
    shared.is_over.store(false, Ordering::SeqCst);
    thread::join(
        rt,
        move || write_beside(rt, node, shared, is_paced, seat),
        move || thread::map_vec(rt, seats, &|seat: ReadSeat<J>| look(rt, shared, seat)),
    )
}

/// Writes until the time is over, and says so.
fn write_beside<J: Naming, R: Wait + Clock>(
    rt: &R,
    node: &Node<MemoryDevice, J, &R>,
    shared: &Shared,
    is_paced: bool,
    seat: WriteSeat<J>,
) -> Done<WriteSeat<J>> {
    let done = write(rt, node, &shared.rows, is_paced, seat);
    shared.is_over.store(true, Ordering::SeqCst);
    done
}

/// Writes until the time is over.
pub(crate) fn write<D: Device + Drop, J: Naming, R: Wait + Clock>(
    rt: &R,
    node: &Node<D, J, &R>,
    rows: &Rows,
    is_paced: bool,
    seat: WriteSeat<J>,
) -> Done<WriteSeat<J>> {
    let mut seat = seat;
    let count = write_on(rt, node, rows, is_paced, &mut seat);
    (seat, count.ok())
}

fn write_on<D: Device + Drop, J: Naming, R: Wait + Clock>(
    rt: &R,
    node: &Node<D, J, &R>,
    rows: &Rows,
    is_paced: bool,
    seat: &mut WriteSeat<J>,
) -> io::Result<u64> {
    let mut dice = Dice::new(10);
    let mut count = 0u64;
    let start = Instant::now(rt)?;
    for _ in rt.forever() {
        put_over(rt, rows, node, seat, rows.any_key(&mut dice)?)?;
        count = count.saturating_add(1);
        if start.elapsed(rt)? >= Duration::from_millis(SPAN) {
            break;
        }
        if is_paced {
            thread::sleep(rt, Duration::from_millis(PAUSE));
        }
    }
    Ok(count)
}

/// Looks until the writer is done.
fn look<J: Naming, R: Wait>(rt: &R, shared: &Shared, seat: ReadSeat<J>) -> Done<ReadSeat<J>> {
    let mut seat = seat;
    let count = look_on(rt, shared, &mut seat);
    (seat, count.ok())
}

fn look_on<J: Naming, R: Wait>(rt: &R, shared: &Shared, seat: &mut ReadSeat<J>) -> io::Result<u64> {
    let mut dice = Dice::new(shared.begun.fetch_add(1, Ordering::SeqCst));
    let mut count = 0u64;
    for _ in rt.forever() {
        look_often(&shared.rows, &mut dice, seat)?;
        count = count.saturating_add(u64::from(LOOKS));
        if shared.is_over.load(Ordering::SeqCst) {
            break;
        }
    }
    Ok(count)
}

fn look_often<J: Naming>(rows: &Rows, dice: &mut Dice, seat: &mut ReadSeat<J>) -> io::Result<()> {
    for _look in 0..LOOKS {
        let shown = seat.peek(rows.any_key(dice)?).map_err(refused)?;
        drop(shown);
    }
    Ok(())
}

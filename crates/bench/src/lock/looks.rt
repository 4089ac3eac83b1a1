//! Looks of one reader at large values, by turns: looks that copy, and looks that lend.

use crate::lock::KEYS;
use crate::lock::peeks::fill_by;
use crate::rows::{Dice, Rows};
use crate::samples::{median, print, rate, refused};
use devices::MemoryDevice;
use dvvset::Entries;
use meta_types::{MetaKey, Value};
use node_lock::{Naming, Node, ReadSeat, WriteSeat};
use std::alloc::Global;
use std::io;
use std::rt::Clock;
use std::sync::Wait;
use std::time::Instant;

/// How many bytes a value has.
const BODY: usize = 1_000;

/// How many looks a sample has.
const LOOKS: u32 = 10_000;

/// How many samples there are of each kind; the median counts.
const SAMPLES: usize = 11;

/// How a value is looked at.
#[derive(Clone, Copy)]
enum Look {
    /// By `ReadSeat::peek`.
    Copied,
    /// By `ReadSeat::peek_with`.
    Lent,
}

/// Prints how many looks are made in a second.
pub(crate) fn run<J: Naming, R: Wait + Clock + Print>(
    rt: &R,
    alloc: Global,
    node: &Node<MemoryDevice, J, &R>,
    writers: &mut Vec<WriteSeat<J>>,
    readers: &mut Vec<ReadSeat<J>>,
) -> io::Result<()> {
    let rows = Rows::with_body(alloc, KEYS, BODY)?;
    let done = fill_by(rt, &rows, node, writers).and(measure(rt, &rows, readers));
    drop(rows);
    done
}

fn measure<J: Naming, R: Clock + Print>(
    rt: &R,
    rows: &Rows,
    readers: &mut Vec<ReadSeat<J>>,
) -> io::Result<()> {
    let Some(mut seat) = readers.pop() else {
        return Err(refused(()));
    };
    let done = measure_seat(rt, rows, &mut seat);
    readers.push(seat).map_err(refused).and(done)
}

fn measure_seat<J: Naming, R: Clock + Print>(
    rt: &R,
    rows: &Rows,
    seat: &mut ReadSeat<J>,
) -> io::Result<()> {
    let (mut copied, mut lent) = ([0u128; SAMPLES], [0u128; SAMPLES]);
    for (copies, lends) in copied.iter_mut().zip(lent.iter_mut()) {
        *copies = time_of_looks(rt, rows, seat, Look::Copied)?;
        *lends = time_of_looks(rt, rows, seat, Look::Lent)?;
    }
    let looks = u64::from(LOOKS);
    print(rt, "peek_1000", rate(looks, median(&mut copied)), "reads/s")?;
    print(
        rt,
        "peek_with_1000",
        rate(looks, median(&mut lent)),
        "reads/s",
    )
}

/// Returns the nanoseconds of a sample. Fails if a look doesn't find a whole value.
fn time_of_looks<J: Naming, R: Clock>(
    rt: &R,
    rows: &Rows,
    seat: &mut ReadSeat<J>,
    look: Look,
) -> io::Result<u128> {
    let mut dice = Dice::new(10);
    let start = Instant::now(rt)?;
    for _look in 0..LOOKS {
        if len_at(seat, rows.any_key(&mut dice)?, look)? != BODY {
            return Err(refused(()));
        }
    }
    Ok(start.elapsed(rt)?.as_nanos())
}

/// Returns how many bytes the value under the key has.
fn len_at<J: Naming>(seat: &mut ReadSeat<J>, key: &MetaKey, look: Look) -> io::Result<usize> {
    match look {
        Look::Copied => {
            let shown = seat.peek(key).map_err(refused)?;
            let len = len_of_first(shown.values.as_slice());
            drop(shown);
            Ok(len)
        }
        Look::Lent => seat
            .peek_with(key, |object| len_in(object))
            .map_err(refused),
    }
}

fn len_in(object: &Entries) -> usize {
    match object.entries() {
        [entry, ..] => len_of_first(entry.values()),
        _ => 0,
    }
}

fn len_of_first(values: &[Value]) -> usize {
    match values {
        [value, ..] => value.body().unwrap_or(b"").len(),
        _ => 0,
    }
}

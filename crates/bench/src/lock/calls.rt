//! A call that writes, on a node in memory, and the bare step in it, by turns.

use crate::lock::KEYS;
use crate::lock::writing::{fill, put_over};
use crate::rows::{Dice, Rows, node as number};
use crate::samples::{median, print, refused};
use crate::subject::Subject;
use devices::MemoryDevice;
use node_lock::{Naming, Node, WriteSeat};
use std::alloc::Global;
use std::io;
use std::rt::Clock;
use std::sync::Wait;
use std::time::Instant;

/// How many calls a sample has.
const CALLS: u32 = 2_000;

/// How many samples there are of calls, and of steps; the median counts.
const SAMPLES: usize = 11;

/// Prints how many nanoseconds a call takes, and a step.
pub(crate) fn run<J: Naming, R: Wait + Clock + Print>(
    rt: &R,
    alloc: Global,
    node: &Node<MemoryDevice, J, &R>,
    seat: &mut WriteSeat<J>,
) -> io::Result<()> {
    let rows = Rows::new(alloc, KEYS)?;
    let done = measure_rows(rt, alloc, &rows, node, seat);
    drop(rows);
    done
}

/// Fills the node, makes a bare one that holds nothing, and measures both.
fn measure_rows<J: Naming, R: Wait + Clock + Print>(
    rt: &R,
    alloc: Global,
    rows: &Rows,
    node: &Node<MemoryDevice, J, &R>,
    seat: &mut WriteSeat<J>,
) -> io::Result<()> {
    fill(rt, rows, node, seat)?;
    let mut bare = Subject::new(alloc, number(0)?)?;
    let done = measure_both(rt, rows, node, seat, &mut bare);
    drop(bare);
    done
}

/// Prints what a call takes and what a step takes, of samples made by turns. Both write under the
/// same keys.
fn measure_both<J: Naming, R: Wait + Clock + Print>(
    rt: &R,
    rows: &Rows,
    node: &Node<MemoryDevice, J, &R>,
    seat: &mut WriteSeat<J>,
    bare: &mut Subject,
) -> io::Result<()> {
    bare.fill(rows)?;
    let (mut calls, mut steps) = ([0u128; SAMPLES], [0u128; SAMPLES]);
    let slots = calls.iter_mut().zip(steps.iter_mut());
    for (seed, (call, step)) in slots.enumerate() {
        *call = time_of_calls(rt, rows, node, seat, seed as u64)?;
        *step = time_of_steps(rt, rows, bare, seed as u64)?;
    }
    print(rt, "put_over_memory", of_one(&mut calls), "ns")?;
    print(rt, "step_put_over", of_one(&mut steps), "ns")
}

/// Returns the nanoseconds of one of the `CALLS` calls or steps of the median sample.
fn of_one(samples: &mut [u128]) -> u128 {
    median(samples) / u128::from(CALLS)
}

fn time_of_calls<J: Naming, R: Wait + Clock>(
    rt: &R,
    rows: &Rows,
    node: &Node<MemoryDevice, J, &R>,
    seat: &mut WriteSeat<J>,
    seed: u64,
) -> io::Result<u128> {
    let mut dice = Dice::new(seed);
    let start = Instant::now(rt)?;
    for _call in 0..CALLS {
        put_over(rt, rows, node, seat, rows.any_key(&mut dice)?)?;
    }
    Ok(start.elapsed(rt)?.as_nanos())
}

fn time_of_steps<R: Clock>(rt: &R, rows: &Rows, bare: &mut Subject, seed: u64) -> io::Result<u128> {
    let mut dice = Dice::new(seed);
    let start = Instant::now(rt)?;
    for _call in 0..CALLS {
        drop(bare.put_over(rows, rows.any_key(&mut dice)?)?);
    }
    Ok(start.elapsed(rt)?.as_nanos())
}

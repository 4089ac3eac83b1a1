//! A fresh GOSSIP that a node in memory takes, and the bare step in it, by turns.

use crate::lock::KEYS;
use crate::rows::{Dice, Rows, node as number};
use crate::samples::{median, print, refused};
use crate::subject::Subject;
use devices::MemoryDevice;
use meta_types::{ByteString, both};
use node_lock::{Naming, Node, WriteSeat};
use std::alloc::Global;
use std::io;
use std::rt::Clock;
use std::sync::Wait;
use std::time::Instant;

/// How many frames a sample has.
const FRAMES: u32 = 2_000;

/// How many samples there are of calls, and of steps; the median counts.
const SAMPLES: usize = 11;

/// Prints how many nanoseconds a call takes, and a step.
pub(crate) fn run<J: Naming, R: Wait + Clock + Print>(
    rt: &R,
    alloc: Global,
    node: &Node<MemoryDevice, J, &R>,
    seat: &mut WriteSeat<J>,
) -> io::Result<()> {
    let rows = Rows::new(alloc, KEYS)?;
    let done = measure_rows(rt, alloc, &rows, node, seat);
    drop(rows);
    done
}

/// Makes a neighbour that writes, and measures.
fn measure_rows<J: Naming, R: Wait + Clock + Print>(
    rt: &R,
    alloc: Global,
    rows: &Rows,
    node: &Node<MemoryDevice, J, &R>,
    seat: &mut WriteSeat<J>,
) -> io::Result<()> {
    let mut writer = Subject::new(alloc, number(1)?)?;
    let done = measure_writer(rt, alloc, rows, node, seat, &mut writer);
    drop(writer);
    done
}

/// Makes a bare node of the same number, and measures both.
fn measure_writer<J: Naming, R: Wait + Clock + Print>(
    rt: &R,
    alloc: Global,
    rows: &Rows,
    node: &Node<MemoryDevice, J, &R>,
    seat: &mut WriteSeat<J>,
    writer: &mut Subject,
) -> io::Result<()> {
    let mut bare = Subject::new(alloc, number(0)?)?;
    let done = measure_both(rt, alloc, rows, node, seat, writer, &mut bare);
    drop(bare);
    done
}

/// Lets both take the JOIN of their neighbour, and a GOSSIP of each key.
fn take_all<J: Naming, R: Wait>(
    rt: &R,
    rows: &Rows,
    node: &Node<MemoryDevice, J, &R>,
    seat: &mut WriteSeat<J>,
    writer: &mut Subject,
    bare: &mut Subject,
) -> io::Result<()> {
    let joining = writer.joining()?;
    take_both(rt, node, seat, bare, joining)?;
    for key in rows.keys() {
        let frame = writer.put_over(rows, key)?;
        take_both(rt, node, seat, bare, frame)?;
    }
    Ok(())
}

/// Lets both take the frame, if there is one.
fn take_both<J: Naming, R: Wait>(
    rt: &R,
    node: &Node<MemoryDevice, J, &R>,
    seat: &mut WriteSeat<J>,
    bare: &mut Subject,
    frame: Option<ByteString>,
) -> io::Result<()> {
    let Some(frame) = frame else {
        return Ok(());
    };
    let copy = frame.copy();
    let (copy, frame) = both(copy, Ok(frame))?;
    let _is_fresh = bare.take(copy)?;
    drop(node.take(rt, seat, frame, 0).map_err(refused)?);
    Ok(())
}

/// Prints what a call takes and what a step takes, of samples made by turns, of the same frames.
/// Before, both take all that fills them.
fn measure_both<J: Naming, R: Wait + Clock + Print>(
    rt: &R,
    alloc: Global,
    rows: &Rows,
    node: &Node<MemoryDevice, J, &R>,
    seat: &mut WriteSeat<J>,
    writer: &mut Subject,
    bare: &mut Subject,
) -> io::Result<()> {
    take_all(rt, rows, node, seat, writer, bare)?;
    let mut dice = Dice::new(1);
    let (mut calls, mut steps) = ([0u128; SAMPLES], [0u128; SAMPLES]);
    for (call, step) in calls.iter_mut().zip(steps.iter_mut()) {
        let frames = gossips(alloc, rows, &mut dice, writer)?;
        let timed = time_of_calls(rt, node, seat, frames.as_slice());
        let beside = time_of_steps(rt, bare, frames.as_slice());
        drop(frames);
        *call = timed?;
        *step = beside?;
    }
    print(rt, "take_gossip_memory", of_one(&mut calls), "ns")?;
    print(rt, "step_take_gossip", of_one(&mut steps), "ns")
}

/// Returns the nanoseconds of one of the `FRAMES` frames of the median sample.
fn of_one(samples: &mut [u128]) -> u128 {
    median(samples) / u128::from(FRAMES)
}

/// Returns the frames of `FRAMES` writes.
fn gossips(
    alloc: Global,
    rows: &Rows,
    dice: &mut Dice,
    writer: &mut Subject,
) -> io::Result<Vec<ByteString>> {
    let mut frames = Vec::with_capacity(alloc, FRAMES as usize)?;
    for _frame in 0..FRAMES {
        if let Some(frame) = writer.put_over(rows, rows.any_key(dice)?)? {
            frames.push(frame)?;
        }
    }
    Ok(frames)
}

fn time_of_calls<J: Naming, R: Wait + Clock>(
    rt: &R,
    node: &Node<MemoryDevice, J, &R>,
    seat: &mut WriteSeat<J>,
    frames: &[ByteString],
) -> io::Result<u128> {
    let start = Instant::now(rt)?;
    for frame in frames {
        drop(node.take(rt, seat, frame.copy()?, 0).map_err(refused)?);
    }
    Ok(start.elapsed(rt)?.as_nanos())
}

/// Returns the nanoseconds in which the frames are taken. It fails if one brings nothing new.
fn time_of_steps<R: Clock>(rt: &R, bare: &mut Subject, frames: &[ByteString]) -> io::Result<u128> {
    let start = Instant::now(rt)?;
    for frame in frames {
        if !bare.take(frame.copy()?)? {
            return Err(refused(()));
        }
    }
    Ok(start.elapsed(rt)?.as_nanos())
}

//! How many steps are made in a second.

use crate::node::writes::Writes;
use crate::samples::{median, rate};
use crate::subject::Subject;
use meta_types::{ByteString, both};
use std::alloc::Global;
use std::io;
use std::time::Instant;

/// How many steps a sample has.
const CALLS: u32 = 2_000;

/// How many samples there are; the median counts.
const SAMPLES: usize = 11;

/// Makes `CALLS` writes. What they send is dropped.
fn write_all(writes: &mut Writes, writer: &mut Subject) -> io::Result<()> {
    for _call in 0..CALLS {
        drop(writes.write(writer)?);
    }
    Ok(())
}

/// Returns the frames of `CALLS` writes.
fn gossips(
    alloc: Global,
    writes: &mut Writes,
    writer: &mut Subject,
) -> io::Result<Vec<ByteString>> {
    let mut frames = Vec::with_capacity(alloc, CALLS as usize)?;
    for _call in 0..CALLS {
        if let Some(frame) = writes.write(writer)? {
            frames.push(frame)?;
        }
    }
    Ok(frames)
}

/// Lets the reader take the frames. Returns how many brought something new.
fn take_all(reader: &mut Subject, frames: Vec<ByteString>) -> io::Result<u32> {
    let mut fresh = 0_u32;
    for frame in frames {
        if reader.take(frame)? {
            fresh = fresh.saturating_add(1);
        }
    }
    Ok(fresh)
}

/// Returns the nanoseconds that `CALLS` writes take.
fn time_of_writes(rt: &HostRuntime, writes: &mut Writes, writer: &mut Subject) -> io::Result<u128> {
    let start = Instant::now(rt)?;
    write_all(writes, writer)?;
    Ok(start.elapsed(rt)?.as_nanos())
}

/// Returns the nanoseconds in which `CALLS` frames are taken. It fails if one brought nothing new.
fn time_of_gossips(
    rt: &HostRuntime,
    writes: &mut Writes,
    writer: &mut Subject,
    reader: &mut Subject,
) -> io::Result<u128> {
    let frames = gossips(rt.alloc(), writes, writer);
    let (frames, start) = both(frames, Instant::now(rt))?;
    let fresh = take_all(reader, frames)?;
    let nanos = start.elapsed(rt)?.as_nanos();
    if fresh != CALLS {
        return Err(io::Error::from(io::ErrorKind::Other));
    }
    Ok(nanos)
}

/// Returns the nanoseconds of `CALLS` writes: the median of the samples.
pub(crate) fn median_of_writes(
    rt: &HostRuntime,
    writes: &mut Writes,
    writer: &mut Subject,
) -> io::Result<u128> {
    let mut samples = [0u128; SAMPLES];
    for sample in samples.iter_mut() {
        *sample = time_of_writes(rt, writes, writer)?;
    }
    Ok(median(&mut samples))
}

/// Returns the nanoseconds in which `CALLS` fresh GOSSIPs are taken: the median of the samples.
pub(crate) fn median_of_gossips(
    rt: &HostRuntime,
    writes: &mut Writes,
    writer: &mut Subject,
    reader: &mut Subject,
) -> io::Result<u128> {
    let mut samples = [0u128; SAMPLES];
    for sample in samples.iter_mut() {
        *sample = time_of_gossips(rt, writes, writer, reader)?;
    }
    Ok(median(&mut samples))
}

/// Prints how many steps are made in a second, if `CALLS` steps took `nanos` nanoseconds.
pub(crate) fn print_rate(rt: &HostRuntime, name: &str, count: u32, nanos: u128) -> io::Result<()> {
    let rate = rate(u64::from(CALLS), nanos);
    println!(rt; "{name}_{count}_keys_1_prefix {rate} ops/s")
}

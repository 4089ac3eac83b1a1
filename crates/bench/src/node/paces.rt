//! How many times a call is made in a second, and how long an exchange takes.

use crate::node::codec::Coding;
use crate::node::sides::{Sent, Sides};
use crate::node::table::Work;
use crate::samples::median;
use std::io;
use std::time::Instant;

/// The least nanoseconds of a sample.
const LEAST: u128 = 25_000_000;

/// How many samples there are; the median counts.
const SAMPLES: usize = 11;

/// How often an exchange is run; the median time counts.
const EXCHANGES: usize = 9;

/// What does works of a kind, each as often as it is called.
pub(crate) trait Works<W> {
    /// Does the work once.
    fn work(&mut self, work: W) -> io::Result<()>;
}

/// Returns how many nanoseconds `calls` calls take.
fn taken<W: Copy, S: Works<W>>(
    rt: &HostRuntime,
    subject: &mut S,
    work: W,
    calls: u32,
) -> io::Result<u128> {
    let start = Instant::now(rt)?;
    for _call in 0..calls {
        subject.work(work)?;
    }
    Ok(start.elapsed(rt)?.as_nanos())
}

/// Returns how many calls take a sample's least time.
fn calls_of<W: Copy, S: Works<W>>(rt: &HostRuntime, subject: &mut S, work: W) -> io::Result<u32> {
    let mut calls = 1_u32;
    for _doubling in 0..31 {
        if taken(rt, subject, work, calls)? >= LEAST {
            return Ok(calls);
        }
        calls = calls.saturating_mul(2);
    }
    Ok(calls)
}

/// How many nanoseconds `calls` calls took: the median of the samples.
#[derive(Clone, Copy)]
pub(crate) struct Pace {
    calls: u32,
    nanos: u128,
}

pub(crate) fn median_pace<W: Copy, S: Works<W>>(
    rt: &HostRuntime,
    subject: &mut S,
    work: W,
) -> io::Result<Pace> {
    let calls = calls_of(rt, subject, work)?;
    let mut samples = [0u128; SAMPLES];
    for sample in samples.iter_mut() {
        *sample = taken(rt, subject, work, calls)?;
    }
    let nanos = median(&mut samples);
    Ok(Pace { calls, nanos })
}

impl Pace {
    /// Returns how many times in a second it is done, if each call does it `times` times.
    fn rate(self, times: u64) -> u128 {
        u128::from(self.calls) * u128::from(times) * 1_000_000_000 / self.nanos.max(1)
    }

    /// Returns the hundredths of a millisecond that a call takes.
    fn hundredths(self) -> u128 {
        self.nanos / (u128::from(self.calls.max(1)) * 10_000)
    }
}

impl Work {
    /// Returns the baseline's name for the work.
    fn name(self) -> &'static str {
        match self {
            Work::PutWithTree => "put_over_tree",
            Work::Put => "put_over_no_tree",
            Work::Look => "look",
            Work::Fill => "fill_tree",
            Work::WholeRoot => "whole_root",
        }
    }
}

/// Prints the line of a measure: writes or reads in a second, or the milliseconds of a root.
pub(crate) fn print_pace(
    rt: &HostRuntime,
    work: Work,
    count: u32,
    prefixes: u32,
    pace: Pace,
) -> io::Result<()> {
    let name = work.name();
    let times = match work {
        Work::Fill => u64::from(count),
        Work::WholeRoot => return print_time(rt, name, count, prefixes, pace),
        Work::PutWithTree | Work::Put | Work::Look => 1,
    };
    let rate = pace.rate(times);
    println!(rt; "{name}_{count}_keys_{prefixes}_prefix {rate} ops/s")
}

/// Prints the lines of reading or writing a file's frames: frames and megabytes in a second.
pub(crate) fn print_coding(
    rt: &HostRuntime,
    coding: Coding,
    file: &str,
    (frames, bytes): (usize, usize),
    pace: Pace,
) -> io::Result<()> {
    let name = coding.name();
    println!(rt; "{name}_{file} {} frames/s", pace.rate(frames as u64))?;
    println!(rt;
        "{name}_{file}_bytes {} MB/s",
        pace.rate(bytes as u64) / 1_000_000
    )
}

fn print_time(
    rt: &HostRuntime,
    name: &str,
    count: u32,
    prefixes: u32,
    pace: Pace,
) -> io::Result<()> {
    let hundredths = pace.hundredths();
    let (whole, rest) = (hundredths / 100, hundredths % 100);
    println!(rt; "{name}_{count}_keys_{prefixes}_prefix {whole}.{rest:02} ms")
}

/// Returns how many nanoseconds an exchange takes: the median of the runs.
pub(crate) fn median_time(rt: &HostRuntime, sides: &Sides) -> io::Result<u128> {
    let mut times = [0u128; EXCHANGES];
    for time in times.iter_mut() {
        *time = sides.taken(rt)?;
    }
    Ok(median(&mut times))
}

/// Prints the lines of an exchange: its milliseconds, and what it sends.
pub(crate) fn print_exchange(
    rt: &HostRuntime,
    changes: u32,
    nanos: u128,
    sent: Sent,
) -> io::Result<()> {
    let (whole, rest) = (nanos / 1_000_000, nanos % 1_000_000 / 100);
    let (frames, bytes) = (sent.frames, sent.bytes);
    println!(rt; "reconcile_8192_diff_{changes}_time {whole}.{rest:04} ms")?;
    println!(rt; "reconcile_8192_diff_{changes}_frames {frames} frames")?;
    println!(rt; "reconcile_8192_diff_{changes}_bytes {bytes} bytes")
}

//! Threads that write to one node on a file side by side.

use crate::lock::KEYS;
use crate::lock::peeks::{all_back, taken, write};
use crate::rows::Rows;
use crate::samples::{median, rate, refused};
use devices::FileDevice;
use node_lock::{Naming, Node, WriteSeat};
use std::alloc::Global;
use std::io;
use std::rt::Clock;
use std::sync::Wait;
use std::thread::{self, Threads};
use std::time::Instant;

/// How many threads write.
const CALLERS: [usize; 3] = [1, 4, 8];

/// How many samples there are; the median counts.
const SAMPLES: usize = 3;

/// Prints how many writes are acknowledged in a second in sum.
pub(crate) fn run<J: Naming + Send + Sync, R: Threads + Wait + Clock + Print + Sync>(
    rt: &R,
    alloc: Global,
    node: &Node<FileDevice, J, &R>,
    writers: &mut Vec<WriteSeat<J>>,
) -> io::Result<()> {
    let rows = Rows::new(alloc, KEYS)?;
    let done = measure_all(rt, alloc, &rows, node, writers);
    drop(rows);
    done
}

fn measure_all<J: Naming + Send + Sync, R: Threads + Wait + Clock + Print + Sync>(
    rt: &R,
    alloc: Global,
    rows: &Rows,
    node: &Node<FileDevice, J, &R>,
    writers: &mut Vec<WriteSeat<J>>,
) -> io::Result<()> {
    for callers in CALLERS {
        let mut samples = [0u128; SAMPLES];
        for sample in samples.iter_mut() {
            *sample = pace(rt, alloc, rows, node, writers, callers)?;
        }
        println!(rt; "put_over_{callers}_callers {} ops/s", median(&mut samples))?;
    }
    Ok(())
}

/// Returns how many writes so many threads make in a second.
fn pace<J: Naming + Send + Sync, R: Threads + Wait + Clock + Sync>(
    rt: &R,
    alloc: Global,
    rows: &Rows,
    node: &Node<FileDevice, J, &R>,
    writers: &mut Vec<WriteSeat<J>>,
    callers: usize,
) -> io::Result<u128> {
    let seats = taken(alloc, writers, callers)?;
    let start = Instant::now(rt).ok();
    let written = thread::map_vec(
        rt,
        seats,
        &|seat: WriteSeat<J>| write(rt, node, rows, false, seat),
    );
    let time = start.and_then(|start| start.elapsed(rt).ok());
    match (all_back(writers, written), time) {
        (Some(writes), Some(time)) => Ok(rate(writes, time.as_nanos())),
        _ => Err(refused(())),
    }
}

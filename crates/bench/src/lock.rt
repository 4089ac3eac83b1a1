//! The pace of a node under its lock, as lines `name value unit`.
//!
//! - `peek`: looks a second of one reader or four, and writes a second of one writer, side by side.
//! - `calls`: the nanoseconds of a call that writes in memory, and of the bare step in it.
//! - `gossip`: the nanoseconds of a call that takes a fresh GOSSIP in memory, and of the bare step.
//! - `hold`: nothing, by a node that is filled and whose journal is cut; `hold bare`, by the state.
//! - `looks`: looks a second of one reader at values of 1,000 bytes, which it copies or is lent.
//! - `disk FOLDER`: acknowledged writes a second on a file in the folder, and by how many bytes
//!   each of them lets it grow.
//! - `batch FOLDER`: the same of batches, and bare writes and syncs of as many bytes.
//! - `callers FOLDER`: the same of threads that write side by side.
//!
//! With other words it prints nothing. `bench/lock` of the repository has what stands beside it.

mod callers;
mod calls;
mod disk;
mod gossips;
mod holding;
mod looks;
mod memory;
mod peeks;
mod writing;

use disk::Call;
use memory::{Calls, Work};
use node_lock::Capacity;
use std::io;
use std::rt::Clock;
use std::sync::Wait;
use std::thread::Threads;

/// How many keys are written.
const KEYS: u32 = 8_192;

/// Returns the seats of a node: eight write, and four look.
fn seats() -> Capacity {
    Capacity::new(8, 4)
}

pub(crate) fn run<R: Threads + Wait + Clock + Print + Sync>(
    rt: &HostRuntime,
    handle: &R,
    words: &[String],
) -> io::Result<()> {
    match words {
        [part] => match work_of(part.as_str()) {
            Some(work) => memory::measure(handle, rt.alloc(), work),
            None => Ok(()),
        },
        [part, what] if part.as_str() == "hold" && what.as_str() == "bare" => {
            holding::run_bare(rt.alloc())
        }
        [part, folder] => run_on_file(rt, handle, part.as_str(), folder.as_str()),
        _ => Ok(()),
    }
}

/// Returns what is measured in memory by this word.
fn work_of(part: &str) -> Option<Work> {
    match part {
        "peek" => Some(Work::Peeks),
        "looks" => Some(Work::Looks),
        "calls" => Some(Work::Calls(Calls::PutOver)),
        "gossip" => Some(Work::Calls(Calls::Gossip)),
        "hold" => Some(Work::Calls(Calls::Hold)),
        _ => None,
    }
}

fn run_on_file<R: Threads + Wait + Clock + Print + Sync>(
    rt: &HostRuntime,
    handle: &R,
    part: &str,
    folder: &str,
) -> io::Result<()> {
    match part {
        "disk" => disk::measure(rt, handle, folder, disk::Work::Alone(Call::PutOver)),
        "batch" => disk::measure_batches(rt, handle, folder),
        "callers" => disk::measure(rt, handle, folder, disk::Work::Callers),
        _ => Ok(()),
    }
}

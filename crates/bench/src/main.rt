//! Measures nodes and what they are made of, and lets threads storm one. The first argument is the
//! part, and the others are the part's own.
//!
//! Each part has a module and a folder: `lock`, `node`, `file` and `storm`. What several parts use
//! stands beside them.
#![tactic(auto)]

mod begun;
mod file;
mod lock;
mod node;
mod rows;
mod samples;
mod started;
mod storm;
mod subject;

use std::io;
use std::rt::Clock;
use std::sync::Wait;
use std::thread::Threads;

fn main(rt: HostRuntime) -> io::Result<()> {
    let words: Vec<String> = std::env::args(&rt)?.collect(rt.alloc())?;
    match words.as_slice() {
        [_program, part, others @ ..] => run(&rt, &rt, part.as_str(), others),
        _ => Ok(()),
    }
}

/// Does what the part is asked for. `handle` is the same runtime, as what may start threads and
/// wait.
fn run<R: Threads + Wait + Clock + Print + Sync>(
    rt: &HostRuntime,
    handle: &R,
    part: &str,
    words: &[String],
) -> io::Result<()> {
    match part {
        "lock" => lock::run(rt, handle, words),
        "node" => node::run(rt, words),
        "file" => file::run(rt, words),
        "storm" => storm::run(rt, handle, words),
        _ => Ok(()),
    }
}

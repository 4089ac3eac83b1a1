//! A storm over one node on a real file: eight threads write and eight look until a time is over.
//! Then the node is closed, and what its calls answered is compared with what it leaves.
//!
//! - `PATH MILLISECONDS [KEYS]` prints a line for each thing that is so, and figures at standard
//!   error. If there is no file at the path one is made, of node 0.
//! - `--tell PATH MILLISECONDS [KEYS]` prints before these the number of the node's life, and each
//!   write once it was acknowledged.
//! - `--check PATH` prints what the file holds, as `--tell` prints what is acknowledged.

mod compared;
mod kept;
mod looking;
mod raised;
mod reported;
mod shared;
mod span;
mod trouble;
mod writing;
mod written;

use crate::begun::go_on_at;
use crate::samples::refused;
use node_lock::Beginning;
use raised::Plan;
use std::io;
use std::marker::Brand;
use std::rt::Clock;
use std::sync::Wait;
use std::sync::ledger::Blank;
use std::thread::Threads;

/// How many keys are written if no number is given.
const KEYS: u32 = 16;

pub(crate) fn run<R: Threads + Wait + Clock + Print + Sync>(
    rt: &HostRuntime,
    handle: &R,
    words: &[String],
) -> io::Result<()> {
    match words {
        [word, path] if word.as_str() == "--check" => kept::tell(rt, path.as_str()),
        [word, path, times @ ..] if word.as_str() == "--tell" => {
            run_at(rt, handle, path.as_str(), times, true)
        }
        [path, times @ ..] => run_at(rt, handle, path.as_str(), times, false),
        _ => usage(rt),
    }
}

fn usage(rt: &HostRuntime) -> io::Result<()> {
    eprintln!(rt; "bench storm [--tell] PATH MILLISECONDS [KEYS], or --check PATH")
}

/// Raises a storm over the node at the path, for this number of milliseconds, over `keys` keys.
fn run_at<R: Threads + Wait + Clock + Print + Sync>(
    rt: &HostRuntime,
    handle: &R,
    path: &str,
    times: &[String],
    is_told: bool,
) -> io::Result<()> {
    match times {
        [time] => run_plan(rt, handle, path, plan_of(time, KEYS, is_told)?),
        [time, keys] => {
            let keys = keys.as_str().parse().map_err(refused)?;
            run_plan(rt, handle, path, plan_of(time, keys, is_told)?)
        }
        _ => usage(rt),
    }
}

/// Makes the plan of a storm for the milliseconds that `time` spells, over `keys` keys.
fn plan_of(time: &str, keys: u32, is_told: bool) -> io::Result<Plan> {
    Ok(Plan {
        milliseconds: time.parse().map_err(refused)?,
        keys,
        is_told,
    })
}

/// Raises the storm of a plan, and prints what it was.
fn run_plan<R: Threads + Wait + Clock + Print + Sync>(
    rt: &HostRuntime,
    handle: &R,
    path: &str,
    plan: Plan,
) -> io::Result<()> {
    let (file, table) = go_on_at(rt, path)?;
    if plan.is_told {
        println!(rt; "life {}", file.life())?;
    }
    let tokens = (Blank::new(9), Beginning::new());
    let left = raised::raise::<Brand, _>(handle, rt.alloc(), tokens, file, table, plan)?;
    let done = reported::tell(rt, path, &left);
    drop(left);
    done
}

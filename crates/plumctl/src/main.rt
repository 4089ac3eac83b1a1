//! The commands of the store, at the command line. Each exit status, and each line at standard
//! error, comes from a call of `plumctl_core`, `plumctl_draw`, `plumctl_file` or `plumctl_live`,
//! except those about arguments and progress, and what is said to somebody who types a scenario.
#![tactic(auto)]

mod arguments;
mod command;
mod file;
mod live;
mod progress;

use arguments::{Asked, USAGE, read_arguments, read_words};
use plumctl_core::tell;
use std::process::ExitCode;
use std::sync::Wait;
use std::thread::Threads;
use streams::{MayFail, StreamFault};

fn main(rt: HostRuntime) -> ExitCode {
    ExitCode::from(match run(&rt, &rt) {
        Ok(status) => status,
        Err(fault) => tell(&mut MayFail(rt.stderr()), fault),
    })
}

/// Does what the arguments ask for, and returns the exit status.
fn run<R: Threads + Wait + Sync>(rt: &HostRuntime, handle: &R) -> Result<u8, StreamFault> {
    let Some(words) = read_words(rt)? else {
        let _ = eprintln!(rt; "error: the arguments are not text");
        return Ok(USAGE);
    };
    Ok(match read_arguments(rt, words.as_slice())? {
        Asked::Frame { file, key } => command::frame(rt, file, key),
        Asked::Run { file, explain } => command::run(rt, handle, file, explain),
        Asked::Draw { file, part } => command::draw(rt, handle, file, part),
        Asked::File { path, copied } => file::file(rt, handle, path, copied),
        Asked::Live(asked) => live::live(rt, handle, asked),
        Asked::Nothing(status) => status,
    })
}

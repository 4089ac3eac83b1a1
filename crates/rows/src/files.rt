//! Reports on node files, as `plumctl file` does. Each line is a path. For each it prints the path,
//! what is reported, what would be printed at standard error, and the exit status; and for a file
//! that was shown, the bytes of its clean copy in digits.

use devices::MemoryDevice;
use plumctl_file::{Purpose, ShownFile, report_path, run_rewrite};
use std::alloc::AllocError;
use std::io;

/// Reports on each of the paths.
pub fn run(rt: &HostRuntime, paths: &str) -> io::Result<()> {
    for path in paths.lines() {
        println!(rt; "== {path}")?;
        show(rt, path)?;
    }
    Ok(())
}

fn print_text(rt: &HostRuntime, before: &str, bytes: &[u8]) -> io::Result<()> {
    match std::str::from_utf8(bytes) {
        Ok("") => Ok(()),
        Ok(text) => print!(rt; "{before}{text}"),
        Err(_) => println!(rt; "no text"),
    }
}

/// Prints the report on a path.
fn show(rt: &HostRuntime, path: &str) -> io::Result<()> {
    let mut printed = Vec::new(rt.alloc());
    let mut told = Vec::new(rt.alloc());
    let (status, shown) = report_path(rt, path, Purpose::Report, &mut printed, &mut told);
    print_text(rt, "", &printed)?;
    print_text(rt, "told ", &told)?;
    println!(rt; "status {status}")?;
    match shown {
        Some(shown) => print_copy(rt, shown.file()),
        None => Ok(()),
    }
}

fn new_device(rt: &HostRuntime) -> Result<MemoryDevice, AllocError> {
    MemoryDevice::new(rt.alloc(), Vec::new(rt.alloc()))
}

/// Prints the bytes of a clean copy.
fn print_copy(rt: &HostRuntime, shown: &ShownFile) -> io::Result<()> {
    let mut printed = Vec::new(rt.alloc());
    let mut told = Vec::new(rt.alloc());
    let mut target = new_device(rt)?;
    let status = run_rewrite(
        rt.alloc(),
        shown,
        "copy",
        &mut target,
        &mut printed,
        &mut told,
    );
    if status != 0 {
        return println!(rt; "no copy, status {status}");
    }
    let digits = hex::encode(rt.alloc(), target.content())?;
    println!(rt; "anew {digits}")
}

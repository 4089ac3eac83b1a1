//! Measures node files, and appends to one until it is killed.
//!
//! - `disk FOLDER` prints lines `name value unit`: appends to a file in the folder, the same writes
//!   and syncs bare, appends in memory, and how long a file of 8,192 keys takes to open. The names
//!   are those of a baseline in plain Rust.
//! - `append PATH [BATCH]` opens the file at the path, or makes one, begins a life, and appends
//!   under one key without end; for each append that was acknowledged it prints its number. With
//!   BATCH each append is of so many objects at once, and the number of the last is printed.
//! - `tell PATH` prints the number in the file's object, 0 for none.
//!
//! With another first word, or none, it prints nothing.

mod appending;
pub(crate) mod bare;
mod disk;
mod kept;

use crate::samples::refused;
use std::io;

pub(crate) fn run(rt: &HostRuntime, words: &[String]) -> io::Result<()> {
    match words {
        [part, path, others @ ..] => run_part(rt, part.as_str(), path.as_str(), others),
        _ => Ok(()),
    }
}

fn run_part(rt: &HostRuntime, part: &str, path: &str, words: &[String]) -> io::Result<()> {
    match part {
        "disk" => disk::measure(rt, path),
        "append" => appending::append(rt, path, batch_of(words)?),
        "tell" => appending::tell(rt, path),
        _ => Ok(()),
    }
}

/// Returns the size of a batch that the words begin with, `None` if there are none.
fn batch_of(words: &[String]) -> io::Result<Option<u64>> {
    match words {
        [] => Ok(None),
        [size, ..] => Ok(Some(size.as_str().parse().map_err(refused)?)),
    }
}

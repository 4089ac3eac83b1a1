//! A node in use: the next life of a node is begun in the file at a path, which is made if there is
//! none. A value is written under a key, a reader learns of it and looks, and the node is closed.
//!
//! `example_node PATH KEY VALUE`, with a key as `a/b/k`. It prints what the reader was shown, and
//! how many entries the journal had.
#![tactic(auto)]

mod begun;
mod used;

use begun::{begin, refused};
use meta_types::{FullPrefix, MetaKey, Value, both};
use node_lock::Beginning;
use std::alloc::Global;
use std::io;
use std::marker::Brand;
use std::sync::Wait;
use std::sync::ledger::Blank;
use used::written;

fn main(rt: HostRuntime) -> io::Result<()> {
    let words: Vec<String> = std::env::args(&rt)?.collect(rt.alloc())?;
    match words.as_slice() {
        [_program, path, key, value] => run(&rt, &rt, path, key, value),
        _ => eprintln!(&rt; "example_node PATH KEY VALUE"),
    }
}

/// Writes the value in the next life of the node at the path. `handle` is the same runtime, as what
/// may wait.
fn run<R: Wait>(
    rt: &HostRuntime,
    handle: &R,
    path: &str,
    key: &str,
    value: &str,
) -> io::Result<()> {
    let (key, value) = both(key_of(rt.alloc(), key), value_of(rt.alloc(), value))?;
    let (file, table) = begin(rt, path)?;
    let tokens = (Blank::new(9), Beginning::new());
    let said = written::<Brand, _>(handle, rt.alloc(), tokens, file, table, key, value)?;
    println!(rt; "{said}")
}

fn value_of(alloc: Global, text: &str) -> io::Result<Value> {
    Value::new(0, Some(text.as_bytes().to_vec(alloc)?)).map_err(refused)
}

/// Returns the key that is written as `a/b/k`.
fn key_of(alloc: Global, text: &str) -> io::Result<MetaKey> {
    let mut parts = text.split('/');
    match (parts.next(), parts.next(), parts.next(), parts.next()) {
        (Some(prefix), Some(sub), Some(own), None) => {
            let full = both(bytes_of(alloc, prefix), bytes_of(alloc, sub))?;
            let full = FullPrefix::new(full.0, full.1).map_err(refused);
            let (full, own) = both(full, bytes_of(alloc, own))?;
            MetaKey::new(full, own).map_err(refused)
        }
        _ => Err(refused(())),
    }
}

fn bytes_of(alloc: Global, text: &str) -> io::Result<Vec<u8>> {
    Ok(text.as_bytes().to_vec(alloc)?)
}

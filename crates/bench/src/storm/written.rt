//! What is written: keys, and values that say who wrote them.

use crate::rows::key_of;
use crate::samples::refused;
use dvvset::Vector;
use meta_types::{Actor, MetaKey, Value};
use std::alloc::Global;
use std::fmt::{self, Display, Formatter, Write};
use std::io;

/// A write: which writer makes it, and how many it made before.
#[derive(Clone, Copy)]
pub(crate) struct Mark {
    pub(crate) writer: u64,
    pub(crate) number: u64,
}

/// As `3:17`.
impl Display for Mark {
    fn fmt<W: Write>(&self, f: &mut Formatter<W>) -> fmt::Result {
        write!(f, "{}:{}", self.writer, self.number)
    }
}

impl Mark {
    /// Makes the value of the write, whose body is the mark.
    pub(crate) fn value(self, alloc: Global) -> io::Result<Value> {
        let body = format!(in alloc; "{self}")?;
        Value::new(self.number, Some(body.into_bytes())).map_err(refused)
    }

    /// Returns the place of the key that is written, of `keys` keys: each writer goes round all
    /// keys, beginning at its own number.
    pub(crate) fn place(self, keys: usize) -> usize {
        let turn = self.number.saturating_add(self.writer);
        (turn % (keys as u64).max(1)) as usize
    }

    /// Returns whether the write has read nothing, so that it stands beside what is under the key:
    /// each write of every fourth round.
    pub(crate) fn is_blind(self, keys: usize) -> bool {
        self.number / (keys as u64).max(1) % 4 == 3
    }
}

/// Makes `count` keys: `key-0`, `key-1` and so on, under `storm` and `n`.
pub(crate) fn keys(alloc: Global, count: u32) -> io::Result<Vec<MetaKey>> {
    let mut keys = Vec::new(alloc);
    for number in 0..count {
        keys.push(key(alloc, number)?)?;
    }
    Ok(keys)
}

fn key(alloc: Global, number: u32) -> io::Result<MetaKey> {
    key_of(alloc, "storm", "n", format!(in alloc; "key-{number}")?)
}

/// Returns the bytes of a key or of a value, as they are printed.
pub(crate) fn text_of(bytes: &[u8]) -> &str {
    std::str::from_utf8(bytes).unwrap_or("bytes")
}

/// Returns how many events of the writer the vector counts.
pub(crate) fn count_of(vector: &Vector, writer: Actor) -> u64 {
    for counter in vector.counters() {
        if counter.id() == writer {
            return counter.count();
        }
    }
    0
}

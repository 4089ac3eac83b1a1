//! Names, values and objects, by letters and numbers.
//!
//! What takes memory is asked for twice here, and in the tests once more if it is refused. So a
//! test passes whichever single allocation is refused, as long as it is given then.

use dvvset::{Entries, Entry};
use meta_types::{Actor, FullPrefix, MetaKey, NodeId, Value};
use std::alloc::{AllocError, Global};
use std::process::Abort;

/// A node, the number of lives in which it wrote, the number of its events in each, and the letters
/// of the values of the newest of them, newest first.
pub type Part = (u16, u32, u64, &'static [u8]);

/// Returns the first of two results that is no refusal.
pub fn either<T: Drop>(
    rt: &impl Abort,
    first: Result<T, AllocError>,
    second: Result<T, AllocError>,
) -> T {
    first.or(second).expect(rt, "memory once more")
}

/// Returns a list with room for `many` items.
pub fn room<T: Drop>(rt: &impl Abort, alloc: Global, many: usize) -> Vec<T> {
    let first: Result<_, _> = Vec::with_capacity(alloc, many);
    let second: Result<_, _> = Vec::with_capacity(alloc, many);
    either(rt, first, second)
}

pub fn actor(rt: &impl Abort, node: u16, life: u32) -> Actor {
    Actor::new(NodeId::new(node).expect(rt, "a node"), life)
}

/// Returns a copy of these bytes.
pub fn bytes(rt: &impl Abort, alloc: Global, bytes: &[u8]) -> Vec<u8> {
    either(rt, bytes.to_vec(alloc), bytes.to_vec(alloc))
}

/// Returns the letter, `len` times.
fn text(rt: &impl Abort, alloc: Global, letter: u8, len: usize) -> Vec<u8> {
    let first: Result<_, _> = vec![in alloc; letter; len];
    let second: Result<_, _> = vec![in alloc; letter; len];
    either(rt, first, second)
}

pub fn prefix(rt: &impl Abort, alloc: Global, prefix: &[u8], sub: &[u8]) -> FullPrefix {
    let prefix = bytes(rt, alloc, prefix);
    FullPrefix::new(prefix, bytes(rt, alloc, sub)).expect(rt, "a prefix")
}

/// Returns the key of this name, under the full prefix of these two.
pub fn key(rt: &impl Abort, alloc: Global, first: &[u8], sub: &[u8], own: &[u8]) -> MetaKey {
    let prefix = prefix(rt, alloc, first, sub);
    MetaKey::new(prefix, bytes(rt, alloc, own)).expect(rt, "a key")
}

/// Returns a key of `len` letters, under a full prefix of the longest names.
pub fn long_key(rt: &impl Abort, alloc: Global, letter: u8, len: usize) -> MetaKey {
    let own = text(rt, alloc, letter, len);
    key(rt, alloc, &[b'p'; 64], &[b's'; 64], own.as_slice())
}

/// Returns a value of `len` letters.
pub fn value(rt: &impl Abort, alloc: Global, letter: u8, len: usize) -> Value {
    Value::new(7, Some(text(rt, alloc, letter, len))).expect(rt, "a value")
}

/// Returns for each letter `many` values of `len` times that letter.
pub fn values(
    rt: &impl Abort,
    alloc: Global,
    letters: &[u8],
    many: usize,
    len: usize,
) -> Vec<Value> {
    let mut values = room(rt, alloc, letters.len().saturating_mul(many));
    for letter in letters {
        for _ in 0..many {
            let value = value(rt, alloc, *letter, len);
            values.push(value).expect(rt, "room");
        }
    }
    values
}

/// Returns the object of these parts, with `many` values of `len` letters for each letter.
pub fn object(rt: &impl Abort, alloc: Global, parts: &[Part], many: usize, len: usize) -> Entries {
    let mut entries = room(rt, alloc, 65_536);
    for (node, lives, count, letters) in parts {
        for life in 0..*lives {
            let id = actor(rt, *node, life.saturating_add(1));
            let values = values(rt, alloc, letters, many, len);
            let entry = Entry::new(id, *count, values);
            entries.push(entry).expect(rt, "room");
        }
    }
    Entries::from_parts(entries).expect(rt, "an object")
}

/// Returns whether an object has these parts, with a value of one letter for each letter.
pub fn is_object(rt: &impl Abort, alloc: Global, given: &Entries, parts: &[Part]) -> bool {
    *given == object(rt, alloc, parts, 1, 1)
}

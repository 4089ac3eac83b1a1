//! Appends without end, and the last number read from the file afterwards.

use crate::begun::{go_on_at, read};
use crate::file::kept::Kept;
use crate::rows::{actor, key};
use crate::samples::refused;
use devices::FileDevice;
use dvvset::Entries;
use meta_store::Store;
use meta_types::{MetaKey, Value, both};
use std::alloc::Global;
use std::io::{self, Write};

/// Opens the file at the path, or makes one, begins a life, and appends without end, with the
/// numbers after the number in the file's object. Each is printed once it was acknowledged. With a
/// batch so many are appended at once, and the last of them is printed.
pub(crate) fn append(rt: &HostRuntime, path: &str, batch: Option<u64>) -> io::Result<()> {
    let at = key(rt.alloc(), 0)?;
    let done = append_at(rt, path, &at, batch);
    drop(at);
    done
}

fn append_at(rt: &HostRuntime, path: &str, at: &MetaKey, batch: Option<u64>) -> io::Result<()> {
    let (file, table) = go_on_at(rt, path)?;
    let mut kept = Kept::of(file, table);
    let done = append_under(rt, &mut kept, at, batch);
    drop(kept);
    done
}

fn append_under(
    rt: &HostRuntime,
    kept: &mut Kept<FileDevice>,
    at: &MetaKey,
    batch: Option<u64>,
) -> io::Result<()> {
    for _append in 0..u64::MAX {
        let before = number_in(kept.table(), at);
        let last = before.saturating_add(batch.unwrap_or(1));
        if batch.is_some() {
            append_batch(rt.alloc(), kept, at, before, last)?;
        } else {
            append_one(rt, kept, at, last)?;
        }
        acknowledge(rt, last)?;
    }
    Ok(())
}

/// Appends the object of this number.
fn append_one(
    rt: &HostRuntime,
    kept: &mut Kept<FileDevice>,
    at: &MetaKey,
    number: u64,
) -> io::Result<()> {
    let object = object_of(rt.alloc(), at, number)?;
    let done = kept.append(rt, at, &object);
    drop(object);
    done?;
    Ok(())
}

/// Appends the objects of the numbers after `before` up to `last` at once.
fn append_batch(
    alloc: Global,
    kept: &mut Kept<FileDevice>,
    at: &MetaKey,
    before: u64,
    last: u64,
) -> io::Result<()> {
    let objects = objects_of(alloc, at, before, last)?;
    let done = kept.append_all(alloc, at, objects.as_slice());
    drop(objects);
    done
}

fn objects_of(alloc: Global, at: &MetaKey, before: u64, last: u64) -> io::Result<Vec<Entries>> {
    let mut objects = Vec::new(alloc);
    for number in before..last {
        objects.push(object_of(alloc, at, number.saturating_add(1))?)?;
    }
    Ok(objects)
}

/// Prints the number, at once.
fn acknowledge(rt: &HostRuntime, number: u64) -> io::Result<()> {
    let mut out = rt.stdout();
    writeln!(out, "{number}")?;
    out.flush()
}

/// Makes an object whose value has the number as its stamp.
fn object_of(alloc: Global, at: &MetaKey, number: u64) -> io::Result<Entries> {
    let mut store = Store::new(alloc);
    let done = put_number(alloc, &mut store, at, number);
    let object = object_in(&store, at);
    drop(store);
    let (object, ()) = both(object, done)?;
    Ok(object)
}

fn put_number(alloc: Global, store: &mut Store, at: &MetaKey, number: u64) -> io::Result<()> {
    let actor = actor(0)?;
    let value = Value::new(number, Some(Vec::new(alloc))).map_err(refused);
    let (key, value) = both(at.copy().map_err(refused), value)?;
    drop(store.put(actor, key, value, None).map_err(refused)?);
    Ok(())
}

/// Returns a copy of the object that the store holds under the key.
fn object_in(store: &Store, at: &MetaKey) -> io::Result<Entries> {
    match store.object(at) {
        Some(object) => Ok(object.copy()?),
        None => Err(refused(())),
    }
}

/// Returns the number in the object of the table, 0 for none.
fn number_in(table: &Store, at: &MetaKey) -> u64 {
    match table.object(at) {
        Some(object) => stamp_of(object),
        None => 0,
    }
}

/// Returns the stamp of the first value that the object shows, 0 for none.
fn stamp_of(object: &Entries) -> u64 {
    match object.entries() {
        [entry, ..] => match entry.values() {
            [value, ..] => value.stamp(),
            _ => 0,
        },
        _ => 0,
    }
}

/// Prints the number in the file's object.
pub(crate) fn tell(rt: &HostRuntime, path: &str) -> io::Result<()> {
    let at = key(rt.alloc(), 0)?;
    let number = number_at(rt, path, &at);
    drop(at);
    acknowledge(rt, number?)
}

/// Returns the number in the object of the file at the path.
fn number_at(rt: &HostRuntime, path: &str, at: &MetaKey) -> io::Result<u64> {
    let (table, _life) = read(rt, path)?;
    let number = number_in(&table, at);
    drop(table);
    Ok(number)
}

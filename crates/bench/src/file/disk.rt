//! How fast appends are and how fast a file opens.

use crate::begun::{begin_at, begin_in_memory, read};
use crate::file::bare::bare_writes;
use crate::file::kept::Kept;
use crate::rows::{actor, key, value};
use crate::samples::{median, print, rate, refused};
use devices::{Device, FileDevice, MemoryDevice};
use meta_store::Store;
use meta_types::both;
use std::alloc::Global;
use std::fs::{self, File, OpenOptions};
use std::io::{self, Write};
use std::time::Instant;

/// How many keys the opened file has.
const KEYS: u32 = 8_192;

/// How many rounds there are, each of appends and then of bare writes, and how many of both it has.
const ROUNDS: u32 = 8;

const IN_ROUND: u32 = 40;

/// How often a file is opened; the median time counts.
const OPENINGS: usize = 11;

pub(crate) fn measure(rt: &HostRuntime, folder: &str) -> io::Result<()> {
    let objects = filled(rt.alloc(), KEYS)?;
    let done = measure_all(rt, folder, &objects);
    drop(objects);
    done
}

fn measure_all(rt: &HostRuntime, folder: &str, objects: &Store) -> io::Result<()> {
    measure_memory(rt, objects)?;
    measure_appends(rt, folder, objects)?;
    measure_opening(rt, folder, objects)
}

/// Makes a store of `count` keys, each with a value.
fn filled(alloc: Global, count: u32) -> io::Result<Store> {
    let mut store = Store::new(alloc);
    for number in 0..count {
        put_one(alloc, &mut store, number)?;
    }
    Ok(store)
}

fn put_one(alloc: Global, store: &mut Store, number: u32) -> io::Result<()> {
    let actor = actor(0)?;
    let (key, value) = both(key(alloc, number), value(alloc))?;
    drop(store.put(actor, key, value, None).map_err(refused)?);
    Ok(())
}

/// Prints how many times in a second something is done that takes the median of the samples.
fn print_rate(rt: &HostRuntime, name: &str, samples: &mut [u128]) -> io::Result<()> {
    print(rt, name, rate(1, median(samples)), "ops/s")
}

fn new_in_memory(alloc: Global) -> io::Result<Kept<MemoryDevice>> {
    let (file, table) = begin_in_memory(alloc)?;
    Ok(Kept::of(file, table))
}

/// Appends the object of the key of this number. Returns how many nanoseconds it took.
fn append_one<D: Device + Drop>(
    rt: &HostRuntime,
    kept: &mut Kept<D>,
    objects: &Store,
    number: u32,
) -> io::Result<u128> {
    let at = key(rt.alloc(), number % KEYS)?;
    match objects.object(&at) {
        Some(object) => kept.append(rt, &at, object),
        None => Ok(0),
    }
}

/// Makes the appends of a round, and adds the nanoseconds of each to `samples`. Returns how many
/// bytes one of them has.
fn appends<D: Device + Drop>(
    rt: &HostRuntime,
    kept: &mut Kept<D>,
    objects: &Store,
    round: u32,
    samples: &mut Vec<u128>,
) -> io::Result<usize> {
    let (first, before) = (round.saturating_mul(IN_ROUND), kept.len());
    for number in 0..IN_ROUND {
        samples.push(append_one(rt, kept, objects, first.saturating_add(number))?)?;
    }
    Ok(kept.len().saturating_sub(before) / IN_ROUND as usize)
}

fn measure_memory(rt: &HostRuntime, objects: &Store) -> io::Result<()> {
    let mut samples = Vec::new(rt.alloc());
    append_in_memory(rt, objects, &mut samples)?;
    print_rate(rt, "append_memory", samples.as_mut_slice())
}

fn append_in_memory(rt: &HostRuntime, objects: &Store, samples: &mut Vec<u128>) -> io::Result<()> {
    let mut kept = new_in_memory(rt.alloc())?;
    let done = append_rounds(rt, &mut kept, objects, samples);
    drop(kept);
    done
}

fn append_rounds(
    rt: &HostRuntime,
    kept: &mut Kept<MemoryDevice>,
    objects: &Store,
    samples: &mut Vec<u128>,
) -> io::Result<()> {
    for round in 0..200u32 {
        appends(rt, kept, objects, round, samples)?;
    }
    Ok(())
}

/// Makes appends and bare writes of the same size by turns, so that the disk is the same for both.
fn in_turn(
    rt: &HostRuntime,
    kept: &mut Kept<FileDevice>,
    objects: &Store,
    bare: &File,
) -> io::Result<()> {
    let (mut appended, mut written) = (Vec::new(rt.alloc()), Vec::new(rt.alloc()));
    let mut gate = kept.len() as u64;
    for round in 0..ROUNDS {
        let size = appends(rt, kept, objects, round, &mut appended)?;
        gate = bare_writes(rt, bare, gate, size, IN_ROUND as usize, &mut written)?;
    }
    print_rate(rt, "append_fdatasync", appended.as_mut_slice())?;
    print_rate(rt, "append_fdatasync_limit", written.as_mut_slice())
}

fn measure_appends(rt: &HostRuntime, folder: &str, objects: &Store) -> io::Result<()> {
    let path = format!(in rt.alloc(); "{folder}/bench-append.tmp");
    let (path, bare) = both(path, format!(in rt.alloc(); "{folder}/bench-bare.tmp"))?;
    append_beside(rt, path.as_str(), bare.as_str(), objects)
}

/// Appends to a new file at the path, and bare writes to one at the other path; both are then
/// removed.
fn append_beside(rt: &HostRuntime, path: &str, bare: &str, objects: &Store) -> io::Result<()> {
    append_to(rt, path, bare, objects)?;
    fs::remove_file(rt, path)?;
    fs::remove_file(rt, bare)
}

fn append_to(rt: &HostRuntime, path: &str, bare: &str, objects: &Store) -> io::Result<()> {
    let mut options = OpenOptions::new();
    let bare = options.write(true).create_new(true).open(rt, bare)?;
    let done = append_at(rt, path, objects, &bare);
    drop(bare);
    done
}

/// Appends to a new file at the path, and bare writes to the other one.
fn append_at(rt: &HostRuntime, path: &str, objects: &Store, bare: &File) -> io::Result<()> {
    let (file, table) = begin_at(rt, path)?;
    let mut kept = Kept::of(file, table);
    let done = in_turn(rt, &mut kept, objects, bare);
    drop(kept);
    done
}

/// Writes a file with all objects, as appends leave it.
fn write_file(rt: &HostRuntime, path: &str, objects: &Store) -> io::Result<()> {
    let mut kept = new_in_memory(rt.alloc())?;
    let done = write_kept(rt, path, &mut kept, objects);
    drop(kept);
    done
}

fn write_kept(
    rt: &HostRuntime,
    path: &str,
    kept: &mut Kept<MemoryDevice>,
    objects: &Store,
) -> io::Result<()> {
    for number in 0..KEYS {
        append_one(rt, kept, objects, number)?;
    }
    let mut file = File::create(rt, path)?;
    file.write_all(kept.content())
}

/// Returns the nanoseconds of opening the path as a file that is only read.
fn time_of_opening(rt: &HostRuntime, path: &str) -> io::Result<u128> {
    let start = Instant::now(rt)?;
    let (table, _life) = read(rt, path)?;
    let (time, len) = (start.elapsed(rt), table.len());
    drop(table);
    let nanos = time?.as_nanos();
    if len == KEYS as usize {
        Ok(nanos)
    } else {
        Ok(0)
    }
}

fn measure_opening(rt: &HostRuntime, folder: &str, objects: &Store) -> io::Result<()> {
    let path = format!(in rt.alloc(); "{folder}/bench-open.tmp")?;
    measure_opening_at(rt, path.as_str(), objects)
}

fn measure_opening_at(rt: &HostRuntime, path: &str, objects: &Store) -> io::Result<()> {
    write_file(rt, path, objects)?;
    let mut samples = [0u128; OPENINGS];
    for sample in samples.iter_mut() {
        *sample = time_of_opening(rt, path)?;
    }
    print(rt, "open_8192_records", median(&mut samples) / 1_000, "us")?;
    fs::remove_file(rt, path)
}

//! Measures what nodes do, and prints lines `name value unit`: with the word `store`, writes, reads
//! and the tree of one node; with `exchange`, exchanges of two; with `codec FILE`, how the frames
//! that the file has one after another are read and written; with `steps`, steps of a node. With
//! other words it prints nothing. The names of the first three are those of a baseline in plain
//! Rust, in which FILE is `mix` or the name of a kind.
//!
//! A node is passed by reference, so that no function owns two if a call fails.

mod codec;
mod paces;
mod sides;
mod steps;
mod table;
mod writes;

use crate::rows::node;
use crate::subject::Subject;
use codec::{Codec, Coding};
use paces::{median_pace, median_time, print_coding, print_exchange, print_pace};
use sides::Sides;
use std::{fs, io};
use steps::{median_of_gossips, median_of_writes, print_rate};
use table::{Table, Work};
use writes::Writes;

/// How many keys a table has, and under how many full prefixes.
const TABLES: [(u32, u32); 4] = [(100, 1), (1_000, 1), (8_192, 1), (8_192, 32)];

/// Under how many keys two stores differ.
const CHANGES: [u32; 4] = [1, 10, 100, 1_000];

/// How many keys a node holds when its steps are measured.
const SIZES: [u32; 2] = [100, 8_192];

pub(crate) fn run(rt: &HostRuntime, words: &[String]) -> io::Result<()> {
    match words {
        [part, file] if part.as_str() == "codec" => measure_codec(rt, file.as_str()),
        [part, ..] => measure(rt, part.as_str()),
        _ => Ok(()),
    }
}

fn measure(rt: &HostRuntime, part: &str) -> io::Result<()> {
    match part {
        "store" => measure_store(rt),
        "exchange" => measure_exchange(rt),
        "steps" => measure_steps(rt),
        _ => Ok(()),
    }
}

fn measure_store(rt: &HostRuntime) -> io::Result<()> {
    for (count, prefixes) in TABLES {
        let mut table = Table::filled(rt.alloc(), count, prefixes)?;
        let done = measure_table(rt, &mut table, count, prefixes);
        drop(table);
        done?;
    }
    Ok(())
}

fn measure_table(rt: &HostRuntime, table: &mut Table, count: u32, prefixes: u32) -> io::Result<()> {
    for work in [
        Work::PutWithTree,
        Work::Put,
        Work::Look,
        Work::Fill,
        Work::WholeRoot,
    ] {
        let pace = median_pace(rt, table, work)?;
        print_pace(rt, work, count, prefixes, pace)?;
    }
    Ok(())
}

fn measure_exchange(rt: &HostRuntime) -> io::Result<()> {
    for changes in CHANGES {
        let sides = Sides::differing(rt.alloc(), changes)?;
        let done = measure_sides(rt, &sides, changes);
        drop(sides);
        done?;
    }
    Ok(())
}

fn measure_sides(rt: &HostRuntime, sides: &Sides, changes: u32) -> io::Result<()> {
    let sent = sides.sent()?;
    let nanos = median_time(rt, sides)?;
    print_exchange(rt, changes, nanos, sent)
}

fn measure_codec(rt: &HostRuntime, file: &str) -> io::Result<()> {
    let bytes = fs::read(rt, file)?;
    measure_bytes(rt, file, bytes.as_slice())
}

/// Measures the codec over the frames that the bytes are.
fn measure_bytes(rt: &HostRuntime, file: &str, bytes: &[u8]) -> io::Result<()> {
    let mut codec = Codec::of(rt.alloc(), bytes)?;
    let done = measure_frames(rt, file, bytes.len(), &mut codec);
    drop(codec);
    done
}

fn measure_frames(rt: &HostRuntime, file: &str, size: usize, codec: &mut Codec) -> io::Result<()> {
    for coding in [Coding::Decode, Coding::Encode] {
        let pace = median_pace(rt, codec, coding)?;
        print_coding(rt, coding, file, (codec.len(), size), pace)?;
    }
    Ok(())
}

fn measure_steps(rt: &HostRuntime) -> io::Result<()> {
    for count in SIZES {
        let mut writes = Writes::new(rt.alloc(), count)?;
        let done = measure_size(rt, &mut writes, count);
        drop(writes);
        done?;
    }
    Ok(())
}

fn measure_size(rt: &HostRuntime, writes: &mut Writes, count: u32) -> io::Result<()> {
    let mut writer = Subject::new(rt.alloc(), node(0)?)?;
    let done = measure_writer(rt, writes, &mut writer, count);
    drop(writer);
    done
}

/// Measures writes of a node that knows nobody, and then how another node takes what it sends.
fn measure_writer(
    rt: &HostRuntime,
    writes: &mut Writes,
    writer: &mut Subject,
    count: u32,
) -> io::Result<()> {
    writes.fill(writer)?;
    let nanos = median_of_writes(rt, writes, writer)?;
    print_rate(rt, "step_put_over", count, nanos)?;
    let mut reader = writer.other(rt.alloc(), node(1)?)?;
    let done = measure_reader(rt, writes, writer, &mut reader, count);
    drop(reader);
    done
}

/// Measures how a node takes what another node sends that holds the same keys, once both are
/// neighbours.
fn measure_reader(
    rt: &HostRuntime,
    writes: &mut Writes,
    writer: &mut Subject,
    reader: &mut Subject,
    count: u32,
) -> io::Result<()> {
    reader.join(writer)?;
    let nanos = median_of_gossips(rt, writes, writer, reader)?;
    print_rate(rt, "step_fresh_gossip", count, nanos)
}

//! Runs over a reader and a writer that do as their fields say.

use crate::devices::{Device, Feed};
use crate::texts::{LONG_ROWS, LongRow, ROWS, Row};
use resolvers::{Largest, Lww, Resolver};
use scenario::{ScenarioFault, run_over};
use std::alloc::Global;
use std::process::Abort;
use streams::MayFail;

/// How a run ends.
pub type Done = Result<(), ScenarioFault>;

pub fn lww(rt: &impl Abort, alloc: Global) -> Box<dyn Resolver> {
    let boxed = match Box::new(alloc, Lww) {
        Ok(boxed) => boxed,
        Err(_) => Box::new(alloc, Lww).expect(rt, "memory once more"),
    };
    boxed
}

pub fn largest(rt: &impl Abort, alloc: Global) -> Box<dyn Resolver> {
    let boxed = match Box::new(alloc, Largest) {
        Ok(boxed) => boxed,
        Err(_) => Box::new(alloc, Largest).expect(rt, "memory once more"),
    };
    boxed
}

/// Runs a text with `count` resolvers. Returns how it ends, and what became of the device.
pub fn run(
    rt: &impl Abort,
    alloc: Global,
    feed: Feed,
    device: Device,
    count: usize,
) -> (Done, Device) {
    let all = [lww(rt, alloc), largest(rt, alloc)];
    let mut writer = MayFail(device);
    let resolvers = all.get(..count).unwrap_or(&[]);
    let done = run_over(alloc, &mut MayFail(feed), &mut writer, resolvers);
    drop(all);
    (done, writer.0)
}

/// Returns how a run ends whose first bad line is this one, 0 for none.
fn end(bad: u64) -> Done {
    if bad == 0 {
        Ok(())
    } else {
        Err(ScenarioFault::BadLine { line: bad })
    }
}

/// A text, in pieces of at most `most` bytes.
fn assert_prints(rt: &impl Abort, alloc: Global, row: Row, most: usize) {
    let (text, count, output, bad) = row;
    let (mut reader, mut writer) = (Feed::new(text), Device::new(output));
    reader.most = most;
    writer.most = most;
    let (done, writer) = run(rt, alloc, reader, writer, count);
    assert!(rt; writer.is_right && writer.wanted.is_empty());
    assert!(rt; done == end(bad));
}

#[test]
fn each_text_prints_its_output_in_pieces_of_any_length(rt: HostRuntime) {
    for row in &ROWS {
        for most in 1..20 {
            assert_prints(&rt, rt.alloc(), *row, most);
        }
    }
}

fn assert_long(rt: &impl Abort, alloc: Global, row: LongRow) {
    let (text, times, output, bad) = row;
    let mut reader = Feed::new(text);
    reader.times = times.saturating_sub(1);
    let (done, writer) = run(rt, alloc, reader, Device::new(output), 0);
    assert!(rt; writer.is_right && writer.wanted.is_empty());
    assert!(rt; done == end(bad));
}

#[test]
fn lines_may_be_long(rt: HostRuntime) {
    for row in &LONG_ROWS {
        assert_long(&rt, rt.alloc(), *row);
    }
}

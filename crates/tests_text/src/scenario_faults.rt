//! Readers and writers that fail, and a text that is too long.

use crate::devices::{Device, End, Feed};
use crate::scenario_runs::{Done, run};
use crate::texts::{OUTPUT, TEXT, TIMES_TOO_LONG, TOO_LONG};
use scenario::ScenarioFault;
use std::alloc::Global;
use std::io::ErrorKind;
use std::process::Abort;
use streams::StreamFault;

fn fault(fault: StreamFault) -> Done {
    Err(ScenarioFault::Stream(fault))
}

/// Asserts that a reader fails after `at` bytes of the text.
fn assert_not_read(rt: &impl Abort, alloc: Global, at: usize, kind: ErrorKind) {
    let mut reader = Feed::new(TEXT.get(..at).expect(rt, "a front"));
    reader.most = 7;
    reader.end = End::Fails(kind);
    let (done, writer) = run(rt, alloc, reader, Device::new(b""), 0);
    assert!(rt; writer.is_right && done == fault(StreamFault::Read));
}

#[test]
fn a_reader_that_fails_at_any_byte(rt: HostRuntime) {
    for at in 0..TEXT.len() {
        assert_not_read(&rt, rt.alloc(), at, ErrorKind::Other);
        assert_not_read(&rt, rt.alloc(), at, ErrorKind::Interrupted);
    }
}

/// A text, what it prints, the kind of error with which the writer fails, or none if it takes no
/// more, and how the run then ends.
type Row = (&'static [u8], &'static [u8], Option<ErrorKind>, StreamFault);

static ROWS: [Row; 4] = [
    (TEXT, OUTPUT, None, StreamFault::Write),
    (TEXT, OUTPUT, Some(ErrorKind::Other), StreamFault::Write),
    (
        TEXT,
        OUTPUT,
        Some(ErrorKind::BrokenPipe),
        StreamFault::BrokenPipe,
    ),
    (
        b"nonsense",
        b"error 70 BadLine 1\n",
        None,
        StreamFault::Write,
    ),
];

/// Asserts that the writer fails once it took `room` bytes.
fn assert_not_written(rt: &impl Abort, alloc: Global, row: Row, room: usize) {
    let (text, output, kind, wanted) = row;
    let writer = Device {
        room,
        most: 9,
        fault: kind,
        ..Device::new(output)
    };
    let (done, writer) = run(rt, alloc, Feed::new(text), writer, 2);
    assert!(rt; writer.is_right && writer.room == 0);
    assert!(rt; done == fault(wanted));
}

#[test]
fn a_writer_that_fails_at_any_byte_has_a_front(rt: HostRuntime) {
    for row in &ROWS {
        for room in 0..row.1.len() {
            assert_not_written(&rt, rt.alloc(), *row, room);
        }
    }
}

#[test]
fn one_byte_more_than_is_read_is_too_long(rt: HostRuntime) {
    let mut reader = Feed::new(TOO_LONG);
    reader.times = TIMES_TOO_LONG.saturating_sub(1);
    let (done, writer) = run(&rt, rt.alloc(), reader, Device::new(b""), 0);
    assert!(rt; writer.is_right && done == fault(StreamFault::InputTooLong));
}

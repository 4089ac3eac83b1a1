//! Runs of `frame` over readers and writers that give and take little at a time, or fail; and of
//! sealed frames.

use crate::devices::{Device, End, Feed, Lines};
use plumctl_core::{Ended, frame_lines, read_keys, run_frame, tell};
use sealed_frames::Keys;
use std::alloc::{AllocError, Global};
use std::io::ErrorKind;
use streams::{MayFail, StreamFault};

// A frame, a line that is not all digits, and an empty one: they end at 45, 48 and 49.
const INPUT: &[u8] = b"50540204 0001 0000 0000000000000005 00000000\n5g\n\n";

// What is printed for them, which ends at 27, 42 and 57.
const TEXT: &[u8] = b"PRUNE from 1 to 0 number 5\nerror 9 BadHex\nerror 10 Short\n";

const INTERRUPTED: End = End::Fails(ErrorKind::Interrupted);

const BROKEN_PIPE: Option<ErrorKind> = Some(ErrorKind::BrokenPipe);

/// How a run ends.
type Done = Result<Ended, StreamFault>;

/// Reads the text and writes to the device. Returns how the run ends, and what became of the
/// device.
fn run(alloc: Global, feed: Feed, device: Device) -> (Done, Device) {
    let mut writer = MayFail(device);
    let done = frame_lines(alloc, None, &mut MayFail(feed), &mut writer);
    (done, writer.0)
}

/// Returns whether a text is printed as another, and the run ends so.
fn prints(alloc: Global, input: &'static [u8], text: &'static [u8], ended: Ended) -> bool {
    let feed = Feed::new(input);
    let (done, device) = run(alloc, feed, Device::new(text));
    done == Ok(ended) && device.is_right && device.unseen == 0
}

#[test]
fn a_last_line_feed_starts_no_line(rt: HostRuntime) {
    let table: [(&[u8], &[u8], Ended); 6] = [
        (b"", b"", Ended::AllPrinted),
        (b"\n", b"error 10 Short\n", Ended::SomeRefused),
        (
            b"\n\n",
            b"error 10 Short\nerror 10 Short\n",
            Ended::SomeRefused,
        ),
        (b"  ", b"error 10 Short\n", Ended::SomeRefused),
        (b"5g", b"error 9 BadHex\n", Ended::SomeRefused),
        (&INPUT[..44], &TEXT[..27], Ended::AllPrinted),
    ];
    for (input, text, ended) in table {
        assert!(rt; prints(rt.alloc(), input, text, ended), "{input:?}");
    }
}

/// Returns how many bytes are seen outside, and how often they were passed on, when this many bytes
/// were given one by one and the reader then fails; `None` if others were printed, or the run ended
/// otherwise.
fn seen_after(alloc: Global, given: usize, kind: ErrorKind) -> Option<(usize, u32)> {
    let feed = Feed {
        most: 1,
        end: End::Fails(kind),
        ..Feed::new(&INPUT[..given.min(INPUT.len())])
    };
    let (done, device) = run(alloc, feed, Device::new(TEXT));
    if done == Err(StreamFault::Read) && device.is_right {
        Some((TEXT.len().saturating_sub(device.unseen), device.flushes))
    } else {
        None
    }
}

#[test]
fn a_line_is_answered_before_the_next_is_waited_for(rt: HostRuntime) {
    for given in 0..=49 {
        let seen = match given {
            0..45 => (0, 0),
            45..48 => (27, 1),
            48 => (42, 2),
            _ => (57, 3),
        };
        for kind in [ErrorKind::Interrupted, ErrorKind::Other] {
            assert!(rt;
                seen_after(rt.alloc(), given, kind) == Some(seen),
                "{given} bytes"
            );
        }
    }
}

/// Returns how often the device is flushed in a run that reads at most `most` bytes at a time, to
/// its end.
fn flushes(alloc: Global, most: usize) -> Option<u32> {
    let feed = Feed {
        most,
        ..Feed::new(INPUT)
    };
    let (done, device) = run(alloc, feed, Device::new(TEXT));
    if done == Ok(Ended::SomeRefused) && device.is_right && device.unseen == 0 {
        Some(device.flushes)
    } else {
        None
    }
}

#[test]
fn lines_that_are_read_at_once_are_passed_on_at_once(rt: HostRuntime) {
    for (most, count) in [(1, 4), (45, 3), (46, 3), (48, 3), (49, 2), (100, 2)] {
        assert!(rt; flushes(rt.alloc(), most) == Some(count), "{most} bytes");
    }
}

#[test]
fn an_interruption_is_not_tried_again(rt: HostRuntime) {
    let feed = Feed {
        most: 1,
        end: End::FailsOnce(ErrorKind::Interrupted),
        ..Feed::new(b"")
    };
    let (done, _) = run(rt.alloc(), feed, Device::new(b""));
    assert!(rt; done == Err(StreamFault::Read));
}

/// Returns how the run ended, and how many bytes of the text a device took until the writer failed,
/// with room for `room` bytes and at most `most` at a time; `None` if it took others.
fn taken_until_full(
    alloc: Global,
    room: usize,
    most: usize,
    fault: Option<ErrorKind>,
) -> Option<(Done, usize)> {
    let feed = Feed::new(INPUT);
    let device = Device {
        room,
        most,
        fault,
        ..Device::new(TEXT)
    };
    let (done, device) = run(alloc, feed, device);
    if device.is_right {
        Some((done, TEXT.len().saturating_sub(device.wanted.len())))
    } else {
        None
    }
}

#[test]
fn a_writer_that_is_full_at_any_byte_has_a_front(rt: HostRuntime) {
    for room in 0..57 {
        for most in [1, 100] {
            let full = taken_until_full(rt.alloc(), room, most, None);
            assert!(rt;
                full == Some((Err(StreamFault::Write), room)),
                "{room} bytes"
            );
            let closed = taken_until_full(rt.alloc(), room, most, BROKEN_PIPE);
            assert!(rt;
                closed == Some((Err(StreamFault::BrokenPipe), room)),
                "{room} bytes"
            );
        }
    }
}

#[test]
fn a_writer_that_can_not_be_flushed_has_failed(rt: HostRuntime) {
    let taken = taken_until_full(rt.alloc(), 100, 100, BROKEN_PIPE);
    assert!(rt; taken == Some((Err(StreamFault::Write), 57)));
}

/// Returns how a run over `left` bytes ends, in long lines that are not all digits.
fn run_of_lines(alloc: Global, left: usize) -> Done {
    let mut writer = MayFail(Device::new(b""));
    frame_lines(alloc, None, &mut MayFail(Lines { left }), &mut writer)
}

#[test]
fn an_input_of_67108864_bytes_is_read(rt: HostRuntime) {
    assert!(rt; run_of_lines(rt.alloc(), 67_108_864) == Ok(Ended::SomeRefused));
}

#[test]
fn an_input_of_67108865_bytes_is_too_long(rt: HostRuntime) {
    assert!(rt; run_of_lines(rt.alloc(), 67_108_865) == Err(StreamFault::InputTooLong));
}

/// Returns the exit status of a run to a device, over a text that goes on as `end` says; `None` if
/// something else is printed at standard error.
fn exit(
    alloc: Global,
    text: &'static [u8],
    end: End,
    device: Device,
    told: &'static [u8],
) -> Option<u8> {
    let feed = Feed {
        end,
        ..Feed::new(text)
    };
    let mut errors = MayFail(Device::new(told));
    let status = run_frame(
        alloc,
        None,
        &mut MayFail(feed),
        &mut MayFail(device),
        &mut errors,
    );
    is_told(errors.0).then_some(status)
}

fn is_told(errors: Device) -> bool {
    errors.is_right && errors.wanted.is_empty()
}

#[test]
fn a_run_exits_with_its_status_and_tells_its_fault(rt: HostRuntime) {
    let full = Device {
        room: 0,
        ..Device::new(TEXT)
    };
    let closed = Device {
        fault: BROKEN_PIPE,
        ..full
    };
    let table: [(&[u8], End, Device, u8, &[u8]); 5] = [
        (&INPUT[..44], End::Over, Device::new(&TEXT[..27]), 0, b""),
        (INPUT, End::Over, Device::new(TEXT), 1, b""),
        (INPUT, INTERRUPTED, Device::new(TEXT), 3, b"error 7 Read\n"),
        (
            INPUT,
            End::Over,
            full,
            3,
            b"error: the output could not be written\n",
        ),
        (INPUT, End::Over, closed, 3, b""),
    ];
    for (text, end, device, status, told) in table {
        assert!(rt;
            exit(rt.alloc(), text, end, device, told) == Some(status),
            "{told:?}"
        );
    }
}

/// Returns the exit status of a run over `left` bytes; `None` if something else is printed at
/// standard error.
fn exit_after(alloc: Global, left: usize, told: &'static [u8]) -> Option<u8> {
    let mut errors = MayFail(Device::new(told));
    let mut writer = MayFail(Device::new(b""));
    let status = run_frame(
        alloc,
        None,
        &mut MayFail(Lines { left }),
        &mut writer,
        &mut errors,
    );
    is_told(errors.0).then_some(status)
}

#[test]
fn a_run_over_too_long_an_input_exits_with_1(rt: HostRuntime) {
    let status = exit_after(rt.alloc(), 67_108_865, b"error 8 InputTooLong\n");
    assert!(rt; status == Some(1));
}

/// Returns the exit status of a fault; `None` if something else is printed at standard error.
fn status_of(fault: StreamFault, told: &'static [u8]) -> Option<u8> {
    let mut errors = MayFail(Device::new(told));
    let status = tell(&mut errors, fault);
    is_told(errors.0).then_some(status)
}

#[test]
fn a_fault_is_told_by_its_number_and_name(rt: HostRuntime) {
    assert!(rt; status_of(StreamFault::InputTooLong, b"error 8 InputTooLong\n") == Some(1));
    assert!(rt; status_of(StreamFault::Memory, b"error 99 Memory\n") == Some(4));
}

// The key of the bytes 0 to 31, behind one of the byte 7, which is the current one of the two.
const KEYS: &[u8] = b"\
    \x07\x07\x07\x07\x07\x07\x07\x07\x07\x07\x07\x07\x07\x07\x07\x07\
    \x07\x07\x07\x07\x07\x07\x07\x07\x07\x07\x07\x07\x07\x07\x07\x07\
    \x00\x01\x02\x03\x04\x05\x06\x07\x08\x09\x0a\x0b\x0c\x0d\x0e\x0f\
    \x10\x11\x12\x13\x14\x15\x16\x17\x18\x19\x1a\x1b\x1c\x1d\x1e\x1f";

// The frame of `INPUT`, and behind it its seal under the key of the bytes 0 to 31, by Python's
// `hmac`.
const SEALED: &[u8] = b"5054020400010000000000000000000500000000881408dd1a3e216b75c32aab9d9f1530";

/// Returns whether a line prints as a text under the keys that these bytes are.
fn prints_under(alloc: Global, keys: &[u8], line: &[u8], text: &[u8]) -> bool {
    match Keys::from_slice(keys) {
        Ok(keys) => prints_as(alloc, Some(&keys), line, text),
        Err(_) => false,
    }
}

/// Returns whether a line prints as a text.
fn prints_as(alloc: Global, keys: Option<&Keys>, line: &[u8], text: &[u8]) -> bool {
    let mut reader = line;
    let mut writer = Vec::new(alloc);
    let done = frame_lines(alloc, keys, &mut reader, &mut writer);
    done.is_ok() && writer.as_slice() == text
}

#[test]
fn a_sealed_line_prints_as_its_frame(rt: HostRuntime) {
    let frame = &TEXT[..27];
    assert!(rt; prints_under(rt.alloc(), &KEYS[32..], SEALED, frame));
    assert!(rt; prints_under(rt.alloc(), KEYS, SEALED, frame));
    assert!(rt; prints_under(rt.alloc(), &KEYS[..32], SEALED, b"error 17 BadSeal\n"));
}

#[test]
fn a_line_says_why_it_does_not_open(rt: HostRuntime) {
    let table: [(&[u8], &[u8]); 5] = [
        (&SEALED[..40], b"error 17 BadSeal\n"),
        (&SEALED[40..], b"error 17 BadSeal\n"),
        (b"\n", b"error 17 BadSeal\n"),
        (b"5g", b"error 9 BadHex\n"),
        // No byte, and the seal of that, by Python's `hmac`.
        (b"d38b42096d80f45f826b44a9d5607de7", b"error 10 Short\n"),
    ];
    for (line, text) in table {
        assert!(rt; prints_under(rt.alloc(), KEYS, line, text), "{line:?}");
    }
}

#[test]
fn without_a_key_a_sealed_line_has_bytes_left_over(rt: HostRuntime) {
    assert!(rt; prints_as(rt.alloc(), None, SEALED, b"error 16 LeftOver\n"));
}

/// Returns the digit whose last bit is another one.
fn other_digit(digit: u8) -> u8 {
    match digit {
        b'a' | b'c' | b'e' => digit + 1,
        b'b' | b'd' | b'f' => digit - 1,
        _ => digit ^ 1,
    }
}

/// Returns the sealed line with a bit flipped in the digit at this place.
fn flipped(alloc: Global, place: usize) -> Result<Vec<u8>, AllocError> {
    let mut line = Vec::from_slice(alloc, SEALED)?;
    if let Some(digit) = line.get_mut(place) {
        *digit = other_digit(*digit);
    }
    Ok(line)
}

#[test]
fn a_flipped_bit_is_refused(rt: HostRuntime) {
    for place in 0..72 {
        let is_refused = match flipped(rt.alloc(), place) {
            Ok(line) => prints_under(rt.alloc(), KEYS, line.as_slice(), b"error 17 BadSeal\n"),
            Err(_) => false,
        };
        assert!(rt; is_refused, "digit {place}");
    }
}

/// Reads a file of keys that gives these bytes, at most `most` at a time, and goes on so. Returns
/// the keys, or the exit status; `None` if something else is printed at standard error.
fn keys_of(
    bytes: &'static [u8],
    most: usize,
    end: End,
    told: &'static [u8],
) -> Option<Result<Keys, u8>> {
    let feed = Feed {
        most,
        end,
        ..Feed::new(bytes)
    };
    let mut errors = MayFail(Device::new(told));
    let keys = read_keys(&mut MayFail(feed), "key", &mut errors);
    is_told(errors.0).then_some(keys)
}

#[test]
fn keys_are_read_in_pieces(rt: HostRuntime) {
    for most in [1, 31, 32, 63, 64, 100] {
        let opens = match keys_of(KEYS, most, End::Over, b"") {
            Some(Ok(keys)) => prints_as(rt.alloc(), Some(&keys), SEALED, &TEXT[..27]),
            _ => false,
        };
        assert!(rt; opens, "{most} bytes at a time");
    }
    assert!(rt; matches!(keys_of(&KEYS[..32], 100, End::Over, b""), Some(Ok(_))));
}

#[test]
fn a_file_of_another_length_has_no_keys(rt: HostRuntime) {
    let told = b"error 18 BadKey\ncause: key: has neither 32 bytes nor 64\n";
    for len in [0, 1, 31, 33, 63] {
        let keys = keys_of(&KEYS[..len], 100, End::Over, told);
        assert!(rt; matches!(keys, Some(Err(3))), "{len} bytes");
    }
    for most in [1, 64, 65, 100] {
        let keys = keys_of(SEALED, most, End::Over, told);
        assert!(rt; matches!(keys, Some(Err(3))), "{most} bytes at a time");
    }
}

#[test]
fn a_file_that_fails_has_no_keys(rt: HostRuntime) {
    let told = b"error 7 Read\ncause: key: could not be read\n";
    for len in [0, 32, 64] {
        let keys = keys_of(&KEYS[..len], 100, INTERRUPTED, told);
        assert!(rt; matches!(keys, Some(Err(3))), "{len} bytes");
    }
}

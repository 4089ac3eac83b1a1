//! A device that fails at each of its calls, one run for each, and what a crash may leave of it
//! then.

ghost use Rattle.std.specs.Prelude.{◌≡◌, true};
ghost use Rattle.node_file.specs.File.{file_state};

use crate::files::{TWO, TWO_ANEW};
use crate::parts::{device, found_in, node, object, write};
use devices::{Call, Device, FailsAfter, MemoryDevice};
use meta_store::Store;
use node_file::{FileFault, NodeFile, create, open_node, rewrite, serve};
use std::alloc::Global;
use std::cmp::Ordering;
use std::process::Abort;

/// How making a file, serving it and appending an object ended.
#[derive(Drop)]
struct Ended {
    /// How many of the three succeeded.
    done: usize,
    /// The number of the refusal of the one that failed, and of the append after it: 0 for none.
    codes: (u16, u16),
    device: FailsAfter<MemoryDevice>,
}

/// Writes x, and again if that failed.
fn write_twice(
    rt: &impl Abort,
    alloc: Global,
    mut file: NodeFile<FailsAfter<MemoryDevice>>,
    mut table: Store,
) -> Ended
    requires served { file.is_served ≡ true }
    requires same { (file_state
        (⟦<FailsAfter<MemoryDevice> as Device>⟧.content file.device)).contents.table ≡ table }
{
    let first = write(rt, alloc, &mut file, &mut table, object(rt, alloc, 1, b'x'));
    let again = if first == 0 {
        0
    } else {
        write(rt, alloc, &mut file, &mut table, object(rt, alloc, 1, b'x'))
    };
    Ended {
        done: if first == 0 { 3 } else { 2 },
        codes: (first, again),
        device: file.into_device(),
    }
}

/// Returns what came of all three on a device that passes `passed` calls.
fn after(rt: &impl Abort, alloc: Global, passed: u64) -> Ended {
    let device = FailsAfter::new(device(alloc, b"").expect(rt, "memory"), passed);
    let failed = |done, fault: FileFault, device| Ended {
        done,
        codes: (fault.code(), 0),
        device,
    };
    match create(device, node(rt, 0)) {
        Err((device, fault)) => failed(0, fault, device),
        Ok(file) => match serve(alloc, file.into_device(), None) {
            Err((device, fault)) => failed(1, fault, device),
            Ok((file, table, _)) => write_twice(rt, alloc, file, table),
        },
    }
}

/// A write that isn't synced, and the content before it.
#[derive(Drop)]
pub(crate) struct LastWrite {
    before: Vec<u8>,
    at: usize,
    written: Vec<u8>,
}

/// Writes the bytes over the content, and past its end.
fn write_over(rt: &impl Abort, alloc: Global, content: &mut Vec<u8>, at: usize, bytes: &[u8]) {
    let old = content.to_vec(alloc).expect(rt, "memory");
    content.truncate(at);
    content.extend_from_slice(bytes).expect(rt, "memory");
    if let Some(rest) = old.get(at.wrapping_add(bytes.len())..) {
        content.extend_from_slice(rest).expect(rt, "memory");
    }
}

/// Returns what the device held before its last call.
fn content_before(rt: &impl Abort, alloc: Global, device: &MemoryDevice) -> Vec<u8> {
    let mut content = device.first().to_vec(alloc).expect(rt, "memory");
    let (_, calls) = device.calls().split_last().expect(rt, "a call");
    for call in calls {
        match call {
            Call::Wrote(at, bytes) => write_over(rt, alloc, &mut content, *at, bytes),
            Call::CutTo(len) => content.truncate(*len),
            Call::Synced => {}
        }
    }
    content
}

/// Returns the last call of the device, if it is a write.
pub(crate) fn last_write_of(
    rt: &impl Abort,
    alloc: Global,
    device: &MemoryDevice,
) -> Option<LastWrite> {
    match device.calls().last() {
        Some(Call::Wrote(at, bytes)) => Some(LastWrite {
            before: content_before(rt, alloc, device),
            at: *at,
            written: bytes.to_vec(alloc).expect(rt, "memory"),
        }),
        _ => None,
    }
}

/// How a sector of a write was left.
#[derive(Clone, Copy)]
enum Left {
    /// As it was before, and 0 past the old end.
    Old,
    Written,
    Junk,
    /// Not at all: the content ends before it, or is as it was.
    Cut,
}

/// How the sectors of an unsynced write were left: the first ones, the one after them, and the
/// rest.
type Way = (Left, Left, Left);

static WAYS: &[Way] = &[
    (Left::Written, Left::Old, Left::Old),
    (Left::Old, Left::Written, Left::Old),
    (Left::Written, Left::Old, Left::Written),
    (Left::Written, Left::Junk, Left::Junk),
    (Left::Old, Left::Junk, Left::Old),
    (Left::Written, Left::Junk, Left::Written),
    (Left::Junk, Left::Written, Left::Junk),
    (Left::Written, Left::Cut, Left::Cut),
    (Left::Junk, Left::Cut, Left::Cut),
];

/// Returns the byte that was left at this place of a write, if any.
fn byte_left(write: &LastWrite, place: usize, left: Left) -> Option<u8> {
    let old = write.before.get(write.at.wrapping_add(place)).copied();
    match left {
        Left::Old => Some(old.unwrap_or(0)),
        Left::Written => write.written.get(place).copied(),
        Left::Junk => Some(0xa5),
        Left::Cut => old,
    }
}

/// Returns what a crash left of a write whose first sectors, and the one after them, were left in
/// this way.
fn image(
    rt: &impl Abort,
    alloc: Global,
    write: &LastWrite,
    size: usize,
    first: usize,
    way: Way,
) -> Vec<u8> {
    let mut image = write.before.to_vec(alloc).expect(rt, "memory");
    image.truncate(write.at);
    for place in 0..write.written.len() {
        let left = match place.checked_div(size).unwrap_or(0).cmp(&first) {
            Ordering::Less => way.0,
            Ordering::Equal => way.1,
            Ordering::Greater => way.2,
        };
        if let Some(byte) = byte_left(write, place, left) {
            image.push(byte).expect(rt, "memory");
        }
    }
    let behind = write.at.wrapping_add(write.written.len());
    if let Some(rest) = write.before.get(behind..) {
        image.extend_from_slice(rest).expect(rt, "memory");
    }
    image
}

/// Returns whether each image of sectors of this size opens as one of the two.
pub(crate) fn each_opens(
    rt: &impl Abort,
    alloc: Global,
    write: &LastWrite,
    size: usize,
    states: [(u32, usize); 2],
) -> bool {
    let opens = |first: usize, way: &Way| {
        let image = image(rt, alloc, write, size, first, *way);
        let found = found_in(alloc, &image);
        found == Ok(states[0]) || found == Ok(states[1])
    };
    (0..=write.written.len()).all(|first| WAYS.iter().all(|way| opens(first, way)))
}

#[test]
fn the_call_that_fails_is_told_and_stops_the_file(rt: HostRuntime) {
    // Three calls make a file, four serve it, and four append.
    for passed in 0u64..11 {
        let ended = after(&rt, rt.alloc(), passed);
        let done = match passed {
            0..=2 => 0,
            3..=6 => 1,
            _ => 2,
        };
        let again = if done == 2 { 34 } else { 0 };
        assert!(rt; ended.done == done && ended.codes == (30, again));
    }
    let ended = after(&rt, rt.alloc(), 11);
    assert!(rt; ended.done == 3 && ended.codes == (0, 0));
}

/// Rewrites the file of two records to a device that passes `passed` calls. Returns the number of
/// the refusal, 0 for none, and what the device then holds.
fn anew_after(rt: &impl Abort, alloc: Global, passed: u64) -> (u16, MemoryDevice) {
    let source = device(alloc, TWO).expect(rt, "memory");
    let (file, table, life) = open_node(alloc, source, None).ok().expect(rt, "a file");
    let mut target = FailsAfter::new(device(alloc, b"").expect(rt, "memory"), passed);
    let code = match rewrite(alloc, file.node(), &table, life, &mut target) {
        Ok(()) => 0,
        Err(fault) => fault.code(),
    };
    (code, target.into_inner())
}

#[test]
fn a_target_that_fails_at_any_call_is_told(rt: HostRuntime) {
    // A cut, a write and a sync make the front; then a life and an object are written, and synced.
    for passed in 0u64..6 {
        let (code, _) = anew_after(&rt, rt.alloc(), passed);
        assert!(rt; code == 30, "{passed} calls");
    }
    let (code, target) = anew_after(&rt, rt.alloc(), 6);
    assert!(rt; code == 0 && target.content() == TWO_ANEW);
}

/// Returns whether a crash after `passed` calls leaves a file as it was before the call that
/// failed, or with its record.
fn leaves_one_of_two(rt: &impl Abort, alloc: Global, passed: u64, size: usize) -> bool {
    let ended = after(rt, alloc, passed);
    let states = if passed < 7 {
        [(0, 0), (1, 0)]
    } else {
        [(1, 0), (1, 1)]
    };
    match last_write_of(rt, alloc, ended.device.inner()) {
        Some(write) => each_opens(rt, alloc, &write, size, states),
        None => {
            let found = found_in(alloc, ended.device.inner().content());
            found == Ok(states[0]) || found == Ok(states[1])
        }
    }
}

#[test]
fn a_crash_leaves_the_file_from_before_or_with_the_record(rt: HostRuntime) {
    for size in [1, 7, 512] {
        for passed in 3u64..12 {
            assert!(rt; leaves_one_of_two(&rt, rt.alloc(), passed, size));
        }
    }
}

//! Batches: what a call that succeeds writes, what is left by one that fails or is cut off by a
//! crash, and how many objects it takes.

use crate::files::{EMPTY, ONE, SERVED, TWO};
use crate::parts::{device, found_in, object};
use crate::stops::{each_opens, last_write_of};
use devices::{Device, FailsAfter, MemoryDevice};
use dvvset::Entries;
use meta_store::size::may_be_held;
use meta_types::{FullPrefix, MetaKey};
use node_file::{BatchFault, MAX_BATCH, NewObject, has_room_for_all, serve, spell_append_all};
use std::alloc::Global;
use std::process::Abort;

/// An object under a key.
type Row = (MetaKey, Entries);

/// Returns the object of node 0 in its first life, whose event of this number shows the letter,
/// under the key a/b/`name`.
fn row(rt: &impl Abort, alloc: Global, name: &[u8], count: u64, letter: u8) -> Row {
    let a = b"a".to_vec(alloc).expect(rt, "memory");
    let b = b"b".to_vec(alloc).expect(rt, "memory");
    let prefix = FullPrefix::new(a, b).expect(rt, "a prefix");
    let name = name.to_vec(alloc).expect(rt, "memory");
    let key = MetaKey::new(prefix, name).expect(rt, "a key");
    (key, object(rt, alloc, count, letter))
}

/// Lends an object that a store may hold.
fn lent(row: &Row) -> Option<NewObject<'_>> {
    if may_be_held(&row.1) {
        Some(NewObject::new(&row.0, &row.1))
    } else {
        None
    }
}

/// Lends them all.
fn all_lent<'a>(rt: &impl Abort, alloc: Global, rows: &'a [Row]) -> Vec<NewObject<'a>> {
    let mut objects = Vec::new(alloc);
    for row in rows {
        let object = lent(row).expect(rt, "an object");
        objects.push(object).ok().expect(rt, "memory");
    }
    objects
}

/// How a batch ended, and what it was put into.
#[derive(Drop)]
struct Ended {
    /// The number of the refusal, 0 for none and 1 for too many objects, and the place that it
    /// names. The second is of the same batch, put again after a refusal.
    told: ((u16, usize), (u16, usize)),
    device: FailsAfter<MemoryDevice>,
}

fn told(ended: &Result<(), BatchFault>) -> (u16, usize) {
    match ended {
        Ok(()) => (0, 0),
        Err(BatchFault::TooMany) => (1, 0),
        Err(BatchFault::Object { place, fault }) => (fault.code(), *place),
        Err(BatchFault::File(fault)) => (fault.code(), 0),
    }
}

/// Puts the objects into a file that was served, and whose device passes `passed` calls more.
fn after(rt: &impl Abort, alloc: Global, objects: &[NewObject<'_>], passed: u64) -> Ended {
    let device = device(alloc, EMPTY).expect(rt, "memory");
    // Four calls serve the file.
    let device = FailsAfter::new(device, passed.saturating_add(4));
    let (mut file, table, _) = serve(alloc, device, None).ok().expect(rt, "a life");
    if !has_room_for_all(&table, objects) {
        return Ended {
            told: ((2, 0), (2, 0)),
            device: file.into_device(),
        };
    }
    let first = told(&file.append_all(alloc, objects));
    let again = if file.is_stopped() {
        told(&file.append_all(alloc, objects))
    } else {
        (0, 0)
    };
    Ended {
        told: (first, again),
        device: file.into_device(),
    }
}

/// Returns what is told of a batch, and its device.
fn put(rt: &impl Abort, alloc: Global, objects: &[NewObject<'_>]) -> ((u16, usize), MemoryDevice) {
    let ended = after(rt, alloc, objects, 1_000);
    (ended.told.0, ended.device.into_inner())
}

/// Returns whether the objects, put into a served file at once, leave these bytes, after this
/// number of calls of its device.
fn leave(rt: &impl Abort, alloc: Global, rows: &[Row], whole: &[u8], calls: usize) -> bool {
    let objects = all_lent(rt, alloc, rows);
    let (told, device) = put(rt, alloc, &objects);
    told == (0, 0) && device.content() == whole && device.calls().len() == calls
}

/// Returns whether these are the bytes that a host is handed for the objects.
fn are_spelled_as(rt: &impl Abort, alloc: Global, rows: &[Row], whole: &[u8]) -> bool {
    let objects = all_lent(rt, alloc, rows);
    match spell_append_all(alloc, 52, &objects) {
        Ok(spelled) => spelled.as_slice() == whole,
        Err(_) => false,
    }
}

#[test]
fn a_batch_is_its_records_one_after_the_other(rt: HostRuntime) {
    let alloc = rt.alloc();
    let rows = [
        row(&rt, alloc, b"k", 1, b'x'),
        row(&rt, alloc, b"k", 2, b'y'),
    ];
    // A write, a sync, a gate, a sync, and the same before it to serve the file.
    assert!(rt; leave(&rt, alloc, &rows, TWO, 8));
    assert!(rt; leave(&rt, alloc, &rows[..1], ONE, 8));
    assert!(rt; leave(&rt, alloc, &rows[..0], SERVED, 4));
    assert!(rt; are_spelled_as(&rt, alloc, &rows, &TWO[52..]));
    assert!(rt; are_spelled_as(&rt, alloc, &rows[..0], b""));
}

/// Puts three objects, under keys of their own.
fn after_three(rt: &impl Abort, alloc: Global, passed: u64) -> Ended {
    let rows = [
        row(rt, alloc, b"k", 1, b'x'),
        row(rt, alloc, b"l", 2, b'y'),
        row(rt, alloc, b"m", 3, b'z'),
    ];
    let objects = all_lent(rt, alloc, &rows);
    after(rt, alloc, &objects, passed)
}

#[test]
fn the_call_that_fails_in_a_batch_is_told_and_stops_the_file(rt: HostRuntime) {
    for passed in 0u64..4 {
        let ended = after_three(&rt, rt.alloc(), passed);
        assert!(rt; ended.told == ((30, 0), (34, 0)));
    }
    let ended = after_three(&rt, rt.alloc(), 4);
    assert!(rt; ended.told == ((0, 0), (0, 0)));
}

/// Returns whether a crash after `passed` calls leaves the file without the batch or with all of
/// it.
fn leaves_none_or_all(rt: &impl Abort, alloc: Global, passed: u64, size: usize) -> bool {
    let ended = after_three(rt, alloc, passed);
    let states = [(1, 0), (1, 3)];
    match last_write_of(rt, alloc, ended.device.inner()) {
        Some(write) => each_opens(rt, alloc, &write, size, states),
        None => {
            let found = found_in(alloc, ended.device.inner().content());
            found == Ok(states[0]) || found == Ok(states[1])
        }
    }
}

#[test]
fn a_crash_leaves_none_of_a_batch_or_all(rt: HostRuntime) {
    for size in [1, 7, 512] {
        for passed in 0u64..=4 {
            assert!(rt; leaves_none_or_all(&rt, rt.alloc(), passed, size));
        }
    }
}

/// Puts the same object so many times in one batch.
fn put_times(rt: &impl Abort, alloc: Global, times: usize) -> ((u16, usize), MemoryDevice) {
    let row = row(rt, alloc, b"k", 1, b'x');
    let mut objects = Vec::new(alloc);
    for _ in 0..times {
        let object = lent(&row).expect(rt, "an object");
        objects.push(object).ok().expect(rt, "memory");
    }
    put(rt, alloc, &objects)
}

#[test]
fn a_batch_of_the_greatest_number_succeeds_and_of_one_more_is_refused(rt: HostRuntime) {
    let (told, device) = put_times(&rt, rt.alloc(), MAX_BATCH);
    assert!(rt; told == (0, 0));
    assert!(rt; found_in(rt.alloc(), device.content()) == Ok((1, 1)));
    assert!(rt; device.content().len() == 53 + 77 * MAX_BATCH);
    let (told, device) = put_times(&rt, rt.alloc(), MAX_BATCH + 1);
    assert!(rt; told == (1, 0) && device.content() == SERVED);
}

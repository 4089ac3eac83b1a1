//! What opening a file returns.

use crate::files::{EMPTY, OLD, OLD_ANEW, OLD_TWO, ONE, ROWS, SERVED, TWO, TWO_ANEW};
use crate::parts::{device, found_in, node, told};
use devices::FailsOnce;
use node_file::{FileFault, open_node};
use std::alloc::Global;
use std::test::Fail;

#[test]
fn each_file_tells_what_its_row_says(rt: HostRuntime) {
    for (name, bytes, wanted) in ROWS {
        assert!(rt; found_in(rt.alloc(), bytes) == *wanted, "{name}");
    }
}

#[test]
fn each_file_that_calls_leave_is_opened(rt: HostRuntime) {
    for (bytes, life, keys) in [
        (EMPTY, 0, 0),
        (SERVED, 1, 0),
        (ONE, 1, 1),
        (TWO, 1, 1),
        (TWO_ANEW, 1, 1),
        (OLD, 0, 1),
        (OLD_TWO, 0, 1),
        (OLD_ANEW, 0, 1),
    ] {
        assert!(rt; found_in(rt.alloc(), bytes) == Ok((life, keys)));
    }
}

#[test]
fn a_file_that_is_cut_short_is_damaged_at_a_gate(rt: HostRuntime) {
    for n in 0..ONE.len() {
        let at = match n {
            0..=10 => n,
            11..=51 => 10,
            52..=128 => 52,
            _ => 129,
        };
        assert!(rt; found_in(rt.alloc(), &ONE[..n]) == Err((31, at)));
    }
}

/// Returns what opening the file of one record should return with this byte at that place.
fn wanted_with(at: usize, byte: u8) -> Result<(u32, usize), (u16, usize)> {
    match (at, byte) {
        // The magic of version 1, in which the first payload is no key.
        (7, b'1') => Err((31, 10)),
        (0..=7, _) => Err((31, 0)),
        (9, 1..=15) => Ok((1, 1)),
        (8..=9, _) => Err((31, 8)),
        (10, _) => Ok((0, 0)),
        (11..=51, _) => Err((31, 10)),
        (52, _) => Ok((1, 0)),
        (53..=128, _) => Err((31, 52)),
        (_, 1) => Err((31, 129)),
        _ => Ok((1, 1)),
    }
}

/// Returns how often a file opens as it should when its byte at this place is changed to each other
/// value.
fn right_with(alloc: Global, file: &mut Vec<u8>, at: usize) -> usize {
    let mut count = 0usize;
    for change in 1u8..=255 {
        let byte = file.get(at).copied().unwrap_or(0) ^ change;
        if let Some(place) = file.get_mut(at) {
            *place = byte;
        }
        if found_in(alloc, file.as_slice()) == wanted_with(at, byte) {
            count = count.saturating_add(1);
        }
        if let Some(place) = file.get_mut(at) {
            *place = byte ^ change;
        }
    }
    count
}

#[test]
fn a_file_with_one_byte_changed_is_damaged_at_its_gate_or_ends_there(rt: HostRuntime) {
    let mut file = ONE.to_vec(rt.alloc()).expect(&rt, "memory");
    for at in 0..ONE.len() {
        assert!(rt; right_with(rt.alloc(), &mut file, at) == 255, "byte {at}");
    }
}

#[test]
fn another_node_is_refused(rt: HostRuntime) -> Result<(), Fail> {
    let device = device(rt.alloc(), ONE)?;
    match open_node(rt.alloc(), device, Some(node(&rt, 1))) {
        Ok(_) => Err(Fail::new("the file of another node was opened")),
        Err((device, fault)) => {
            assert!(rt; fault == FileFault::OtherNode);
            let again = open_node(rt.alloc(), device, Some(node(&rt, 0)));
            assert!(rt; again.is_ok());
            Ok(())
        }
    }
}

#[test]
fn a_read_that_fails_is_told_once(rt: HostRuntime) -> Result<(), Fail> {
    let device = FailsOnce::new(device(rt.alloc(), ONE)?, 0);
    match open_node(rt.alloc(), device, None) {
        Ok(opened) => {
            drop(opened);
            Err(Fail::new("a file was opened that wasn't read"))
        }
        Err((device, fault)) => {
            let told = told(&fault);
            let again = open_node(rt.alloc(), device, None);
            let is_read = again.is_ok();
            drop(again);
            assert!(rt; told == (30, 0) && is_read);
            Ok(())
        }
    }
}

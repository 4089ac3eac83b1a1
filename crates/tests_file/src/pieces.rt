//! Files that come in pieces: what is told of them is what opening all the bytes in one tells, and
//! what `changed_gate` tells of them.

use crate::files::{EMPTY, GATES, LIVES, OLD, OLD_TWO, ONE, ROWS, SERVED, TWO};
use crate::keys::with_keys;
use crate::parts::{found_in, node, told};
use file_pieces::Reading;
use node_file::{FileFault, MAX_LOOKED_AT, changed_gate};
use std::alloc::Global;

/// Returns what the reading of a file tells that came in these pieces, one after the other, each of
/// `len` bytes, but for the last.
fn found_in_pieces(
    alloc: Global,
    first: &[u8],
    behind: &[u8],
    len: usize,
) -> Result<(u32, usize), (u16, usize)> {
    match read_pieces(alloc, first, behind, len) {
        Ok(found) => Ok(found),
        Err(fault) => Err(told(&fault)),
    }
}

fn read_pieces(
    alloc: Global,
    first: &[u8],
    behind: &[u8],
    len: usize,
) -> Result<(u32, usize), FileFault> {
    let mut reading = Reading::new(alloc, None);
    reading.push(first)?;
    for piece in behind.chunks(len.max(1)) {
        reading.push(piece)?;
    }
    let contents = reading.finish()?;
    Ok((contents.life, contents.table.len()))
}

/// Returns whether the file tells the same in pieces of each length up to 17 bytes, and in two
/// pieces, cut at each byte.
fn is_told_in_pieces(alloc: Global, bytes: &[u8]) -> bool {
    let wanted = found_in(alloc, bytes);
    for len in 1..=17 {
        if found_in_pieces(alloc, &[], bytes, len) != wanted {
            return false;
        }
    }
    for at in 0..=bytes.len() {
        let (front, behind) = bytes.split_at(at);
        if found_in_pieces(alloc, front, behind, bytes.len()) != wanted {
            return false;
        }
    }
    true
}

#[test]
fn each_row_is_told_in_pieces(rt: HostRuntime) {
    for (name, bytes, _) in ROWS {
        assert!(rt; is_told_in_pieces(rt.alloc(), bytes), "{name}");
    }
}

#[test]
fn each_file_is_told_in_pieces(rt: HostRuntime) {
    for bytes in [EMPTY, SERVED, ONE, TWO, LIVES, OLD, OLD_TWO] {
        assert!(rt; is_told_in_pieces(rt.alloc(), bytes));
    }
}

#[test]
fn a_file_that_is_cut_short_is_told_in_pieces(rt: HostRuntime) {
    for n in 0..LIVES.len() {
        let (bytes, _) = LIVES.split_at(n);
        let told = found_in_pieces(rt.alloc(), &[], bytes, 7);
        assert!(rt; told == found_in(rt.alloc(), bytes), "{n} bytes");
    }
}

#[test]
fn a_file_with_a_key_too_many_is_told_in_pieces(rt: HostRuntime) {
    let alloc = rt.alloc();
    let mut file = with_keys(&rt, alloc, 8193);
    // A record that isn't whole comes first.
    let cut = found_in_pieces(alloc, &[], &file, 65_536);
    assert!(rt; cut == Err((31, file.len())));
    file.push(0).expect(&rt, "memory");
    assert!(rt; found_in_pieces(alloc, &[], &file, 65_536) == Err((25, 0)));
}

#[test]
fn another_node_is_refused_in_pieces(rt: HostRuntime) {
    let mut reading = Reading::new(rt.alloc(), Some(node(&rt, 1)));
    for piece in ONE.chunks(5) {
        assert!(rt; reading.push(piece).is_ok());
    }
    assert!(rt; reading.finish().err() == Some(FileFault::OtherNode));
}

/// Returns what the reading of a file tells of its closed gate that came in pieces of `len` bytes.
fn shown_in_pieces(alloc: Global, bytes: &[u8], len: usize) -> Result<Option<usize>, FileFault> {
    let mut reading = Reading::new(alloc, None);
    for piece in bytes.chunks(len.max(1)) {
        reading.push(piece)?;
    }
    let contents = reading.finish()?;
    Ok(contents.changed_gate)
}

/// Returns whether the file with this byte at this place shows the same gate in pieces of each
/// length up to 17 bytes as in one.
fn is_shown_in_pieces(alloc: Global, file: &[u8], at: usize, byte: u8) -> bool {
    let Ok(mut bytes) = file.to_vec(alloc) else {
        return false;
    };
    if let Some(place) = bytes.get_mut(at) {
        *place = byte;
    }
    let Ok(wanted) = changed_gate(alloc, &bytes) else {
        return false;
    };
    for len in 1..=17 {
        if shown_in_pieces(alloc, &bytes, len).ok() != Some(wanted) {
            return false;
        }
    }
    true
}

#[test]
fn each_changed_gate_is_shown_in_pieces(rt: HostRuntime) {
    for at in GATES {
        for byte in [0, 2, 3, 255] {
            let is_same = is_shown_in_pieces(rt.alloc(), LIVES, *at, byte);
            assert!(rt; is_same, "gate at {at}, byte {byte}");
        }
    }
    assert!(rt; is_shown_in_pieces(rt.alloc(), OLD_TWO, 10, 0));
}

#[test]
fn a_changed_gate_is_shown_with_its_offset(rt: HostRuntime) {
    let mut bytes = LIVES.to_vec(rt.alloc()).expect(&rt, "memory");
    for at in [129, 10] {
        if let Some(gate) = bytes.get_mut(at) {
            *gate = 0;
        }
        assert!(rt; shown_in_pieces(rt.alloc(), &bytes, 5).ok() == Some(Some(at)));
    }
}

#[test]
fn files_as_they_are_written_show_no_changed_gate_in_pieces(rt: HostRuntime) {
    for bytes in [EMPTY, SERVED, ONE, TWO, LIVES, OLD, OLD_TWO] {
        assert!(rt; shown_in_pieces(rt.alloc(), bytes, 7).ok() == Some(None));
    }
}

#[test]
fn a_reading_is_told_once_all_that_is_looked_at_has_come(rt: HostRuntime) {
    let mut reading = Reading::new(rt.alloc(), None);
    assert!(rt; reading.push(ONE).is_ok() && !reading.is_told());
    let behind = vec![in rt.alloc(); 0; MAX_LOOKED_AT - 2].expect(&rt, "memory");
    assert!(rt; reading.push(&behind).is_ok() && !reading.is_told());
    assert!(rt; reading.push(&[0]).is_ok() && reading.is_told());
    assert!(rt; reading.push(&[1]).is_ok() && reading.is_told());
    assert!(rt; reading.finish().is_ok());
}

/// Returns whether a file with two records is read; `None` if memory is refused.
fn is_read(alloc: Global) -> Option<bool> {
    match read_pieces(alloc, &[], TWO, 17) {
        Ok(found) => Some(found == (1, 1)),
        Err(fault) => if fault == FileFault::Memory {
            None
        } else {
            Some(false)
        },
    }
}

#[test]
fn a_file_is_read_again_under_refused_memory(rt: HostRuntime) {
    let done = is_read(rt.alloc()).or_else(|| is_read(rt.alloc()));
    assert!(rt; done == Some(true));
}

//! A file with more keys than a store holds.

use crate::parts::found_in;
use sha2::{Digest, Sha256};
use std::alloc::Global;
use std::process::Abort;

/// Adds a record of the object of node 0 that shows x, under the key of this number.
fn add_record(rt: &impl Abort, alloc: Global, file: &mut Vec<u8>, number: u16) {
    let mut payload = b"\x01\0\x01a\0\x01b\0\x02"
        .to_vec(alloc)
        .expect(rt, "memory");
    payload
        .extend_from_slice(&number.to_be_bytes())
        .expect(rt, "memory");
    let object = b"\0\x01\0\0\0\0\0\x01\0\0\0\0\0\0\0\x01\0\x01\x01\0\0\0\0\0\0\0\0\0\x01x";
    payload.extend_from_slice(object).expect(rt, "memory");
    let digest: [u8; 32] = Sha256::digest(payload.as_slice());
    file.extend_from_slice(&[1, 0, 0, 0, payload.len() as u8])
        .expect(rt, "memory");
    file.extend_from_slice(&payload).expect(rt, "memory");
    file.extend_from_slice(&digest).expect(rt, "memory");
}

/// Returns a file with records of `count` keys, and no gate after them.
pub(crate) fn with_keys(rt: &impl Abort, alloc: Global, count: u16) -> Vec<u8> {
    let mut file = b"PMNODE02\0\0".to_vec(alloc).expect(rt, "memory");
    for number in 0..count {
        add_record(rt, alloc, &mut file, number);
    }
    file
}

/// Returns what opening the file returns with these bytes after its records.
fn found_with(
    rt: &impl Abort,
    alloc: Global,
    records: &[u8],
    behind: &[u8],
) -> Result<(u32, usize), (u16, usize)> {
    let mut file = records.to_vec(alloc).expect(rt, "memory");
    file.extend_from_slice(behind).expect(rt, "memory");
    found_in(alloc, &file)
}

#[test]
fn the_8193rd_key_is_refused_where_all_else_is_whole(rt: HostRuntime) {
    let alloc = rt.alloc();
    let mut file = with_keys(&rt, alloc, 8192);
    assert!(rt; found_with(&rt, alloc, &file, b"\0") == Ok((0, 8192)));
    add_record(&rt, alloc, &mut file, 8192);
    assert!(rt; found_with(&rt, alloc, &file, b"\0") == Err((25, 0)));
    // A record that isn't whole comes first.
    assert!(rt; found_with(&rt, alloc, &file, b"") == Err((31, file.len())));
    assert!(rt; found_with(&rt, alloc, &file, b"\x01\0") == Err((31, file.len())));
}

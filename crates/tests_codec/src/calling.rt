//! The caller of CALLING.md of `meta_frame`.

use meta_frame::{Frame, FrameFault, HEADER_LEN, Message, decode, encode, is_lawful, read_header};
use std::alloc::Global;

/// Returns where the first frame of these bytes ends, or nothing if more bytes have to come.
fn end_of_first(bytes: &[u8]) -> Result<Option<usize>, FrameFault> {
    match read_header(bytes) {
        Ok(header) => {
            let end = HEADER_LEN + header.body_len as usize;
            Ok(if end <= bytes.len() { Some(end) } else { None })
        }
        Err(FrameFault::Short) => Ok(None),
        Err(fault) => Err(fault),
    }
}

/// Returns the PRUNE, as this node's frame number 1, that goes back to the sender of a frame.
fn prune_of(frame: &Frame) -> Frame {
    Frame {
        from: frame.to,
        to: frame.from,
        number: 1,
        message: Message::Prune,
    }
}

/// Returns the bytes of a frame that is lawful, or nothing.
fn bytes_of(alloc: Global, frame: &Frame) -> Result<Option<Vec<u8>>, FrameFault> {
    if !is_lawful(frame) {
        return Ok(None);
    }
    Ok(Some(encode(alloc, frame)?))
}

/// Returns the bytes that answer the bytes of one frame.
fn answer(alloc: Global, bytes: &[u8]) -> Result<Option<Vec<u8>>, FrameFault> {
    let frame = decode(alloc, bytes)?;
    let prune = prune_of(&frame);
    drop(frame);
    let answer = bytes_of(alloc, &prune);
    drop(prune);
    answer
}

/// A GOSSIP from node 0 to node 1, its frame number 1: key a/b/k, one value x of node 0 in its
/// first life. Behind it the first byte of another frame.
static CAME: &[u8] = b"PT\x02\x01\0\x00\0\x01\0\0\0\0\0\0\0\x01\0\0\0\x29\
    \0\x00\0\x01a\0\x01b\0\x01k\
    \0\x01\0\x00\0\0\0\x01\0\0\0\0\0\0\0\x01\0\x01\x01\0\0\0\0\0\0\0\0\0\x01xP";

/// Its answer: kind 4, from node 1 to node 0, number 1, no body.
static PRUNE: &[u8] = b"PT\x02\x04\0\x01\0\x00\0\0\0\0\0\0\0\x01\0\0\0\0";

fn is_answered(alloc: Global, bytes: &[u8], wanted: &[u8]) -> bool {
    matches!(answer(alloc, bytes), Ok(Some(found)) if found.as_slice() == wanted)
}

#[test]
fn a_frame_is_cut_off_read_and_answered(rt: HostRuntime) {
    let (frame, rest) = CAME.split_at(61);
    assert!(rt; end_of_first(CAME) == Ok(Some(61)) && end_of_first(rest) == Ok(None));
    assert!(rt; is_answered(rt.alloc(), frame, PRUNE));
}

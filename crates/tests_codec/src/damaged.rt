//! Frames that are cut short at each byte, and one that is changed in each byte.

use crate::kept::{is_spelled, put_frame};
use crate::kinds::{BODIES, GOSSIP};
use meta_frame::{Frame, decode};
use std::alloc::Global;

/// Returns whether the frame is spelled by just these bytes. Dropping it by a call is proved sooner
/// than letting it go.
fn is_spelled_by(alloc: Global, frame: Frame, bytes: &[u8]) -> bool {
    let is_spelled = is_spelled(alloc, &frame, bytes);
    drop(frame);
    is_spelled
}

/// Returns the number of the refusal of the bytes; 0 if they are read as a frame that is spelled by
/// just them, and 1 if they are read as another frame.
fn answer(alloc: Global, bytes: &[u8]) -> u16 {
    match decode(alloc, bytes) {
        Ok(frame) => if is_spelled_by(alloc, frame, bytes) {
            0
        } else {
            1
        },
        Err(fault) => fault.code(),
    }
}

/// Returns how many fronts of the bytes, the empty one and the whole among them, are refused with
/// 10.
fn short_fronts(alloc: Global, bytes: &[u8]) -> usize {
    let mut count = 0usize;
    for len in 0..=bytes.len() {
        if answer(alloc, &bytes[..len]) == 10 {
            count = count.saturating_add(1);
        }
    }
    count
}

/// Returns whether each front of the frame of this kind and body is refused with 10, but the whole
/// frame isn't.
fn is_short_where_cut(alloc: Global, kind: u8, body: &[u8]) -> bool {
    let mut bytes = Vec::new(alloc);
    put_frame(&mut bytes, kind, body).is_ok() && short_fronts(alloc, &bytes) == bytes.len()
}

#[test]
fn a_frame_of_each_kind_that_is_cut_at_any_byte_is_short(rt: HostRuntime) {
    for (kind, body) in &BODIES {
        assert!(rt; is_short_where_cut(rt.alloc(), *kind, body), "kind {kind}");
    }
}

/// Changes the byte at this place to each other value, and counts how often each answer comes.
fn count_in_place(alloc: Global, frame: &mut Vec<u8>, at: usize, counts: &mut [usize; 17]) {
    for change in 1u8..=255 {
        if let Some(byte) = frame.get_mut(at) {
            *byte ^= change;
        }
        let answer = answer(alloc, frame.as_slice());
        if let Some(count) = counts.get_mut(answer as usize) {
            *count = count.saturating_add(1);
        }
        if let Some(byte) = frame.get_mut(at) {
            *byte ^= change;
        }
    }
}

/// Returns how often each answer comes, by its number, when each byte of the frame is changed to
/// each other value.
fn counts(alloc: Global, frame: &mut Vec<u8>) -> [usize; 17] {
    let mut counts = [0; 17];
    for at in 0..frame.len() {
        count_in_place(alloc, frame, at, &mut counts);
    }
    counts
}

/// How many of the changes of one byte of the frame have each answer. They were counted by a
/// program in another language that knows the format and nothing of this repository. What is still
/// a frame is changed in its nodes, its number, its round, its names, its incarnation, its counter,
/// its stamp or its value.
static ANSWERS: [usize; 17] = [
    8_712, 0, 0, 0, 0, 0, 0, 0, 0, 0, 724, 510, 255, 236, 255, 4_822, 41,
];

#[test]
fn a_frame_with_one_byte_changed_is_refused_or_is_another_frame(rt: HostRuntime) {
    let mut frame = Vec::new(rt.alloc());
    assert!(rt; put_frame(&mut frame, 1, GOSSIP).is_ok());
    assert!(rt; counts(rt.alloc(), &mut frame) == ANSWERS);
}

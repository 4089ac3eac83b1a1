//! Frames in a list, which share their ends if the ends are alike.

use meta_types::ByteString;
use std::alloc::{AllocError, Global};
use std::process::Abort;
use world_core::Frames;

/// What each frame begins with, and the number of `e` bytes after that. Those that are long enough
/// to share an end all end in the same sixteen bytes; two are equal, and one is the end of another.
static FRAMES: [(&str, usize); 9] = [
    ("first", 150),
    ("second", 150),
    ("of another end", 0),
    ("third, which is longer", 200),
    ("", 160),
    ("", 160),
    ("fourth", 140),
    ("", 0),
    ("short", 20),
];

/// Returns the frame of an item of `FRAMES`.
fn made(alloc: Global, told: (&str, usize)) -> Result<ByteString, AllocError> {
    let mut bytes = told.0.as_bytes().to_vec(alloc)?;
    for _ in 0..told.1 {
        bytes.push(b'e')?;
    }
    Ok(ByteString::new(bytes))
}

/// Returns the frame at this place of the list, read once more if memory is refused.
fn bytes(rt: &impl Abort, frames: &Frames, place: usize) -> Vec<u8> {
    assert!(rt; place < frames.len());
    match frames.bytes(place) {
        Ok(bytes) => bytes,
        Err(_) => frames.bytes(place).expect(rt, "memory once more"),
    }
}

/// Returns all frames. Each is made once more if memory is refused.
fn all(rt: &impl Abort, alloc: Global) -> Vec<ByteString> {
    let mut frames = Vec::with_capacity(alloc, 0).expect(rt, "no memory is taken");
    for told in FRAMES {
        let frame = match made(alloc, told) {
            Ok(frame) => frame,
            Err(_) => made(alloc, told).expect(rt, "memory once more"),
        };
        if frames.reserve(1).is_err() {
            frames.reserve(1).expect(rt, "memory once more");
        }
        frames.push(frame).expect(rt, "room for one more");
    }
    frames
}

/// Asserts that the list has these frames from the place on.
fn assert_has(rt: &impl Abort, frames: &Frames, from: usize, all: &[ByteString]) {
    for (place, frame) in all.iter().enumerate() {
        let there = bytes(rt, frames, from.saturating_add(place));
        assert_eq!(rt; there.as_slice(), frame.as_slice());
    }
}

// Holds whichever single allocation is refused.
#[test]
fn frames_are_read_as_they_were_added_under_refused_memory(rt: HostRuntime) {
    let all = all(&rt, rt.alloc());
    let mut frames = Frames::new(rt.alloc());
    for (place, frame) in all.iter().enumerate() {
        if frames.push(frame.as_slice()).is_err() {
            assert_eq!(&rt; frames.len(), place);
            frames
                .push(frame.as_slice())
                .expect(&rt, "memory once more");
        }
    }
    assert_eq!(&rt; frames.len(), all.len());
    assert_has(&rt, &frames, 0, all.as_slice());
}

// Holds whichever single allocation is refused.
#[test]
fn all_frames_are_added_or_none_under_refused_memory(rt: HostRuntime) {
    let all = all(&rt, rt.alloc());
    let mut frames = Frames::new(rt.alloc());
    for _time in 0..2 {
        let before = frames.len();
        if frames.extend(all.as_slice()).is_err() {
            assert_eq!(&rt; frames.len(), before);
            frames
                .extend(all.as_slice())
                .expect(&rt, "memory once more");
        }
        assert_has(&rt, &frames, before, all.as_slice());
    }
    assert_eq!(&rt; frames.len(), all.len().saturating_mul(2));
    assert_has(&rt, &frames, 0, all.as_slice());
}

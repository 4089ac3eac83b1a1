//! Frames at their limits: names of 64, 64 and 256 bytes, 65,535 writers, 65,535 values, 8,192
//! rows, and 16,777,216 bytes.

use crate::kept::is_body_kept;
use dvvset::Entries;
use meta_frame::{Frame, FrameFault, Message, encode, get_key, get_object, is_lawful};
use meta_types::{MetaKey, NodeId};
use std::alloc::{AllocError, Global};

/// A piece of a row of bytes.
#[derive(Clone, Copy)]
enum Piece {
    /// Bytes, repeated this number of times.
    Bytes(u16, &'static [u8]),
    /// The number of the row, counted from 0, in two bytes.
    Number,
}

/// How many rows stand one after another, and the pieces of each.
type Rows = (u16, &'static [Piece]);

fn put_bytes(out: &mut Vec<u8>, times: u16, bytes: &[u8]) -> Result<(), AllocError> {
    for _ in 0..times {
        out.extend_from_slice(bytes)?;
    }
    Ok(())
}

fn put_piece(out: &mut Vec<u8>, piece: Piece, number: u16) -> Result<(), AllocError> {
    match piece {
        Piece::Bytes(times, bytes) => put_bytes(out, times, bytes),
        Piece::Number => out.extend_from_slice(&number.to_be_bytes()),
    }
}

fn put_row(out: &mut Vec<u8>, pieces: &[Piece], number: u16) -> Result<(), AllocError> {
    for piece in pieces {
        put_piece(out, *piece, number)?;
    }
    Ok(())
}

fn put_rows(out: &mut Vec<u8>, rows: &Rows) -> Result<(), AllocError> {
    for number in 0..rows.0 {
        put_row(out, rows.1, number)?;
    }
    Ok(())
}

fn put_body(out: &mut Vec<u8>, body: &[Rows]) -> Result<(), AllocError> {
    for rows in body {
        put_rows(out, rows)?;
    }
    Ok(())
}

const PREFIX: Rows = (
    1,
    &[
        Piece::Bytes(1, b"\0\x40"),
        Piece::Bytes(64, b"x"),
        Piece::Bytes(1, b"\0\x40"),
        Piece::Bytes(64, b"x"),
    ],
);

const LONGEST_NAME: Rows = (1, &[Piece::Bytes(1, b"\x01\0"), Piece::Bytes(256, b"x")]);

const ROUND: Rows = (1, &[Piece::Bytes(1, b"\xff\xff")]);

const INNER: Rows = (1, &[Piece::Bytes(1, b"\x0f")]);

const DIGESTS: Rows = (1, &[Piece::Bytes(512, b"x")]);

const SIXTEEN: Rows = (1, &[Piece::Bytes(1, b"\0\x10")]);

// An incarnation of four letters and a counter of eight for each number.
const COUNTERS: Rows = (16, &[Piece::Number, Piece::Bytes(1, b"xxxxxxxxxxxx")]);

// And after each three values of 1,024 letters, with a stamp of eight.
const ENTRIES: Rows = (
    16,
    &[
        Piece::Number,
        Piece::Bytes(1, b"xxxxxxxxxxxx\0\x03\x01xxxxxxxx\x04\0"),
        Piece::Bytes(1_024, b"x"),
        Piece::Bytes(1, b"\x01xxxxxxxx\x04\0"),
        Piece::Bytes(1_024, b"x"),
        Piece::Bytes(1, b"\x01xxxxxxxx\x04\0"),
        Piece::Bytes(1_024, b"x"),
    ],
);

// The front of an object of one entry with 65,535 values.
const MOST: Rows = (1, &[Piece::Bytes(1, b"\0\x01\0\x0fxxxxxxxxxxxx\xff\xff")]);

const TOMBSTONES: Rows = (65_535, &[Piece::Bytes(1, b"\0xxxxxxxx")]);

// The lives of node 0 of the numbers from 0 to 65,534: each with a counter of eight letters, and
// with a tombstone.
const MOST_LIVES: Rows = (1, &[Piece::Bytes(1, b"\xff\xff")]);

const LIVES: Rows = (
    65_535,
    &[
        Piece::Bytes(1, b"\0\x00\0\x00"),
        Piece::Number,
        Piece::Bytes(1, b"xxxxxxxx"),
    ],
);

const WRITTEN_LIVES: Rows = (
    65_535,
    &[
        Piece::Bytes(1, b"\0\x00\0\x00"),
        Piece::Number,
        Piece::Bytes(1, b"xxxxxxxx\0\x01\0xxxxxxxx"),
    ],
);

const ROW_COUNT: Rows = (1, &[Piece::Bytes(1, b"\x20\0")]);

const PREFIXES: Rows = (
    8192,
    &[
        Piece::Bytes(1, b"\0\x40"),
        Piece::Bytes(64, b"x"),
        Piece::Bytes(1, b"\0\x40"),
        Piece::Number,
        Piece::Bytes(94, b"x"),
    ],
);

const LEAF: Rows = (1, &[Piece::Bytes(1, b"\xff")]);

const KEYS: Rows = (
    8192,
    &[
        Piece::Bytes(1, b"\x01\0"),
        Piece::Number,
        Piece::Bytes(286, b"x"),
    ],
);

// The front of an object of one entry with 16,210 values, and all of them except the last.
const LONG: Rows = (1, &[Piece::Bytes(1, b"\0\x01\0\x00xxxxxxxxxxxx\x3f\x52")]);

const VALUES: Rows = (
    16_209,
    &[
        Piece::Bytes(1, b"\x01xxxxxxxx\x04\0"),
        Piece::Bytes(1_024, b"x"),
    ],
);

// The front of an XOBJECT of a key with the longest names has 410 bytes, the front of such an
// object 18, and a value 11 beside its own: with 462 bytes in the last value the frame has
// 16,777,216.
const LAST: Rows = (
    1,
    &[
        Piece::Bytes(1, b"\x01xxxxxxxx\x01\xce"),
        Piece::Bytes(462, b"x"),
    ],
);

const LONGER: Rows = (
    1,
    &[
        Piece::Bytes(1, b"\x01xxxxxxxx\x01\xcf"),
        Piece::Bytes(463, b"x"),
    ],
);

/// The number of a kind, and a body with its length.
struct Body {
    kind: u8,
    len: usize,
    rows: &'static [Rows],
}

static BODIES: [Body; 12] = [
    Body {
        kind: 1,
        len: 50_330,
        rows: &[ROUND, PREFIX, LONGEST_NAME, SIXTEEN, ENTRIES],
    },
    Body {
        kind: 2,
        len: 618,
        rows: &[ROUND, PREFIX, LONGEST_NAME, SIXTEEN, COUNTERS],
    },
    Body {
        kind: 3,
        len: 618,
        rows: &[ROUND, PREFIX, LONGEST_NAME, SIXTEEN, COUNTERS],
    },
    Body {
        kind: 3,
        len: 917_884,
        rows: &[ROUND, PREFIX, LONGEST_NAME, MOST_LIVES, LIVES],
    },
    Body {
        kind: 13,
        len: 1_343_490,
        rows: &[ROW_COUNT, PREFIXES],
    },
    Body {
        kind: 14,
        len: 644,
        rows: &[PREFIX, DIGESTS],
    },
    Body {
        kind: 15,
        len: 645,
        rows: &[PREFIX, INNER, DIGESTS],
    },
    Body {
        kind: 16,
        len: 2_375_815,
        rows: &[PREFIX, LEAF, ROW_COUNT, KEYS],
    },
    Body {
        kind: 17,
        len: 590_223,
        rows: &[PREFIX, LONGEST_NAME, MOST, TOMBSTONES],
    },
    Body {
        kind: 17,
        len: 1_638_767,
        rows: &[PREFIX, LONGEST_NAME, MOST_LIVES, WRITTEN_LIVES],
    },
    Body {
        kind: 17,
        len: 16_777_196,
        rows: &[PREFIX, LONGEST_NAME, LONG, VALUES, LAST],
    },
    Body {
        kind: 18,
        len: 390,
        rows: &[PREFIX, LONGEST_NAME],
    },
];

/// Returns whether the rows make a body of the length, and its frame is kept.
fn is_kept(alloc: Global, of: &Body) -> bool {
    let mut body = Vec::new(alloc);
    put_body(&mut body, of.rows).is_ok()
        && body.len() == of.len
        && is_body_kept(alloc, of.kind, &body)
}

#[test]
fn frames_at_their_limits_are_read_copied_and_written(rt: HostRuntime) {
    for body in &BODIES {
        assert!(rt; is_kept(rt.alloc(), body));
    }
}

fn is_frame_too_long(alloc: Global, frame: &Frame) -> bool {
    is_lawful(frame) && matches!(encode(alloc, frame), Err(FrameFault::TooLong))
}

fn exchanged(key: MetaKey, object: Entries) -> Frame {
    Frame {
        from: NodeId::new(3).unwrap(),
        to: NodeId::new(15).unwrap(),
        number: u64::MAX,
        message: Message::XObject { key, object },
    }
}

fn is_too_long_with(alloc: Global, object: Entries, bytes: &[u8]) -> bool {
    match get_key(alloc, bytes) {
        Ok((key, _)) => {
            let frame = exchanged(key, object);
            let is_too_long = is_frame_too_long(alloc, &frame);
            drop(frame);
            is_too_long
        }
        Err(_) => false,
    }
}

/// Returns whether the XOBJECT of the object and the key at the front of bytes is lawful, and too
/// long.
fn is_too_long(alloc: Global, bytes: &[u8]) -> bool {
    match get_object(alloc, bytes) {
        Ok((object, rest)) => is_too_long_with(alloc, object, rest),
        Err(_) => false,
    }
}

static TOO_LONG: [Rows; 5] = [LONG, VALUES, LONGER, PREFIX, LONGEST_NAME];

fn are_too_long(alloc: Global, rows: &[Rows]) -> bool {
    let mut parts = Vec::new(alloc);
    put_body(&mut parts, rows).is_ok() && parts.len() == 16_777_197 && is_too_long(alloc, &parts)
}

#[test]
fn a_frame_of_16777217_bytes_is_too_long(rt: HostRuntime) {
    assert!(rt; are_too_long(rt.alloc(), &TOO_LONG));
}

//! What stands in front of bytes that begin with a gate.

ghost use Rattle.file_pieces.specs.Framing.{IsFirst};

use node_file::MAX_LOOKED_AT;

/// The most bytes of a record with the gate in front of it.
const MAX_RECORD_LEN: usize = MAX_LOOKED_AT / 2;

/// How many bytes a record has besides its payload, with the gate in front of it.
const AROUND_PAYLOAD: usize = 37;

/// The gate in front of a record.
const OPEN_GATE: u8 = 1;

/// What bytes begin with.
#[derive(Clone, Copy, Debug)]
pub(crate) enum First {
    /// A record that isn't all there, or nothing.
    Unfinished,
    /// A gate that isn't open.
    Shut,
    /// An open gate, and a length that no record has.
    Overlong,
    /// An open gate, and as many bytes behind it as the record says: so many with the gate.
    Framed(usize),
}

/// Returns what bytes begin with, by the gate and the length behind it alone.
#[tactic(auto, using(crate::proofs::Framing::framed_front))]
pub(crate) fn first_in(bytes: &[u8]) -> First
    ensures { IsFirst bytes.now result }
{
    if bytes.is_empty() {
        return First::Unfinished;
    }
    if bytes[0] != OPEN_GATE {
        return First::Shut;
    }
    let behind = &bytes[1..];
    if behind.len() < 4 {
        return First::Unfinished;
    }
    let said = &behind[..4];
    let payload = u32::from_be_bytes([said[0], said[1], said[2], said[3]]) as usize;
    let len = AROUND_PAYLOAD + payload;
    if len > MAX_RECORD_LEN {
        return First::Overlong;
    }
    if bytes.len() < len {
        return First::Unfinished;
    }
    First::Framed(len)
}

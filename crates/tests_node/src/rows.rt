//! Rows: what node 0 is asked, the number of its refusal, or 0, and the frame that it sends, if it
//! sends one. `Act::New` begins a row of a new node; the names of frames that come have the sender
//! in front.

use crate::acts::Act;
use crate::frames::*;
use crate::sent::*;

/// What is asked, the number of the refusal, or 0, and the frame.
pub type Given = (Act, u16, &'static [u8]);

/// No frame.
const NONE: &[u8] = b"";

/// Each event, a repair and a copy.
pub static EACH: [Given; 27] = [
    (Act::New, 0, NONE),
    (Act::Join(1), 0, JOIN_1),
    (Act::Take(JOIN), 0, NONE),
    (Act::Read(b'k'), 0, NONE),
    (Act::Write(b'k', b'x'), 0, GOSSIP_2_OF_X),
    (Act::PutOver(b'k', b'y'), 0, GOSSIP_3_OF_Y),
    (Act::Keep(b'k'), 0, NONE),
    (Act::Tick, 0, NONE),
    (Act::Watch(1), 0, NONE),
    (Act::Changes(1), 0, NONE),
    (Act::Hello(1), 0, HELLO_4),
    (Act::Exchange(1), 0, XROOT_5),
    (Act::PeerDown(1), 0, NONE),
    (Act::Leave, 0, NONE),
    // Keeping and repairing what isn't held is done.
    (Act::Keep(b'q'), 0, NONE),
    (Act::Repair(b'q'), 0, NONE),
    // Who leaves says so, and a copy knows the same and counts on.
    (Act::New, 0, NONE),
    (Act::Join(1), 0, JOIN_1),
    (Act::Copy, 0, NONE),
    (Act::Leave, 0, BYE_2),
    // The last write is written over a tombstone, and then one sibling is left.
    (Act::New, 0, NONE),
    (Act::Join(1), 0, JOIN_1),
    (Act::Write(b'k', b'~'), 0, GOSSIP_2_OF_NONE),
    (Act::Write(b'k', b'w'), 0, GOSSIP_3_OF_BOTH),
    (Act::Repair(b'k'), 0, GOSSIP_4_OF_W),
    (Act::Repair(b'k'), 0, NONE),
    (Act::Hello(1), 0, HELLO_5),
];

/// What comes.
pub static COMING: [Given; 48] = [
    // What is fresh is passed on.
    (Act::New, 0, NONE),
    (Act::Watch(9), 0, NONE),
    (Act::Join(2), 0, JOIN_TO_2),
    (Act::Take(GOSSIP_OF_Y), 0, PASSED_ON),
    (Act::Changes(1), 0, NONE),
    // What is stale is answered.
    (Act::New, 0, NONE),
    (Act::Take(GOSSIP_OF_Y), 0, NONE),
    (Act::Take(GOSSIP_OF_Y), 0, PRUNE_1),
    // What is missing is asked for at the second tick.
    (Act::New, 0, NONE),
    (Act::Take(IHAVE), 0, NONE),
    (Act::Tick, 0, NONE),
    (Act::Tick, 0, GRAFT_1),
    // What is asked for is sent.
    (Act::New, 0, NONE),
    (Act::Take(GOSSIP_OF_Y), 0, NONE),
    (Act::Take(GRAFT), 0, ASKED_FOR),
    // A lazy peer is sent an IHAVE at the next tick.
    (Act::New, 0, NONE),
    (Act::Join(1), 0, JOIN_1),
    (Act::Take(PRUNE), 0, NONE),
    (Act::Write(b'k', b'x'), 0, NONE),
    (Act::Tick, 0, IHAVE_2),
    // An object is exchanged.
    (Act::New, 0, NONE),
    (Act::Take(XOBJECT), 0, NONE),
    (Act::Take(XWANT), 0, XOBJECT_1),
    (Act::Exchange(1), 0, XROOT_2),
    // Another root is answered, by a copy.
    (Act::New, 0, NONE),
    (Act::Watch(1), 0, NONE),
    (Act::PutOver(b'k', b'x'), 0, NONE),
    (Act::Copy, 0, NONE),
    (Act::Changes(1), 0, NONE),
    (Act::Take(XROOT), 0, XPREFIXES_1),
    // A neighbour comes again, and goes.
    (Act::New, 0, NONE),
    (Act::Take(JOIN), 0, NONE),
    (Act::Take(HELLO_OF_LIFE_2), 0, NONE),
    (Act::Take(BYE), 0, NONE),
    (Act::Leave, 0, NONE),
    // Each tenth tick shuffles, and no other.
    (Act::New, 0, NONE),
    (Act::Tick, 0, NONE),
    (Act::Tick, 0, NONE),
    (Act::Tick, 0, NONE),
    (Act::Tick, 0, NONE),
    (Act::Tick, 0, NONE),
    (Act::Tick, 0, NONE),
    (Act::Tick, 0, NONE),
    (Act::Tick, 0, NONE),
    (Act::Tick, 0, NONE),
    (Act::Join(1), 0, JOIN_1),
    (Act::Tick, 0, SHUFFLE_2),
    (Act::Tick, 0, NONE),
];

/// PRUNE with an addressee that isn't node 0, and one from node 16, which there isn't.
const TO_NODE_2: &[u8] = b"PT\x02\x04\0\x01\0\x02\0\0\0\0\0\0\0\x01\0\0\0\0";

const FROM_NODE_16: &[u8] = b"PT\x02\x04\0\x10\0\0\0\0\0\0\0\0\0\x01\0\0\0\0";

/// Refusals, which change nothing: the last frame of each row counts on from the one before.
pub static REFUSED: [Given; 22] = [
    (Act::New, 0, NONE),
    (Act::Join(1), 0, JOIN_1),
    (Act::Join(0), 3, NONE),
    (Act::PeerDown(0), 3, NONE),
    (Act::Take(b""), 10, NONE),
    (Act::Take(FROM_NODE_16), 15, NONE),
    (Act::Take(TO_NODE_2), 40, NONE),
    (Act::Watch(0), 28, NONE),
    (Act::Changes(1), 29, NONE),
    (Act::Hello(1), 0, HELLO_2),
    // Forged objects.
    (Act::New, 0, NONE),
    (Act::Take(GOSSIP_OF_Y), 0, NONE),
    (Act::PutOver(b'k', b'x'), 0, NONE),
    (Act::Take(FORGED_GOSSIP), 21, NONE),
    (Act::Take(FORGED_OBJECT), 21, NONE),
    (Act::Hello(1), 0, HELLO_1),
    // A writer whose counter is spent.
    (Act::New, 0, NONE),
    (Act::Join(1), 0, JOIN_1),
    (Act::Take(GOSSIP_OF_THE_LAST), 0, NONE),
    (Act::Write(b'k', b'y'), 20, NONE),
    (Act::PutOver(b'k', b'y'), 20, NONE),
    (Act::Hello(1), 0, HELLO_2),
];

/// The largest sizes: a full store takes no new key, and an object grows no larger.
pub static LARGE: [Given; 14] = [
    (Act::New, 0, NONE),
    (Act::Fill, 0, NONE),
    (Act::Write(b'a', b'x'), 0, NONE),
    (Act::Join(1), 0, JOIN_1),
    (Act::Write(b'k', b'x'), 25, NONE),
    (Act::PutOver(b'k', b'x'), 25, NONE),
    (Act::Take(GOSSIP_OF_Y), 25, NONE),
    (Act::Hello(1), 0, HELLO_2),
    (Act::New, 0, NONE),
    (Act::Join(1), 0, JOIN_1),
    (Act::TakeLargest, 0, NONE),
    (Act::Write(b'k', b'x'), 27, NONE),
    (Act::Keep(b'k'), 0, NONE),
    (Act::Hello(1), 0, HELLO_2),
];

/// A node ticks on: it shuffles at the tenth tick and at the twentieth.
pub static LONG: [Given; 4] = [
    (Act::New, 0, NONE),
    (Act::Join(1), 0, JOIN_1),
    (Act::Ticks, 0, NONE),
    (Act::Hello(1), 0, HELLO_4),
];

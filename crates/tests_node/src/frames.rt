//! Frames that come, as bytes. They go from node 1 to node 0, where their names tell no other, and
//! their key is p/s/k.

pub const JOIN: &[u8] = b"PT\x02\x05\0\x01\0\0\0\0\0\0\0\0\0\x01\0\0\0\0";

pub const PRUNE: &[u8] = b"PT\x02\x04\0\x01\0\0\0\0\0\0\0\0\0\x01\0\0\0\0";

pub const BYE: &[u8] = b"PT\x02\x14\0\x01\0\0\0\0\0\0\0\0\0\x01\0\0\0\0";

/// HELLO of life 2.
pub const HELLO_OF_LIFE_2: &[u8] = b"PT\x02\x13\0\x01\0\0\0\0\0\0\0\0\0\x01\0\0\0\x04\0\0\0\x02";

/// GOSSIP of y, which node 1 wrote.
pub const GOSSIP_OF_Y: &[u8] = b"PT\x02\x01\0\x01\0\0\0\0\0\0\0\0\0\x01\0\0\0\x29\
\0\0\0\x01p\0\x01s\0\x01k\0\x01\
\0\x01\0\0\0\x01\0\0\0\0\0\0\0\x01\0\x01\x01\0\0\0\0\0\0\0\0\0\x01y";

/// GOSSIP that is forged: node 0 has counted two writes and shows none, node 1 shows y. A node that
/// has read y, and shows the first write of node 0 alone, would show no value.
pub const FORGED_GOSSIP: &[u8] = b"PT\x02\x01\0\x01\0\0\0\0\0\0\0\0\0\x01\0\0\0\x39\
\0\0\0\x01p\0\x01s\0\x01k\0\x02\
\0\0\0\0\0\x01\0\0\0\0\0\0\0\x02\0\0\
\0\x01\0\0\0\x01\0\0\0\0\0\0\0\x01\0\x01\x01\0\0\0\0\0\0\0\0\0\x01y";

/// The forged object as XOBJECT.
pub const FORGED_OBJECT: &[u8] = b"PT\x02\x11\0\x01\0\0\0\0\0\0\0\0\0\x01\0\0\0\x37\
\0\x01p\0\x01s\0\x01k\0\x02\
\0\0\0\0\0\x01\0\0\0\0\0\0\0\x02\0\0\
\0\x01\0\0\0\x01\0\0\0\0\0\0\0\x01\0\x01\x01\0\0\0\0\0\0\0\0\0\x01y";

/// GOSSIP of x, by the last write that node 0 can count.
pub const GOSSIP_OF_THE_LAST: &[u8] = b"PT\x02\x01\0\x01\0\0\0\0\0\0\0\0\0\x01\0\0\0\x29\
\0\0\0\x01p\0\x01s\0\x01k\0\x01\
\0\0\0\0\0\x01\xff\xff\xff\xff\xff\xff\xff\xff\0\x01\x01\0\0\0\0\0\0\0\0\0\x01x";

/// IHAVE of the first write of node 1, in round 5.
pub const IHAVE: &[u8] = b"PT\x02\x02\0\x01\0\0\0\0\0\0\0\0\0\x01\0\0\0\x1b\
\0\x05\0\x01p\0\x01s\0\x01k\0\x01\0\x01\0\0\0\x01\0\0\0\0\0\0\0\x01";

/// The same from node 2.
pub const IHAVE_OF_2: &[u8] = b"PT\x02\x02\0\x02\0\0\0\0\0\0\0\0\0\x01\0\0\0\x1b\
\0\x05\0\x01p\0\x01s\0\x01k\0\x01\0\x01\0\0\0\x01\0\0\0\0\0\0\0\x01";

/// GRAFT of the first write of node 1, in round 5.
pub const GRAFT: &[u8] = b"PT\x02\x03\0\x01\0\0\0\0\0\0\0\0\0\x01\0\0\0\x1b\
\0\x05\0\x01p\0\x01s\0\x01k\0\x01\0\x01\0\0\0\x01\0\0\0\0\0\0\0\x01";

pub const XWANT: &[u8] = b"PT\x02\x12\0\x01\0\0\0\0\0\0\0\0\0\x01\0\0\0\x09\0\x01p\0\x01s\0\x01k";

/// XOBJECT of y, which node 1 wrote.
pub const XOBJECT: &[u8] = b"PT\x02\x11\0\x01\0\0\0\0\0\0\0\0\0\x01\0\0\0\x27\
\0\x01p\0\x01s\0\x01k\0\x01\
\0\x01\0\0\0\x01\0\0\0\0\0\0\0\x01\0\x01\x01\0\0\0\0\0\0\0\0\0\x01y";

/// XROOT of a root that no node has.
pub const XROOT: &[u8] = b"PT\x02\x0c\0\x01\0\0\0\0\0\0\0\0\0\x01\0\0\0\x20\
\0\0\0\0\0\0\0\0\0\0\0\0\0\0\0\0\0\0\0\0\0\0\0\0\0\0\0\0\0\0\0\0";

/// The front of a GOSSIP of 1,048,587 bytes after its header: an object of node 0, which counts
/// 1,014 writes and shows them all, of which the last is 92 x's.
pub const FRONT_OF_LARGEST: &[u8] = b"PT\x02\x01\0\x01\0\0\0\0\0\0\0\0\0\x01\0\x10\0\x0b\
\0\0\0\x01p\0\x01s\0\x01k\0\x01\
\0\0\0\0\0\x01\0\0\0\0\0\0\x03\xf6\x03\xf6\x01\0\0\0\0\0\0\0\0\0\x5c\
xxxxxxxxxxxxxxxxxxxxxxxxxxxxxxxxxxxxxxxxxxxxxx\
xxxxxxxxxxxxxxxxxxxxxxxxxxxxxxxxxxxxxxxxxxxxxx";

/// The front of a value of 1,024 bytes.
pub const FRONT_OF_LONG_VALUE: &[u8] = b"\x01\0\0\0\0\0\0\0\0\x04\0";

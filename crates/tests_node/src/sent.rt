//! Frames that node 0 sends in its first life, as bytes. The number in a name is the frame's
//! number.

/// JOIN from 0 to 1 number 1.
pub const JOIN_1: &[u8] = b"PT\x02\x05\0\0\0\x01\0\0\0\0\0\0\0\x01\0\0\0\0";

/// JOIN from 0 to 2 number 1.
pub const JOIN_TO_2: &[u8] = b"PT\x02\x05\0\0\0\x02\0\0\0\0\0\0\0\x01\0\0\0\0";

/// HELLO from 0 to 1 number 1 life 1.
pub const HELLO_1: &[u8] = b"PT\x02\x13\0\0\0\x01\0\0\0\0\0\0\0\x01\0\0\0\x04\0\0\0\x01";

/// HELLO from 0 to 1 number 2 life 1.
pub const HELLO_2: &[u8] = b"PT\x02\x13\0\0\0\x01\0\0\0\0\0\0\0\x02\0\0\0\x04\0\0\0\x01";

/// HELLO from 0 to 1 number 4 life 1.
pub const HELLO_4: &[u8] = b"PT\x02\x13\0\0\0\x01\0\0\0\0\0\0\0\x04\0\0\0\x04\0\0\0\x01";

/// HELLO from 0 to 1 number 5 life 1.
pub const HELLO_5: &[u8] = b"PT\x02\x13\0\0\0\x01\0\0\0\0\0\0\0\x05\0\0\0\x04\0\0\0\x01";

/// BYE from 0 to 1 number 2.
pub const BYE_2: &[u8] = b"PT\x02\x14\0\0\0\x01\0\0\0\0\0\0\0\x02\0\0\0\0";

/// SHUFFLE from 0 to 1 number 2 origin 0 ttl 3 nodes -.
pub const SHUFFLE_2: &[u8] = b"PT\x02\x0a\0\0\0\x01\0\0\0\0\0\0\0\x02\0\0\0\x05\0\0\x03\0\0";

/// GOSSIP from 0 to 1 number 2 round 0 key p/s/k ctx 0.1:1 values x.
pub const GOSSIP_2_OF_X: &[u8] = b"PT\x02\x01\0\0\0\x01\0\0\0\0\0\0\0\x02\0\0\0\x29\
\0\0\0\x01p\0\x01s\0\x01k\
\0\x01\0\0\0\0\0\x01\0\0\0\0\0\0\0\x01\0\x01\x01\0\0\0\0\0\0\0\0\0\x01x";

/// GOSSIP from 0 to 1 number 3 round 0 key p/s/k ctx 0.1:2 values y.
pub const GOSSIP_3_OF_Y: &[u8] = b"PT\x02\x01\0\0\0\x01\0\0\0\0\0\0\0\x03\0\0\0\x29\
\0\0\0\x01p\0\x01s\0\x01k\
\0\x01\0\0\0\0\0\x01\0\0\0\0\0\0\0\x02\0\x01\x01\0\0\0\0\0\0\0\0\0\x01y";

/// GOSSIP from 0 to 1 number 2 round 0 key p/s/k ctx 0.1:1 values ~.
pub const GOSSIP_2_OF_NONE: &[u8] = b"PT\x02\x01\0\0\0\x01\0\0\0\0\0\0\0\x02\0\0\0\x26\
\0\0\0\x01p\0\x01s\0\x01k\
\0\x01\0\0\0\0\0\x01\0\0\0\0\0\0\0\x01\0\x01\0\0\0\0\0\0\0\0\0";

/// GOSSIP from 0 to 1 number 3 round 0 key p/s/k ctx 0.1:2 values w,~.
pub const GOSSIP_3_OF_BOTH: &[u8] = b"PT\x02\x01\0\0\0\x01\0\0\0\0\0\0\0\x03\0\0\0\x32\
\0\0\0\x01p\0\x01s\0\x01k\
\0\x01\0\0\0\0\0\x01\0\0\0\0\0\0\0\x02\0\x02\x01\0\0\0\0\0\0\0\0\0\x01w\0\0\0\0\0\0\0\0\0";

/// GOSSIP from 0 to 1 number 4 round 0 key p/s/k ctx 0.1:3 values w.
pub const GOSSIP_4_OF_W: &[u8] = b"PT\x02\x01\0\0\0\x01\0\0\0\0\0\0\0\x04\0\0\0\x29\
\0\0\0\x01p\0\x01s\0\x01k\
\0\x01\0\0\0\0\0\x01\0\0\0\0\0\0\0\x03\0\x01\x01\0\0\0\0\0\0\0\0\0\x01w";

/// GOSSIP from 0 to 2 number 2 round 1 key p/s/k ctx 1.1:1 values y.
pub const PASSED_ON: &[u8] = b"PT\x02\x01\0\0\0\x02\0\0\0\0\0\0\0\x02\0\0\0\x29\
\0\x01\0\x01p\0\x01s\0\x01k\
\0\x01\0\x01\0\0\0\x01\0\0\0\0\0\0\0\x01\0\x01\x01\0\0\0\0\0\0\0\0\0\x01y";

/// GOSSIP from 0 to 1 number 1 round 5 key p/s/k ctx 1.1:1 values y.
pub const ASKED_FOR: &[u8] = b"PT\x02\x01\0\0\0\x01\0\0\0\0\0\0\0\x01\0\0\0\x29\
\0\x05\0\x01p\0\x01s\0\x01k\
\0\x01\0\x01\0\0\0\x01\0\0\0\0\0\0\0\x01\0\x01\x01\0\0\0\0\0\0\0\0\0\x01y";

/// PRUNE from 0 to 1 number 1.
pub const PRUNE_1: &[u8] = b"PT\x02\x04\0\0\0\x01\0\0\0\0\0\0\0\x01\0\0\0\0";

/// GRAFT from 0 to 1 number 1 round 5 key p/s/k ctx 1.1:1.
pub const GRAFT_1: &[u8] = b"PT\x02\x03\0\0\0\x01\0\0\0\0\0\0\0\x01\0\0\0\x1b\
\0\x05\0\x01p\0\x01s\0\x01k\
\0\x01\0\x01\0\0\0\x01\0\0\0\0\0\0\0\x01";

/// IHAVE from 0 to 1 number 2 round 0 key p/s/k ctx 0.1:1.
pub const IHAVE_2: &[u8] = b"PT\x02\x02\0\0\0\x01\0\0\0\0\0\0\0\x02\0\0\0\x1b\
\0\0\0\x01p\0\x01s\0\x01k\
\0\x01\0\0\0\0\0\x01\0\0\0\0\0\0\0\x01";

/// XOBJECT from 0 to 1 number 1 key p/s/k ctx 1.1:1 values y.
pub const XOBJECT_1: &[u8] = b"PT\x02\x11\0\0\0\x01\0\0\0\0\0\0\0\x01\0\0\0\x27\
\0\x01p\0\x01s\0\x01k\
\0\x01\0\x01\0\0\0\x01\0\0\0\0\0\0\0\x01\0\x01\x01\0\0\0\0\0\0\0\0\0\x01y";

/// XROOT from 0 to 1 number 2 root, up to the digest.
pub const XROOT_2: &[u8] = b"PT\x02\x0c\0\0\0\x01\0\0\0\0\0\0\0\x02\0\0\0\x20";

/// XROOT from 0 to 1 number 5 root, up to the digest.
pub const XROOT_5: &[u8] = b"PT\x02\x0c\0\0\0\x01\0\0\0\0\0\0\0\x05\0\0\0\x20";

/// XPREFIXES from 0 to 1 number 1 of p/s alone, up to its digest.
pub const XPREFIXES_1: &[u8] = b"PT\x02\x0d\0\0\0\x01\0\0\0\0\0\0\0\x01\0\0\0\x28\
\0\x01\
\0\x01p\0\x01s";

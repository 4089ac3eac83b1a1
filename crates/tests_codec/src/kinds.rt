//! A body of each kind.

use crate::kept::is_body_kept;
use std::alloc::Global;

// Round 0, key a/b/k, one value x of node 0 in its first life.
pub(crate) const GOSSIP: &[u8] = b"\0\x00\0\x01a\0\x01b\0\x01k\
    \0\x01\0\x00\0\0\0\x01\0\0\0\0\0\0\0\x01\0\x01\x01\0\0\0\0\0\0\0\0\0\x01x";

// Round 3, key a/b/k, the vector 0.1:2,0.2:1.
const IHAVE: &[u8] = b"\0\x03\0\x01a\0\x01b\0\x01k\
    \0\x02\0\x00\0\0\0\x01\0\0\0\0\0\0\0\x02\0\x00\0\0\0\x02\0\0\0\0\0\0\0\x01";

// Origin 15, ttl 255, nodes 3, 15, 2 and 15.
const SHUFFLE: &[u8] = b"\0\x0f\xff\0\x04\0\x03\0\x0f\0\x02\0\x0f";

const XROOT: &[u8] = b"0123456789abcdef0123456789abcdef";

// The prefixes a/b and a/c, each with a digest.
const XPREFIXES: &[u8] = b"\0\x02\
    \0\x01a\0\x01b0123456789abcdef0123456789abcdef\
    \0\x01a\0\x01cfedcba9876543210fedcba9876543210";

// The prefix a/b, and sixteen digests, each of 32 equal letters.
const XINNER: &[u8] = b"\0\x01a\0\x01b\
    aaaaaaaaaaaaaaaaaaaaaaaaaaaaaaaabbbbbbbbbbbbbbbbbbbbbbbbbbbbbbbb\
    ccccccccccccccccccccccccccccccccdddddddddddddddddddddddddddddddd\
    eeeeeeeeeeeeeeeeeeeeeeeeeeeeeeeeffffffffffffffffffffffffffffffff\
    gggggggggggggggggggggggggggggggghhhhhhhhhhhhhhhhhhhhhhhhhhhhhhhh\
    iiiiiiiiiiiiiiiiiiiiiiiiiiiiiiiijjjjjjjjjjjjjjjjjjjjjjjjjjjjjjjj\
    kkkkkkkkkkkkkkkkkkkkkkkkkkkkkkkkllllllllllllllllllllllllllllllll\
    mmmmmmmmmmmmmmmmmmmmmmmmmmmmmmmmnnnnnnnnnnnnnnnnnnnnnnnnnnnnnnnn\
    oooooooooooooooooooooooooooooooopppppppppppppppppppppppppppppppp";

// The prefix a/b, inner node 15, and the same digests.
const XLEAVES: &[u8] = b"\0\x01a\0\x01b\x0f\
    aaaaaaaaaaaaaaaaaaaaaaaaaaaaaaaabbbbbbbbbbbbbbbbbbbbbbbbbbbbbbbb\
    ccccccccccccccccccccccccccccccccdddddddddddddddddddddddddddddddd\
    eeeeeeeeeeeeeeeeeeeeeeeeeeeeeeeeffffffffffffffffffffffffffffffff\
    gggggggggggggggggggggggggggggggghhhhhhhhhhhhhhhhhhhhhhhhhhhhhhhh\
    iiiiiiiiiiiiiiiiiiiiiiiiiiiiiiiijjjjjjjjjjjjjjjjjjjjjjjjjjjjjjjj\
    kkkkkkkkkkkkkkkkkkkkkkkkkkkkkkkkllllllllllllllllllllllllllllllll\
    mmmmmmmmmmmmmmmmmmmmmmmmmmmmmmmmnnnnnnnnnnnnnnnnnnnnnnnnnnnnnnnn\
    oooooooooooooooooooooooooooooooopppppppppppppppppppppppppppppppp";

// The keys k and l of leaf 202 of the prefix a/b, each with a digest.
const XBUCKET: &[u8] = b"\0\x01a\0\x01b\xca\0\x02\
    \0\x01k0123456789abcdef0123456789abcdef\
    \0\x01lfedcba9876543210fedcba9876543210";

// Key a/b/k; node 0 has a tombstone with stamp 9, node 1 two events and no value, node 2 one value
// of no byte; their incarnations are 7, 0 and the greatest.
const XOBJECT: &[u8] = b"\0\x01a\0\x01b\0\x01k\0\x03\
    \0\x00\0\0\0\x07\0\0\0\0\0\0\0\x01\0\x01\0\0\0\0\0\0\0\0\x09\
    \0\x01\0\0\0\x00\0\0\0\0\0\0\0\x02\0\x00\
    \0\x02\xff\xff\xff\xff\0\0\0\0\0\0\0\x01\0\x01\x01\0\0\0\0\0\0\0\0\0\x00";

const XWANT: &[u8] = b"\0\x01a\0\x01b\0\x01k";

// A key of three names of 17 bytes, each of which takes an allocation.
const LONG_XWANT: &[u8] = b"\0\x11aaaaaaaaaaaaaaaaa\0\x11bbbbbbbbbbbbbbbbb\0\x11kkkkkkkkkkkkkkkkk";

// A prefix of two such names, with a digest.
const LONG_XPREFIXES: &[u8] = b"\0\x01\0\x11aaaaaaaaaaaaaaaaa\0\x11bbbbbbbbbbbbbbbbb\
    0123456789abcdef0123456789abcdef";

// A key of such a name in leaf 202 of such a prefix, with a digest.
const LONG_XBUCKET: &[u8] = b"\0\x11aaaaaaaaaaaaaaaaa\0\x11bbbbbbbbbbbbbbbbb\xca\0\x01\
    \0\x11kkkkkkkkkkkkkkkkk0123456789abcdef0123456789abcdef";

// Key a/b/k with one value of 17 bytes, and stamp 9.
const LONG_XOBJECT: &[u8] = b"\0\x01a\0\x01b\0\x01k\0\x01\
    \0\x00\0\0\0\x07\0\0\0\0\0\0\0\x01\0\x01\x01\0\0\0\0\0\0\0\x09\0\x11vvvvvvvvvvvvvvvvv";

// The kinds with their numbers; the priority high, and the answer no.
pub(crate) static BODIES: [(u8, &[u8]); 25] = [
    (1, GOSSIP),
    (2, IHAVE),
    (3, IHAVE),
    (4, b""),
    (5, b""),
    (6, b"\0\x01\x04"),
    (7, b""),
    (8, b"\x01"),
    (9, b"\0"),
    (10, SHUFFLE),
    (11, b"\0\x01\0\x07"),
    (12, XROOT),
    (13, XPREFIXES),
    (13, LONG_XPREFIXES),
    (14, XINNER),
    (15, XLEAVES),
    (16, XBUCKET),
    (16, LONG_XBUCKET),
    (17, XOBJECT),
    (17, LONG_XOBJECT),
    (18, XWANT),
    (18, LONG_XWANT),
    (19, b"\0\0\0\x01"),
    (19, b"\xff\xff\xff\xff"),
    (20, b""),
];

/// Calls `is_body_kept`, and once more if it failed, as it does when memory is refused.
fn is_kept_again(alloc: Global, kind: u8, body: &[u8]) -> bool {
    is_body_kept(alloc, kind, body) || is_body_kept(alloc, kind, body)
}

// With ample memory the first try succeeds, or else the second would fail as it did.
// Holds whichever single allocation is refused. Allocates at most 300 times.
#[test]
fn a_frame_of_each_kind_is_read_copied_and_written_under_refused_memory(rt: HostRuntime) {
    for (kind, body) in &BODIES {
        assert!(rt; is_kept_again(rt.alloc(), *kind, body), "kind {kind}");
    }
}

//! Fields at the front of bytes, and the names of the refusals.

use meta_frame::{FrameFault, get_prefix, get_vector, read_header};
use std::alloc::Global;

fn is_prefix_read(alloc: Global, bytes: &[u8], left: usize) -> bool {
    match get_prefix(alloc, bytes) {
        Ok((prefix, rest)) => {
            drop(prefix);
            rest.len() == left
        }
        Err(_) => false,
    }
}

fn is_vector_read(alloc: Global, bytes: &[u8], left: usize) -> bool {
    match get_vector(alloc, bytes) {
        Ok((vector, rest)) => {
            drop(vector);
            rest.len() == left
        }
        Err(_) => false,
    }
}

#[test]
fn a_prefix_and_a_vector_are_read_from_the_front(rt: HostRuntime) {
    let alloc = rt.alloc();
    assert!(rt; is_prefix_read(alloc, b"\0\x01a\0\x02bc\xff", 1));
    assert!(rt; is_vector_read(alloc, b"\0\x01\0\x02\0\0\0\x01\0\0\0\0\0\0\0\x05!!", 2));
}

/// A PRUNE from node 1 to node 2, its sender's frame number 5, and two bytes of another frame.
static PRUNE: &[u8] = b"PT\x02\x04\0\x01\0\x02\0\0\0\0\0\0\0\x05\0\0\0\0PT";

fn is_header_read(bytes: &[u8]) -> bool {
    match read_header(bytes) {
        Ok(header) => {
            let nodes = (header.from.number(), header.to.number());
            let rest = (header.kind, header.number, header.body_len);
            (nodes == (1, 2)) & (rest == (4, 5, 0))
        }
        Err(_) => false,
    }
}

#[test]
fn a_header_is_read_before_other_bytes(rt: HostRuntime) {
    assert!(rt; is_header_read(PRUNE));
    assert!(rt; !is_header_read(b"PT"));
}

static FAULTS: [(FrameFault, &str); 8] = [
    (FrameFault::Short, "Short"),
    (FrameFault::BadMagic, "BadMagic"),
    (FrameFault::BadVersion, "BadVersion"),
    (FrameFault::BadKind, "BadKind"),
    (FrameFault::TooLong, "TooLong"),
    (FrameFault::BadBody { at: 35 }, "BadBody"),
    (FrameFault::LeftOver, "LeftOver"),
    (FrameFault::Memory, "Memory"),
];

fn is_printed(alloc: Global, fault: &FrameFault, name: &str) -> bool {
    matches!(fault.to_string(alloc), Ok(printed) if printed.as_str() == name)
}

#[test]
fn refusals_print_their_names(rt: HostRuntime) {
    for (fault, name) in &FAULTS {
        assert!(rt; is_printed(rt.alloc(), fault, name));
    }
}

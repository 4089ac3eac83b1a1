//! Printed text that no line of `frame` has.

use dvvset::{Entries, Vector};
use meta_frame::FrameFault;
use printing::{print_frame_fault, print_object, print_vector};
use std::alloc::Global;
use streams::StreamFault;

fn is_empty_vector_printed(alloc: Global, text: &[u8]) -> bool {
    let mut out = Vec::new(alloc);
    print_vector(&mut out, &Vector::empty(alloc)).is_ok() && out.as_slice() == text
}

fn is_empty_object_printed(alloc: Global, text: &[u8]) -> bool {
    let mut out = Vec::new(alloc);
    print_object(&mut out, &Entries::empty(alloc)).is_ok() && out.as_slice() == text
}

fn is_want_of_memory_printed(alloc: Global, text: &[u8]) -> bool {
    let mut out = Vec::new(alloc);
    print_frame_fault(&mut out, &FrameFault::Memory).is_ok() && out.as_slice() == text
}

#[test]
fn what_is_empty_prints_as_a_dash(rt: HostRuntime) {
    assert!(rt; is_empty_vector_printed(rt.alloc(), b"-"));
    assert!(rt; is_empty_object_printed(rt.alloc(), b"ctx - values -"));
}

#[test]
fn want_of_memory_prints_as_a_refusal(rt: HostRuntime) {
    assert!(rt; is_want_of_memory_printed(rt.alloc(), b"error 99 Memory"));
}

fn is_named(alloc: Global, fault: StreamFault, name: &str) -> bool {
    matches!(fault.to_string(alloc), Ok(printed) if printed.as_str() == name)
}

#[test]
fn faults_of_streams_print_their_names(rt: HostRuntime) {
    let faults = [
        (StreamFault::Read, "Read"),
        (StreamFault::InputTooLong, "InputTooLong"),
        (StreamFault::Write, "Write"),
        (StreamFault::BrokenPipe, "BrokenPipe"),
        (StreamFault::Memory, "Memory"),
    ];
    for (fault, name) in faults {
        assert!(rt; is_named(rt.alloc(), fault, name), "{name}");
    }
}

//! Whichever single allocation is refused: a run ends with Memory and a front of the output, and
//! made again it prints all.

use crate::devices::{Device, Feed};
use plumctl_core::{Ended, frame_lines};
use std::alloc::Global;
use streams::{MayFail, StreamFault};

const INPUT: &[u8] = b"50540201 0000 0001 0000000000000001 00000029 0000 000161 000162 00016b \
    0001 0000 00000001 0000000000000001 0001 01 0000000000000000 0001 2b\n5g\n";

const TEXT: &[u8] =
    b"GOSSIP from 0 to 1 number 1 round 0 key a/b/k ctx 0.1:1 values hex:2b\nerror 9 BadHex\n";

/// Returns how a run ends, and how many bytes of the output were not written.
fn run(alloc: Global) -> (Result<Ended, StreamFault>, usize) {
    let mut writer = MayFail(Device::new(TEXT));
    let done = frame_lines(alloc, None, &mut MayFail(Feed::new(INPUT)), &mut writer);
    let left = if writer.0.is_right {
        writer.0.wanted.len()
    } else {
        usize::MAX
    };
    (done, left)
}

/// Returns whether a run prints all, or ends with Memory and a front, and then prints all.
fn is_run_again(alloc: Global) -> bool {
    let all = (Ok(Ended::SomeRefused), 0);
    match run(alloc) {
        (Err(StreamFault::Memory), left) => left <= TEXT.len() && run(alloc) == all,
        answer => answer == all,
    }
}

// Allocates at most 20 times.
#[test]
fn a_run_prints_all_when_it_is_made_again_under_refused_memory(rt: HostRuntime) {
    assert!(rt; is_run_again(rt.alloc()));
}

//! Reports of a node's file, to writers that are full at any byte, and of a reader that fails.

use node_file::FileFault;
use plumctl_file::{Reported, file_report};
use std::alloc::Global;
use std::io::{self, ErrorKind, Read};
use std::process::Abort;
use streams::{MayFail, StreamFault};

/// The file of node 0 in its first life, with x under a/b/k.
const FILE: &[u8] = b"\
PMNODE02\0\0\x01\0\0\0\x05\0\0\0\0\x01\x15\xf2\xf1\xa43\x9f_*1;\x95\x01\\\xad\x81$\xd0T\
\xa1q\xac/1\xcfR\x9d\xda|\xfbj8\xb4\x01\0\0\0(\x01\0\x01a\0\x01b\0\x01k\0\x01\0\0\0\0\0\
\x01\0\0\0\0\0\0\0\x01\0\x01\x01\0\0\0\0\0\0\0\0\0\x01x\x80\x8dH\x16\xbc\xf7\xb9\x88lXW\
\xf2\\\xad\xc6wQ\xf1\x14\xc9\x82\x9c~j\xec\xfb6\xf5\xce\xce\xd2\xbf\0";

/// What is reported of it.
const REPORT: &[u8] = b"node 0 life 1 keys 1
key a/b/k ctx 0.1:1 values x
root 4368d585cc1af0cf1167149ae68c0ee7ed5714817d2a67e966816308178e4dff
";

/// Returns whether a report to a writer with room for `room` bytes is stopped, and a front of it
/// was written.
fn has_front(alloc: Global, room: usize) -> bool {
    let mut taken = [0u8; 200];
    let mut writer = MayFail(&mut taken[..room.min(200)]);
    let reported = file_report(alloc, &mut &*FILE, &mut writer);
    let is_stopped = matches!(reported, Reported::Stopped(StreamFault::Write));
    drop(reported);
    is_stopped && REPORT.get(..room) == taken.get(..room)
}

#[test]
fn a_report_that_is_stopped_at_any_byte_has_a_front(rt: HostRuntime) {
    for room in 0..REPORT.len() {
        assert!(&rt; has_front(rt.alloc(), room), "{room} bytes");
    }
    assert!(&rt; !has_front(rt.alloc(), REPORT.len()));
}

/// A reader that gives bytes, and then fails.
#[derive(Drop)]
struct Torn<'a>(&'a [u8]);

impl Read for Torn<'_> {
    ghost use Rattle.std.specs.Prelude.{None};

    ghost remaining = { λ _. None };

    fn read(&mut self, piece: &mut [u8]) -> io::Result<usize> {
        if self.0.is_empty() {
            return Err(ErrorKind::Other.into());
        }
        self.0.read(piece)
    }
}

#[test]
fn a_read_that_fails_at_any_byte_is_told(rt: HostRuntime) {
    for len in 0..FILE.len() {
        let mut printed = Vec::new(rt.alloc());
        let mut reader = MayFail(Torn(&FILE[..len]));
        let reported = file_report(rt.alloc(), &mut reader, &mut printed);
        let is_told = matches!(reported, Reported::Refused(FileFault::Device));
        drop(reported);
        assert!(&rt; is_told && printed.as_slice() == b"error 30 Device\n".as_slice());
    }
}

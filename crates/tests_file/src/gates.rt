//! Gates that were changed on the disk.

use crate::files::{EMPTY, GATES, LIVES, OLD_TWO, ONE, ROWS, TWO};
use node_file::{changed_gate, end_of_records};
use std::alloc::Global;
use std::process::Abort;

/// Returns the gate that shows that it was changed in the file with these bytes at these places,
/// and without all behind `len` bytes.
fn shown(
    rt: &impl Abort,
    alloc: Global,
    file: &[u8],
    changes: &[(usize, u8)],
    len: usize,
) -> Option<usize> {
    let mut bytes = file.to_vec(alloc).expect(rt, "memory");
    for (at, byte) in changes {
        if let Some(place) = bytes.get_mut(*at) {
            *place = *byte;
        }
    }
    bytes.truncate(len);
    let found = changed_gate(alloc, &bytes);
    found.ok().expect(rt, "memory")
}

#[test]
fn a_gate_with_one_bit_changed_is_shown(rt: HostRuntime) {
    let last = GATES.len().saturating_sub(1);
    for (number, at) in GATES.iter().enumerate() {
        for bit in 0u8..8 {
            let was = if number == last { 0 } else { 1 };
            let found = shown(
                &rt,
                rt.alloc(),
                LIVES,
                &[(*at, was ^ 1 << bit)],
                LIVES.len(),
            );
            // Nothing stands behind the last. That the one before it became 0 a crash leaves too.
            let is_hidden = number == last || (number + 1 == last && bit == 0);
            let wanted = if is_hidden { None } else { Some(*at) };
            assert!(rt; found == wanted, "gate {number}, bit {bit}");
        }
    }
}

#[test]
fn a_changed_gate_is_shown_by_what_is_left_behind_it(rt: HostRuntime) {
    for pair in GATES.windows(3) {
        let [first, second, third] = pair else {
            continue;
        };
        let both = [(*first, 0), (*second, 0)];
        let found = |changes: &[(usize, u8)], len| shown(&rt, rt.alloc(), LIVES, changes, len);
        // Two whole records, with closed gates.
        assert!(rt; found(&both, *third) == Some(*first));
        assert!(rt; found(&both, third.saturating_sub(1)).is_none());
        // One, and an open gate.
        assert!(rt; found(&[(*first, 0)], second.saturating_add(1)) == Some(*first));
        assert!(rt; found(&[(*first, 0)], *second).is_none());
        // One, before a gate that isn't as it is written.
        assert!(rt; found(&[(*first, 2)], *second) == Some(*first));
        assert!(rt; found(&[(*first, 2)], second.saturating_sub(1)).is_none());
    }
}

#[test]
fn a_changed_gate_of_version_1_is_shown(rt: HostRuntime) {
    assert!(rt; shown(&rt, rt.alloc(), OLD_TWO, &[(10, 0)], OLD_TWO.len()) == Some(10));
    // In version 2 no record stands behind it.
    let renamed = [(10, 0), (7, b'2')];
    assert!(rt; shown(&rt, rt.alloc(), OLD_TWO, &renamed, OLD_TWO.len()).is_none());
}

#[test]
fn files_as_they_are_written_show_no_changed_gate(rt: HostRuntime) {
    for bytes in [EMPTY, ONE, TWO, LIVES, OLD_TWO] {
        assert!(rt; shown(&rt, rt.alloc(), bytes, &[], bytes.len()).is_none());
    }
    for (name, bytes, _) in ROWS {
        assert!(rt;
            shown(&rt, rt.alloc(), bytes, &[], bytes.len()).is_none(),
            "{name}"
        );
    }
}

#[test]
fn records_end_at_the_first_gate_that_is_not_open(rt: HostRuntime) {
    for n in 0..ONE.len() {
        assert!(rt; end_of_records(&ONE[..n]).is_none());
    }
    assert!(rt; end_of_records(ONE) == Some(129));
    assert!(rt; end_of_records(b"PMNODE02\0\0\x01\x01\0\0\x01") == Some(10));
    assert!(rt; end_of_records(b"PMNODE02\0\0\x01\x01\0\0\0").is_none());
}

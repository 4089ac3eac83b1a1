//! Seats of both kinds, and how the journal is cut.

use crate::parts::{Trial, counted, put, put_and_learn, shown};
use devices::MemoryDevice;
use node_lock::{Capacity, Naming, Node, ReadSeat, Receipt, WriteSeat};
use std::alloc::Global;
use std::process::Abort;
use std::sync::Wait;

/// Eight seats of each kind: each writes, and each is shown all that was written.
struct EightOfEach;

impl Trial for EightOfEach {
    fn run<J: Naming, R: Wait + Abort>(
        rt: &R,
        alloc: Global,
        node: &Node<MemoryDevice, J, &R>,
        writers: &mut Vec<WriteSeat<J>>,
        readers: &mut Vec<ReadSeat<J>>,
    ) -> Vec<Receipt> {
        let mut used = Vec::new(alloc);
        for place in 0..8 {
            let mut seat = writers.pop().expect(rt, "a seat");
            assert!(rt; put(rt, alloc, node, &mut seat, b'x') == Ok(place));
            used.push(seat).ok().expect(rt, "memory");
        }
        *writers = used;
        assert!(rt; readers.len() == 8);
        for reader in readers.iter_mut() {
            assert!(rt; shown(rt, alloc, reader) == Ok(8));
        }
        Vec::new(alloc)
    }
}

#[test]
fn eight_seats_of_each_kind_write_and_are_shown(rt: HostRuntime) {
    let counted = counted::<EightOfEach, HostRuntime>(&rt, rt.alloc(), Capacity::new(8, 8));
    assert!(rt; counted == (0, 8));
}

/// Three entries are cut, and the next stands at place 3.
struct CutAtThree;

impl Trial for CutAtThree {
    fn run<J: Naming, R: Wait + Abort>(
        rt: &R,
        alloc: Global,
        node: &Node<MemoryDevice, J, &R>,
        writers: &mut Vec<WriteSeat<J>>,
        _readers: &mut Vec<ReadSeat<J>>,
    ) -> Vec<Receipt> {
        let mut seat = writers.pop().expect(rt, "a seat");
        for place in 0..3 {
            assert!(rt; put(rt, alloc, node, &mut seat, b'x') == Ok(place));
        }
        assert!(rt; put(rt, alloc, node, &mut seat, b'y') == Err(51));
        assert!(rt; node.cut(rt, &seat).ok() == Some(3));
        assert!(rt; put(rt, alloc, node, &mut seat, b'z') == Ok(3));
        writers.push(seat).ok().expect(rt, "memory");
        Vec::new(alloc)
    }
}

#[test]
fn a_full_journal_is_cut_and_goes_on(rt: HostRuntime) {
    let capacity = Capacity {
        writers: 1,
        readers: 0,
        journal: 3,
    };
    assert!(rt; counted::<CutAtThree, HostRuntime>(&rt, rt.alloc(), capacity) == (3, 1));
}

/// Writes this often, and returns how many entries are then cut.
fn cut_after<J: Naming, R: Wait + Abort>(
    rt: &R,
    alloc: Global,
    node: &Node<MemoryDevice, J, &R>,
    seat: &mut WriteSeat<J>,
    writes: usize,
) -> Option<usize> {
    for _write in 0..writes {
        assert!(rt; put(rt, alloc, node, seat, b'x').is_ok());
    }
    node.cut(rt, seat).ok()
}

/// What was written since the last cut is cut.
struct CutEach;

impl Trial for CutEach {
    fn run<J: Naming, R: Wait + Abort>(
        rt: &R,
        alloc: Global,
        node: &Node<MemoryDevice, J, &R>,
        writers: &mut Vec<WriteSeat<J>>,
        _readers: &mut Vec<ReadSeat<J>>,
    ) -> Vec<Receipt> {
        let mut seat = writers.pop().expect(rt, "a seat");
        for writes in [0, 1, 5] {
            assert!(rt; cut_after(rt, alloc, node, &mut seat, writes) == Some(writes));
        }
        writers.push(seat).ok().expect(rt, "memory");
        Vec::new(alloc)
    }
}

#[test]
fn a_cut_tells_how_many_entries_there_were(rt: HostRuntime) {
    let counted = counted::<CutEach, HostRuntime>(&rt, rt.alloc(), Capacity::new(1, 0));
    assert!(rt; counted == (6, 0));
}

/// A ninth seat is refused until one is given up.
struct NoNinth;

impl Trial for NoNinth {
    fn run<J: Naming, R: Wait + Abort>(
        rt: &R,
        alloc: Global,
        node: &Node<MemoryDevice, J, &R>,
        writers: &mut Vec<WriteSeat<J>>,
        _readers: &mut Vec<ReadSeat<J>>,
    ) -> Vec<Receipt> {
        let ninth = node.new_seat(rt).err();
        assert!(rt; ninth.is_some_and(|fault| fault.code() == 52));
        let mut given = writers.pop().expect(rt, "a seat");
        assert!(rt; put(rt, alloc, node, &mut given, b'x') == Ok(0));
        node.give_up(rt, given);
        let mut again = node.new_seat(rt).ok().expect(rt, "a seat");
        assert!(rt; put(rt, alloc, node, &mut again, b'y') == Ok(1));
        writers.push(again).ok().expect(rt, "memory");
        Vec::new(alloc)
    }
}

#[test]
fn a_ninth_seat_is_refused_until_one_is_given_up(rt: HostRuntime) {
    let counted = counted::<NoNinth, HostRuntime>(&rt, rt.alloc(), Capacity::new(8, 0));
    assert!(rt; counted == (0, 2));
}

/// After a write of which one reader learnt, that reader is shown it, and the other reader is shown
/// it or nothing.
struct OneLearnt;

impl Trial for OneLearnt {
    fn run<J: Naming, R: Wait + Abort>(
        rt: &R,
        alloc: Global,
        node: &Node<MemoryDevice, J, &R>,
        writers: &mut Vec<WriteSeat<J>>,
        readers: &mut Vec<ReadSeat<J>>,
    ) -> Vec<Receipt> {
        let mut seat = writers.pop().expect(rt, "a seat");
        let mut one = readers.pop().expect(rt, "a reader");
        let mut other = readers.pop().expect(rt, "a reader");
        assert!(rt; shown(rt, alloc, &mut one) == Ok(0));
        put_and_learn(rt, alloc, node, &mut seat, b'x', &mut one);
        assert!(rt; shown(rt, alloc, &mut one) == Ok(1));
        let seen = shown(rt, alloc, &mut other);
        assert!(rt; seen == Ok(0) || seen == Ok(1));
        writers.push(seat).ok().expect(rt, "memory");
        readers.push(one).ok().expect(rt, "memory");
        readers.push(other).ok().expect(rt, "memory");
        Vec::new(alloc)
    }
}

#[test]
fn a_reader_that_learnt_is_shown_the_write(rt: HostRuntime) {
    let counted = counted::<OneLearnt, HostRuntime>(&rt, rt.alloc(), Capacity::new(1, 2));
    assert!(rt; counted == (0, 1));
}

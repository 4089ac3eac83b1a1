//! A batch of writes is made whole, and shown at once, or not at all.

use crate::parts::{Trial, counted, key, put, shown, value};
use devices::MemoryDevice;
use node_lock::{BatchRefusal, Capacity, Naming, Node, ReadSeat, Receipt, Write, WriteSeat};
use std::alloc::Global;
use std::process::Abort;
use std::sync::Wait;

/// Returns a batch that writes a letter over what is there, under the key of each digit.
fn batch(rt: &impl Abort, alloc: Global, digits: &[u8]) -> Vec<Write> {
    let mut writes = Vec::new(alloc);
    for digit in digits {
        let key = key(rt, alloc, *digit);
        let value = value(rt, alloc, b'b');
        writes
            .push(Write::PutOver { key, value })
            .ok()
            .expect(rt, "memory");
    }
    writes
}

/// Returns how many receipts a batch got, or the place and the number of the refusal; 0 as place if
/// the node refuses it.
fn made<J: Naming, R: Wait + Abort>(
    rt: &R,
    node: &Node<MemoryDevice, J, &R>,
    seat: &mut WriteSeat<J>,
    reader: &mut ReadSeat<J>,
    writes: Vec<Write>,
) -> Result<usize, (usize, u16)> {
    match node.write_all(rt, seat, writes) {
        Ok(done) => {
            reader.learn(&done.revision);
            let count = done.receipts.len();
            drop(done);
            Ok(count)
        }
        Err(BatchRefusal::Write { place, fault }) => Err((place, fault.code())),
        Err(BatchRefusal::Node(fault)) => Err((0, fault.code())),
        Err(BatchRefusal::TooMany) => Err((0, 0)),
    }
}

/// In a journal of four entries: three writes, of which two are of one key; three more, of which
/// the second has no room; one; none; and more than a batch may have.
struct WholeOrNot;

impl Trial for WholeOrNot {
    fn run<J: Naming, R: Wait + Abort>(
        rt: &R,
        alloc: Global,
        node: &Node<MemoryDevice, J, &R>,
        writers: &mut Vec<WriteSeat<J>>,
        readers: &mut Vec<ReadSeat<J>>,
    ) -> Vec<Receipt> {
        let mut seat = writers.pop().expect(rt, "a seat");
        let mut reader = readers.pop().expect(rt, "a seat");
        let first = made(rt, node, &mut seat, &mut reader, batch(rt, alloc, b"121"));
        assert!(rt; first == Ok(3));
        assert!(rt; shown(rt, alloc, &mut reader) == Ok(1));
        let second = made(rt, node, &mut seat, &mut reader, batch(rt, alloc, b"111"));
        assert!(rt; second == Err((1, 51)));
        assert!(rt; put(rt, alloc, node, &mut seat, b'x') == Ok(3));
        let none = made(rt, node, &mut seat, &mut reader, Vec::new(alloc));
        assert!(rt; none == Ok(0));
        let many = made(
            rt,
            node,
            &mut seat,
            &mut reader,
            batch(rt, alloc, &[b'1'; 257]),
        );
        assert!(rt; many == Err((0, 0)));
        writers.push(seat).ok().expect(rt, "memory");
        readers.push(reader).ok().expect(rt, "memory");
        Vec::new(alloc)
    }
}

#[test]
fn a_batch_is_made_whole_or_not_at_all(rt: HostRuntime) {
    let capacity = Capacity {
        writers: 1,
        readers: 1,
        journal: 4,
    };
    let counted = counted::<WholeOrNot, HostRuntime>(&rt, rt.alloc(), capacity);
    assert!(rt; counted == (0, 4));
}

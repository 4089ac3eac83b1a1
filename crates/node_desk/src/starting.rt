//! A node is started.

ghost use Rattle.std.specs.Prelude.{◌≡◌, ◌≤◌, ◌<◌, ◌+◌, ◌^◌, [], false, None, IfOk, IfErr, OnOk};
ghost use Rattle.meta_store.specs.Table.{IsTable};
ghost use Rattle.node_core.specs.Node.{opening};
ghost use Rattle.node_desk.specs.Desk.{most_seats};
ghost use Rattle.node_desk.specs.Starting.{AreNewReaders, AreNewWriters, IsFileOf, RefusesStarting, new_desk, refusal_of_start};
ghost use Rattle.node_call.specs.declared.fault.LockFault.TheVariants.{Memory};

use crate::desk::{Desk, MAX_SEATS};
use crate::outlets::Outlets;
use devices::Device;
use meta_store::Store;
use meta_types::{NodeId, both};
use node_call::{LockFault, WriteSeat};
use node_core::NodeState;
use node_file::NodeFile;
use node_readers::{Beginning, Naming, Publisher, ReadSeat, Revision, Tail};
use std::alloc::{AllocError, Global};
use std::sync::Wait;
use std::sync::ledger::{Blank, Book, Share};

/// How many entries a journal may have at most.
pub const MAX_JOURNAL: usize = 1_048_576;

/// How many seats of each kind a node has from the start, 0 to 8, and how many entries its journal
/// may have, 1 to 1,048,576.
#[derive(Clone, Copy, Debug, PartialEq, Eq)]
pub struct Capacity {
    pub writers: usize,
    pub readers: usize,
    pub journal: usize,
}

impl Capacity {
    /// Returns the capacity of `writers` write seats, `readers` read seats, and the longest
    /// journal.
    pub fn new(writers: usize, readers: usize) -> Self
        ensures { result ≡ record { writers = writers; readers = readers; journal = 1048576 } }
    {
        Capacity {
            writers,
            readers,
            journal: MAX_JOURNAL,
        }
    }
}

/// A desk, and the seats that were handed out.
#[derive(Drop)]
pub struct Started<D: Device + Drop, J: Naming, H: Wait + Drop> {
    pub desk: Desk<D, J, H>,
    pub writers: Vec<WriteSeat<J>>,
    pub readers: Vec<ReadSeat<J>>,
}

/// A desk that wasn't made: why, and what was handed in.
#[derive(Drop)]
pub struct NotStarted<D: Device + Drop> {
    pub fault: LockFault,
    pub file: NodeFile<D>,
    pub table: Store,
}

/// Returns why no node is started with this capacity.
fn refusal_of(capacity: Capacity) -> Option<LockFault>
    ensures { result ≡ refusal_of_start capacity }
{
    if capacity.journal == 0 || capacity.journal > MAX_JOURNAL {
        return Some(LockFault::BadLimit);
    }
    if capacity.writers as u64 > MAX_SEATS || capacity.readers as u64 > MAX_SEATS {
        return Some(LockFault::NoSeat);
    }
    None
}

/// Makes a node that opens with a copy of the table.
fn opened(alloc: Global, node: NodeId, life: u32, table: &Store) -> Result<NodeState, AllocError>
    requires { 1 ≤ life }
    ensures { IfOk result (λ state. state ≡ opening node life table.now) }
{
    let table = table.copy()?;
    NodeState::from_store(alloc, node, life, table)
}

/// Makes `count` read seats, which were shown nothing.
fn read_seats<J: Naming, H: Wait + Drop>(
    alloc: Global,
    publisher: &Publisher<J, H>,
    count: usize,
) -> Result<Vec<ReadSeat<J>>, AllocError>
    ensures new { IfOk result (λ seats. AreNewReaders count seats.items) }
{
    let mut seats = Vec::new(alloc);
    for _place in 0..count {
        seats.push(publisher.seat()?)?;
    }
    Ok(seats)
}

/// Makes `count` write seats, which have counted nothing, out of the share.
fn write_seats<J: Naming>(
    alloc: Global,
    rest: &mut Share<J>,
    count: usize,
) -> Result<Vec<WriteSeat<J>>, AllocError>
    requires parts { count < rest.old.parts }
    requires amount { rest.old.amount ≡ 0 }
    ensures new { IfOk result (λ seats. AreNewWriters count seats.items) }
    ensures rest { OnOk result (rest.new.parts + count ≡ rest.old.parts) }
    ensures amount { rest.new.amount ≡ 0 }
{
    let mut seats = Vec::new(alloc);
    seats.reserve(count)?;
    for _place in 0..count {
        seats.push_reserved(WriteSeat::of(rest.split_off(1, 0)));
    }
    Ok(seats)
}

/// All of a desk except its state and its file.
#[derive(Drop)]
struct Parts<J: Naming, H: Wait + Drop> {
    base: NodeState,
    publisher: Publisher<J, H>,
    tail: Tail<J>,
    counts: Book<J>,
    rest: Share<J>,
    writers: Vec<WriteSeat<J>>,
    readers: Vec<ReadSeat<J>>,
}

/// Makes a publisher of copies of the table, and `readers` read seats.
fn published<J: Naming, H: Wait + Drop>(
    handle: H,
    alloc: Global,
    revision: Revision<J>,
    table: &Store,
    readers: usize,
) -> Result<(Publisher<J, H>, Vec<ReadSeat<J>>), AllocError>
    requires few { readers < 2 ^ 32 }
    requires opening { table.now ≡ J.opening }
    requires first { revision ≡ [] }
    ensures publisher { IfOk result (λ p. (p.0.list ≡ []) × (p.0.stopped ≡ false)) }
    ensures readers { IfOk result (λ p. AreNewReaders readers p.1.items) }
{
    let publisher = Publisher::new(alloc, table, revision, readers.max(1), handle)?;
    let seats = read_seats(alloc, &publisher, readers);
    both(Ok(publisher), seats)
}

/// Returns the share that is left, and `writers` write seats.
fn shared<J: Naming>(
    alloc: Global,
    whole: Share<J>,
    writers: usize,
) -> Result<(Share<J>, Vec<WriteSeat<J>>), AllocError>
    requires parts { writers < whole.parts }
    requires amount { whole.amount ≡ 0 }
    ensures rest { IfOk result (λ p. (p.0.parts + writers ≡ whole.parts) × (p.0.amount ≡ 0)) }
    ensures writers { IfOk result (λ p. AreNewWriters writers p.1.items) }
{
    let mut rest = whole;
    let seats = write_seats(alloc, &mut rest, writers);
    both(Ok(rest), seats)
}

/// Makes the parts that are made of copies of the table.
fn make_parts<J: Naming, H: Wait + Drop>(
    handle: H,
    alloc: Global,
    tokens: (Blank, Beginning),
    life: (NodeId, u32),
    table: &Store,
    capacity: Capacity,
) -> Result<Parts<J, H>, AllocError>
    requires ledger { (tokens.0.name ≡ J.name) × (tokens.0.parts ≡ J.parts) }
    requires book { tokens.1 ≡ J.book }
    requires enough { 9 ≤ J.parts }
    requires life { 1 ≤ life.1 }
    requires opening { table.now ≡ J.opening }
    requires fits { refusal_of_start capacity ≡ None }
    ensures base { IfOk result (λ p. p.base ≡ opening life.0 life.1 table.now) }
    ensures publisher { IfOk result (λ p. (p.publisher.list ≡ []) × (p.publisher.stopped ≡ false)) }
    ensures counts { IfOk result (λ p. (p.counts.total ≡ 0) × (p.rest.amount ≡ 0)) }
    ensures shares { IfOk result (λ p. p.rest.parts + capacity.writers ≡ J.parts) }
    ensures writers { IfOk result (λ p. AreNewWriters capacity.writers p.writers.items) }
    ensures readers { IfOk result (λ p. AreNewReaders capacity.readers p.readers.items) }
{
    let (blank, beginning) = tokens;
    let (counts, whole) = blank.open::<J>();
    let (tail, revision) = beginning.named::<J>();
    let (node, number) = life;
    let base = opened(alloc, node, number, table);
    let shown = published(handle, alloc, revision, table, capacity.readers);
    let shares = shared(alloc, whole, capacity.writers);
    let (base, ((publisher, readers), (rest, writers))) = both(base, both(shown, shares))?;
    Ok(Parts {
        base,
        publisher,
        tail,
        counts,
        rest,
        writers,
        readers,
    })
}

fn desk_of<D: Device + Drop, J: Naming, H: Wait + Drop>(
    alloc: Global,
    parts: Parts<J, H>,
    state: NodeState,
    file: NodeFile<D>,
    capacity: Capacity,
) -> Started<D, J, H>
    requires states { (parts.base ≡ opening J.node J.incarnation J.opening)
        × (state ≡ opening J.node J.incarnation J.opening) }
    requires publisher { (parts.publisher.list ≡ []) × (parts.publisher.stopped ≡ false) }
    requires counts { (parts.counts.total ≡ 0) × (parts.rest.amount ≡ 0) }
    requires shares { parts.rest.parts + capacity.writers ≡ J.parts }
    requires few { capacity.writers ≤ most_seats }
    requires writers { AreNewWriters capacity.writers parts.writers.items }
    requires readers { AreNewReaders capacity.readers parts.readers.items }
    requires lawful { IsTable J.opening }
    requires served { IsFileOf D.content J.node J.incarnation J.opening file }
    ensures desk { result.desk
        ≡ new_desk (opening J.node J.incarnation J.opening) file capacity }
    ensures writers { AreNewWriters capacity.writers result.writers.items }
    ensures readers { AreNewReaders capacity.readers result.readers.items }
{
    // (for its type)
    let _ = file.device();
    let out = parts.writers.len() as u64;
    Started {
        desk: Desk {
            alloc,
            limit: capacity.journal,
            base: parts.base,
            state,
            journal: Vec::new(alloc),
            outlets: Outlets {
                file,
                publisher: parts.publisher,
                tail: parts.tail,
                is_stopped: false,
            },
            counts: parts.counts,
            rest: parts.rest,
            out,
        },
        writers: parts.writers,
        readers: parts.readers,
    }
}

/// Returns the desk of these parts, whose state takes the table.
fn begun<D: Device + Drop, J: Naming, H: Wait + Drop>(
    alloc: Global,
    parts: Parts<J, H>,
    file: NodeFile<D>,
    table: Store,
    capacity: Capacity,
) -> Result<Started<D, J, H>, NotStarted<D>>
    requires base { parts.base ≡ opening J.node J.incarnation J.opening }
    requires publisher { (parts.publisher.list ≡ []) × (parts.publisher.stopped ≡ false) }
    requires counts { (parts.counts.total ≡ 0) × (parts.rest.amount ≡ 0) }
    requires shares { parts.rest.parts + capacity.writers ≡ J.parts }
    requires few { capacity.writers ≤ most_seats }
    requires writers { AreNewWriters capacity.writers parts.writers.items }
    requires readers { AreNewReaders capacity.readers parts.readers.items }
    requires opening { table ≡ J.opening }
    requires served { IsFileOf D.content J.node J.incarnation J.opening file }
    ensures desk { IfOk result (λ s.
        s.desk ≡ new_desk (opening J.node J.incarnation J.opening) file capacity) }
    ensures writers { IfOk result (λ s. AreNewWriters capacity.writers s.writers.items) }
    ensures readers { IfOk result (λ s. AreNewReaders capacity.readers s.readers.items) }
    ensures refused { IfErr result (λ not. not.fault ≡ Memory) }
    ensures back { IfErr result (λ not. (not.file ≡ file) × (not.table ≡ table)) }
{
    // (for its type)
    let _ = table.len();
    match NodeState::begin(alloc, file.node(), file.life(), table) {
        Ok(state) => Ok(desk_of(alloc, parts, state, file, capacity)),
        Err(failed) => {
            drop(parts);
            Err(NotStarted {
                fault: LockFault::Memory,
                file,
                table: failed.value,
            })
        }
    }
}

impl<D: Device + Drop, J: Naming, H: Wait + Drop> Desk<D, J, H> {
    /// Starts a node in the life that was begun by the call that opened its file, with the table
    /// that the file holds. The ledger of its seats has nine parts: eight seats, and the rest.
    ///
    /// Refused in this order, and then file and table come back: 55 `BadLimit` if the journal's
    /// limit is 0 or more than 1,048,576; 52 `NoSeat` if more than eight seats of a kind are asked
    /// for. 99 `Memory` may come at any time.
    ///
    /// It makes three copies of the table: for the base, and two for readers.
    pub fn start(
        handle: H,
        alloc: Global,
        tokens: (Blank, Beginning),
        file: NodeFile<D>,
        table: Store,
        capacity: Capacity,
    ) -> Result<Started<D, J, H>, NotStarted<D>>
        requires ledger { (tokens.0.name ≡ J.name) × (tokens.0.parts ≡ J.parts) }
        requires book { tokens.1 ≡ J.book }
        requires enough { 9 ≤ J.parts }
        requires opening { table ≡ J.opening }
        requires served { IsFileOf D.content J.node J.incarnation J.opening file }
        ensures desk { IfOk result (λ s.
            s.desk ≡ new_desk (opening J.node J.incarnation J.opening) file capacity) }
        ensures writers { IfOk result (λ s. AreNewWriters capacity.writers s.writers.items) }
        ensures readers { IfOk result (λ s. AreNewReaders capacity.readers s.readers.items) }
        ensures accepted { OnOk result (refusal_of_start capacity ≡ None) }
        ensures refused { IfErr result (λ not. RefusesStarting capacity not.fault) }
        ensures back { IfErr result (λ not. (not.file ≡ file) × (not.table ≡ table)) }
    {
        if let Some(fault) = refusal_of(capacity) {
            return Err(NotStarted { fault, file, table });
        }
        let life = (file.node(), file.life());
        match make_parts(handle, alloc, tokens, life, &table, capacity) {
            Ok(parts) => begun(alloc, parts, file, table, capacity),
            Err(_) => Err(NotStarted {
                fault: LockFault::Memory,
                file,
                table,
            }),
        }
    }
}

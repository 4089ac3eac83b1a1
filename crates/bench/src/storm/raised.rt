//! Starts a node, lets its threads storm it, and closes it.

ghost use Rattle.std.specs.Prelude.{◌≡◌, ◌≤◌};
ghost use Rattle.node_desk.specs.Starting.{IsFileOf};

use crate::started::{self, start};
use crate::storm::looking::{Looks, look};
use crate::storm::shared::Shared;
use crate::storm::span::Span;
use crate::storm::writing::{Answers, write};
use crate::storm::written;
use devices::{Device, FileDevice};
use meta_store::Store;
use meta_types::{Actor, both};
use node_file::NodeFile;
use node_lock::{Beginning, Capacity, Closed, Naming, Node, ReadSeat, Started, WriteSeat};
use std::alloc::{AllocError, Global};
use std::io;
use std::rt::Clock;
use std::sync::Wait;
use std::sync::ledger::Blank;
use std::thread::{self, Threads};
use std::time::Duration;

/// How many threads write, and how many look.
pub(crate) const EACH: usize = 8;

/// How long a storm lasts, over how many keys, and whether its writes are printed.
#[derive(Clone, Copy)]
pub(crate) struct Plan {
    pub(crate) milliseconds: u64,
    pub(crate) keys: u32,
    pub(crate) is_told: bool,
}

/// What a storm leaves.
#[derive(Drop)]
pub(crate) struct Left {
    pub(crate) closed: Closed,
    pub(crate) answers: Vec<Answers>,
    pub(crate) looks: Vec<Looks>,
    /// How long the threads took, if the clock could be read.
    pub(crate) time: Option<Duration>,
}

/// Seats that came back from their threads, and what each thread returned. Fails only when memory
/// runs out.
type Done<S, T> = Result<Vec<(S, T)>, AllocError>;

/// Starts a node on the file, lets the threads call it, and closes it.
pub(crate) fn raise<J: Naming + Send + Sync, R: Threads + Wait + Clock + Print + Sync>(
    rt: &R,
    alloc: Global,
    tokens: (Blank, Beginning),
    file: NodeFile<FileDevice>,
    table: Store,
    plan: Plan,
) -> io::Result<Left>
    requires ledger { (tokens.0.name ≡ J.name) × (tokens.0.parts ≡ J.parts) }
    requires book { tokens.1 ≡ J.book }
    requires enough { 9 ≤ J.parts }
    requires opening { table ≡ J.opening }
    requires served { IsFileOf (⟦<FileDevice as Device>⟧.content)
        J.node J.incarnation J.opening file }
{
    let actor = Actor::new(file.node(), file.life());
    let capacity = Capacity::new(EACH, EACH);
    let keys = written::keys(alloc, plan.keys);
    let started: io::Result<Started<FileDevice, J, &R>> = start(
        rt, alloc, tokens, file, table, capacity,
    );
    let (keys, started) = both(keys, started)?;
    let span = Span::begin(rt, plan.milliseconds);
    let shared = Shared::new(alloc, span, keys, actor, plan.is_told);
    let left = blow(rt, &shared, started);
    drop(shared);
    left
}

/// Lets the threads call the node, and closes it.
fn blow<J: Naming + Send + Sync, R: Threads + Wait + Clock + Print + Sync>(
    rt: &R,
    shared: &Shared<J>,
    started: Started<FileDevice, J, &R>,
) -> io::Result<Left> {
    let Started {
        node,
        writers,
        readers,
    } = started;
    let (written, looked) = side_by_side(rt, &node, shared, writers, readers);
    let time = shared.span.elapsed(rt);
    close(shared.alloc, node, written, looked, time)
}

/// Lets each seat work in a thread of its own.
fn side_by_side<J: Naming + Send + Sync, R: Threads + Wait + Clock + Print + Sync>(
    rt: &R,
    node: &Node<FileDevice, J, &R>,
    shared: &Shared<J>,
    writers: Vec<WriteSeat<J>>,
    readers: Vec<ReadSeat<J>>,
) -> (Done<WriteSeat<J>, Answers>, Done<ReadSeat<J>, Looks>) {
    thread::join(
        rt,
        move || thread::map_vec(
            rt,
            writers,
            &|seat: WriteSeat<J>| write(rt, node, shared, seat),
        ),
        move || thread::map_vec(rt, readers, &|seat: ReadSeat<J>| look(rt, shared, seat)),
    )
}

/// Closes the node, once all its seats are back.
fn close<J: Naming, R: Wait>(
    alloc: Global,
    node: Node<FileDevice, J, &R>,
    written: Done<WriteSeat<J>, Answers>,
    looked: Done<ReadSeat<J>, Looks>,
    time: Option<Duration>,
) -> io::Result<Left> {
    let parts = both(apart(alloc, written), apart(alloc, looked));
    let (node, ((writers, answers), (readers, looks))) = both(Ok(node), parts)?;
    let closed = started::close(node, writers, readers);
    let ((answers, looks), closed) = both(Ok((answers, looks)), closed)?;
    Ok(Left {
        closed,
        answers,
        looks,
        time,
    })
}

/// Splits pairs into the first parts and the second parts.
fn apart<S: Drop, T: Drop>(
    alloc: Global,
    done: Done<S, T>,
) -> Result<(Vec<S>, Vec<T>), AllocError> {
    let (mut seats, mut told) = (Vec::new(alloc), Vec::new(alloc));
    for (seat, one) in done? {
        seats.push(seat)?;
        told.push(one)?;
    }
    Ok((seats, told))
}

//! A thread that writes.

use crate::storm::shared::{News, Shared};
use crate::storm::trouble::Trouble;
use crate::storm::written::{Mark, count_of, text_of};
use devices::FileDevice;
use dvvset::Vector;
use meta_types::{MetaKey, both};
use node_events::Reply;
use node_lock::{Acknowledgement, LockFault, Naming, Node, Receipt, WriteSeat};
use std::rt::Clock;
use std::sync::Wait;

/// What a writer's calls returned.
#[derive(Drop)]
pub(crate) struct Answers {
    /// How many writes were acknowledged.
    pub(crate) writes: u64,
    /// Their receipts, except those from before this writer cut the journal.
    pub(crate) receipts: Vec<Receipt>,
    /// How often it cut the journal.
    pub(crate) cuts: u64,
    pub(crate) trouble: Option<Trouble>,
}

/// Writes once, and until the time is over.
pub(crate) fn write<J: Naming, R: Wait + Clock + Print>(
    rt: &R,
    node: &Node<FileDevice, J, &R>,
    shared: &Shared<J>,
    seat: WriteSeat<J>,
) -> (WriteSeat<J>, Answers) {
    let mut seat = seat;
    let mut answers = Answers {
        writes: 0,
        receipts: Vec::new(shared.alloc),
        cuts: 0,
        trouble: None,
    };
    let writer = shared.next_writer();
    for _ in rt.forever() {
        if let Err(trouble) = go_on(rt, node, shared, writer, &mut seat, &mut answers) {
            answers.trouble = Some(trouble);
            break;
        }
        if shared.span.is_over(rt) {
            break;
        }
    }
    (seat, answers)
}

/// Makes one more write, and keeps its receipt; or cuts the journal if it is full.
fn go_on<J: Naming, R: Wait + Print>(
    rt: &R,
    node: &Node<FileDevice, J, &R>,
    shared: &Shared<J>,
    writer: u64,
    seat: &mut WriteSeat<J>,
    answers: &mut Answers,
) -> Result<(), Trouble> {
    let mark = Mark {
        writer,
        number: answers.writes,
    };
    let done = write_one(rt, node, shared, seat, mark);
    if !found_no_room(&done) {
        return keep(answers, done?);
    }
    // Dropped by a call, so that no case of the proof takes it apart.
    drop(done);
    node.cut(rt, seat)?;
    answers.cuts = answers.cuts.saturating_add(1);
    answers.receipts.clear();
    Ok(())
}

/// Returns whether the write was refused because the journal is full.
fn found_no_room(done: &Result<Receipt, Trouble>) -> bool {
    matches!(done, Err(Trouble::Write(LockFault::JournalFull)))
}

/// Keeps the receipt of a write that was acknowledged.
fn keep(answers: &mut Answers, receipt: Receipt) -> Result<(), Trouble> {
    answers.writes = answers.writes.saturating_add(1);
    answers.receipts.push(receipt)?;
    Ok(())
}

/// Makes the write, prints it, and posts it to readers.
fn write_one<J: Naming, R: Wait + Print>(
    rt: &R,
    node: &Node<FileDevice, J, &R>,
    shared: &Shared<J>,
    seat: &mut WriteSeat<J>,
    mark: Mark,
) -> Result<Receipt, Trouble> {
    let place = mark.place(shared.keys.len());
    let Some(key) = shared.keys.get(place) else {
        return Err(Trouble::NoKey);
    };
    let done = put(rt, node, shared, seat, key, mark)?;
    let told = tell(rt, shared, place, key, mark, &done);
    let (receipt, ()) = both(Ok(done.into_receipt()), told)?;
    Ok(receipt)
}

fn put<J: Naming, R: Wait>(
    rt: &R,
    node: &Node<FileDevice, J, &R>,
    shared: &Shared<J>,
    seat: &mut WriteSeat<J>,
    key: &MetaKey,
    mark: Mark,
) -> Result<Acknowledgement<J>, Trouble> {
    let (value, key) = both(Ok(mark.value(shared.alloc)?), key.copy())?;
    let done = if mark.is_blind(shared.keys.len()) {
        node.put(rt, seat, key, value, None)
    } else {
        node.put_over(rt, seat, key, value)
    };
    Ok(done?)
}

/// Prints an acknowledged write at standard output, and then posts it to readers.
fn tell<J: Naming, R: Wait + Print>(
    rt: &R,
    shared: &Shared<J>,
    place: usize,
    key: &MetaKey,
    mark: Mark,
    done: &Acknowledgement<J>,
) -> Result<(), Trouble> {
    let vector = vector_of(done)?;
    let count = count_of(&vector, shared.actor);
    shared.tell(rt, text_of(key.key()), count, mark)?;
    let revision = done.revision().again();
    shared.post(
        rt,
        News {
            revision,
            place,
            vector,
        },
    );
    Ok(())
}

/// Returns the vector that the write returned.
fn vector_of<J: Naming>(done: &Acknowledgement<J>) -> Result<Vector, Trouble> {
    match &done.entry().reply {
        Reply::Wrote { vector } => Ok(vector.copy()?),
        _ => Err(Trouble::NoVector),
    }
}

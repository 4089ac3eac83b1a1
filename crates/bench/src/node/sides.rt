//! Two stores that differ, how long their exchange takes and what it sends.
//!
//! A list of messages is passed by value, so that no function holds two if a call fails.

use crate::node::table::{filled, put_over};
use crate::rows::{Rows, actor, node};
use crate::samples::refused;
use exchange::{answer, reconcile, start};
use hash_tree::Held;
use meta_frame::{Frame, Message, encode, is_lawful};
use meta_store::Store;
use meta_types::both;
use std::alloc::Global;
use std::io;
use std::time::Instant;

/// How many keys both stores hold, under one full prefix.
const KEYS: u32 = 8_192;

/// Two stores of the same keys, some of which were written once more.
#[derive(Drop)]
pub(crate) struct Sides {
    alloc: Global,
    here: Store,
    there: Store,
}

/// How many frames were sent, and their bytes with their headers.
#[derive(Clone, Copy)]
pub(crate) struct Sent {
    pub(crate) frames: u64,
    pub(crate) bytes: u64,
}

/// Makes one side's writes of `changes` keys, which lie evenly: they are written by turns here,
/// there, and on both sides.
fn write_some(store: &mut Store, side: u16, rows: &Rows, changes: u32) -> io::Result<()> {
    let actor = actor(1_u16.saturating_add(side))?;
    for turn in 0..changes {
        let place = u64::from(turn) * u64::from(KEYS) / u64::from(changes.max(1));
        if let Some(key) = rows.keys().get(place as usize) {
            if turn % 3 == 2 || turn % 3 == u32::from(side) {
                put_over(store, actor, key, rows.value())?;
            }
        }
    }
    Ok(())
}

impl Sides {
    /// Makes two stores that differ under `changes` keys.
    pub(crate) fn differing(alloc: Global, changes: u32) -> io::Result<Self> {
        let rows = Rows::in_turn(alloc, KEYS, 1)?;
        let sides = Sides::of(alloc, &rows, changes);
        drop(rows);
        sides
    }

    fn of(alloc: Global, rows: &Rows, changes: u32) -> io::Result<Self> {
        let (here, tree) = filled(alloc, actor(0)?, rows)?;
        drop(tree);
        let there = here.copy();
        let (here, there) = both(Ok(here), there)?;
        let mut sides = Sides { alloc, here, there };
        let done = sides.write(rows, changes);
        let (sides, ()) = both(Ok(sides), done)?;
        Ok(sides)
    }

    fn write(&mut self, rows: &Rows, changes: u32) -> io::Result<()> {
        write_some(&mut self.here, 0, rows, changes)?;
        write_some(&mut self.there, 1, rows, changes)
    }

    /// Makes copies of both stores, each with its tree.
    fn held(&self) -> io::Result<(Held, Held)> {
        both(held(self.alloc, &self.here), held(self.alloc, &self.there))
    }

    /// Returns how many nanoseconds an exchange of copies takes.
    pub(crate) fn taken(&self, rt: &HostRuntime) -> io::Result<u128> {
        let (mut here, mut there) = self.held()?;
        let nanos = time_of_exchange(rt, &mut here, &mut there);
        drop(here);
        drop(there);
        nanos
    }

    /// Returns what an exchange of copies sends.
    pub(crate) fn sent(&self) -> io::Result<Sent> {
        let (mut here, mut there) = self.held()?;
        let sent = exchanged(self.alloc, &mut here, &mut there);
        drop(here);
        drop(there);
        sent
    }
}

/// Makes a copy of the store with its tree.
fn held(alloc: Global, store: &Store) -> io::Result<Held> {
    Ok(Held::new(alloc, store.copy()?)?)
}

fn time_of_exchange(rt: &HostRuntime, here: &mut Held, there: &mut Held) -> io::Result<u128> {
    let start = Instant::now(rt)?;
    reconcile(rt.alloc(), here, there).map_err(refused)?;
    Ok(start.elapsed(rt)?.as_nanos())
}

impl Sent {
    /// Counts one more frame, of `len` bytes.
    fn count(&mut self, len: u64) {
        self.frames = self.frames.saturating_add(1);
        self.bytes = self.bytes.saturating_add(len);
    }
}

/// Runs an exchange that `here` begins, in seven rounds, each of which answers the one before; an
/// eighth has nothing to take. Returns what it sends.
fn exchanged(alloc: Global, here: &mut Held, there: &mut Held) -> io::Result<Sent> {
    let mut sent = Sent {
        frames: 0,
        bytes: 0,
    };
    let mut messages = begun(alloc, here)?;
    for _turn in 0..4 {
        messages = round(alloc, there, &mut sent, messages)?;
        messages = round(alloc, here, &mut sent, messages)?;
    }
    Ok(sent)
}

/// Returns the messages that begin an exchange.
fn begun(alloc: Global, held: &Held) -> io::Result<Vec<Message>> {
    let mut messages = Vec::new(alloc);
    messages.push(start(held))?;
    Ok(messages)
}

/// Takes messages one after another, and then returns their answers. A want of a key comes after
/// its object, so it makes no difference that all are taken before the first is answered.
fn round(
    alloc: Global,
    held: &mut Held,
    sent: &mut Sent,
    messages: Vec<Message>,
) -> io::Result<Vec<Message>> {
    for message in messages.iter() {
        sent.count(frame_len(alloc, message)?);
        merge(held, message)?;
    }
    answers(alloc, held, messages.as_slice())
}

/// Merges the object that a message brings, if it brings one.
fn merge(held: &mut Held, message: &Message) -> io::Result<()> {
    if let Message::XObject { key, object } = message {
        let merged = held.store().preview_merge(key, object).map_err(refused)?;
        if let Some(merged) = merged {
            held.hold(key, merged)?;
        }
    }
    Ok(())
}

/// Returns the answers to messages from what is held.
fn answers(alloc: Global, held: &Held, messages: &[Message]) -> io::Result<Vec<Message>> {
    let mut answers = Vec::new(alloc);
    for message in messages {
        answers.append(&mut answer(alloc, held, message)?)?;
    }
    Ok(answers)
}

/// Returns how many bytes a message has as the frame number 1 from one node to another.
fn frame_len(alloc: Global, message: &Message) -> io::Result<u64> {
    let frame = Frame {
        from: node(0)?,
        to: node(1)?,
        number: 1,
        message: message.copy()?,
    };
    let len = encoded_len(alloc, &frame);
    drop(frame);
    len
}

/// Returns how many bytes a frame has, including its header. A frame that breaks a limit is
/// refused.
fn encoded_len(alloc: Global, frame: &Frame) -> io::Result<u64> {
    if !is_lawful(frame) {
        return Err(refused(()));
    }
    let bytes = encode(alloc, frame).map_err(refused)?;
    Ok(bytes.len() as u64)
}

//! Changes of a journal and of a table. One that changes nothing is refused.

use crate::fault::RowFault;
use crate::journals::trial::{Edit, Within};
use meta_store::Store;
use meta_types::{ByteString, NodeId, both};
use node_events::{NodeEvent, Outbox, Reply};
use node_journal::Entry;
use std::alloc::{AllocError, Global};
use std::mem::replace;

pub fn copy_of(alloc: Global, journal: &[Entry]) -> Result<Vec<Entry>, AllocError> {
    let mut entries = Vec::new(alloc);
    let done = add_copies(&mut entries, journal);
    let (entries, ()) = both(Ok(entries), done)?;
    Ok(entries)
}

fn add_copies(entries: &mut Vec<Entry>, journal: &[Entry]) -> Result<(), AllocError> {
    for entry in journal {
        entries.push(entry.copy()?)?;
    }
    Ok(())
}

/// Returns a copy of a journal, with the entry at a place changed.
pub fn edited(
    alloc: Global,
    journal: &[Entry],
    place: usize,
    edit: Edit,
) -> Result<Vec<Entry>, RowFault> {
    let mut entries = copy_of(alloc, journal)?;
    let done = edit_at(alloc, &mut entries, place, edit);
    let (entries, ()) = both(Ok(entries), done)?;
    Ok(entries)
}

/// Returns a copy of a journal. Before the entry at a place stands one in which the peer went down.
pub fn with_down(
    alloc: Global,
    journal: &[Entry],
    place: usize,
    peer: u16,
) -> Result<Vec<Entry>, RowFault> {
    let peer = NodeId::new(peer).map_err(|_| RowFault::Idle)?;
    let mut entries = copy_of(alloc, journal)?;
    let done = put_before(&mut entries, place, peer_down(alloc, peer));
    let (entries, ()) = both(Ok(entries), done)?;
    Ok(entries)
}

fn edit_at(
    alloc: Global,
    entries: &mut Vec<Entry>,
    place: usize,
    edit: Edit,
) -> Result<(), RowFault> {
    match edit {
        Edit::LeaveOut => leave_out(entries, place),
        Edit::Double => double(entries, place),
        Edit::Swap => swap(entries, place),
        Edit::Within(within) => change_at(alloc, entries, place, within),
    }
}

fn leave_out(entries: &mut Vec<Entry>, place: usize) -> Result<(), RowFault> {
    if place >= entries.len() {
        return Err(RowFault::Idle);
    }
    drop(entries.remove(place));
    Ok(())
}

/// Puts an entry before the one at a place.
fn put_before(entries: &mut Vec<Entry>, place: usize, entry: Entry) -> Result<(), RowFault> {
    if place < entries.len() {
        Ok(entries.insert(place, entry)?)
    } else {
        drop(entry);
        Err(RowFault::Idle)
    }
}

fn double(entries: &mut Vec<Entry>, place: usize) -> Result<(), RowFault> {
    let Some(entry) = entries.get(place) else {
        return Err(RowFault::Idle);
    };
    let again = entry.copy()?;
    Ok(entries.insert(place, again)?)
}

/// Refuses to swap equal entries.
fn swap(entries: &mut Vec<Entry>, place: usize) -> Result<(), RowFault> {
    if place >= entries.len() || place + 1 >= entries.len() {
        return Err(RowFault::Idle);
    }
    if entries[place] == entries[place + 1] {
        return Err(RowFault::Idle);
    }
    entries.swap(place, place + 1);
    Ok(())
}

fn change_at(
    alloc: Global,
    entries: &mut Vec<Entry>,
    place: usize,
    within: Within,
) -> Result<(), RowFault> {
    match entries.get_mut(place) {
        Some(entry) => change_within(alloc, entry, within),
        None => Err(RowFault::Idle),
    }
}

/// Changes what an entry holds.
fn change_within(alloc: Global, entry: &mut Entry, within: Within) -> Result<(), RowFault> {
    match within {
        Within::Reply => {
            let other = other_reply(&entry.reply);
            drop(replace(&mut entry.reply, other));
            Ok(())
        }
        Within::Send(byte) => send(alloc, &mut entry.outbox, Some(byte)),
        Within::Unsend => send(alloc, &mut entry.outbox, None),
        Within::Take(byte) => flip_taken(&mut entry.event, byte),
        Within::Unread => forget_context(&mut entry.event),
    }
}

/// Changes a bit of the first frame, or leaves the first frame out.
fn send(alloc: Global, outbox: &mut Outbox, byte: Option<usize>) -> Result<(), RowFault> {
    if outbox.as_slice().is_empty() {
        return Err(RowFault::Idle);
    }
    let other = with_first(alloc, outbox, byte)?;
    drop(replace(outbox, other));
    Ok(())
}

/// Makes the entry of a peer that is down, which gave nothing.
fn peer_down(alloc: Global, peer: NodeId) -> Entry {
    Entry {
        event: NodeEvent::PeerDown { peer, word: 0 },
        reply: Reply::Done,
        outbox: Outbox::new(Vec::new(alloc)),
    }
}

/// Returns a reply that isn't this one.
fn other_reply(reply: &Reply) -> Reply {
    match reply {
        Reply::Done => Reply::Took,
        _ => Reply::Done,
    }
}

/// Returns a copy of the frame with one bit of the byte at the place changed.
fn flipped(frame: &ByteString, byte: usize) -> Result<ByteString, RowFault> {
    let mut bytes = frame.copy()?.into_vec()?;
    if byte >= bytes.len() {
        return Err(RowFault::Idle);
    }
    bytes[byte] ^= 1;
    Ok(ByteString::new(bytes))
}

/// Returns the frames with a bit of the first one changed, or without the first one.
fn with_first(alloc: Global, outbox: &Outbox, byte: Option<usize>) -> Result<Outbox, RowFault> {
    let mut frames = Vec::new(alloc);
    let done = add_frames(&mut frames, outbox.as_slice(), byte);
    let (frames, ()) = both(Ok(frames), done)?;
    Ok(Outbox::new(frames))
}

/// Adds copies of frames, with a bit of the first one changed, or without the first one.
fn add_frames(
    frames: &mut Vec<ByteString>,
    sent: &[ByteString],
    byte: Option<usize>,
) -> Result<(), RowFault> {
    for (place, frame) in sent.iter().enumerate() {
        match byte {
            Some(byte) if place == 0 => frames.push(flipped(frame, byte)?)?,
            None if place == 0 => {}
            _ => frames.push(frame.copy()?)?,
        }
    }
    Ok(())
}

/// Changes a bit of the frame that the event takes.
fn flip_taken(event: &mut NodeEvent, byte: usize) -> Result<(), RowFault> {
    if let NodeEvent::Take { frame, .. } = event {
        let other = flipped(frame, byte)?;
        drop(replace(frame, other));
        return Ok(());
    }
    Err(RowFault::Idle)
}

/// Makes a write one that has read nothing.
fn forget_context(event: &mut NodeEvent) -> Result<(), RowFault> {
    if let NodeEvent::Write { context, .. } = event {
        if context.is_some() {
            drop(context.take());
            return Ok(());
        }
    }
    Err(RowFault::Idle)
}

/// Returns a copy of a table without its first object.
pub fn without_first(store: &Store) -> Result<Store, RowFault> {
    if store.is_empty() {
        return Err(RowFault::Idle);
    }
    let mut table = store.copy()?;
    let done = forget_first(&mut table, store);
    let (table, ()) = both(Ok(table), done)?;
    Ok(table)
}

fn forget_first(table: &mut Store, store: &Store) -> Result<(), AllocError> {
    if let Some(prefix) = store.prefixes()?.first() {
        if let Some(key) = store.list(prefix)?.first() {
            table.forget(key);
        }
    }
    Ok(())
}

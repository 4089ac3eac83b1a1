//! The calls of the broadcast that lines name.

use crate::fault::RowFault;
use crate::overlay::asked::{CastCall, Known, Told};
use crate::words::{Words, number_of};
use dvvset::{Counter, Vector};
use meta_types::{Actor, FullPrefix, MetaKey, NodeId, both};
use std::alloc::Global;

/// Reads what follows a command, or returns `None` if it is no call of the broadcast.
pub fn read_call(
    alloc: Global,
    command: &str,
    words: &mut Words<'_>,
) -> Result<Option<CastCall>, RowFault> {
    Ok(Some(match command {
        "up" => CastCall::Up(words.node_id()?),
        "down" => CastCall::Down(words.node_id()?),
        "write" => CastCall::Write(read_known(alloc, words)?),
        "change" => CastCall::Change(read_known(alloc, words)?),
        "gossip" => read_gossip(alloc, words)?,
        "ihave" => read_ihave(alloc, words)?,
        "graft" => read_graft(alloc, words)?,
        "prune" => CastCall::Prune {
            from: read_sender(words)?,
        },
        "tick" => CastCall::Tick,
        _ => return Ok(None),
    }))
}

fn read_gossip(alloc: Global, words: &mut Words<'_>) -> Result<CastCall, RowFault> {
    let told = read_told(alloc, words);
    let (told, is_fresh) = both(told, words.is_first_of("fresh", "stale"))?;
    Ok(CastCall::Gossip { told, is_fresh })
}

fn read_ihave(alloc: Global, words: &mut Words<'_>) -> Result<CastCall, RowFault> {
    let told = read_told(alloc, words);
    let (told, is_stale) = both(told, words.is_first_of("stale", "fresh"))?;
    Ok(CastCall::Announce { told, is_stale })
}

fn read_graft(alloc: Global, words: &mut Words<'_>) -> Result<CastCall, RowFault> {
    let told = read_told(alloc, words);
    let (told, is_held) = both(told, words.is_first_of("held", "absent"))?;
    Ok(CastCall::Graft { told, is_held })
}

fn read_told(alloc: Global, words: &mut Words<'_>) -> Result<Told, RowFault> {
    let from = read_sender(words)?;
    let round = words.after("round")?;
    let round = round.parse().map_err(|_| RowFault::Mistyped)?;
    let known = read_known(alloc, words)?;
    Ok(Told { from, round, known })
}

/// Reads from which node a message came.
pub fn read_sender(words: &mut Words<'_>) -> Result<NodeId, RowFault> {
    words.just("from")?;
    words.node_id()
}

fn read_known(alloc: Global, words: &mut Words<'_>) -> Result<Known, RowFault> {
    let name = words.after("key")?;
    let events = number_of(words.after("events")?)?;
    let (key, vector) = both(key_of(alloc, name), vector_of(alloc, events))?;
    Ok(Known { key, vector })
}

/// Makes a key under the full prefix `a/b`.
fn key_of(alloc: Global, word: &str) -> Result<MetaKey, RowFault> {
    let names = both(Vec::from_slice(alloc, b"a"), Vec::from_slice(alloc, b"b"));
    let (own, (prefix, sub)) = both(Vec::from_slice(alloc, word.as_bytes()), names)?;
    let prefix = FullPrefix::new(prefix, sub).map_err(|_| RowFault::Mistyped);
    let (prefix, own) = both(prefix, Ok(own))?;
    MetaKey::new(prefix, own).map_err(|_| RowFault::Mistyped)
}

/// Makes the vector of `events` events of node 0 in its first life; at least one.
fn vector_of(alloc: Global, events: u64) -> Result<Vector, RowFault> {
    let node = NodeId::new(0).map_err(|_| RowFault::Mistyped)?;
    let mut counters = Vec::new(alloc);
    counters.push(Counter::new(Actor::new(node, 1), events))?;
    Vector::from_parts(counters).map_err(|_| RowFault::Mistyped)
}

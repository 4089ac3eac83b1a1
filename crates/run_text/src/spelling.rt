//! Which runs have a text.

ghost use Rattle.std.specs.Prelude.{◌↔◌, ◌<◌, ◌^◌, All, IfSome, IsTrue, Some, map};
ghost use Rattle.hex.specs.Hex.{IsBytes};
ghost use Rattle.meta_types.specs.Name.{IsFullPrefix, IsKey};
ghost use Rattle.meta_types.specs.Value.{IsValue};
ghost use Rattle.streams.specs.Line.{IsOneLine};
ghost use Rattle.scenario_text.specs.Commands as spoken;
ghost use Rattle.scenario_text.specs.Spelling.{IsPlainKey, IsPlainPrefix};
ghost use Rattle.run_text.specs.Replay.{HasReplay, IsSpelled, command_of_event, over_command, step_command, write_command};

use crate::line::number;
use meta_types::{FullPrefix, MetaKey, Value};
use node_events::NodeEvent;
use printing::are_plain;
use world_core::{Accepted, Event};

/// Returns whether both parts are letters, digits, `.`, `_` and `-`.
fn is_plain_prefix(prefix: &FullPrefix) -> bool
    ensures plain { IsTrue result ↔ IsPlainPrefix prefix.now }
    ensures in_range { IsFullPrefix prefix.now }
{
    are_plain(prefix.prefix()) && are_plain(prefix.sub())
}

/// Returns whether all parts are letters, digits, `.`, `_` and `-`.
fn is_plain_key(key: &MetaKey) -> bool
    ensures plain { IsTrue result ↔ IsPlainKey key.now }
    ensures in_range { IsKey key.now }
{
    is_plain_prefix(key.prefix()) && are_plain(key.key())
}

/// Says what the type of a number keeps.
fn know_number(number: u64)
    ensures { number < 2 ^ 64 }
{}

fn know_read(read: Option<u64>)
    ensures { IfSome read (λ number. number < 2 ^ 64) }
{
    if let Some(number) = read {
        know_number(number);
    }
}

/// Says what the type of bytes keeps.
fn know_bytes(bytes: &[u8])
    ensures { IsBytes bytes.now }
{}

/// Says what the type of a value keeps.
fn know_value(value: &Value)
    ensures in_range { IsValue value.now }
    ensures bytes { IfSome value.now.body IsBytes }
{
    let _ = value.stamp();
    if let Some(bytes) = value.body() {
        know_bytes(bytes);
    }
}

/// Returns whether a write has a spelling.
fn is_spelled_write(node: u64, key: &MetaKey, value: &Value, read: Option<u64>) -> bool
    ensures { IsTrue result ↔ IsSpelled
        (Some (write_command node key.now value.now.stamp value.now.body read)) }
{
    know_value(value);
    know_read(read);
    is_plain_key(key)
}

/// Returns whether a write over all that is shown has a spelling: one of a value.
fn is_spelled_over(node: u64, key: &MetaKey, value: &Value) -> bool
    ensures { IsTrue result ↔ IsSpelled
        (over_command node key.now value.now.stamp value.now.body) }
{
    know_value(value);
    match value.body() {
        Some(_) => is_plain_key(key),
        None => false,
    }
}

/// Returns whether a command with only a key has a spelling.
fn is_spelled_under(node: u64, key: &MetaKey) -> bool
    ensures read { IsTrue result ↔ IsSpelled (Some (spoken.Read node key.now)) }
    ensures keep { IsTrue result ↔ IsSpelled (Some (spoken.Keep node (Some key.now))) }
{
    is_plain_key(key)
}

fn is_spelled_watch(node: u64, prefix: &FullPrefix, capacity: usize) -> bool
    ensures { IsTrue result ↔ IsSpelled (Some (spoken.Watch node prefix.now capacity)) }
{
    is_plain_prefix(prefix)
}

/// Returns whether bytes that should be no frame have a spelling.
fn is_spelled_junk(node: u64, bytes: &[u8]) -> bool
    ensures { IsTrue result ↔ IsSpelled (Some (spoken.Junk node bytes.now)) }
{
    !bytes.is_empty()
}

/// Returns whether what a node is asked is a command that has a spelling.
fn is_spelled_step(node: u64, event: &NodeEvent) -> bool
    ensures { IsTrue result ↔ IsSpelled (step_command node event.now) }
{
    match event {
        NodeEvent::Read { key } | NodeEvent::Keep { key } => is_spelled_under(node, key),
        NodeEvent::Write {
            key,
            value,
            context,
        } => context.is_none() && is_spelled_write(node, key, value, None),
        NodeEvent::PutOver { key, value } => is_spelled_over(node, key, value),
        NodeEvent::Take { frame, word } => *word == 0 && is_spelled_junk(node, frame.as_slice()),
        NodeEvent::Watch { prefix, capacity } => is_spelled_watch(node, prefix, *capacity),
        NodeEvent::Tick { word } => {
            know_number(*word);
            true
        }
        NodeEvent::Join {
            contact: other,
            word,
        }
        | NodeEvent::PeerDown { peer: other, word } => {
            know_number(number(other));
            know_number(*word);
            true
        }
        NodeEvent::Exchange { peer } | NodeEvent::Hello { peer } => {
            know_number(number(peer));
            true
        }
        NodeEvent::Changes { number: watch } => {
            know_number(*watch);
            true
        }
        NodeEvent::Leave => true,
    }
}

/// Returns whether an event is a command that has a spelling.
fn is_spelled(event: &Event) -> bool
    ensures { IsTrue result ↔ IsSpelled (command_of_event event.now) }
{
    match event {
        Event::Step { node, event } => is_spelled_step(*node, event),
        Event::Put {
            node,
            key,
            value,
            read,
        } => is_spelled_write(*node, key, value, Some(*read)),
        Event::Deliver { frame, node, word } => {
            know_number(*frame);
            know_number(*node);
            know_number(*word);
            true
        }
        Event::Restart { node, image } => {
            know_number(*node);
            know_number(*image);
            true
        }
    }
}

/// Returns whether each event has a spelling.
fn are_spelled(accepted: &[Accepted]) -> bool
    ensures { IsTrue result ↔ All (λ a. IsSpelled (command_of_event a.event)) accepted.now }
{
    for one in accepted {
        if !is_spelled(&one.event) {
            return false;
        }
    }
    true
}

/// Returns whether the bytes have no line feed.
fn is_one_line(bytes: &[u8]) -> bool
    ensures { IsTrue result ↔ IsOneLine bytes.now }
{
    !bytes.contains(&b'\n')
}

/// Returns whether a run has a text.
pub(crate) fn has_replay(about: &[u8], nodes: u64, accepted: &[Accepted]) -> bool
    ensures { IsTrue result ↔ HasReplay about.now nodes (map (λ a. a.event) accepted.now) }
{
    if nodes < 1 || nodes > 16 {
        return false;
    }
    is_one_line(about) && are_spelled(accepted)
}

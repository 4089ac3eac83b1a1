//! Messages become frames.

ghost use Rattle.std.specs.Prelude.{◌≡◌, ◌≤◌, ◌<◌, ◌+◌, ◌^◌, [], ◌∷◌, ◌++◌, length, map, take, drop, All, IfOk, IsTrue};
ghost use Rattle.std.specs.Int.{w16, w64, to_be_bytes};
ghost use Rattle.frame_fields.specs.Field.{digest, digests, key, keys, life, node, nodes, prefix, prefixes};
ghost use Rattle.meta_frame.specs.Frame.{IsMessage, spelling};
ghost use Rattle.meta_frame.specs.declared.message.Message.TheVariants.{Gossip, IHave};
ghost use Rattle.node_overlay.specs.Outbox.{HasSpelling, IsSendable, MaySend, frame_of, frames_from};

use crate::envelope::Envelope;
use dvvset::{Entries, Vector};
use frame_fields::writing::{write_node, write_u64};
use frame_fields::{Digest, Digests, KeyDigests, Nodes, PrefixDigests};
use meta_frame::{Frame, Message, encode};
use meta_types::{ByteString, FullPrefix, MetaKey, NodeId};
use node_events::Outbox;
use std::alloc::{AllocError, Global};

/// Returns the frames of these messages, numbered from the one after `number` on. Fails only when
/// memory runs out.
pub fn outbox(
    alloc: Global,
    from: NodeId,
    number: u64,
    sent: Vec<Envelope>,
) -> Result<Outbox, AllocError>
    requires { All (MaySend from) sent.items }
    ensures frames { IfOk result
        (λ outbox. outbox ≡ map spelling (frames_from from number sent.items)) }
    ensures lawful { IfOk result
        (λ _. All HasSpelling (frames_from from number sent.items)) }
{
    let frames = numbered(alloc, from, number, sent)?;
    let spelled = spelled_each(alloc, frames.as_slice());
    drop(frames);
    Ok(Outbox::new(spelled?))
}

/// Returns the messages as frames. They are spelled later, since each is first compared with the
/// one before it.
fn numbered(
    alloc: Global,
    from: NodeId,
    number: u64,
    sent: Vec<Envelope>,
) -> Result<Vec<Frame>, AllocError>
    requires { All (MaySend from) sent.items }
    ensures frames { IfOk result
        (λ frames. frames.items ≡ frames_from from number sent.items) }
    ensures lawful { IfOk result
        (λ _. All HasSpelling (frames_from from number sent.items)) }
{
    let mut number = number;
    let mut frames = Vec::with_capacity(alloc, sent.len())?;
    for envelope in sent {
        number = number.saturating_add(1);
        frames.push(lawful_frame(from, number, envelope))?;
    }
    Ok(frames)
}

fn lawful_frame(from: NodeId, number: u64, envelope: Envelope) -> Frame
    requires { MaySend from envelope }
    ensures frame { result ≡ frame_of from number envelope }
    ensures lawful { HasSpelling (frame_of from number envelope) }
{
    let frame = Frame {
        from,
        to: envelope.to,
        number,
        message: envelope.message,
    };
    // (for its type)
    let _nodes = (frame.from.number(), frame.to.number());
    reveal_message(&frame.message);
    frame
}

/// Returns the bytes of each frame. A broadcast hands one message to many peers, so its body is
/// spelled once, and copied for each further peer.
fn spelled_each(alloc: Global, frames: &[Frame]) -> Result<Vec<ByteString>, AllocError>
    requires { All HasSpelling frames.now }
    ensures { IfOk result (λ spelled. spelled.items ≡ map spelling frames.now) }
{
    let mut spelled = Vec::with_capacity(alloc, frames.len())?;
    for at in 0..frames.len() {
        let bytes = spelled_at(alloc, frames, at, spelled.as_slice())?;
        spelled.push(bytes)?;
    }
    Ok(spelled)
}

/// Returns the bytes of the frame at this place, given those of the frames before it.
fn spelled_at(
    alloc: Global,
    frames: &[Frame],
    at: usize,
    spelled: &[ByteString],
) -> Result<ByteString, AllocError>
    requires within { at < length frames.now }
    requires lawful { All HasSpelling frames.now }
    requires before { spelled.now ≡ map spelling (take at frames.now) }
    ensures { IfOk result
        (λ bytes. spelled.now ++ bytes ∷ [] ≡ map spelling (take (at + 1) frames.now)) }
{
    if at == 0 {
        return bytes_of(alloc, &frames[at]);
    }
    spelled_after(
        alloc,
        &frames[at - 1],
        spelled[at - 1].as_slice(),
        &frames[at],
    )
}

/// Returns the bytes of a frame. If the frame before it says the same, its bytes `last` are copied
/// as a block, and no body is spelled field by field.
fn spelled_after(
    alloc: Global,
    before: &Frame,
    last: &[u8],
    frame: &Frame,
) -> Result<ByteString, AllocError>
    requires lawful { HasSpelling frame.now }
    requires last { last.now ≡ spelling before.now }
    ensures { IfOk result (λ bytes. bytes ≡ spelling frame.now) }
{
    if says_the_same(before, frame) {
        return readdressed(alloc, last, frame.to, frame.number);
    }
    bytes_of(alloc, frame)
}

/// Returns whether the frames differ in their addressees and numbers alone.
fn says_the_same(frame: &Frame, other: &Frame) -> bool
    ensures from { IsTrue result → frame.now.from ≡ other.now.from }
    ensures message { IsTrue result → frame.now.message ≡ other.now.message }
{
    frame.from == other.from && is_same_broadcast(&frame.message, &other.message)
}

/// Returns whether both are one message of a broadcast. It says no of other messages without
/// comparing them: they go to one peer, or are so short that a copy saves nothing.
fn is_same_broadcast(message: &Message, other: &Message) -> bool
    ensures { IsTrue result → message.now ≡ other.now }
{
    match message {
        Message::Gossip { round, key, object } => is_gossip(other, *round, key, object),
        Message::IHave { round, key, vector } => is_announcement(other, *round, key, vector),
        _ => false,
    }
}

fn is_gossip(message: &Message, round: u16, key: &MetaKey, object: &Entries) -> bool
    ensures { IsTrue result → Gossip round key.now object.now ≡ message.now }
{
    match message {
        Message::Gossip {
            round: r,
            key: k,
            object: o,
        } => is_same_keyed(round, key, *r, k) && object == o,
        _ => false,
    }
}

fn is_announcement(message: &Message, round: u16, key: &MetaKey, vector: &Vector) -> bool
    ensures { IsTrue result → IHave round key.now vector.now ≡ message.now }
{
    match message {
        Message::IHave {
            round: r,
            key: k,
            vector: v,
        } => is_same_keyed(round, key, *r, k) && vector == v,
        _ => false,
    }
}

fn is_same_keyed(round: u16, key: &MetaKey, other_round: u16, other_key: &MetaKey) -> bool
    ensures round { IsTrue result → round ≡ other_round }
    ensures key { IsTrue result → key.now ≡ other_key.now }
{
    round == other_round && key == other_key
}

/// Returns the bytes of a frame with another addressee and number, which stand in the bytes 6 to
/// 15.
fn readdressed(
    alloc: Global,
    frame: &[u8],
    to: NodeId,
    number: u64,
) -> Result<ByteString, AllocError>
    requires { 16 ≤ length frame.now }
    ensures { IfOk result (λ bytes. bytes ≡ take 6 frame.now
        ++ to_be_bytes w16 to ++ to_be_bytes w64 number ++ drop 16 frame.now) }
{
    let mut bytes = Vec::with_capacity(alloc, frame.len())?;
    bytes.extend_from_slice(frame.split_at(6).0)?;
    write_node(&mut bytes, to)?;
    write_u64(&mut bytes, number)?;
    bytes.extend_from_slice(frame.split_at(16).1)?;
    Ok(ByteString::new(bytes))
}

fn bytes_of(alloc: Global, frame: &Frame) -> Result<ByteString, AllocError>
    requires { HasSpelling frame.now }
    ensures { IfOk result (λ bytes. bytes ≡ spelling frame.now) }
{
    match encode(alloc, frame) {
        Ok(bytes) => Ok(ByteString::new(bytes)),
        // The frame is short enough, so only memory can have run out.
        Err(_) => Err(AllocError),
    }
}

/// Does nothing: it reads each field for the rule that its type keeps, and goes through no list.
#[tactic(auto, using(crate::proofs::Sendable::fields))]
fn reveal_message(message: &Message)
    requires { IsSendable message.now }
    ensures { IsMessage message.now }
{
    match message {
        Message::Gossip { round, key, .. } => reveal_keyed(*round, key),
        Message::IHave { round, key, .. } => reveal_keyed(*round, key),
        Message::Graft { round, key, .. } => reveal_keyed(*round, key),
        Message::Prune => {}
        Message::Join => {}
        Message::ForwardJoin { node, ttl } => reveal_walk(*node, *ttl),
        Message::Disconnect => {}
        Message::Neighbor { .. } => {}
        Message::NeighborReply { .. } => {}
        Message::Shuffle { origin, ttl, nodes } => reveal_shuffle(*origin, *ttl, nodes),
        Message::ShuffleReply { nodes } => reveal_nodes(nodes),
        Message::XRoot { root } => reveal_digest(root),
        Message::XPrefixes { prefixes } => reveal_prefixes(prefixes),
        Message::XInner { prefix, digests } => reveal_digests(prefix, digests),
        Message::XLeaves {
            prefix,
            digests,
            ..
        } => reveal_digests(prefix, digests),
        Message::XBucket { prefix, leaf, keys } => reveal_bucket(prefix, *leaf, keys),
        Message::XObject { key, .. } => reveal_key(key),
        Message::XWant { key } => reveal_key(key),
        Message::Hello { life } => reveal_life(*life),
        Message::Bye => {}
    }
}

/// Does nothing, as `reveal_message`; so do those below.
fn reveal_keyed(round: u16, k: &MetaKey)
    ensures round { round < 2 ^ 16 }
    ensures key { key.Fits k.now }
{
    let _round = round;
    reveal_key(k);
}

#[tactic(auto, using(crate::proofs::Sendable::fields))]
fn reveal_key(k: &MetaKey)
    ensures { key.Fits k.now }
{
    let _key = k.key();
}

/// Does the same for a walk: where it began, and how far it still goes.
#[tactic(auto, using(crate::proofs::Sendable::fields))]
fn reveal_walk(start: NodeId, ttl: u8)
    ensures node { node.Fits start }
    ensures ttl { ttl < 2 ^ 8 }
{
    let _start = start.number();
}

fn reveal_shuffle(start: NodeId, ttl: u8, ns: &Nodes)
    ensures node { node.Fits start }
    ensures ttl { ttl < 2 ^ 8 }
    ensures nodes { nodes.Fits ns.now }
{
    reveal_walk(start, ttl);
    reveal_nodes(ns);
}

fn reveal_nodes(ns: &Nodes)
    ensures { nodes.Fits ns.now }
{
    let _nodes = ns.as_slice();
}

fn reveal_digest(d: &Digest)
    ensures { digest.Fits d.now }
{
    let _bytes = d.bytes();
}

fn reveal_prefixes(rows: &PrefixDigests)
    ensures { prefixes.Fits rows.now }
{
    let _rows = rows.as_slice();
}

#[tactic(auto, using(crate::proofs::Sendable::fields))]
fn reveal_digests(p: &FullPrefix, ds: &Digests)
    ensures prefix { prefix.Fits p.now }
    ensures digests { digests.Fits ds.now }
{
    let _prefix = p.prefix();
    let _digests = ds.as_slice();
}

#[tactic(auto, using(crate::proofs::Sendable::fields))]
fn reveal_bucket(p: &FullPrefix, leaf: u8, rows: &KeyDigests)
    ensures prefix { prefix.Fits p.now }
    ensures leaf { leaf < 2 ^ 8 }
    ensures keys { keys.Fits rows.now }
{
    let _prefix = p.prefix();
    let _rows = rows.as_slice();
}

/// Does the same for a life. Its number is at least 1, which its type leaves open.
#[tactic(auto, using(crate::proofs::Sendable::fields))]
fn reveal_life(number: u32)
    requires { 1 ≤ number }
    ensures { life.Fits number }
{
    let _life = number;
}

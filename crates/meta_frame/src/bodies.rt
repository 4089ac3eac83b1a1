//! Reading the body of each kind. A kind of several fields has a function of its own, since the
//! proof of one function that read them all takes many times as long.

ghost use Rattle.meta_frame.specs.declared.message.Message.TheVariants.{IHave, Graft, Neighbor, NeighborReply, ShuffleReply, XRoot, XPrefixes, XWant, Hello};
ghost use Rattle.frame_readers.specs.Reader.{MatchesReader, made_reader, priority_reader, answer_reader, nodes_reader, digest_reader, prefixes_reader, key_reader};
ghost use Rattle.meta_frame.specs.Reading.{message_reader, gossip_reader, announced_reader, forwarded_reader, shuffle_reader, inner_reader, leaves_reader, bucket_reader, carried_reader, life_reader};

use crate::message::Message;
use frame_fields::Digest;
use frame_readers::FieldFault;
use frame_readers::listing::{read_digest, read_digests, read_keys, read_nodes, read_prefixes};
use frame_readers::reading::{
    node_from, read_answer, read_key, read_life, read_node, read_object, read_place, read_prefix,
    read_priority, read_u8, read_u16, read_vector,
};
use std::alloc::Global;

/// Reads the message of this kind at the front of the bytes.
#[tactic(auto, unfolding(crate::specs::Reading::message_reader))]
pub(crate) fn read_message(
    alloc: Global,
    kind: u8,
    bytes: &[u8],
) -> Result<(Message, &[u8]), FieldFault>
    ensures { MatchesReader result (message_reader kind bytes.now) }
{
    match kind {
        1 => read_gossip(alloc, bytes),
        2 => read_ihave(alloc, bytes),
        3 => read_graft(alloc, bytes),
        4 => Ok((Message::Prune, bytes)),
        5 => Ok((Message::Join, bytes)),
        6 => read_forward_join(bytes),
        7 => Ok((Message::Disconnect, bytes)),
        8 => read_neighbor(bytes),
        9 => read_neighbor_reply(bytes),
        10 => read_shuffle(alloc, bytes),
        11 => read_shuffle_reply(alloc, bytes),
        12 => read_root(bytes),
        13 => read_many_prefixes(alloc, bytes),
        14 => read_inner(alloc, bytes),
        15 => read_leaves(alloc, bytes),
        16 => read_bucket(alloc, bytes),
        17 => read_carried(alloc, bytes),
        18 => read_wanted(alloc, bytes),
        19 => read_hello(bytes),
        20 => Ok((Message::Bye, bytes)),
        _ => Err(FieldFault::Left(bytes.len())),
    }
}

#[tactic(auto, unfolding(crate::specs::Reading::gossip_reader))]
fn read_gossip(alloc: Global, bytes: &[u8]) -> Result<(Message, &[u8]), FieldFault>
    ensures { MatchesReader result (gossip_reader bytes.now) }
{
    let (round, rest) = read_u16(bytes)?;
    let (key, rest) = read_key(alloc, rest)?;
    let (object, rest) = read_object(alloc, rest)?;
    Ok((Message::Gossip { round, key, object }, rest))
}

#[tactic(auto, unfolding(crate::specs::Reading::announced_reader))]
fn read_ihave(alloc: Global, bytes: &[u8]) -> Result<(Message, &[u8]), FieldFault>
    ensures { MatchesReader result (announced_reader IHave bytes.now) }
{
    let (round, rest) = read_u16(bytes)?;
    let (key, rest) = read_key(alloc, rest)?;
    let (vector, rest) = read_vector(alloc, rest)?;
    Ok((Message::IHave { round, key, vector }, rest))
}

#[tactic(auto, unfolding(crate::specs::Reading::announced_reader))]
fn read_graft(alloc: Global, bytes: &[u8]) -> Result<(Message, &[u8]), FieldFault>
    ensures { MatchesReader result (announced_reader Graft bytes.now) }
{
    let (round, rest) = read_u16(bytes)?;
    let (key, rest) = read_key(alloc, rest)?;
    let (vector, rest) = read_vector(alloc, rest)?;
    Ok((Message::Graft { round, key, vector }, rest))
}

#[tactic(auto, unfolding(crate::specs::Reading::forwarded_reader))]
fn read_forward_join(bytes: &[u8]) -> Result<(Message, &[u8]), FieldFault>
    ensures { MatchesReader result (forwarded_reader bytes.now) }
{
    let (number, rest) = read_node(bytes)?;
    let (ttl, rest) = read_u8(rest)?;
    let node = node_from(number);
    Ok((Message::ForwardJoin { node, ttl }, rest))
}

fn read_neighbor(bytes: &[u8]) -> Result<(Message, &[u8]), FieldFault>
    ensures { MatchesReader result (made_reader priority_reader (λ p. Neighbor p) bytes.now) }
{
    let (priority, rest) = read_priority(bytes)?;
    Ok((Message::Neighbor { priority }, rest))
}

fn read_neighbor_reply(bytes: &[u8]) -> Result<(Message, &[u8]), FieldFault>
    ensures { MatchesReader result (made_reader answer_reader (λ a. NeighborReply a) bytes.now) }
{
    let (answer, rest) = read_answer(bytes)?;
    Ok((Message::NeighborReply { answer }, rest))
}

#[tactic(auto, unfolding(crate::specs::Reading::shuffle_reader))]
fn read_shuffle(alloc: Global, bytes: &[u8]) -> Result<(Message, &[u8]), FieldFault>
    ensures { MatchesReader result (shuffle_reader bytes.now) }
{
    let (number, rest) = read_node(bytes)?;
    let (ttl, rest) = read_u8(rest)?;
    let (nodes, rest) = read_nodes(alloc, rest)?;
    let origin = node_from(number);
    Ok((Message::Shuffle { origin, ttl, nodes }, rest))
}

fn read_shuffle_reply(alloc: Global, bytes: &[u8]) -> Result<(Message, &[u8]), FieldFault>
    ensures { MatchesReader result (made_reader nodes_reader (λ ns. ShuffleReply ns) bytes.now) }
{
    let (nodes, rest) = read_nodes(alloc, bytes)?;
    Ok((Message::ShuffleReply { nodes }, rest))
}

fn read_root(bytes: &[u8]) -> Result<(Message, &[u8]), FieldFault>
    ensures { MatchesReader result (made_reader digest_reader (λ d. XRoot d) bytes.now) }
{
    let (digest, rest) = read_digest(bytes)?;
    let root = Digest::new(digest);
    Ok((Message::XRoot { root }, rest))
}

fn read_many_prefixes(alloc: Global, bytes: &[u8]) -> Result<(Message, &[u8]), FieldFault>
    ensures { MatchesReader result
        (made_reader prefixes_reader (λ rows. XPrefixes rows) bytes.now) }
{
    let (prefixes, rest) = read_prefixes(alloc, bytes)?;
    Ok((Message::XPrefixes { prefixes }, rest))
}

#[tactic(auto, unfolding(crate::specs::Reading::inner_reader))]
fn read_inner(alloc: Global, bytes: &[u8]) -> Result<(Message, &[u8]), FieldFault>
    ensures { MatchesReader result (inner_reader bytes.now) }
{
    let (prefix, rest) = read_prefix(alloc, bytes)?;
    let (digests, rest) = read_digests(alloc, rest)?;
    Ok((Message::XInner { prefix, digests }, rest))
}

#[tactic(auto, unfolding(crate::specs::Reading::leaves_reader))]
fn read_leaves(alloc: Global, bytes: &[u8]) -> Result<(Message, &[u8]), FieldFault>
    ensures { MatchesReader result (leaves_reader bytes.now) }
{
    let (prefix, rest) = read_prefix(alloc, bytes)?;
    let (inner, rest) = read_place(rest)?;
    let (digests, rest) = read_digests(alloc, rest)?;
    Ok((
        Message::XLeaves {
            prefix,
            inner,
            digests,
        },
        rest,
    ))
}

#[tactic(auto, unfolding(crate::specs::Reading::bucket_reader))]
fn read_bucket(alloc: Global, bytes: &[u8]) -> Result<(Message, &[u8]), FieldFault>
    ensures { MatchesReader result (bucket_reader bytes.now) }
{
    let (prefix, rest) = read_prefix(alloc, bytes)?;
    let (leaf, rest) = read_u8(rest)?;
    let (keys, rest) = read_keys(alloc, rest)?;
    Ok((Message::XBucket { prefix, leaf, keys }, rest))
}

#[tactic(auto, unfolding(crate::specs::Reading::carried_reader))]
fn read_carried(alloc: Global, bytes: &[u8]) -> Result<(Message, &[u8]), FieldFault>
    ensures { MatchesReader result (carried_reader bytes.now) }
{
    let (key, rest) = read_key(alloc, bytes)?;
    let (object, rest) = read_object(alloc, rest)?;
    Ok((Message::XObject { key, object }, rest))
}

fn read_wanted(alloc: Global, bytes: &[u8]) -> Result<(Message, &[u8]), FieldFault>
    ensures { MatchesReader result (made_reader key_reader (λ k. XWant k) bytes.now) }
{
    let (key, rest) = read_key(alloc, bytes)?;
    Ok((Message::XWant { key }, rest))
}

fn read_hello(bytes: &[u8]) -> Result<(Message, &[u8]), FieldFault>
    ensures { MatchesReader result (made_reader life_reader (λ life. Hello life) bytes.now) }
{
    let (life, rest) = read_life(bytes)?;
    Ok((Message::Hello { life }, rest))
}

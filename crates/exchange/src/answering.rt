//! What each message is answered: one function for each row of the table.

ghost use Rattle.std.specs.Prelude.{◌≡◌, ◌<◌, ◌∷◌, ◌++◌, cond, [], IfOk, OnOk};
ghost use Rattle.meta_types.specs.Name.{IsName, Key};
ghost use Rattle.frame_fields.specs.Field.{digests, keys};
ghost use Rattle.meta_frame.specs.declared.message.Message.TheVariants.{XRoot};
ghost use Rattle.hash_tree.specs.Tree.{bucket, prefix_roots, rows_of, tree_root};
ghost use Rattle.hash_tree.specs.Hashed.{rows_below};
ghost use Rattle.exchange.specs.Answers.{answers_to, answer_bucket, answer_inner, answer_leaves};
ghost use Rattle.exchange.specs.Answers.{answer_prefixes, answer_root, object_if_held};
ghost use Rattle.exchange.specs.Answers.{bucket_message, inner_message, leaves_message};
ghost use Rattle.exchange.specs.Answers.{want_messages};

use crate::sides::{Next, differ_at, next_key, next_prefix};
use frame_fields::{Digest, Digests, KeyDigest, KeyDigests, PrefixDigest, PrefixDigests};
use hash_tree::Held;
use meta_frame::Message;
use meta_types::{ByteString, FullPrefix, MetaKey};
use std::alloc::{AllocError, Global};

/// Returns the message that begins an exchange: the root of what is held here. It takes no memory.
pub fn start(held: &Held) -> Message
    ensures { result ≡ XRoot (tree_root (rows_of held.now)) }
{
    Message::XRoot {
        root: held.tree().root(),
    }
}

/// Returns the answers to a message from what is held, in order; each goes to the sender. There is
/// no answer to XOBJECT, whose object is to be merged, to messages of no exchange, or to leaves of
/// an inner node from 16 on, which no frame carries. Fails only when memory runs out.
#[tactic(auto, unfolding(crate::specs::Answers::answers_to))]
pub fn answer(alloc: Global, held: &Held, message: &Message) -> Result<Vec<Message>, AllocError>
    ensures { IfOk result (λ answers. answers.items ≡ answers_to held.now message.now) }
{
    match message {
        Message::XRoot { root } => answer_root(alloc, held, *root),
        Message::XPrefixes { prefixes } => answer_prefixes(alloc, held, prefixes),
        Message::XInner { prefix, digests } => {
            answer_inner(alloc, held, prefix, digests.as_slice())
        }
        Message::XLeaves {
            prefix,
            inner,
            digests,
        } => answer_leaves(alloc, held, prefix, *inner, digests.as_slice()),
        Message::XBucket { prefix, leaf, keys } => {
            answer_bucket(alloc, held, prefix, *leaf, keys)
        }
        Message::XWant { key } => object_if_held(alloc, held, key),
        _ => Ok(Vec::new(alloc)),
    }
}

/// Answers with all full prefixes and their roots, if the roots differ.
fn answer_root(alloc: Global, held: &Held, theirs: Digest) -> Result<Vec<Message>, AllocError>
    ensures { IfOk result (λ answers. answers.items ≡ answer_root held.now theirs) }
{
    let mut answers = Vec::new(alloc);
    if theirs != held.tree().root() {
        let prefixes = own_prefixes(held)?;
        answers.push(Message::XPrefixes { prefixes })?;
    }
    Ok(answers)
}

/// Answers, for each full prefix of either side that differs or stands on one side, in order, with
/// the digests of its inner nodes.
fn answer_prefixes(
    alloc: Global,
    held: &Held,
    theirs: &PrefixDigests,
) -> Result<Vec<Message>, AllocError>
    ensures { IfOk result (λ answers. answers.items ≡ answer_prefixes held.now theirs.now) }
{
    let own = own_prefixes(held)?;
    let mut their_rest = theirs.as_slice();
    let mut own_rest = own.as_slice();
    let mut answers = Vec::new(alloc);
    while let Some(next) = next_prefix(their_rest, own_rest) {
        answer_prefix(alloc, &mut answers, held, &next)?;
        their_rest = next.theirs;
        own_rest = next.own;
    }
    Ok(answers)
}

/// Appends the answer for a full prefix that differs: the digests of its inner nodes.
fn answer_prefix(
    alloc: Global,
    answers: &mut Vec<Message>,
    held: &Held,
    next: &Next<'_, FullPrefix, PrefixDigest>,
) -> Result<(), AllocError>
    ensures { OnOk result (answers.new.items ≡ answers.old.items
        ++ cond next.now.differs (inner_message held.now next.now.key.now ∷ []) []) }
{
    if !next.differs {
        return Ok(());
    }
    answers.push(inner_message(alloc, held, next.key)?)?;
    Ok(())
}

/// Answers, for each inner node that differs, in order, with the digests of its leaves.
fn answer_inner(
    alloc: Global,
    held: &Held,
    prefix: &FullPrefix,
    theirs: &[Digest],
) -> Result<Vec<Message>, AllocError>
    ensures { IfOk result
        (λ answers. answers.items ≡ answer_inner held.now prefix.now theirs.now) }
{
    let own = held.tree().inner(prefix);
    let mut answers = Vec::new(alloc);
    for inner in 0..16_usize {
        if differ_at(theirs, own.as_slice(), inner) {
            answers.push(leaves_message(alloc, held, prefix, inner as u8)?)?;
        }
    }
    Ok(answers)
}

/// Answers, for each leaf that differs, in order, with its keys and their digests.
fn answer_leaves(
    alloc: Global,
    held: &Held,
    prefix: &FullPrefix,
    inner: u8,
    theirs: &[Digest],
) -> Result<Vec<Message>, AllocError>
    ensures { IfOk result
        (λ answers. answers.items ≡ answer_leaves held.now prefix.now inner theirs.now) }
{
    let mut answers = Vec::new(alloc);
    if inner >= 16 {
        return Ok(answers);
    }
    let own = held.tree().leaves(prefix, inner);
    for place in 0..16_usize {
        if differ_at(theirs, own.as_slice(), place) {
            let leaf = 16 * inner + place as u8;
            answers.push(bucket_message(held, prefix, leaf)?)?;
        }
    }
    Ok(answers)
}

/// Answers, for each key of the leaf, of either side, that differs or stands on one side, in order,
/// with its object if it is held, and with a want of it if the other side lists it.
fn answer_bucket(
    alloc: Global,
    held: &Held,
    prefix: &FullPrefix,
    leaf: u8,
    theirs: &KeyDigests,
) -> Result<Vec<Message>, AllocError>
    ensures { IfOk result
        (λ answers. answers.items ≡ answer_bucket held.now prefix.now leaf theirs.now) }
{
    let mut their_rest = theirs.as_slice();
    let mut own_rest = lent_keys(held, prefix, leaf);
    let mut answers = Vec::new(alloc);
    while let Some(next) = next_key(their_rest, own_rest) {
        answer_key(&mut answers, held, prefix, &next)?;
        their_rest = next.theirs;
        own_rest = next.own;
    }
    Ok(answers)
}

/// Appends the answers for a key that differs: its object if it is held, and a want of it if the
/// other side lists it.
fn answer_key(
    answers: &mut Vec<Message>,
    held: &Held,
    prefix: &FullPrefix,
    next: &Next<'_, ByteString, KeyDigest>,
) -> Result<(), AllocError>
    requires { IsName 256 next.now.key.now }
    ensures { let key : Key = record { prefix = prefix.now; key = next.now.key.now } in
        OnOk result (answers.new.items ≡ answers.old.items ++ cond next.now.differs
        (object_if_held held.now key ++ want_messages key next.now.digest) []) }
{
    if !next.differs {
        return Ok(());
    }
    let key = MetaKey::under(prefix.copy()?, next.key.copy()?);
    add_object_if_held(answers, held, &key)?;
    if next.digest.is_none() {
        return Ok(());
    }
    answers.push(Message::XWant { key })?;
    Ok(())
}

fn object_if_held(alloc: Global, held: &Held, key: &MetaKey) -> Result<Vec<Message>, AllocError>
    ensures { IfOk result (λ answers. answers.items ≡ object_if_held held.now key.now) }
{
    let mut answers = Vec::new(alloc);
    add_object_if_held(&mut answers, held, key)?;
    Ok(answers)
}

fn add_object_if_held(
    answers: &mut Vec<Message>,
    held: &Held,
    key: &MetaKey,
) -> Result<(), AllocError>
    ensures { OnOk result (answers.new.items
        ≡ answers.old.items ++ object_if_held held.now key.now) }
{
    if let Some(object) = held.store().object(key) {
        answers.push(Message::XObject {
            key: key.copy()?,
            object: object.copy()?,
        })?;
    }
    Ok(())
}

/// Returns the digests of the inner nodes of a full prefix.
fn inner_message(alloc: Global, held: &Held, prefix: &FullPrefix) -> Result<Message, AllocError>
    ensures { IfOk result (λ message. message ≡ inner_message held.now prefix.now) }
{
    let digests = listed(alloc, held.tree().inner(prefix).as_slice())?;
    Ok(Message::XInner {
        prefix: prefix.copy()?,
        digests,
    })
}

/// Returns the digests of the leaves under an inner node of a full prefix.
fn leaves_message(
    alloc: Global,
    held: &Held,
    prefix: &FullPrefix,
    inner: u8,
) -> Result<Message, AllocError>
    requires { inner < 16 }
    ensures { IfOk result (λ message. message ≡ leaves_message held.now prefix.now inner) }
{
    let digests = listed(alloc, held.tree().leaves(prefix, inner).as_slice())?;
    Ok(Message::XLeaves {
        prefix: prefix.copy()?,
        inner,
        digests,
    })
}

/// Returns the keys of a leaf of a full prefix with their digests.
fn bucket_message(held: &Held, prefix: &FullPrefix, leaf: u8) -> Result<Message, AllocError>
    ensures { IfOk result (λ message. message ≡ bucket_message held.now prefix.now leaf) }
{
    let keys = own_keys(held, prefix, leaf)?;
    Ok(Message::XBucket {
        prefix: prefix.copy()?,
        leaf,
        keys,
    })
}

/// Returns the full prefixes that hold a key, in order, with their roots.
fn own_prefixes(held: &Held) -> Result<PrefixDigests, AllocError>
    ensures { IfOk result (λ prefixes. prefixes ≡ prefix_roots (rows_of held.now)) }
{
    let _few = held.store().len();
    Ok(PrefixDigests::new(held.tree().prefix_roots()?))
}

/// Returns the keys of a leaf, in order, with their digests, as the tree keeps them.
fn lent_keys<'a>(held: &'a Held, prefix: &FullPrefix, leaf: u8) -> &'a [KeyDigest]
    ensures value { result.now ≡ bucket (rows_below prefix.now held.now) leaf }
    ensures lawful { keys.Fits result.now }
{
    let _few = held.store().len();
    held.tree().lent_bucket(prefix, leaf)
}

/// Returns the keys of a leaf, in order, with their digests. They are copies.
fn own_keys(held: &Held, prefix: &FullPrefix, leaf: u8) -> Result<KeyDigests, AllocError>
    ensures { IfOk result (λ keys. keys ≡ bucket (rows_below prefix.now held.now) leaf) }
{
    let _few = held.store().len();
    Ok(KeyDigests::new(held.tree().bucket(prefix, leaf)?))
}

/// Returns sixteen digests as a field of a frame.
fn listed(alloc: Global, parts: &[Digest]) -> Result<Digests, AllocError>
    requires { digests.Fits parts.now }
    ensures { IfOk result (λ digests. digests ≡ parts.now) }
{
    let mut list = Vec::with_capacity(alloc, parts.len())?;
    list.extend_from_slice(parts)?;
    Ok(Digests::new(list))
}

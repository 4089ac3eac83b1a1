//! A whole exchange of two stores.

ghost use Rattle.std.specs.Prelude.{◌≡◌, ◌++◌, None, IfOk, OnOk, OnErr};
ghost use Rattle.meta_types.specs.Failing.{FailsBy};
ghost use Rattle.meta_store.specs.Step.{refusal_of_merge, table_after_merge};
ghost use Rattle.meta_store.specs.declared.fault.StoreFault.TheVariants.{Memory};
ghost use Rattle.meta_frame.specs.declared.message.Message.TheVariants.{XRoot};
ghost use Rattle.hash_tree.specs.Tree.{rows_of, tree_root};
ghost use Rattle.exchange.specs.Answers.{answers_to};
ghost use Rattle.exchange.specs.Whole.{StayBetween, EndInUnion, answers_in_turn, answers_to_all};
ghost use Rattle.exchange.specs.Whole.{here_after, offers, refusal_of_one, refusal_of_all};
ghost use Rattle.exchange.specs.Whole.{TookFront, refusal_of_exchange, table_after};
ghost use Rattle.exchange.specs.Whole.{table_after_all, there_after, wanted};

use crate::answering::{answer, start};
use dvvset::Entries;
use hash_tree::Held;
use meta_frame::Message;
use meta_store::StoreFault;
use meta_types::MetaKey;
use std::alloc::{AllocError, Global};

/// Takes messages one after another, and answers each from what is held once it is taken. After a
/// refusal, the messages before the refused one are taken.
fn take_all(
    alloc: Global,
    held: &mut Held,
    messages: &[Message],
) -> Result<Vec<Message>, StoreFault>
    ensures value { OnOk result (held.new ≡ table_after_all held.old messages.now) }
    ensures answers { IfOk result
        (λ answers. answers.items ≡ answers_in_turn held.old messages.now) }
    ensures front { TookFront held.old messages.now held.new }
    ensures no_refusal { OnOk result (refusal_of_all held.old messages.now ≡ None) }
    ensures fault { FailsBy Memory (refusal_of_all held.old messages.now) result }
{
    let mut answers = Vec::new(alloc);
    for message in messages {
        take(held, message)?;
        let own = answer(alloc, held, message)?;
        add_all(&mut answers, own)?;
    }
    Ok(answers)
}

/// Returns the answers to messages that bring no object.
fn answer_all(alloc: Global, held: &Held, messages: &[Message]) -> Result<Vec<Message>, AllocError>
    ensures { IfOk result (λ answers. answers.items ≡ answers_to_all held.now messages.now) }
{
    let mut answers = Vec::new(alloc);
    for message in messages {
        let own = answer(alloc, held, message)?;
        add_all(&mut answers, own)?;
    }
    Ok(answers)
}

/// Adds answers at the end. If there are none so far, they are kept as they came.
fn add_all(answers: &mut Vec<Message>, own: Vec<Message>) -> Result<(), AllocError>
    ensures { OnOk result (answers.new.items ≡ answers.old.items ++ own.items) }
{
    if answers.is_empty() {
        *answers = own;
        return Ok(());
    }
    let mut rest = own;
    answers.append(&mut rest)
}

/// Takes a message: merges the object that it brings, if it is an XOBJECT.
#[tactic(auto, unfolding(crate::specs::Whole::table_after, crate::specs::Whole::refusal_of_one))]
fn take(held: &mut Held, message: &Message) -> Result<(), StoreFault>
    ensures value { OnOk result (held.new ≡ table_after held.old message.now) }
    ensures same { OnErr result (held.new ≡ held.old) }
    ensures no_refusal { OnOk result (refusal_of_one held.old message.now ≡ None) }
    ensures fault { FailsBy Memory (refusal_of_one held.old message.now) result }
{
    match message {
        Message::XObject { key, object } => merge(held, key, object),
        _ => Ok(()),
    }
}

fn merge(held: &mut Held, key: &MetaKey, object: &Entries) -> Result<(), StoreFault>
    ensures value { OnOk result (held.new ≡ table_after_merge held.old key.now object.now) }
    ensures same { OnErr result (held.new ≡ held.old) }
    ensures no_refusal { OnOk result (refusal_of_merge held.old key.now object.now ≡ None) }
    ensures fault { FailsBy Memory (refusal_of_merge held.old key.now object.now) result }
{
    match held.store().preview_merge(key, object)? {
        None => Ok(()),
        Some(merged) => Ok(held.hold(key, merged)?),
    }
}

/// Returns what `there` answers to the root of `here`.
fn answer_start(alloc: Global, here: &Held, there: &Held) -> Result<Vec<Message>, AllocError>
    ensures { IfOk result
        (λ answers. answers.items ≡ answers_to there.now (XRoot (tree_root (rows_of here.now)))) }
{
    let root = start(here);
    answer(alloc, there, &root)
}

/// Returns the answers to a round of messages that bring no object. The round is dropped.
fn answer_round(
    alloc: Global,
    held: &Held,
    messages: Vec<Message>,
) -> Result<Vec<Message>, AllocError>
    ensures { IfOk result (λ answers. answers.items ≡ answers_to_all held.now messages.items) }
{
    answer_all(alloc, held, messages.as_slice())
}

/// Returns what `there` offers and wants after five rounds of digests, by which nothing changes.
fn offered(alloc: Global, here: &Held, there: &Held) -> Result<Vec<Message>, AllocError>
    ensures { IfOk result (λ offered. offered.items ≡ offers here.now there.now) }
{
    let prefixes = answer_start(alloc, here, there)?;
    let inner = answer_round(alloc, here, prefixes)?;
    let leaves = answer_round(alloc, there, inner)?;
    let buckets = answer_round(alloc, here, leaves)?;
    answer_round(alloc, there, buckets)
}

/// Takes a round of messages one after another, as `take_all` does. The round is dropped.
fn take_round(
    alloc: Global,
    held: &mut Held,
    messages: Vec<Message>,
) -> Result<Vec<Message>, StoreFault>
    ensures value { OnOk result (held.new ≡ table_after_all held.old messages.items) }
    ensures answers { IfOk result
        (λ answers. answers.items ≡ answers_in_turn held.old messages.items) }
    ensures front { TookFront held.old messages.items held.new }
    ensures no_refusal { OnOk result (refusal_of_all held.old messages.items ≡ None) }
    ensures fault { FailsBy Memory (refusal_of_all held.old messages.items) result }
{
    take_all(alloc, held, messages.as_slice())
}

/// Takes the last round of messages, to which there is no answer.
fn take_last(alloc: Global, held: &mut Held, messages: Vec<Message>) -> Result<(), StoreFault>
    ensures value { OnOk result (held.new ≡ table_after_all held.old messages.items) }
    ensures front { TookFront held.old messages.items held.new }
    ensures no_refusal { OnOk result (refusal_of_all held.old messages.items ≡ None) }
    ensures fault { FailsBy Memory (refusal_of_all held.old messages.items) result }
{
    match take_round(alloc, held, messages) {
        Err(fault) => Err(fault),
        Ok(answers) => {
            drop(answers);
            Ok(())
        }
    }
}

/// Runs a whole exchange of two stores, which `here` begins. If all objects arose in one history,
/// both then hold the union of what they held, or two unequal byte strings that are hashed for what
/// they held have one digest. Each tree stays that of its store, after a refusal too.
///
/// It is refused as the first merge that is refused: 21 `BadEntries`, which happens only with
/// forged objects, 25 `StoreFull`, 27 `ObjectTooLarge`; or with 99 `Memory` at any moment. What was
/// merged before a refusal stays merged.
pub fn reconcile(alloc: Global, here: &mut Held, there: &mut Held) -> Result<(), StoreFault>
    ensures union { OnOk result (EndInUnion here.old there.old here.new there.new) }
    ensures between { StayBetween here.old there.old here.new there.new }
    ensures front_here { TookFront here.old (offers here.old there.old) here.new }
    ensures front_there { TookFront there.old (wanted here.old there.old) there.new }
    ensures here { OnOk result (here.new ≡ here_after here.old there.old) }
    ensures there { OnOk result (there.new ≡ there_after here.old there.old) }
    ensures no_refusal { OnOk result (refusal_of_exchange here.old there.old ≡ None) }
    ensures fault { FailsBy Memory (refusal_of_exchange here.old there.old) result }
{
    // (for its type)
    let _ = (here.store().len(), there.store().len());
    let offered = offered(alloc, here, there)?;
    match take_round(alloc, here, offered) {
        Err(fault) => Err(fault),
        Ok(wanted) => take_last(alloc, there, wanted),
    }
}

//! What turns ask for.

ghost use Rattle.std.specs.Prelude.{◌≡◌, ◌≢◌, ◌<◌, ◌%◌, ℕ, IfOk, IfSome};
ghost use Rattle.inbox.specs.Views.{TakeView};
ghost use Rattle.cluster_worker.specs.Call.{IsOfFixedTurn, IsOfMixedTurn, IsOfTurn, IsTurnKey, turn_key, turn_prefix, turn_value};
ghost use Rattle.cluster_worker.specs.Frames.{TakesFor};
ghost use Rattle.cluster_worker.specs.Passes.{ArePassesOf};
ghost use Rattle.cluster_worker.specs.Plan.{IsNodeCount};

use crate::passes::Passes;
use crate::plan::Workload;
use crate::turns::Shared;
use meta_store::Context;
use meta_types::{FullPrefix, MetaKey, NodeId, Value};
use node_events::{NodeEvent, Reply};
use node_lock::Receipt;
use rand_core::Rng;
use rand_pcg::Pcg64;
use std::alloc::{AllocError, Global};
use std::sync::Wait;

/// Returns the prefix `live/all`.
fn prefix_of(alloc: Global) -> Result<FullPrefix, AllocError>
    ensures { IfOk result (λ prefix. prefix ≡ turn_prefix) }
{
    Ok(FullPrefix::new(b"live".to_vec(alloc)?, b"all".to_vec(alloc)?).unwrap())
}

/// Returns the key `live/all/k` and a digit, the turn modulo 8.
fn key_of(alloc: Global, turn: u64) -> Result<MetaKey, AllocError>
    ensures { IfOk result (λ key. key ≡ turn_key turn) }
{
    let prefix = prefix_of(alloc)?;
    let mut own = b"k".to_vec(alloc)?;
    own.push(b'0' + (turn % 8) as u8)?;
    Ok(MetaKey::new(prefix, own).unwrap())
}

/// Returns the turn in decimal digits, as a value of stamp 0.
fn value_of(alloc: Global, turn: u64) -> Result<Value, AllocError>
    ensures { IfOk result (λ value. value ≡ turn_value turn) }
{
    let text = format!(in alloc; "{turn}")?;
    Ok(Value::new(0, Some(text.into_bytes())).unwrap())
}

/// Takes the oldest frame of the inbox, for the node to take with this word. If there is none, time
/// goes on.
fn take_or_tick<R: Wait, G>(shared: &Shared<R, G>, passes: &mut Passes, word: u64) -> NodeEvent
    requires passes { ArePassesOf shared.now.inboxes.now passes.old }
    ensures passes { ArePassesOf shared.now.inboxes.now passes.new }
    ensures puts { passes.new.puts ≡ passes.old.puts }
    ensures takes { TakesFor result passes.old.takes passes.new.takes }
    ensures fixed { (turn : ℕ) → turn % 4 ≢ 0 → IsOfFixedTurn turn result }
    ensures mixed { (nodes turn : ℕ) → IsOfMixedTurn nodes turn result }
{
    let inbox = &shared.inboxes[passes.own];
    match inbox.take(shared.rt, &mut passes.takes) {
        Some(parcel) => NodeEvent::Take {
            frame: parcel.frame,
            word,
        },
        None => NodeEvent::Tick { word },
    }
}

/// Returns what a fixed turn asks for: a write in each fourth; otherwise that the oldest frame is
/// taken, or, if there is none, that time goes on.
fn fixed_event<R: Wait, G>(
    shared: &Shared<R, G>,
    passes: &mut Passes,
    words: &mut Pcg64,
    turn: u64,
) -> Result<NodeEvent, AllocError>
    requires passes { ArePassesOf shared.now.inboxes.now passes.old }
    ensures passes { ArePassesOf shared.now.inboxes.now passes.new }
    ensures puts { passes.new.puts ≡ passes.old.puts }
    ensures takes { IfOk result (λ event. TakesFor event passes.old.takes passes.new.takes) }
    ensures asked { IfOk result (IsOfFixedTurn turn) }
{
    if turn % 4 == 0 {
        let key = key_of(shared.alloc, turn)?;
        let value = value_of(shared.alloc, turn)?;
        return Ok(NodeEvent::PutOver { key, value });
    }
    let word = words.next_u64();
    Ok(take_or_tick(shared, passes, word))
}

/// The random words of a mixed turn.
#[derive(Clone, Copy)]
struct Draw {
    /// Of which kind the event is.
    kind: u64,
    /// Which key, node or watch it names.
    named: u64,
    /// The word that the node gets.
    word: u64,
}

impl Draw {
    fn from(words: &mut Pcg64) -> Draw {
        Draw {
            kind: words.next_u64(),
            named: words.next_u64(),
            word: words.next_u64(),
        }
    }
}

/// Returns the context of the last read of the key among these receipts, if there is one.
fn context_of(receipts: &[Receipt], key: &MetaKey) -> Result<Option<Context>, AllocError>
    ensures { IfOk result (λ found. IfSome found (λ read. read.key ≡ key.now)) }
{
    for receipt in receipts.iter().rev() {
        if let Reply::Looked { context, .. } = &receipt.entry.reply {
            if context.key() == key {
                return Ok(Some(context.copy()?));
            }
        }
    }
    Ok(None)
}

/// Returns a write under the key: of the value of the turn, or a deletion. Half of them have the
/// context of what the node read there last.
fn write_under(
    alloc: Global,
    receipts: &[Receipt],
    key: MetaKey,
    turn: u64,
    kind: u64,
) -> Result<NodeEvent, AllocError>
    requires { IsTurnKey key }
    ensures asked { IfOk result (λ event. (nodes : ℕ) → IsOfMixedTurn nodes turn event) }
    ensures still { IfOk result (λ event. (takes : TakeView) → TakesFor event takes takes) }
{
    let context = match kind % 2 {
        0 => context_of(receipts, &key)?,
        _ => None,
    };
    let value = match kind % 3 {
        0 => Value::of(0, None),
        _ => value_of(alloc, turn)?,
    };
    Ok(NodeEvent::Write {
        key,
        value,
        context,
    })
}

/// Returns an event under one of the eight keys.
fn event_under(
    alloc: Global,
    receipts: &[Receipt],
    turn: u64,
    draw: Draw,
) -> Result<NodeEvent, AllocError>
    ensures asked { IfOk result (λ event. (nodes : ℕ) → IsOfMixedTurn nodes turn event) }
    ensures still { IfOk result (λ event. (takes : TakeView) → TakesFor event takes takes) }
{
    let key = key_of(alloc, draw.named)?;
    match draw.kind % 6 {
        0 | 1 => Ok(NodeEvent::Read { key }),
        2 => Ok(NodeEvent::Keep { key }),
        3 => {
            let value = value_of(alloc, turn)?;
            Ok(NodeEvent::PutOver { key, value })
        }
        _ => write_under(alloc, receipts, key, turn, draw.word),
    }
}

/// Returns a node of a cluster of so many.
fn drawn_node(nodes: u64, named: u64) -> NodeId
    requires { IsNodeCount nodes }
    ensures { result < nodes }
{
    NodeId::new((named % nodes) as u16).unwrap()
}

/// Returns an event that names a node or a watch, or the leave of all peers. The node may be the
/// one that is asked, and the watch one that was never made: the call is refused then.
fn event_among(alloc: Global, nodes: u64, draw: Draw) -> Result<NodeEvent, AllocError>
    requires { IsNodeCount nodes }
    ensures asked { IfOk result (λ event. (turn : ℕ) → IsOfMixedTurn nodes turn event) }
    ensures still { IfOk result (λ event. (takes : TakeView) → TakesFor event takes takes) }
{
    let Draw { kind, named, word } = draw;
    let peer = drawn_node(nodes, named);
    match kind % 8 {
        0 => Ok(NodeEvent::Exchange { peer }),
        1 => Ok(NodeEvent::Hello { peer }),
        2 => Ok(NodeEvent::PeerDown { peer, word }),
        3 => Ok(NodeEvent::Leave),
        4 => {
            let prefix = prefix_of(alloc)?;
            let capacity = (named % 8) as usize + 1;
            Ok(NodeEvent::Watch { prefix, capacity })
        }
        5 => Ok(NodeEvent::Changes {
            number: named % 8 + 1,
        }),
        _ => Ok(NodeEvent::Join {
            contact: peer,
            word,
        }),
    }
}

/// Returns what a mixed turn asks for. In half of the turns that is that the oldest frame is taken,
/// or, if there is none, that time goes on.
fn mixed_event<R: Wait, G>(
    shared: &Shared<R, G>,
    passes: &mut Passes,
    words: &mut Pcg64,
    receipts: &[Receipt],
    turn: u64,
) -> Result<NodeEvent, AllocError>
    requires passes { ArePassesOf shared.now.inboxes.now passes.old }
    ensures passes { ArePassesOf shared.now.inboxes.now passes.new }
    ensures puts { passes.new.puts ≡ passes.old.puts }
    ensures takes { IfOk result (λ event. TakesFor event passes.old.takes passes.new.takes) }
    ensures asked { IfOk result (IsOfMixedTurn shared.now.plan.nodes turn) }
{
    let draw = Draw::from(words);
    let part = Draw {
        kind: draw.kind / 4,
        ..draw
    };
    match draw.kind % 4 {
        0 => event_under(shared.alloc, receipts, turn, part),
        1 => event_among(shared.alloc, shared.plan.nodes, part),
        _ => Ok(take_or_tick(shared, passes, draw.word)),
    }
}

/// Returns what a turn asks for. These receipts are those of the node's accepted calls.
pub(crate) fn event_of_turn<R: Wait, G>(
    shared: &Shared<R, G>,
    passes: &mut Passes,
    words: &mut Pcg64,
    receipts: &[Receipt],
    turn: u64,
) -> Result<NodeEvent, AllocError>
    requires passes { ArePassesOf shared.now.inboxes.now passes.old }
    ensures passes { ArePassesOf shared.now.inboxes.now passes.new }
    ensures puts { passes.new.puts ≡ passes.old.puts }
    ensures takes { IfOk result (λ event. TakesFor event passes.old.takes passes.new.takes) }
    ensures asked { IfOk result (IsOfTurn shared.now.plan turn) }
{
    match shared.plan.workload {
        Workload::Fixed => fixed_event(shared, passes, words, turn),
        Workload::Mixed => mixed_event(shared, passes, words, receipts, turn),
    }
}

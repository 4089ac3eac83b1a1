//! The callers of CALLING.md of `plumtree` and of `node_core`.

use crate::parts::{key, node, value, vector};
use dvvset::{Vector, values};
use hyparview::{ViewEvent, ViewOut, Views};
use meta_frame::{Message, read_header};
use meta_types::{ByteString, MetaKey, NodeId, Value};
use node_core::{NodeState, Stepped};
use node_events::{NodeEvent, StepFault};
use plumtree::{Cast, CastOut, PeerChange};
use std::alloc::{AllocError, Global};
use std::mem::replace;
use std::process::Abort;

/// Tells the broadcast who came and who went, by what a step of the views gave out.
fn follow(alloc: Global, cast: &mut Cast, outs: &[ViewOut]) -> Result<(), AllocError> {
    let mut changes = Vec::new(alloc);
    for out in outs {
        match out {
            ViewOut::Up(peer) => changes.push(PeerChange::Up(*peer))?,
            ViewOut::Down(peer) => changes.push(PeerChange::Down(*peer))?,
            ViewOut::Send(_, _) => {}
        }
    }
    cast.change_peers(changes.as_slice())
}

/// Makes a step of the views, which the broadcast follows. If memory runs out both are as before.
/// Each `Send` of what is returned is to be sent.
fn happen(
    alloc: Global,
    views: &mut Views,
    cast: &mut Cast,
    event: &ViewEvent,
    word: u64,
) -> Result<Vec<ViewOut>, AllocError> {
    let (after, outs) = views.after(event, word)?;
    follow(alloc, cast, outs.as_slice())?;
    drop(replace(views, after));
    Ok(outs)
}

/// Takes a message of the broadcast other than GOSSIP. `known` says whether the node's vector of
/// the key descends that of the message.
fn take(
    alloc: Global,
    cast: &mut Cast,
    from: NodeId,
    message: &Message,
    known: bool,
) -> Result<Vec<CastOut>, AllocError> {
    match message {
        Message::IHave { round, key, vector } => cast.on_ihave(from, *round, key, vector, known),
        Message::Graft { round, key, .. } => cast.on_graft(from, *round, key, known),
        Message::Prune => cast.on_prune(from),
        _ => Ok(Vec::new(alloc)),
    }
}

/// Returns how many messages are to be sent as a node joins at this one.
fn joined(rt: &impl Abort, alloc: Global, views: &mut Views, cast: &mut Cast) -> usize {
    let (from, message) = (node(rt, 1), Message::Join);
    let event = ViewEvent::Taken { from, message };
    let outs = happen(alloc, views, cast, &event, 0).expect(rt, "memory");
    drop(event);
    outs.len()
}

/// Returns whether node 1 is to be sent the object, in round 0, and nothing else.
fn is_sent(outs: &[CastOut]) -> bool {
    matches!(outs, [CastOut::Gossip { to, round: 0, .. }] if to.number() == 1)
}

/// Returns whether node 1 is to be sent an announcement of round 0, and nothing else.
fn is_announced(outs: &[CastOut]) -> bool {
    matches!(outs, [CastOut::Send(to, Message::IHave { round: 0, .. })] if to.number() == 1)
}

/// Returns whether a write is sent to node 1.
fn is_write_sent(rt: &impl Abort, cast: &mut Cast, key: &MetaKey, vector: &Vector) -> bool {
    cast.on_change(key, vector);
    let outs = cast.on_broadcast(key, vector).expect(rt, "memory");
    is_sent(outs.as_slice())
}

/// Returns whether a tick announces to node 1.
fn is_tick_told(rt: &impl Abort, cast: &mut Cast) -> bool {
    let outs = cast.on_tick().expect(rt, "memory");
    is_announced(outs.as_slice())
}

/// Lets node 1 prune the link.
fn prune(rt: &impl Abort, alloc: Global, cast: &mut Cast) -> usize {
    let message = Message::Prune;
    let outs = take(alloc, cast, node(rt, 1), &message, false).expect(rt, "memory");
    drop(message);
    outs.len()
}

/// Returns whether node 1, which is eager, is sent a write, and once it is lazy, an announcement.
fn is_told(rt: &impl Abort, alloc: Global, cast: &mut Cast) -> bool {
    let (key, vector) = (key(rt, alloc, b"a", b"b", b"k"), vector(rt, alloc));
    let at_once = is_write_sent(rt, cast, &key, &vector);
    let pruned = prune(rt, alloc, cast) == 0;
    let not_at_once = !is_write_sent(rt, cast, &key, &vector);
    drop(vector);
    drop(key);
    at_once & pruned & not_at_once & is_tick_told(rt, cast)
}

/// Returns whether the views step as node 1 joins, and a broadcast follows.
fn is_followed(rt: &impl Abort, alloc: Global, views: &mut Views) -> bool {
    let mut cast = Cast::new(alloc);
    let joined = joined(rt, alloc, views, &mut cast);
    let told = is_told(rt, alloc, &mut cast);
    let is_lazy = views.active() == cast.lazy();
    drop(cast);
    (joined == 1) & told & is_lazy
}

#[test]
fn a_neighbour_is_sent_what_is_written(rt: HostRuntime) {
    let mut views = Views::new(rt.alloc(), node(&rt, 0));
    let is_followed = is_followed(&rt, rt.alloc(), &mut views);
    drop(views);
    assert!(rt; is_followed);
}

/// Makes a step. The frames that it sends go last among those on their way.
fn ask(node: &mut NodeState, event: NodeEvent, way: &mut Vec<ByteString>) -> Result<(), StepFault> {
    let Stepped { reply, outbox } = node.step(event)?;
    drop(reply);
    let mut frames = outbox.into_vec();
    way.append(&mut frames)?;
    Ok(())
}

/// Hands a frame to the node that it names, with a random word.
fn deliver(
    nodes: &mut [NodeState],
    frame: ByteString,
    word: u64,
    way: &mut Vec<ByteString>,
) -> Result<(), StepFault> {
    let to = read_header(frame.as_slice())?.to.number();
    match nodes.get_mut(to as usize) {
        Some(node) => ask(node, NodeEvent::Take { frame, word }, way),
        None => Ok(()),
    }
}

/// Delivers frames. Those that are refused are dropped, as by a network. Returns how many.
fn deliver_all(
    nodes: &mut [NodeState],
    frames: Vec<ByteString>,
    word: u64,
    way: &mut Vec<ByteString>,
) -> usize {
    let mut refused = 0_usize;
    for frame in frames {
        if deliver(nodes, frame, word, way).is_err() {
            refused = refused.saturating_add(1);
        }
    }
    refused
}

/// Makes a step of the node of this number, and delivers what it sends. Returns whether all of that
/// was taken and nothing was answered.
fn act(
    rt: &impl Abort,
    alloc: Global,
    nodes: &mut [NodeState],
    number: usize,
    event: NodeEvent,
) -> bool {
    let (mut way, mut answers) = (Vec::new(alloc), Vec::new(alloc));
    let node = nodes.get_mut(number).expect(rt, "a node");
    ask(node, event, &mut way).expect(rt, "a step");
    let refused = deliver_all(nodes, way, 0, &mut answers);
    refused == 0 && answers.is_empty()
}

/// Makes node 0 and node 1, each in its first life. They hold nothing and know nobody.
fn two_nodes(rt: &impl Abort, alloc: Global) -> Vec<NodeState> {
    let mut nodes = Vec::with_capacity(alloc, 2).expect(rt, "memory");
    for number in 0..2_u16 {
        let new = NodeState::new(alloc, node(rt, number), 1).expect(rt, "memory");
        nodes.push(new).expect(rt, "room");
    }
    nodes
}

fn write(rt: &impl Abort, alloc: Global, letter: u8) -> NodeEvent {
    NodeEvent::PutOver {
        key: key(rt, alloc, b"a", b"b", b"k"),
        value: value(rt, alloc, 0, &[letter]),
    }
}

/// Returns whether the node of this number shows this value, and no other.
fn shows(rt: &impl Abort, alloc: Global, nodes: &[NodeState], number: usize, letter: u8) -> bool {
    let node = nodes.get(number).expect(rt, "a node");
    let key = key(rt, alloc, b"a", b"b", b"k");
    let object = node.store().object(&key).expect(rt, "an object");
    let shown = values(alloc, object).expect(rt, "memory");
    drop(key);
    let is_shown = are(shown.as_slice(), &value(rt, alloc, 0, &[letter]));
    drop(shown);
    is_shown
}

/// Returns whether the value stands there, and no other.
fn are(values: &[Value], value: &Value) -> bool {
    matches!(values, [only] if only == value)
}

/// Lets node 1 join through node 0. Then each writes over what it shows. Returns whether the other
/// node then shows that.
fn is_carried(rt: &impl Abort, alloc: Global, nodes: &mut [NodeState]) -> bool {
    let (contact, word) = (node(rt, 0), 0);
    let joined = act(rt, alloc, nodes, 1, NodeEvent::Join { contact, word });
    let sent = act(rt, alloc, nodes, 0, write(rt, alloc, b'x'));
    let shown = shows(rt, alloc, nodes, 1, b'x');
    let sent_back = act(rt, alloc, nodes, 1, write(rt, alloc, b'y'));
    joined & sent & shown & sent_back & shows(rt, alloc, nodes, 0, b'y')
}

#[test]
fn two_nodes_show_what_either_wrote(rt: HostRuntime) {
    let mut nodes = two_nodes(&rt, rt.alloc());
    let is_carried = is_carried(&rt, rt.alloc(), nodes.as_mut_slice());
    drop(nodes);
    assert!(rt; is_carried);
}

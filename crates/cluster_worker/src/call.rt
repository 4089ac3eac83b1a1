//! A call of a node.

ghost use Rattle.std.specs.Prelude.{IfOk, IfErr};
ghost use Rattle.node_lock.specs.Call.{AnswersCall, Counts, RefusesCall};

use devices::Device;
use node_events::NodeEvent;
use node_lock::{Acknowledgement, LockFault, Naming, Node, WriteSeat};
use std::sync::Wait;

/// Asks the node for the event.
fn ask<D: Device + Drop, J: Naming, H: Wait + Drop, R: Wait>(
    rt: &R,
    node: &Node<D, J, H>,
    seat: &mut WriteSeat<J>,
    event: NodeEvent,
) -> Result<Acknowledgement<J>, LockFault>
    ensures answers { IfOk result (AnswersCall J.node J.incarnation J.opening event) }
    ensures counted { Counts result seat.old seat.new }
    ensures refused { IfErr result (RefusesCall J.node J.incarnation J.opening event) }
{
    match event {
        NodeEvent::Read { key } => node.get(rt, seat, key),
        NodeEvent::Write {
            key,
            value,
            context,
        } => node.put(rt, seat, key, value, context),
        NodeEvent::PutOver { key, value } => node.put_over(rt, seat, key, value),
        NodeEvent::Take { frame, word } => node.take(rt, seat, frame, word),
        NodeEvent::Tick { word } => node.tick(rt, seat, word),
        NodeEvent::Join { contact, word } => node.join(rt, seat, contact, word),
        NodeEvent::PeerDown { peer, word } => node.peer_down(rt, seat, peer, word),
        NodeEvent::Exchange { peer } => node.exchange(rt, seat, peer),
        NodeEvent::Keep { key } => node.keep(rt, seat, key),
        NodeEvent::Watch { prefix, capacity } => node.watch(rt, seat, prefix, capacity),
        NodeEvent::Changes { number } => node.changes(rt, seat, number),
        NodeEvent::Hello { peer } => node.hello(rt, seat, peer),
        NodeEvent::Leave => node.leave(rt, seat),
    }
}

/// Asks the node for a copy of the event. If the journal is full it is cut, and the node is asked
/// once more.
pub(crate) fn ask_at_last<D: Device + Drop, J: Naming, H: Wait + Drop, R: Wait>(
    rt: &R,
    node: &Node<D, J, H>,
    seat: &mut WriteSeat<J>,
    event: &NodeEvent,
) -> Result<Acknowledgement<J>, LockFault>
    ensures answers { IfOk result (AnswersCall J.node J.incarnation J.opening event.now) }
    ensures counted { Counts result seat.old seat.new }
    ensures refused { IfErr result (RefusesCall J.node J.incarnation J.opening event.now) }
{
    match ask(rt, node, seat, event.copy()?) {
        Err(LockFault::JournalFull) => {
            node.cut(rt, seat)?;
            ask(rt, node, seat, event.copy()?)
        }
        answer => answer,
    }
}

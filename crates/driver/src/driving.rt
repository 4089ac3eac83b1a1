//! What a program calls when something happens: a node does what its plan has next, and then what
//! the call is made for, as one batch.

ghost use Rattle.std.specs.Prelude.{◌≡◌, ◌≤◌, ◌↔◌, ℕ, IsSome, OnOk, OnErr, IfErr, Some, false, true};
ghost use Rattle.meta_frame.specs.Frame.{Spells};
ghost use Rattle.meta_frame.specs.declared.message.Frame.{Frame};
ghost use Rattle.node_events.specs.declared.event.NodeEvent.TheVariants.{Take};
ghost use Rattle.node_hosted.specs.Hosting.{RefusesActing};
ghost use Rattle.driver.specs.Driving.{DoesTask, DoesWork, Drives, DrivesTime, HearsSender, OfAsking, OfFailure, OfFrame, TellsDown, TriesStep, driver_of, event_for, heard_if_known, neighbours_of, next_task, with_other};
ghost use Rattle.driver.specs.Plan.{is_given_up};

use crate::driven::Driven;
use crate::plan::Plan;
use crate::task::Task;
use meta_frame::read_header;
use meta_types::{ByteString, NodeId};
use node_events::NodeEvent;
use node_hosted::{HostFault, HostedNode};
use std::alloc::AllocError;

/// The most tasks of a call: what is left is next in the following one.
const MOST_TASKS: usize = 24;

/// Has the node do what its plan has next. The word is a random number. Call it once the time that
/// `wake` tells has come.
///
/// All calls of this file begin a batch, do what is next, do what they are made for, and end the
/// batch: the host then stores the records, and fetches the reply of the last step and the frames
/// of all, also if the call was refused. A task that is refused, for want of memory, stays next,
/// and with it those behind it; what the call is made for is done all the same.
///
/// Refused with 34 `Stopped`, and with 37 `Pending` until all that the call before gave was stored
/// and fetched; then nothing is done. With 99 `Memory` if a task is.
pub fn on_time(node: &mut HostedNode, plan: &mut Plan, now: u64, word: u64) -> Result<(), HostFault>
    ensures { DrivesTime now word (driver_of node.old plan.old) result
        (driver_of node.new plan.new) }
{
    node.begin_batch()?;
    let outcome = work(node, plan, now, word);
    close(node);
    outcome
}

/// Does what is next, and hands the node bytes that came. Their sender counts as heard of. Refused
/// as `on_time` is, then, by `Driven::own`, as `HostedNode::act` is.
pub fn on_frame(
    node: &mut HostedNode,
    plan: &mut Plan,
    now: u64,
    frame: ByteString,
    word: u64,
) -> Result<Driven, HostFault>
    ensures { Drives now word (OfFrame frame) (driver_of node.old plan.old) result
        (driver_of node.new plan.new) }
{
    node.begin_batch()?;
    let worked = work(node, plan, now, word); // before the frame
    let taken = take(node, plan, now, frame, word);
    close(node);
    Ok(Driven { worked, own: taken })
}

/// Does what is next, and tells the node that a peer is down, a link to which failed, unless that
/// is given up already. Refused as `on_frame` is.
pub fn on_failure(
    node: &mut HostedNode,
    plan: &mut Plan,
    now: u64,
    peer: NodeId,
    word: u64,
) -> Result<Driven, HostFault>
    ensures { Drives now word (OfFailure peer) (driver_of node.old plan.old) result
        (driver_of node.new plan.new) }
{
    node.begin_batch()?;
    let worked = work(node, plan, now, word); // before the failure
    let told = tell_down(node, plan, now, peer, word);
    close(node);
    Ok(Driven { worked, own: told })
}

/// Does what is next, and has the node make the step of an event, whose reply is then handed out.
/// Refused as `on_frame` is.
pub fn ask(
    node: &mut HostedNode,
    plan: &mut Plan,
    now: u64,
    event: NodeEvent,
    word: u64,
) -> Result<Driven, HostFault>
    ensures { Drives now word (OfAsking event) (driver_of node.old plan.old) result
        (driver_of node.new plan.new) }
{
    node.begin_batch()?;
    let worked = work(node, plan, now, word); // before the event
    let asked = node.act(event);
    close(node);
    Ok(Driven { worked, own: asked })
}

/// Returns from when on the plan has something for the node to do, if nothing happens before.
pub fn wake(node: &HostedNode, plan: &Plan) -> u64
    ensures { (now : ℕ) → IsSome (next_task now (driver_of node.now plan.now)) ↔ (result ≤ now) }
{
    plan.wake(neighbours_of(node))
}

/// Makes another node a member, unless it is one already; a node isn't a member of its own plan.
/// Fails only when memory runs out.
pub fn add_member(
    node: &HostedNode,
    plan: &mut Plan,
    now: u64,
    member: NodeId,
) -> Result<(), AllocError>
    ensures added { OnOk result (plan.new ≡ with_other now member node.now plan.old) }
    ensures same { OnErr result (plan.new ≡ plan.old) }
{
    if member == node.state().node() {
        return Ok(());
    }
    plan.add(now, member)
}

/// Returns how many neighbours a node has.
fn neighbours_of(node: &HostedNode) -> usize
    ensures { result ≡ neighbours_of node.now }
{
    node.state().views().active().len()
}

/// Ends the batch that is open.
fn close(node: &mut HostedNode)
    requires going { node.old.stopped ≡ false }
    requires open { node.old.in_batch ≡ true }
    ensures { node.new ≡ record node.old { in_batch = false } }
{
    let _ended = node.end_batch();
}

/// Does the tasks that are next, as many as a call does.
fn work(node: &mut HostedNode, plan: &mut Plan, now: u64, word: u64) -> Result<(), HostFault>
    ensures { DoesWork now word (driver_of node.old plan.old) result
        (driver_of node.new plan.new) }
{
    for count in 0..MOST_TASKS {
        let Some(task) = plan.next(now, neighbours_of(node)) else {
            return Ok(());
        };
        do_task(node, plan, now, &task, word)?;
    }
    Ok(())
}

/// Does the task that is next.
fn do_task(
    node: &mut HostedNode,
    plan: &mut Plan,
    now: u64,
    task: &Task,
    word: u64,
) -> Result<(), HostFault>
    requires next { next_task now (driver_of node.old plan.old) ≡ Some task.now }
    ensures done { OnOk result (DoesTask now word (driver_of node.old plan.old) task.now
        (driver_of node.new plan.new)) }
    ensures refused { IfErr result (RefusesActing node.old (event_for word task.now) node.new) }
    ensures same { OnErr result (plan.new ≡ plan.old) }
{
    node.act(event_for(task, word))?;
    plan.done(now, task);
    let _keys = node.state().store().len(); // (for its type)
    Ok(())
}

/// Returns what the node is asked to do for a task.
fn event_for(task: &Task, word: u64) -> NodeEvent
    ensures { result ≡ event_for word task.now }
{
    match task {
        Task::Tick => NodeEvent::Tick { word },
        Task::Hello(peer) => NodeEvent::Hello { peer: *peer },
        Task::Join(contact) => NodeEvent::Join {
            contact: *contact,
            word,
        },
        Task::BeginExchange(peer) => NodeEvent::Exchange { peer: *peer },
        Task::PeerDown(peer) => NodeEvent::PeerDown { peer: *peer, word },
    }
}

/// Hands the node bytes that came.
fn take(
    node: &mut HostedNode,
    plan: &mut Plan,
    now: u64,
    frame: ByteString,
    word: u64,
) -> Result<(), HostFault>
    ensures { TriesStep (Take frame word) (HearsSender now frame) (driver_of node.old plan.old)
        result (driver_of node.new plan.new) }
{
    let sender = sender_of(frame.as_slice());
    node.act(NodeEvent::Take { frame, word })?;
    hear(plan, now, sender);
    Ok(())
}

/// Returns the sender of the frame that the bytes are.
fn sender_of(bytes: &[u8]) -> Option<NodeId>
    ensures { (frame : Frame) → Spells frame bytes.now → result ≡ Some frame.from }
{
    match read_header(bytes) {
        Ok(header) => Some(header.from),
        Err(_) => None,
    }
}

/// Notes that a frame came from this node, if it is known.
fn hear(plan: &mut Plan, now: u64, sender: Option<NodeId>)
    ensures { plan.new ≡ heard_if_known now sender plan.old }
{
    if let Some(sender) = sender {
        plan.heard(now, sender);
    }
}

/// Tells the node that a peer is down, unless that is given up already.
fn tell_down(
    node: &mut HostedNode,
    plan: &mut Plan,
    now: u64,
    peer: NodeId,
    word: u64,
) -> Result<(), HostFault>
    ensures { TellsDown now word peer (is_given_up peer plan.old.members)
        (driver_of node.old plan.old) result (driver_of node.new plan.new) }
{
    if plan.is_given_up(peer) {
        return Ok(());
    }
    node.act(NodeEvent::PeerDown { peer, word })?;
    plan.done(now, &Task::PeerDown(peer));
    Ok(())
}

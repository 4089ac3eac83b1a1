//! The turns of a node, in the thread of its worker.

ghost use Rattle.std.specs.Prelude.{◌≡◌, ◌≤◌, List, [], ◌∷◌, IfErr, is_err};
ghost use Rattle.node_events.specs.declared.event.NodeEvent.{NodeEvent as Event};
ghost use Rattle.inbox.specs.Views.{TakeView};
ghost use Rattle.cluster_worker.specs.Call.{AreAsked, IsAfterRefusal, IsAsked, JoinsFirst, IsOfTurn};
ghost use Rattle.node_call.specs.declared.fault.LockFault.TheVariants.{Memory};
ghost use Rattle.cluster_worker.specs.Frames.{TakesFor};
ghost use Rattle.cluster_worker.specs.Plan.{IsNodeCount};
ghost use Rattle.cluster_worker.specs.Serving.{life_of};
ghost use Rattle.cluster_worker.specs.Turns.{EndsTurns, IsWorkerOf, UnlessFailed, WorksOn, with_takes};
ghost use Rattle.cluster_worker.specs.declared.turns.Ending.TheVariants.{Failed};

use crate::call::ask_at_last;
use crate::passes::Passes;
use crate::plan::ClusterPlan;
use crate::sending::send_all;
use crate::source::event_of_turn;
use crate::turn_hook::TurnHook;
use devices::Device;
use inbox::Inbox;
use meta_types::NodeId;
use node_events::NodeEvent;
use node_lock::{LockFault, Naming, Node, Receipt, WriteSeat};
use rand_core::{Rng, SeedableRng};
use rand_pcg::Pcg64;
use std::alloc::{AllocError, AllocFailed, Global};
use std::sync::Wait;

/// What all workers share.
#[derive(Drop)]
pub struct Shared<'c, R, G> {
    pub rt: &'c R,
    pub alloc: Global,
    pub plan: ClusterPlan,
    /// How many entries a journal may have, 1 to 1,048,576.
    pub journal: usize,
    /// The inboxes of all nodes, in the order of their numbers.
    pub inboxes: &'c [Inbox],
    pub gate: &'c G,
    ghost nodes: { IsNodeCount plan.nodes },
    ghost some: { 1 ≤ journal },
    ghost few: { journal ≤ 1048576 },
}

/// What a worker has besides its node: its passes, the source of its random words, and what it
/// keeps of its calls.
#[derive(Drop)]
pub(crate) struct Worker {
    pub node: NodeId,
    pub passes: Passes,
    pub words: Pcg64,
    /// The receipts of the accepted calls, in order.
    pub receipts: Vec<Receipt>,
    /// How many of the frames that were sent are lost.
    pub lost: u64,
}

impl Worker {
    /// Makes a worker before its first call.
    pub(crate) fn new(alloc: Global, node: NodeId, passes: Passes, seed: u64) -> Self
        ensures passes { result.passes ≡ passes }
        ensures node { result.node ≡ node }
        ensures nothing { (result.receipts.items ≡ []) × (result.lost ≡ 0) }
    {
        let seed = seed.wrapping_add(u64::from(node.number()));
        Worker {
            node,
            passes,
            words: Pcg64::seed_from_u64(seed),
            receipts: Vec::new(alloc),
            lost: 0,
        }
    }
}

/// Why a worker makes no more turns.
#[derive(Drop)]
pub(crate) enum Ending {
    /// Its node is stopped: its device failed.
    Stopped,
    /// It ends the whole run.
    Failed(LockFault),
}

impl From<AllocError> for Ending {
    ghost from_gives = { λ _ ending. ending ≡ Failed Memory };

    fn from(_error: AllocError) -> Self {
        Ending::Failed(LockFault::Memory)
    }
}

impl<T: Drop> From<AllocFailed<T>> for Ending {
    ghost from_gives = { λ _ ending. ending ≡ Failed Memory };

    fn from(_error: AllocFailed<T>) -> Self {
        Ending::Failed(LockFault::Memory)
    }
}

/// Returns what a refusal ends: 30 and 34 end the turns of the node, 52 and 99 the run; any other
/// costs the turn.
fn after_refusal(fault: LockFault) -> Result<(), Ending>
    ensures { IsAfterRefusal fault result }
{
    match fault {
        LockFault::Device | LockFault::Stopped => Err(Ending::Stopped),
        LockFault::NoSeat | LockFault::Memory => Err(Ending::Failed(fault)),
        _ => Ok(()),
    }
}

/// Makes a call of the node, keeps its receipt and sends its frames.
fn make<D: Device + Drop, J: Naming, H: Wait + Drop, R: Wait, G>(
    shared: &Shared<R, G>,
    node: &Node<D, J, H>,
    seat: &mut WriteSeat<J>,
    worker: &mut Worker,
    event: &NodeEvent,
) -> Result<(), Ending>
    requires asked { IsAsked shared.now.plan event.now }
    requires worker { IsWorkerOf shared.now.plan shared.now.inboxes.now
        (life_of J.node J.incarnation J.opening) seat.old worker.old }
    ensures worker { IsWorkerOf shared.now.plan shared.now.inboxes.now
        (life_of J.node J.incarnation J.opening) seat.new worker.new }
    ensures works { (takes : TakeView)
        → TakesFor event.now takes worker.old.passes.takes → UnlessFailed result
        (WorksOn shared.now.inboxes.now (event.now ∷ []) (with_takes takes worker.old)
        worker.new) }
    ensures ending { IfErr result EndsTurns }
{
    worker.receipts.reserve(1)?;
    match ask_at_last(shared.rt, node, seat, event) {
        Ok(done) => {
            let receipt = done.into_receipt();
            let frames = receipt.entry.outbox.as_slice();
            let lost = send_all(shared.rt, shared.inboxes, &mut worker.passes.puts, frames);
            worker.receipts.push_reserved(receipt);
            worker.lost = worker.lost.saturating_add(lost?);
            Ok(())
        }
        Err(fault) => after_refusal(fault),
    }
}

fn make_turn<D: Device + Drop, J: Naming, H: Wait + Drop, R: Wait, G>(
    shared: &Shared<R, G>,
    node: &Node<D, J, H>,
    seat: &mut WriteSeat<J>,
    worker: &mut Worker,
    turn: u64,
) -> Result<(), Ending>
    requires worker { IsWorkerOf shared.now.plan shared.now.inboxes.now
        (life_of J.node J.incarnation J.opening) seat.old worker.old }
    ensures worker { IsWorkerOf shared.now.plan shared.now.inboxes.now
        (life_of J.node J.incarnation J.opening) seat.new worker.new }
    ensures works { UnlessFailed result ((event : Event) × IsOfTurn shared.now.plan turn event
        × WorksOn shared.now.inboxes.now (event ∷ []) worker.old worker.new) }
    ensures ending { IfErr result EndsTurns }
{
    let event = event_of_turn(
        shared,
        &mut worker.passes,
        &mut worker.words,
        worker.receipts.as_slice(),
        turn,
    )?;
    let made = make(shared, node, seat, worker, &event);
    // Dropped by a call: no case of the proof then takes it apart.
    drop(event);
    made
}

/// Joins through node 0, unless the node is node 0 itself.
fn join_first<D: Device + Drop, J: Naming, H: Wait + Drop, R: Wait, G>(
    shared: &Shared<R, G>,
    node: &Node<D, J, H>,
    seat: &mut WriteSeat<J>,
    worker: &mut Worker,
) -> Result<(), Ending>
    requires worker { IsWorkerOf shared.now.plan shared.now.inboxes.now
        (life_of J.node J.incarnation J.opening) seat.old worker.old }
    ensures worker { IsWorkerOf shared.now.plan shared.now.inboxes.now
        (life_of J.node J.incarnation J.opening) seat.new worker.new }
    ensures works { UnlessFailed result ((asked : List Event) × JoinsFirst worker.old.node asked
        × WorksOn shared.now.inboxes.now asked worker.old worker.new) }
    ensures ending { IfErr result EndsTurns }
{
    if worker.node.number() == 0 {
        return Ok(());
    }
    let event = NodeEvent::Join {
        contact: NodeId::new(0).unwrap(),
        word: worker.words.next_u64(),
    };
    make(shared, node, seat, worker, &event)
}

/// Joins, and makes all turns.
pub(crate) fn make_all<D: Device + Drop, J: Naming, H: Wait + Drop, R: Wait, G: TurnHook>(
    shared: &Shared<R, G>,
    node: &Node<D, J, H>,
    seat: &mut WriteSeat<J>,
    worker: &mut Worker,
) -> Result<(), Ending>
    requires worker { IsWorkerOf shared.now.plan shared.now.inboxes.now
        (life_of J.node J.incarnation J.opening) seat.old worker.old }
    ensures worker { IsWorkerOf shared.now.plan shared.now.inboxes.now
        (life_of J.node J.incarnation J.opening) seat.new worker.new }
    ensures works { UnlessFailed result ((asked : List Event)
        × AreAsked shared.now.plan worker.old.node (is_err result) asked
        × WorksOn shared.now.inboxes.now asked worker.old worker.new) }
    ensures ending { IfErr result EndsTurns }
{
    join_first(shared, node, seat, worker)?;
    for turn in 1..=shared.plan.turns {
        shared.gate.before(worker.node, turn);
        let made = make_turn(shared, node, seat, worker, turn);
        shared.gate.after(worker.node, turn);
        made?;
    }
    Ok(())
}

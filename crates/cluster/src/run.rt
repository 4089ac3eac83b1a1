//! A run of a cluster.

ghost use Rattle.std.specs.Prelude.{◌≡◌, ◌≤◌, ◌++◌, List, ◌∷◌, [], length, map, All, None, Some, Ok, IfOk, IfErr, OnOk, IsErrOf, vec_len, if◌then◌else◌};
ghost use Rattle.devices.specs.Device.{IsDurable};
ghost use Rattle.cluster_worker.specs.Plan.{largest, refusal_of_run};
ghost use Rattle.cluster_worker.specs.Serving.{first_lives, lives_from};
ghost use Rattle.cluster_worker.specs.Worked.{EndsRun};
ghost use Rattle.cluster_worker.specs.declared.fault.ClusterFault.{ClusterFault as Fault};
ghost use Rattle.cluster_worker.specs.declared.worker.Worked.{Worked as Work};
ghost use Rattle.cluster.specs.Run.{CanRun, IsPutTogether, IsRunOf, RefusesGathering, RefusesNewRun, RefusesRun, nothing_on};

use crate::threads::work_all;
use cluster_worker::{
    ClusterFault, ClusterPlan, Job, Limits, Passes, ServedFile, Shared, TurnHook, Worked,
    begin_all, close_all, connect, is_node_count, refusal_of,
};
use devices::{Device, MemoryDevice};
use meta_types::NodeId;
use node_file::laws::an_empty_file_is_served;
use node_lock::{Closed, LockFault, Receipt};
use std::alloc::{AllocError, Global};
use std::sync::Wait;
use std::thread::Threads;

/// What a run of a cluster leaves.
#[derive(Drop)]
pub struct ClusterRun {
    /// What is left of each node, in the order of their numbers.
    pub closed: Vec<Closed>,
    /// The receipt of each accepted call: those of node 0 in the order of the calls, then those of
    /// node 1, and so on.
    pub receipts: Vec<Receipt>,
    /// How many entries the journals have in sum: how many calls were accepted, if none was cut.
    pub calls: u64,
    /// How many of the frames that were sent are lost: the inbox of the addressee was full, or
    /// there is no such node.
    pub lost: u64,
    /// The nodes whose device failed, in order. Such a node made no more turns.
    pub stopped: Vec<NodeId>,
}

impl ClusterRun {
    /// Makes a run of no node.
    fn new(alloc: Global) -> Self
        ensures { IsPutTogether [] result }
    {
        ClusterRun {
            closed: Vec::new(alloc),
            receipts: Vec::new(alloc),
            calls: 0,
            lost: 0,
            stopped: Vec::new(alloc),
        }
    }

    /// Adds what came of the next worker.
    fn add(&mut self, worked: Worked) -> Result<(), AllocError>
        ensures { (all : List Work) → IsPutTogether all self.old
            → OnOk result (IsPutTogether (all ++ worked ∷ []) self.new) }
    {
        let journal = worked.closed.journal().len() as u64;
        self.calls = self.calls.saturating_add(journal);
        self.lost = self.lost.saturating_add(worked.lost);
        let stopped = add_if(&mut self.stopped, worked.node, worked.is_stopped);
        let Worked {
            closed,
            receipts,
            ..
        } = worked;
        add_both(&mut self.closed, &mut self.receipts, closed, receipts)?;
        stopped
    }
}

/// Adds one item to a list, and a list to another. (Their types are parameters, so that their drops
/// cost no proof.)
fn add_both<C: Drop, R: Drop>(
    all: &mut Vec<C>,
    others: &mut Vec<R>,
    one: C,
    more: Vec<R>,
) -> Result<(), AllocError>
    ensures one { OnOk result (all.new.items ≡ all.old.items ++ one ∷ []) }
    ensures more { OnOk result (others.new.items ≡ others.old.items ++ more.items) }
{
    let mut more = more;
    others.append(&mut more)?;
    all.push(one)?;
    Ok(())
}

/// Adds the node if it is stopped.
fn add_if(nodes: &mut Vec<NodeId>, node: NodeId, is_stopped: bool) -> Result<(), AllocError>
    ensures { OnOk result
        (nodes.new.items ≡ nodes.old.items ++ (if is_stopped then node ∷ [] else [])) }
{
    if is_stopped {
        nodes.push(node)?;
    }
    Ok(())
}

/// Puts together what came of all workers, in the order of their nodes. Refused with what ended the
/// first that failed.
fn gather(
    alloc: Global,
    outcomes: Vec<Result<Worked, LockFault>>,
) -> Result<ClusterRun, ClusterFault>
    requires { All (λ outcome. IfErr outcome EndsRun) outcomes.items }
    ensures run { IfOk result (λ run. (all : List Work) × (outcomes.items ≡ map Ok all)
        × IsPutTogether all run) }
    ensures refused { IfErr result RefusesGathering }
{
    let mut run = ClusterRun::new(alloc);
    for outcome in outcomes {
        run.add(outcome?)?;
    }
    Ok(run)
}

/// Makes a job for each node.
fn jobs_of<D: Device + Drop>(
    alloc: Global,
    served: Vec<ServedFile<D>>,
    passes: Vec<Passes>,
) -> Result<Vec<Job<D>>, AllocError>
    requires number { length passes.items ≡ length served.items }
    ensures served { IfOk result (λ jobs. map (λ job. job.served) jobs.items ≡ served.items) }
    ensures passes { IfOk result (λ jobs. map (λ job. job.passes) jobs.items ≡ passes.items) }
{
    let mut jobs = Vec::with_capacity(alloc, served.len())?;
    let mut passes = passes.into_iter();
    for served in served {
        jobs.push_reserved(Job {
            served,
            passes: passes.next().unwrap(),
        });
    }
    Ok(jobs)
}

/// Makes `count` empty devices in memory.
fn memory_devices(alloc: Global, count: u64) -> Result<Vec<MemoryDevice>, AllocError>
    requires { count ≤ 16 }
    ensures empty { IfOk result (λ devices.
        map (⟦<MemoryDevice as Device>⟧.content) devices.items ≡ nothing_on count) }
    ensures durable { IfOk result (λ devices. All (λ d. IsDurable
        (⟦<MemoryDevice as Device>⟧.content d) (⟦<MemoryDevice as Device>⟧.may_leave d))
        devices.items) }
{
    let mut devices = Vec::new(alloc);
    for _node in 0..count {
        devices.push(MemoryDevice::new(alloc, Vec::new(alloc))?)?;
    }
    Ok(devices)
}

/// Runs a cluster on new devices in memory, with the greatest limits: [`run_cluster_on`], in which
/// each node is in its first life.
///
/// Refused with 44 `NoSuchNode` before memory is taken. Then 56 `NoThread`, 54 `SeatsMissing` of a
/// node that isn't closed, for which no cause is known, and 99 `Memory` may come.
pub fn run_cluster<R: Threads + Wait + Sync, G: TurnHook + Sync>(
    rt: &R,
    alloc: Global,
    plan: ClusterPlan,
    gate: &G,
) -> Result<ClusterRun, ClusterFault>
    ensures run { IfOk result (IsRunOf plan (first_lives plan.nodes)) }
    ensures accepted { OnOk result (refusal_of_run plan largest plan.nodes ≡ None) }
    ensures first { (fault : Fault) → refusal_of_run plan largest plan.nodes ≡ Some fault
        → IsErrOf result fault }
    ensures refused { IfErr result (RefusesNewRun plan) }
{
    if !is_node_count(plan.nodes) {
        return Err(ClusterFault::NoSuchNode);
    }
    let devices = memory_devices(alloc, plan.nodes)?;
    an_empty_file_is_served();
    run_cluster_on(rt, alloc, plan, Limits::largest(), devices, gate)
}

/// Runs a cluster on these devices, node 0's first. The next life of each node is begun in its
/// device's file, which is made if the device is empty. Then each node has a worker, in a thread of
/// its own, that starts it, makes its turns and closes it.
///
/// Each node except the first joins through node 0. Then it makes one call in each turn, counted
/// from 1. The frames of a call are put into the inboxes of their addressees; one that finds no room
/// is lost. The random words of a node are those of a `Pcg64` whose seed is the plan's plus the
/// node's number, wrapped.
///
/// Under [`Workload::Fixed`] a turn that 4 divides writes the turn's number in decimal digits, with
/// stamp 0, under the key `live/all/k` and a digit, the turn modulo 8, over what the node holds
/// there. Any other takes the oldest frame of the node's inbox; if there is none, time goes on by a
/// tick. Each join, frame and tick has the next random word.
///
/// Under [`Workload::Mixed`] a turn draws three words. In half of the turns it takes a frame or lets
/// time go on, as above. In a quarter it reads, keeps, writes or deletes under one of the eight keys:
/// with the context of what the node read there last, without one, or over what the node holds. In a
/// quarter it begins an exchange, says hello, finds a peer down, leaves, joins, watches, or asks a
/// watch for its changes.
///
/// If a journal is full it is cut, and the call is made once more. A node whose device fails is
/// stopped: it makes no more turns, while the others go on. 99 `Memory` ends the run; any other
/// refusal costs the turn.
///
/// Refused in this order: 44 `NoSuchNode`; 55 `BadLimit`, both before memory is taken; then in the
/// order of the nodes 30 `Device`, or as `node_file::serve` is; 56 `NoThread`, once those threads
/// have ended that could be made; at last 54 `SeatsMissing`, of the first node that isn't closed,
/// for which no cause is known. 99 `Memory` may come at any time after the first two, also from a
/// worker, after the others have made all their turns.
///
/// It takes memory for all that the nodes hold, and copies each frame that it sends, and each that
/// it takes. It waits for all workers.
pub fn run_cluster_on<D: Device + Drop + Send, R: Threads + Wait + Sync, G: TurnHook + Sync>(
    rt: &R,
    alloc: Global,
    plan: ClusterPlan,
    limits: Limits,
    devices: Vec<D>,
    gate: &G,
) -> Result<ClusterRun, ClusterFault>
    requires { All (λ d. IsDurable (D.content d) (D.may_leave d)) devices.items }
    ensures run { IfOk result (IsRunOf plan (lives_from 0 (map D.content devices.items))) }
    ensures accepted { OnOk result (CanRun D.content plan limits devices.items) }
    ensures first { (fault : Fault) → refusal_of_run plan limits (vec_len devices) ≡ Some fault
        → IsErrOf result fault }
    ensures refused { IfErr result (RefusesRun D.content D.failed plan limits devices.items) }
{
    if let Some(fault) = refusal_of(plan, limits, devices.len()) {
        return Err(fault);
    }
    let served = begin_all(alloc, devices)?;
    let (inboxes, passes) = connect(alloc, served.len(), limits.inbox)?;
    let jobs = jobs_of(alloc, served, passes)?;
    let shared = Shared {
        rt,
        alloc,
        plan,
        journal: limits.journal,
        inboxes: inboxes.as_slice(),
        gate,
    };
    let outcomes = work_all(&shared, jobs);
    close_all(inboxes);
    gather(alloc, outcomes?)
}

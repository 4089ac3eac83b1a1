//! A worker: its node is started, used and closed.

ghost use Rattle.std.specs.Prelude.{◌≡◌, ◌≤◌, IfOk, IfErr};
ghost use Rattle.node_desk.specs.Starting.{AreNewReaders, AreNewWriters, IsFileOf};
ghost use Rattle.node_call.specs.declared.fault.LockFault.TheVariants.{Memory};
ghost use Rattle.cluster_worker.specs.Passes.{ArePassesOf};
ghost use Rattle.cluster_worker.specs.Turns.{EndsTurns, IsWorkerOf, ending_of};
ghost use Rattle.cluster_worker.specs.Serving.{life_of, life_of_file};
ghost use Rattle.cluster_worker.specs.Worked.{EndsRun, HasConveyed, HasWorked, IsJob};

use crate::passes::Passes;
use crate::serving::ServedFile;
use crate::turn_hook::TurnHook;
use crate::turns::{Ending, Shared, Worker, make_all};
use devices::Device;
use meta_types::NodeId;
use node_lock::{
    Beginning, Capacity, Closed, LockFault, Naming, Node, NotClosed, NotStarted, Receipt, Started,
};
use std::marker::Brand;
use std::sync::Wait;
use std::sync::ledger::Blank;

/// What goes into the thread of a worker.
#[derive(Drop)]
pub struct Job<D: Device> {
    pub served: ServedFile<D>,
    pub passes: Passes,
}

/// What comes of a worker.
#[derive(Drop)]
pub struct Worked {
    pub node: NodeId,
    pub closed: Closed,
    /// The passes that it had, which know what was taken and put by them.
    pub passes: Passes,
    /// The receipts of the accepted calls, in order.
    pub receipts: Vec<Receipt>,
    /// How many of the frames that were sent are lost.
    pub lost: u64,
    /// Whether a call of its device failed in one of its turns.
    pub is_stopped: bool,
}

/// Does a job. Refused with what ends the whole run: 54 `SeatsMissing`, for which no cause is
/// known, and 99 `Memory`.
pub fn work<D: Device + Drop, R: Wait, G: TurnHook>(
    shared: &Shared<R, G>,
    job: Job<D>,
) -> Result<Worked, LockFault>
    requires { IsJob D.content shared.now.inboxes.now job.served.file job.served.table job.passes }
    ensures worked { IfOk result
        (HasWorked shared.now.plan (life_of_file job.served.file job.served.table)) }
    ensures conveyed { IfOk result
        (HasConveyed shared.now.plan shared.now.inboxes.now job.passes) }
    ensures connected { IfOk result (λ w. ArePassesOf shared.now.inboxes.now w.passes) }
    ensures refused { IfErr result EndsRun }
{
    let tokens = (Blank::new(9), Beginning::new());
    work_as::<Brand, D, R, G>(shared, tokens, job)
}

/// Does a job, over the name of the node.
fn work_as<J: Naming, D: Device + Drop, R: Wait, G: TurnHook>(
    shared: &Shared<R, G>,
    tokens: (Blank, Beginning),
    job: Job<D>,
) -> Result<Worked, LockFault>
    requires ledger { (tokens.0.name ≡ J.name) × (tokens.0.parts ≡ J.parts) }
    requires book { tokens.1 ≡ J.book }
    requires enough { 9 ≤ J.parts }
    requires opening { job.served.table ≡ J.opening }
    requires served { IsFileOf D.content J.node J.incarnation job.served.table job.served.file }
    requires job { IsJob D.content shared.now.inboxes.now
        job.served.file job.served.table job.passes }
    ensures worked { IfOk result
        (HasWorked shared.now.plan (life_of_file job.served.file job.served.table)) }
    ensures conveyed { IfOk result
        (HasConveyed shared.now.plan shared.now.inboxes.now job.passes) }
    ensures connected { IfOk result (λ w. ArePassesOf shared.now.inboxes.now w.passes) }
    ensures refused { IfErr result EndsRun }
{
    let Job { served, passes } = job;
    let ServedFile { file, table } = served;
    let worker = Worker::new(shared.alloc, file.node(), passes, shared.plan.seed);
    let capacity = Capacity {
        writers: 1,
        readers: 0,
        journal: shared.journal,
    };
    let started: Result<Started<D, J, &R>, NotStarted<D>> = Node::start(
        shared.rt,
        shared.alloc,
        tokens,
        file,
        table,
        capacity,
    );
    match started {
        Ok(started) => use_node(shared, started, worker),
        Err(NotStarted { fault, file, table }) => {
            drop((file, table));
            drop(worker);
            Err(fault)
        }
    }
}

/// Makes all turns of a node that was started, and closes it.
fn use_node<J: Naming, D: Device + Drop, H: Wait + Drop, R: Wait, G: TurnHook>(
    shared: &Shared<R, G>,
    started: Started<D, J, H>,
    worker: Worker,
) -> Result<Worked, LockFault>
    requires worker { IsWorkerOf shared.now.plan shared.now.inboxes.now
        (life_of J.node J.incarnation J.opening) 0 worker }
    requires writers { AreNewWriters 1 started.writers.items }
    requires readers { AreNewReaders 0 started.readers.items }
    ensures worked { IfOk result
        (HasWorked shared.now.plan (life_of J.node J.incarnation J.opening)) }
    ensures conveyed { IfOk result
        (HasConveyed shared.now.plan shared.now.inboxes.now worker.passes) }
    ensures connected { IfOk result (λ w. ArePassesOf shared.now.inboxes.now w.passes) }
    ensures refused { IfErr result EndsRun }
{
    let mut worker = worker;
    let Started {
        node,
        mut writers,
        readers,
    } = started;
    let made = make_all(shared, &node, &mut writers[0], &mut worker);
    let ended = node.close(writers, readers.as_slice());
    drop(readers);
    match ended {
        Ok((closed, device)) => {
            drop(device);
            outcome_of(closed, worker, made)
        }
        Err(NotClosed { fault, node, seats }) => {
            drop((node, seats));
            drop((worker, made));
            Err(fault)
        }
    }
}

/// Returns what comes of a worker whose node was closed after these turns.
fn outcome_of(closed: Closed, worker: Worker, made: Result<(), Ending>) -> Result<Worked, LockFault>
    requires { IfErr made EndsTurns }
    ensures node { IfOk result (λ w. w.node ≡ worker.node) }
    ensures closed { IfOk result (λ w. w.closed ≡ closed) }
    ensures passes { IfOk result (λ w. w.passes ≡ worker.passes) }
    ensures receipts { IfOk result (λ w. w.receipts ≡ worker.receipts) }
    ensures lost { IfOk result (λ w. w.lost ≡ worker.lost) }
    ensures stopped { IfOk result (λ w. made ≡ ending_of w.is_stopped) }
    ensures refused { IfErr result (λ fault. fault ≡ Memory) }
{
    match is_stopped(made) {
        Ok(is_stopped) => {
            let Worker {
                node,
                passes,
                words: _,
                receipts,
                lost,
            } = worker;
            Ok(Worked {
                node,
                closed,
                passes,
                receipts,
                lost,
                is_stopped,
            })
        }
        Err(fault) => {
            drop((closed, worker));
            Err(fault)
        }
    }
}

/// Returns whether the turns ended because the node was stopped. Refused with what ends the whole
/// run.
fn is_stopped(made: Result<(), Ending>) -> Result<bool, LockFault>
    requires { IfErr made EndsTurns }
    ensures stopped { IfOk result (λ stopped. made ≡ ending_of stopped) }
    ensures refused { IfErr result (λ fault. fault ≡ Memory) }
{
    match made {
        Ok(()) => Ok(false),
        Err(Ending::Stopped) => Ok(true),
        Err(Ending::Failed(fault)) => Err(fault),
    }
}

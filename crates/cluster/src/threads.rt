//! A thread for each worker.

ghost use Rattle.std.specs.Prelude.{◌≡◌, ◌⊎◌, ◌≤◌, [], length, map, All, IfOk, IfErr, IsTrue, vec_capacity};
ghost use Rattle.cluster_worker.specs.Serving.{life_of_file};
ghost use Rattle.cluster_worker.specs.Worked.{IsOutcomeOf, IsJob};
ghost use Rattle.cluster_worker.specs.declared.fault.ClusterFault.TheVariants.{Memory, NoThread};
ghost use Rattle.cluster.specs.Threads.{AreOutcomesOf, task_of};

use cluster_worker::{ClusterFault, ClusterPlan, Job, Shared, TurnHook, Worked, work};
use devices::Device;
use meta_store::Store;
use meta_types::NodeId;
use node_lock::LockFault;
use std::marker::Model;
use std::snapshot::Snapshot;
use std::sync::Wait;
use std::thread::{self, Promise, PromisedHandle, Scope, Threads};

/// What comes of one worker; refused if it ends the whole run.
type Outcome = Result<Worked, LockFault>;

/// The worker of a node in this life, which opened with this table, in a run of this plan.
#[derive(Drop)]
struct Task {
    plan: ClusterPlan,
    node: NodeId,
    incarnation: u32,
    opening: Snapshot<Store>,
}

impl Model for Task {
    ghost use Rattle.cluster.specs.Threads.{TaskView};

    ghost Value = { TaskView };

    ghost view = { λ task. record {
      plan = task.plan;
      life = record {
        node = task.node;
        incarnation = task.incarnation;
        opened = task.opening.value;
      };
    } };
}

impl Promise<Outcome> for Task {
    ghost use Rattle.cluster.specs.Threads.{IsOutcomeOfTask};

    ghost kept_by = { λ task outcome. IsOutcomeOfTask task outcome };
}

type Handle = PromisedHandle<Outcome, Task>;

/// The workers' threads, as far as they could be made.
#[derive(Drop)]
struct Spawned {
    handles: Vec<Handle>,
    is_whole: bool,
}

/// Makes a thread for each job, up to the first for which none can be made. There is room for all
/// handles.
fn spawn_all<'s, E, D, R, G>(
    scope: &Scope<'s, E>,
    shared: &'s Shared<'s, R, G>,
    jobs: Vec<Job<D>>,
    handles: Vec<Handle>,
) -> Spawned
where
    D: Device + Drop + Send + 's,
    R: Wait + Sync,
    G: TurnHook + Sync,
    requires jobs { All (λ job. IsJob D.content shared.now.inboxes.now
        job.served.file job.served.table job.passes) jobs.items }
    requires handles { (handles.items ≡ []) × (length jobs.items ≤ vec_capacity handles) }
    ensures tasks { IsTrue result.is_whole → map (λ h. h.promise) result.handles.items
        ≡ map (λ job. task_of shared.now.plan
        (life_of_file job.served.file job.served.table)) jobs.items }
    ensures few { length result.handles.items ≤ length jobs.items }
{
    let mut handles = handles;
    for job in jobs {
        let task = Task {
            plan: shared.plan,
            node: job.served.file.node(),
            incarnation: job.served.file.life(),
            opening: Snapshot::of(&job.served.table),
        };
        let spawned = scope.spawn_with(
            task,
            move ||
                requires { IsJob D.content shared.now.inboxes.now
                    job.served.file job.served.table job.passes }
                ensures { IsOutcomeOf shared.entry.now.plan
                    (life_of_file job.served.file job.served.table) result }
            { work(shared, job) },
        );
        match spawned {
            Ok(handle) => handles.push_reserved(handle),
            Err(_) => {
                return Spawned {
                    handles,
                    is_whole: false,
                };
            }
        }
    }
    Spawned {
        handles,
        is_whole: true,
    }
}

/// Waits for all threads, and returns what came of each, in their order. There is room for it.
fn join_all<R: Threads>(rt: &R, handles: Vec<Handle>, outcomes: Vec<Outcome>) -> Vec<Outcome>
    requires { (outcomes.items ≡ []) × (length handles.items ≤ vec_capacity outcomes) }
    ensures { AreOutcomesOf (map (λ h. h.promise) handles.items) result.items }
{
    let mut outcomes = outcomes;
    for handle in handles {
        outcomes.push_reserved(handle.join(rt));
    }
    outcomes
}

/// Does each job in a thread of its own, waits for all of them, and returns what came of each, in
/// their order.
///
/// Refused with 56 `NoThread` if a thread can't be made, after those that were made have ended, and
/// with 99 `Memory` before any is made.
pub(crate) fn work_all<D, R, G>(
    shared: &Shared<R, G>,
    jobs: Vec<Job<D>>,
) -> Result<Vec<Outcome>, ClusterFault>
where
    D: Device + Drop + Send,
    R: Threads + Wait + Sync,
    G: TurnHook + Sync,
    requires { All (λ job. IsJob D.content shared.now.inboxes.now
        job.served.file job.served.table job.passes) jobs.items }
    ensures worked { IfOk result (λ all. AreOutcomesOf (map (λ job. task_of shared.now.plan
        (life_of_file job.served.file job.served.table)) jobs.items) all.items) }
    ensures refused { IfErr result (λ fault. (fault ≡ Memory) ⊎ (fault ≡ NoThread)) }
{
    let handles = Vec::with_capacity(shared.alloc, jobs.len())?;
    let outcomes = Vec::with_capacity(shared.alloc, jobs.len())?;
    thread::scope(
        thread::scope_env(),
        shared.rt,
        move |scope| -> Result<Vec<Outcome>, ClusterFault>
            requires jobs { All (λ job. IsJob D.content shared.now.inboxes.now
                job.served.file job.served.table job.passes) jobs.items }
            requires handles { (handles.items ≡ [])
                × (length jobs.items ≤ vec_capacity handles) }
            requires outcomes { (outcomes.items ≡ [])
                × (length jobs.items ≤ vec_capacity outcomes) }
            ensures worked { IfOk result (λ all. AreOutcomesOf (map (λ job.
                task_of shared.entry.now.plan (life_of_file job.served.file job.served.table))
                jobs.items) all.items) }
            ensures refused { IfErr result (λ fault. (fault ≡ Memory) ⊎ (fault ≡ NoThread)) }
        {
            let spawned = spawn_all(scope, shared, jobs, handles);
            let outcomes = join_all(shared.rt, spawned.handles, outcomes);
            if spawned.is_whole {
                Ok(outcomes)
            } else {
                Err(ClusterFault::NoThread)
            }
        },
    )
}

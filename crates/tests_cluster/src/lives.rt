//! A cluster on files in a folder of its own, in two lives.

ghost use Rattle.std.specs.Prelude.{All, IfSome};
ghost use Rattle.devices.specs.Device.{IsDurable};

use crate::parts::{Came, add, plan, told};
use cluster::{ClusterFault, ClusterPlan, ClusterRun, Limits, NoHook, run_cluster_on};
use devices::{Device, FileDevice};
use dvvset::{descends, join};
use meta_store::Store;
use node_events::{NodeEvent, Reply};
use node_lock::{Closed, Receipt};
use std::alloc::Global;
use std::fs;
use std::process::Abort;
use std::sync::Wait;
use std::thread::Threads;

const FOLDER: &str = "files_of_a_cluster";

const NODES: u64 = 3;

/// Opens the files of the nodes, or makes them if there are none.
fn devices(files: &HostRuntime, rt: &impl Abort) -> Vec<FileDevice>
    ensures { All (λ d. IsDurable (⟦<FileDevice as Device>⟧.content d)
        (⟦<FileDevice as Device>⟧.may_leave d)) result.items }
{
    let alloc = files.alloc();
    let mut devices = Vec::new(alloc);
    for node in 0..NODES {
        let path = format!(in alloc; "{FOLDER}/node-{node}").expect(rt, "memory");
        let device = FileDevice::open_or_create(files, alloc, path.as_str(), b"");
        add(rt, &mut devices, device.ok().expect(rt, "a device"));
    }
    devices
}

fn run_on<R: Threads + Wait + Sync>(
    rt: &R,
    alloc: Global,
    plan: ClusterPlan,
    devices: Vec<FileDevice>,
) -> Result<ClusterRun, ClusterFault>
    requires { All (λ d. IsDurable (⟦<FileDevice as Device>⟧.content d)
        (⟦<FileDevice as Device>⟧.may_leave d)) devices.items }
{
    run_cluster_on(rt, alloc, plan, Limits::largest(), devices, &NoHook)
}

/// Lets the cluster live a life.
fn live<R: Threads + Wait + Abort + Sync>(files: &HostRuntime, rt: &R, turns: u64) -> ClusterRun {
    let plan = plan(NODES, turns, 6);
    let devices = devices(files, rt);
    let run = run_on(rt, files.alloc(), plan, devices);
    run.ok().expect(rt, "a run")
}

/// Returns whether the table has the write that the receipt acknowledges, if it is of a write.
fn has_written(rt: &impl Abort, alloc: Global, table: &Store, receipt: &Receipt) -> bool {
    match (&receipt.entry.event, &receipt.entry.reply) {
        (NodeEvent::PutOver { key, .. }, Reply::Wrote { vector }) => match table.object(key) {
            Some(object) => {
                let known = join(alloc, object).or(join(alloc, object));
                descends(&known.expect(rt, "memory once more"), vector)
            }
            None => false,
        },
        _ => true,
    }
}

/// Returns whether each node of the later life began with all that an earlier one acknowledged.
fn begin_with(rt: &impl Abort, alloc: Global, later: &[Closed], receipts: &[Receipt]) -> bool {
    for receipt in receipts {
        let Some(node) = later.get(usize::from(receipt.node.number())) else {
            return false;
        };
        let base = node.base();
        if base.incarnation() != 2 || !has_written(rt, alloc, base.store(), receipt) {
            return false;
        }
    }
    true
}

#[test]
fn a_second_life_has_what_the_first_acknowledged(rt: HostRuntime) {
    let _ = fs::remove_dir_all(&rt, FOLDER);
    assert!(rt; fs::create_dir(&rt, FOLDER).is_ok());
    let first = live(&rt, &rt, 30);
    let second = live(&rt, &rt, 10);
    let alloc = rt.alloc();
    assert!(rt;
        begin_with(
            &rt,
            alloc,
            second.closed.as_slice(),
            first.receipts.as_slice()
        )
    );
    let wanted = Came {
        calls: 92,
        lost: 0,
        closed: 3,
        receipts: 92,
        kept: 92,
        code: 0,
    };
    assert!(rt; told(alloc, Ok(first)) == Ok(wanted));
    // Journals of a second life aren't assembled.
    assert!(rt; told(alloc, Ok(second)).is_ok_and(|came| came.code == 1 && came.kept == 32));
    let _ = fs::remove_dir_all(&rt, FOLDER);
}

const REFUSED: &str = "files_of_a_refused_cluster";

const REFUSED_FILE: &str = "files_of_a_refused_cluster/node-0";

/// Opens or makes the file of one node; `None` if memory was refused.
fn one_device(files: &HostRuntime) -> Option<Vec<FileDevice>>
    ensures { IfSome result (λ devices. All (λ d. IsDurable (⟦<FileDevice as Device>⟧.content d)
        (⟦<FileDevice as Device>⟧.may_leave d)) devices.items) }
{
    let alloc = files.alloc();
    let mut devices = Vec::with_capacity(alloc, 1).ok()?;
    let device = FileDevice::open_or_create(files, alloc, REFUSED_FILE, b"").ok()?;
    devices.push(device).ok()?;
    Some(devices)
}

/// Makes five turns of one node on its file. Refused with the number of the refusal.
fn turns_of_one<R: Threads + Wait + Sync>(files: &HostRuntime, rt: &R) -> Result<ClusterRun, u16> {
    let Some(devices) = one_device(files) else {
        return Err(99);
    };
    match run_on(rt, files.alloc(), plan(1, 5, 0), devices) {
        Ok(run) => Ok(run),
        Err(fault) => Err(fault.code()),
    }
}

/// Runs `turns_of_one`, and once more if memory or a thread was refused.
fn turns_again<R: Threads + Wait + Abort + Sync>(files: &HostRuntime, rt: &R) -> ClusterRun {
    let run = turns_of_one(files, rt);
    let was_refused = matches!(&run, Err(56 | 99));
    let run = if was_refused {
        drop(run);
        turns_of_one(files, rt)
    } else {
        run
    };
    run.ok().expect(rt, "a run")
}

/// Returns whether the node began with all that the receipts acknowledge.
fn has_all(rt: &impl Abort, alloc: Global, later: &ClusterRun, receipts: &[Receipt]) -> bool {
    let Some(node) = later.closed.as_slice().first() else {
        return false;
    };
    let table = node.base().store();
    receipts
        .iter()
        .all(|receipt| has_written(rt, alloc, table, receipt))
}

// Passes whichever single allocation is refused: the file that a refused run leaves is run on
// again, and has all that was acknowledged before.
#[test]
fn a_cluster_lives_on_its_files_under_refused_memory(rt: HostRuntime) {
    let _ = fs::remove_dir_all(&rt, REFUSED);
    let made = fs::create_dir(&rt, REFUSED).or(fs::create_dir(&rt, REFUSED));
    assert!(rt; made.is_ok());
    let first = turns_again(&rt, &rt);
    let second = turns_again(&rt, &rt);
    assert!(rt; first.receipts.len() == 5 && second.receipts.len() == 5);
    assert!(rt; has_all(&rt, rt.alloc(), &second, first.receipts.as_slice()));
    let _ = fs::remove_dir_all(&rt, REFUSED);
}

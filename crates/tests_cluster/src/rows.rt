//! What is printed at standard output and at standard error, and the exit status.

ghost use Rattle.std.specs.Prelude.{All, length, ◌≡◌};
ghost use Rattle.devices.specs.Device.{IsDurable};

use crate::parts::{add, plan};
use cluster::{ClusterFault, ClusterPlan, ClusterRun, Limits, NoHook, run_cluster, run_cluster_on};
use devices::{Device, MemoryDevice};
use node_file::FileFault;
use plumctl_live::{judge, run_live, tell_run};
use std::alloc::Global;
use std::process::Abort;
use std::sync::Wait;
use std::thread::Threads;
use streams::MayFail;

/// Returns whether a run prints this, and nothing at standard error, with this status.
fn is_run<R: Threads + Wait + Sync>(
    rt: &R,
    alloc: Global,
    plan: ClusterPlan,
    printed: &[u8],
    status: u8,
) -> bool {
    let mut writer = Vec::new(alloc);
    let mut errors = Vec::new(alloc);
    let live = run_live(rt, alloc, plan, &NoHook, &mut writer, &mut errors);
    let ended = live.status;
    drop(live);
    ended == status && writer.as_slice() == printed && errors.is_empty()
}

#[test]
fn runs_are_told(rt: HostRuntime) {
    let alloc = rt.alloc();
    let two = b"live nodes 2 turns 8\ncalls 17 lost 0\nassembled\n";
    assert!(&rt; is_run(&rt, alloc, plan(2, 8, 1), two, 0));
    let one = b"live nodes 1 turns 1\ncalls 1 lost 0\nassembled\n";
    assert!(&rt; is_run(&rt, alloc, plan(1, 1, 0), one, 0));
    let none = b"live nodes 0 turns 1\nfault 44 NoSuchNode\n";
    assert!(&rt; is_run(&rt, alloc, plan(0, 1, 0), none, 1));
    let many = b"live nodes 17 turns 1\nfault 44 NoSuchNode\n";
    assert!(&rt; is_run(&rt, alloc, plan(17, 1, 0), many, 1));
}

/// Returns whether a fault of a cluster prints `printed`, and `told` at standard error, with this
/// status.
fn is_told(alloc: Global, fault: ClusterFault, printed: &[u8], told: &[u8], status: u8) -> bool {
    let mut writer = Vec::new(alloc);
    let mut errors = Vec::new(alloc);
    let live = tell_run(alloc, plan(3, 4, 5), Err(fault), &mut writer, &mut errors);
    let ended = live.status;
    drop(live);
    ended == status && writer.as_slice() == printed && errors.as_slice() == told
}

/// A writer that takes nothing more.
#[test]
fn a_writer_that_fails_is_told(rt: HostRuntime) {
    let alloc = rt.alloc();
    let mut room = [0u8; 10];
    let mut errors = Vec::new(alloc);
    let mut writer = MayFail(room.as_mut_slice());
    let live = run_live(&rt, alloc, plan(1, 1, 0), &NoHook, &mut writer, &mut errors);
    let (status, is_judged) = (live.status, live.judged.is_ok());
    drop(live);
    let line = b"error: the output could not be written\n";
    assert!(&rt; status == 3 && is_judged && errors.as_slice() == line.as_slice());
    assert!(&rt; room.as_slice() == b"live nodes".as_slice());
}

#[test]
fn faults_are_told(rt: HostRuntime) {
    let alloc = rt.alloc();
    let thread = b"live nodes 3 turns 4\nfault 56 NoThread\n";
    assert!(&rt; is_told(alloc, ClusterFault::NoThread, thread, b"", 1));
    let device = b"live nodes 3 turns 4\nfault 30 Device\n";
    let failed = ClusterFault::File(FileFault::Device);
    assert!(&rt; is_told(alloc, failed, device, b"", 3));
    let spent = b"live nodes 3 turns 4\nfault 35 IncarnationSpent\n";
    let last = ClusterFault::File(FileFault::IncarnationSpent);
    assert!(&rt; is_told(alloc, last, spent, b"", 1));
    let memory = b"error 99 Memory\n";
    assert!(&rt;
        is_told(
            alloc,
            ClusterFault::Memory,
            b"live nodes 3 turns 4\n",
            memory,
            4
        )
    );
}

/// Makes two turns of one node, of which one receipt tells a later call.
fn strange_run<R: Threads + Wait + Abort + Sync>(rt: &R, alloc: Global) -> ClusterRun
    ensures { length result.closed.items ≡ 1 }
{
    let run = run_cluster(rt, alloc, plan(1, 2, 0), &NoHook);
    let mut run = run.ok().expect(rt, "a run");
    if let Some(receipt) = run.receipts.first_mut() {
        receipt.place = 99;
    }
    if run.closed.len() != 1 {
        panic!(rt; "one node");
    }
    run
}

#[test]
fn it_is_told_why_a_run_is_refused(rt: HostRuntime) {
    let alloc = rt.alloc();
    let run = strange_run(&rt, alloc);
    let mut writer = Vec::new(alloc);
    let mut errors = Vec::new(alloc);
    let live = tell_run(alloc, plan(1, 2, 0), Ok(run), &mut writer, &mut errors);
    let status = live.status;
    drop(live);
    let printed = b"live nodes 1 turns 2\ncalls 2 lost 0\nfault 63 StrangeReceipt\n";
    let why = b"node 0, call 100: a receipt tells of it, and the journal ends before\n";
    assert!(&rt; status == 1 && writer.as_slice() == printed.as_slice());
    assert!(&rt; errors.as_slice() == why.as_slice());
}

/// Returns a new device in memory, alone in a list.
fn new_device(rt: &impl Abort, alloc: Global) -> Vec<MemoryDevice>
    ensures { All (λ d. IsDurable (⟦<MemoryDevice as Device>⟧.content d)
        (⟦<MemoryDevice as Device>⟧.may_leave d)) result.items }
{
    let mut devices = Vec::new(alloc);
    let device = MemoryDevice::new(alloc, Vec::new(alloc)).expect(rt, "memory");
    add(rt, &mut devices, device);
    devices
}

/// Returns the name of the refusal of a run of one node whose journal has room for `journal`
/// entries.
fn refusal<R: Threads + Wait + Abort + Sync>(
    rt: &R,
    alloc: Global,
    journal: usize,
) -> &'static str {
    let limits = Limits { inbox: 1, journal };
    let devices = new_device(rt, alloc);
    let run = run_cluster_on(rt, alloc, plan(1, 4, 1), limits, devices, &NoHook);
    let run = run.ok().expect(rt, "a run");
    let judged = judge(alloc, &run);
    drop(run);
    let name = match &judged {
        Ok(_world) => "",
        Err(fault) => fault.name(),
    };
    drop(judged);
    name
}

/// Nobody can say of a journal that was cut what its node did.
#[test]
fn a_journal_that_was_cut_is_not_judged(rt: HostRuntime) {
    assert!(&rt; refusal(&rt, rt.alloc(), 1) == "NotWhole");
    assert!(&rt; refusal(&rt, rt.alloc(), 4) == "");
}

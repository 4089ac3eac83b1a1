//! What tests look at in a run, and the devices and plans that it is made on.

ghost use Rattle.std.specs.Prelude.{All, ◌≡◌};
ghost use Rattle.devices.specs.Device.{IsDurable};

use cluster::{ClusterFault, ClusterPlan, ClusterRun, Workload};
use devices::{Device, FailsAfter, MemoryDevice};
use node_journal::are_whole;
use node_lock::{Closed, Receipt};
use run_record::assemble;
use std::alloc::Global;
use std::process::Abort;

/// Returns a plan of `nodes` nodes, each with `turns` turns.
pub(crate) fn plan(nodes: u64, turns: u64, seed: u64) -> ClusterPlan
    ensures { result.nodes ≡ nodes }
{
    ClusterPlan {
        nodes,
        turns,
        seed,
        workload: Workload::Fixed,
    }
}

/// Adds a device with nothing pending.
pub(crate) fn add<D: Device + Drop>(rt: &impl Abort, devices: &mut Vec<D>, device: D)
    requires all { All (λ d. IsDurable (D.content d) (D.may_leave d)) devices.old.items }
    requires one { IsDurable (D.content device) (D.may_leave device) }
    ensures { All (λ d. IsDurable (D.content d) (D.may_leave d)) devices.new.items }
{
    devices.push(device).ok().expect(rt, "memory");
}

/// Returns a device in memory that holds these bytes.
fn device(rt: &impl Abort, alloc: Global, bytes: &[u8]) -> MemoryDevice
    ensures { IsDurable (⟦<MemoryDevice as Device>⟧.content result)
        (⟦<MemoryDevice as Device>⟧.may_leave result) }
{
    let content = bytes.to_vec(alloc).expect(rt, "memory");
    MemoryDevice::new(alloc, content).expect(rt, "memory")
}

/// Returns a device for each number of `passed`: it holds these bytes, and fails after that number
/// of calls.
pub(crate) fn failing(
    rt: &impl Abort,
    alloc: Global,
    bytes: &[u8],
    passed: &[u64],
) -> Vec<FailsAfter<MemoryDevice>>
    ensures { All (λ d. IsDurable (⟦<FailsAfter<MemoryDevice> as Device>⟧.content d)
        (⟦<FailsAfter<MemoryDevice> as Device>⟧.may_leave d)) result.items }
{
    let mut devices = Vec::new(alloc);
    for count in passed {
        add(
            rt,
            &mut devices,
            FailsAfter::new(device(rt, alloc, bytes), *count),
        );
    }
    devices
}

/// What came of a run.
#[derive(Drop, Debug, PartialEq, Eq)]
pub(crate) struct Came {
    /// How many entries the journals have in sum.
    pub calls: u64,
    /// How many frames were lost.
    pub lost: u64,
    /// How many nodes were closed.
    pub closed: usize,
    /// How many receipts there are.
    pub receipts: usize,
    /// How many of the receipts have their entry in a journal.
    pub kept: usize,
    /// The number of the fault with which the journals with all receipts aren't assembled: 0 if
    /// they are, 1 if they aren't whole.
    pub code: u16,
}

/// Returns what came of the run, or the number of the refusal.
pub(crate) fn told(alloc: Global, run: Result<ClusterRun, ClusterFault>) -> Result<Came, u16> {
    let told = match &run {
        Ok(run) => Ok(came_of(alloc, run)),
        Err(fault) => Err(fault.code()),
    };
    drop(run);
    told
}

fn came_of(alloc: Global, run: &ClusterRun) -> Came {
    Came {
        calls: run.calls,
        lost: run.lost,
        closed: run.closed.len(),
        receipts: run.receipts.len(),
        kept: kept(run),
        code: code_in_the_end(alloc, run),
    }
}

/// Returns the number of the fault with which a run isn't assembled: 0 if it is, 1 if its journals
/// aren't whole.
fn code_of_assembly(alloc: Global, run: &ClusterRun) -> u16 {
    if !are_whole(run.closed.as_slice()) {
        return 1;
    }
    let answer = assemble(alloc, run.closed.as_slice(), run.receipts.as_slice());
    let code = match &answer {
        Ok(_world) => 0,
        Err(fault) => fault.code(),
    };
    // Dropped by a call: no case of the proof then takes it apart.
    drop(answer);
    code
}

/// Returns `code_of_assembly`, asked once more if memory was refused: journals and receipts are as
/// they were.
fn code_in_the_end(alloc: Global, run: &ClusterRun) -> u16 {
    match code_of_assembly(alloc, run) {
        99 => code_of_assembly(alloc, run),
        code => code,
    }
}

/// Returns whether the entry of the receipt stands in the journal, at its place.
fn is_kept(closed: &[Closed], receipt: &Receipt) -> bool {
    let Some(node) = closed.get(usize::from(receipt.node.number())) else {
        return false;
    };
    let Some(place) = receipt.place.checked_sub(node.base().steps()) else {
        return false;
    };
    node.journal().get(place as usize) == Some(&receipt.entry)
}

/// Returns how many receipts have their entry in a journal.
fn kept(run: &ClusterRun) -> usize {
    let mut count = 0usize;
    for receipt in run.receipts.iter() {
        if is_kept(run.closed.as_slice(), receipt) {
            count = count.saturating_add(1);
        }
    }
    count
}

/// Returns whether the receipts are those of node 0, then of node 1 and so on, each node's by their
/// places from 0.
pub(crate) fn are_in_order(receipts: &[Receipt]) -> bool {
    let mut next = (0u16, 0u64);
    for receipt in receipts {
        let node = receipt.node.number();
        if node > next.0 {
            next = (node, 0);
        }
        if (node, receipt.place) != next {
            return false;
        }
        next.1 = next.1.saturating_add(1);
    }
    true
}

//! Runs of threads, written down, and made again by one.

ghost use Rattle.std.specs.Prelude.{IfOk};
ghost use Rattle.run_record.specs.Record.{IsOfARun};

use cluster::{ClusterPlan, NoHook, Workload};
use devices::{FailsAfter, MemoryDevice};
use meta_store::Store;
use meta_types::{FullPrefix, MetaKey, NodeId};
use node_core::NodeState;
use node_events::{NodeEvent, Outbox, Reply};
use node_journal::{Closed, Entry, are_whole};
use plumctl_live::{LiveFault, recording_of, run_live, write_recording};
use run_record::assemble;
use scenario::run_over;
use std::alloc::Global;
use std::process::Abort;
use std::sync::Wait;
use std::thread::Threads;
use world_core::World;

/// Makes a run in memory.
fn live<R: Threads + Wait + Sync>(
    rt: &R,
    alloc: Global,
    plan: ClusterPlan,
) -> Result<World, LiveFault>
    ensures { IfOk result (IsOfARun plan.nodes) }
{
    let mut writer = Vec::new(alloc);
    let mut errors = Vec::new(alloc);
    run_live(rt, alloc, plan, &NoHook, &mut writer, &mut errors).judged
}

/// Returns what running the recording of a run prints.
fn output(rt: &impl Abort, alloc: Global, plan: ClusterPlan, world: &World) -> Vec<u8>
    requires { IsOfARun plan.nodes world.now }
{
    let text = recording_of(alloc, plan, world).expect(rt, "memory");
    let text = text.expect(rt, "a text");
    let mut output = Vec::new(alloc);
    let done = run_over(alloc, &mut text.as_slice(), &mut output, &[]);
    done.ok().expect(rt, "a scenario");
    output
}

/// Returns how many lines a text has.
fn lines(text: &[u8]) -> u64 {
    let mut count = 0u64;
    for byte in text {
        if *byte == b'\n' {
            count = count.saturating_add(1);
        }
    }
    count
}

/// Returns whether running the recording of a run prints a line of `nodes`, one of each event, one
/// of each frame, and one of the root of each node.
fn is_made_again<R: Threads + Wait + Abort + Sync>(
    rt: &R,
    alloc: Global,
    plan: ClusterPlan,
) -> bool {
    let world = live(rt, alloc, plan).ok().expect(rt, "a run of the world");
    let output = output(rt, alloc, plan, &world);
    let events = world.accepted().len() as u64;
    let all = events.saturating_add(world.frame_count());
    drop(world);
    lines(output.as_slice()) == all.saturating_add(plan.nodes).saturating_add(1)
}

/// Returns whether eight runs of four nodes are made again.
fn are_made_again<R: Threads + Wait + Abort + Sync>(
    rt: &R,
    alloc: Global,
    workload: Workload,
) -> bool {
    for seed in 0..8 {
        let plan = ClusterPlan {
            nodes: 4,
            turns: 60,
            seed,
            workload,
        };
        if !is_made_again(rt, alloc, plan) {
            return false;
        }
    }
    true
}

#[test]
fn runs_are_made_again(rt: HostRuntime) {
    assert!(&rt; are_made_again(&rt, rt.alloc(), Workload::Fixed));
}

#[test]
fn mixed_runs_are_made_again(rt: HostRuntime) {
    assert!(&rt; are_made_again(&rt, rt.alloc(), Workload::Mixed));
}

/// The recording of one node with the seed 1. The words follow from what `Pcg64` is, and were
/// computed by another program.
const OF_SEED_1: &[u8] = b"\
# what the threads of 'plumctl live 1 5 1' did, call by call; at last the root of each node
nodes 1
tick 0 word 15492934433077865799
tick 0 word 319104231195455319
tick 0 word 2101115697694094752
over 0 live/all/k4 4
tick 0 word 18133442382907303891
root 0
";

/// The recording of one node with the seed 7.
const OF_SEED_7: &[u8] = b"\
# what the threads of 'plumctl live 1 5 7' did, call by call; at last the root of each node
nodes 1
tick 0 word 9351779398707215
tick 0 word 4267278794321568333
tick 0 word 16631418469999051220
over 0 live/all/k4 4
tick 0 word 15403274284619518961
root 0
";

/// The recording of twenty mixed turns of one node with the seed 6105. Another program drew them.
/// Turn 4 drew what is refused, and has no line.
const MIXED_OF_SEED_6105: &[u8] = b"\
# what the threads of 'plumctl live 1 20 6105 --mixed' did, call by call; at last the root of each node
nodes 1
tick 0 word 15780242802219785816
watch 0 live/all 5
leave 0
read 0 live/all/k6
del 0 live/all/k4
tick 0 word 6045386567941944459
put 0 live/all/k6 8 read 1
over 0 live/all/k1 9
del 0 live/all/k7
read 0 live/all/k5
tick 0 word 7087661283455591969
del 0 live/all/k5 read 3
watch 0 live/all 8
put 0 live/all/k1 15
del 0 live/all/k2
over 0 live/all/k5 17
keep 0 live/all/k2
put 0 live/all/k6 19 read 1
tick 0 word 11405888240072031948
root 0
";

/// The recording of twenty mixed turns of one node with the seed 2822, of which turns 7 and 12 were
/// refused.
const MIXED_OF_SEED_2822: &[u8] = b"\
# what the threads of 'plumctl live 1 20 2822 --mixed' did, call by call; at last the root of each node
nodes 1
leave 0
del 0 live/all/k4
tick 0 word 7371935094919203966
tick 0 word 4706093621589310847
read 0 live/all/k0
tick 0 word 1944509687847500138
keep 0 live/all/k7
keep 0 live/all/k5
watch 0 live/all 4
tick 0 word 12014820242914165504
tick 0 word 14149464507874185649
tick 0 word 11142422157360786447
put 0 live/all/k0 15 read 1
over 0 live/all/k4 16
watch 0 live/all 5
tick 0 word 5144106623694654704
put 0 live/all/k0 19 read 1
changes 0 2
root 0
";

/// Returns a plan of one node.
fn of_one(turns: u64, seed: u64, workload: Workload) -> ClusterPlan {
    ClusterPlan {
        nodes: 1,
        turns,
        seed,
        workload,
    }
}

/// Returns whether the run of this plan has this recording.
fn is_recorded<R: Threads + Wait + Abort + Sync>(
    rt: &R,
    alloc: Global,
    plan: ClusterPlan,
    wanted: &[u8],
) -> bool {
    let world = live(rt, alloc, plan).ok().expect(rt, "a run of the world");
    let text = recording_of(alloc, plan, &world).expect(rt, "memory");
    drop(world);
    text.expect(rt, "a text").as_slice() == wanted
}

/// What one node does is fixed by the seed.
#[test]
fn one_node_has_one_recording(rt: HostRuntime) {
    let plan = of_one(5, 1, Workload::Fixed);
    assert!(&rt; is_recorded(&rt, rt.alloc(), plan, OF_SEED_1));
    let plan = of_one(5, 7, Workload::Fixed);
    assert!(&rt; is_recorded(&rt, rt.alloc(), plan, OF_SEED_7));
}

#[test]
fn one_node_has_one_mixed_recording(rt: HostRuntime) {
    let plan = of_one(20, 6105, Workload::Mixed);
    assert!(&rt; is_recorded(&rt, rt.alloc(), plan, MIXED_OF_SEED_6105));
    let plan = of_one(20, 2822, Workload::Mixed);
    assert!(&rt; is_recorded(&rt, rt.alloc(), plan, MIXED_OF_SEED_2822));
}

/// Writes a recording to a device that fails after `passed` calls. Returns the status, whether the
/// device holds the text, and what is printed at standard error.
fn written(
    rt: &impl Abort,
    alloc: Global,
    plan: ClusterPlan,
    world: &World,
    passed: u64,
) -> (u8, bool, Vec<u8>)
    requires { IsOfARun plan.nodes world.now }
{
    let device = MemoryDevice::new(alloc, Vec::new(alloc)).expect(rt, "memory");
    let mut target = FailsAfter::new(device, passed);
    let mut errors = Vec::new(alloc);
    let status = write_recording(alloc, plan, world, "run", &mut target, &mut errors);
    let text = recording_of(alloc, plan, world).expect(rt, "memory");
    let is_there = text.as_deref() == Some(target.inner().content());
    drop(text);
    drop(target);
    (status, is_there, errors)
}

/// Returns whether a recording is written to a device that fails after `passed` calls with this
/// status, and this is printed at standard error.
fn is_written<R: Threads + Wait + Abort + Sync>(
    rt: &R,
    alloc: Global,
    passed: u64,
    status: u8,
    told: &[u8],
) -> bool {
    let plan = ClusterPlan {
        nodes: 2,
        turns: 8,
        seed: 3,
        workload: Workload::Fixed,
    };
    let world = live(rt, alloc, plan).ok().expect(rt, "a run of the world");
    let (ended, is_there, errors) = written(rt, alloc, plan, &world, passed);
    drop(world);
    ended == status && errors.as_slice() == told && (is_there || status != 0)
}

#[test]
fn recordings_are_written(rt: HostRuntime) {
    let failed = b"error 30 Device\ncause: run: could not be written\n";
    assert!(&rt; is_written(&rt, rt.alloc(), 0, 3, failed));
    assert!(&rt; is_written(&rt, rt.alloc(), 1, 3, failed));
    assert!(&rt; is_written(&rt, rt.alloc(), 2, 0, b""));
}

/// Returns the key of this own part under a/b.
fn key(rt: &impl Abort, alloc: Global, own: &[u8]) -> MetaKey {
    let prefix = b"a".to_vec(alloc).expect(rt, "memory");
    let sub = b"b".to_vec(alloc).expect(rt, "memory");
    let prefix = FullPrefix::new(prefix, sub).ok().expect(rt, "a prefix");
    let own = own.to_vec(alloc).expect(rt, "memory");
    MetaKey::new(prefix, own).ok().expect(rt, "a key")
}

/// Returns what is left of a node that held nothing and kept one key: an entry that sent nothing,
/// and no object.
fn kept(rt: &impl Abort, alloc: Global, own: &[u8]) -> Closed {
    let base = NodeState::new(alloc, NodeId::new(0).unwrap(), 1).expect(rt, "memory");
    let entry = Entry {
        event: NodeEvent::Keep {
            key: key(rt, alloc, own),
        },
        reply: Reply::Done,
        outbox: Outbox::new(Vec::new(alloc)),
    };
    let mut journal = Vec::new(alloc);
    journal.push(entry).ok().expect(rt, "memory");
    Closed::from_parts(base, journal, Store::new(alloc))
}

/// Returns the world of that node alone.
fn world_of_kept(rt: &impl Abort, alloc: Global, own: &[u8]) -> World
    ensures { IsOfARun 1 result }
{
    let closed = [kept(rt, alloc, own)];
    if !are_whole(&closed) {
        panic!(rt; "a whole life");
    }
    let world = assemble(alloc, &closed, &[]);
    world.ok().expect(rt, "a run of the world")
}

const ONE: ClusterPlan = ClusterPlan {
    nodes: 1,
    turns: 1,
    seed: 0,
    workload: Workload::Fixed,
};

/// The recording of the keeping of one key.
const KEPT: &[u8] = b"\
# what the threads of 'plumctl live 1 1 0' did, call by call; at last the root of each node
nodes 1
keep 0 a/b/k
root 0
";

#[test]
fn a_keeping_of_one_key_is_recorded(rt: HostRuntime) {
    let alloc = rt.alloc();
    let world = world_of_kept(&rt, alloc, b"k");
    let text = recording_of(alloc, ONE, &world).expect(&rt, "memory");
    drop(world);
    assert!(rt; text.is_some_and(|text| text.as_slice() == KEPT));
}

#[test]
fn a_run_without_a_spelling_has_no_recording(rt: HostRuntime) {
    let (alloc, plan) = (rt.alloc(), ONE);
    let world = world_of_kept(&rt, alloc, b"k k");
    let text = recording_of(alloc, plan, &world).expect(&rt, "memory");
    let mut target = MemoryDevice::new(alloc, Vec::new(alloc)).expect(&rt, "memory");
    let mut errors = Vec::new(alloc);
    let status = write_recording(alloc, plan, &world, "run", &mut target, &mut errors);
    let told = b"error: the run has no text\n";
    let is_told = errors.as_slice() == told.as_slice();
    let is_refused = text.is_none() && status == 1 && target.content().is_empty();
    drop(errors);
    drop(target);
    drop(text);
    drop(world);
    assert!(&rt; is_refused && is_told);
}

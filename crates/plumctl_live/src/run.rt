//! The command `live`.

ghost use Rattle.std.specs.Prelude.{◌≡◌, ◌≢◌, All, IfOk, length};
ghost use Rattle.devices.specs.Device.{IsDurable};
ghost use Rattle.run_record.specs.Record.{IsOfARun};
ghost use Rattle.plumctl_live.specs.Live.{EndsLive, IsJudgedAndTold, IsNewRun, IsRunOn, MaySayWhy, Judges, TellsStop, counts_of, status_of_verdict, told_after, told_of_fault, words_or_line};

use crate::counts::Counts;
use crate::judged::{LiveFault, judge};
use crate::text::text_of;
use crate::why::why_of;
use cluster::{
    ClusterFault, ClusterPlan, ClusterRun, Limits, TurnHook, run_cluster, run_cluster_on,
};
use devices::Device;
use plumctl_core::{status_of_fault, tell};
use plumctl_file::print;
use std::alloc::Global;
use std::sync::Wait;
use std::thread::Threads;
use streams::{Sink, StreamFault, write_whole};
use world_core::World;

/// What became of a run of a cluster.
#[derive(Drop)]
pub struct LiveRun {
    /// The exit status: 0 if the run is one of the world; 1 if it isn't, or there is no run;
    /// 3 if a device failed before there was one, or the writer failed; 4 if memory was
    /// refused. Where several apply, the greatest of them.
    pub status: u8,
    /// The counts of the run, if there is one.
    pub counts: Option<Counts>,
    /// The run of the world that the run is, or why there is none.
    pub judged: Result<World, LiveFault>,
}

/// Printed at standard error if a journal isn't whole.
const NOT_WHOLE: &str = "error: a journal isn't whole, so nobody can say whether this is a run\n";

/// Printed at standard error if nodes stopped.
const STOPPED: &str = "note: a device failed, and its node made no more turns\n";

/// Returns the exit status of what was judged.
fn status_of_verdict(judged: &Result<World, LiveFault>) -> u8
    ensures { result ≡ status_of_verdict judged.now }
{
    match judged {
        Ok(_) => 0,
        Err(fault) => match fault.code() {
            Some(99) => 4,
            Some(30) => 3,
            _ => 1,
        },
    }
}

/// Returns what is printed at standard error for a fault of a run.
fn told_of_fault(fault: &LiveFault) -> &'static str
    ensures { result.now ≡ told_of_fault fault.now }
{
    match fault.code() {
        Some(99) => "error 99 Memory\n",
        Some(_) => "",
        None => NOT_WHOLE,
    }
}

/// Returns what is printed at standard error about what became of a run.
fn told_after(counts: Option<Counts>, judged: &Result<World, LiveFault>) -> &'static str
    ensures { result.now ≡ told_after counts judged.now }
{
    match judged {
        Ok(_) => match counts {
            Some(Counts { stopped: 1.., .. }) => STOPPED,
            _ => "",
        },
        Err(fault) => told_of_fault(fault),
    }
}

/// Returns the words, if there are any, and otherwise the line.
fn words_or_line<'a>(words: &'a [u8], told: &'a [u8]) -> &'a [u8]
    ensures { result.now ≡ words_or_line words.now told.now }
{
    if words.is_empty() { told } else { words }
}

/// Prints at standard error that the writer failed; if a fault of the run has a line there,
/// prints that line instead.
fn tell_stop<E: Sink>(judged: &Result<World, LiveFault>, fault: StreamFault, errors: &mut E)
    ensures { TellsStop judged.now fault (E.at errors.old) (E.at errors.new) }
{
    let told = match judged {
        Ok(_) => "",
        Err(fault) => told_of_fault(fault),
    };
    if told.is_empty() {
        let _ = tell(errors, fault);
    } else {
        let _ = write_whole(errors, told.as_bytes());
    }
}

/// Prints what became of a run of this plan, and `words` at standard error, if there are any.
/// Returns the exit status.
fn report<W: Sink, E: Sink>(
    alloc: Global,
    plan: ClusterPlan,
    counts: Option<Counts>,
    judged: &Result<World, LiveFault>,
    words: &[u8],
    writer: &mut W,
    errors: &mut E,
) -> u8
    ensures not_usage { result ≢ 2 }
    ensures ends { EndsLive plan counts judged.now words.now
        (record { writer = W.at writer.old; errors = E.at errors.old })
        (record { writer = W.at writer.new; errors = E.at errors.new }) result }
{
    let Ok(text) = text_of(alloc, plan, counts, judged) else {
        return tell(errors, StreamFault::Memory);
    };
    match print(writer, text.as_slice()) {
        Ok(()) => {
            let told = told_after(counts, judged).as_bytes();
            let _ = write_whole(errors, words_or_line(words, told));
            status_of_verdict(judged)
        }
        Err(fault) => {
            tell_stop(judged, fault, errors);
            status_of_verdict(judged).max(status_of_fault(fault))
        }
    }
}

/// What a run came to.
#[derive(Drop)]
struct Verdict {
    counts: Option<Counts>,
    judged: Result<World, LiveFault>,
    /// Why it is no run of the world, if there are words for that.
    why: Vec<u8>,
}

/// Judges what became of a run, and counts it.
fn judge_run(alloc: Global, run: Result<ClusterRun, ClusterFault>) -> Verdict
    ensures counts { result.counts ≡ counts_of run }
    ensures judges { Judges run result.judged }
    ensures why { MaySayWhy result.judged result.why.items }
{
    match run {
        Ok(run) => {
            let judged = judge(alloc, &run);
            Verdict {
                counts: Some(Counts::of(&run)),
                why: why_of(alloc, &run, &judged),
                judged,
            }
        }
        Err(fault) => Verdict {
            counts: None,
            judged: Err(LiveFault::Cluster(fault)),
            why: Vec::new(alloc),
        },
    }
}

/// Judges what became of a run of this plan, and prints it: a line of nodes and turns; if there
/// is a run, one of calls and lost frames; and then `assembled`, or `fault` with the number and the
/// name of the refusal.
///
/// Prints at standard error, after that, where and why the run is none of the world, if it was
/// refused with 60 to 63; that memory ran out; that a journal isn't whole; or, if the run is one of
/// the world, that a node stopped. Where the writer fails, its fault is printed there unless memory
/// ran out or a journal isn't whole; the words and the note aren't printed then. It takes memory for
/// the world, and for the words, which are left out if there is none.
pub fn tell_run<W: Sink, E: Sink>(
    alloc: Global,
    plan: ClusterPlan,
    run: Result<ClusterRun, ClusterFault>,
    writer: &mut W,
    errors: &mut E,
) -> LiveRun
    requires { IfOk run (λ run. length run.closed.items ≡ plan.nodes) }
    ensures not_usage { result.status ≢ 2 }
    ensures live { IsJudgedAndTold (λ it. it ≡ run) plan
        (record { writer = W.at writer.old; errors = E.at errors.old })
        (record { writer = W.at writer.new; errors = E.at errors.new }) result }
    ensures world { IfOk result.judged (IsOfARun plan.nodes) }
{
    let Verdict {
        counts,
        judged,
        why,
    } = judge_run(alloc, run);
    let status = report(alloc, plan, counts, &judged, why.as_slice(), writer, errors);
    drop(why);
    LiveRun {
        status,
        counts,
        judged,
    }
}

/// Runs a cluster on new devices in memory, and reports what became of it as [`tell_run`] does.
pub fn run_live<R: Threads + Wait + Sync, G: TurnHook + Sync, W: Sink, E: Sink>(
    rt: &R,
    alloc: Global,
    plan: ClusterPlan,
    gate: &G,
    writer: &mut W,
    errors: &mut E,
) -> LiveRun
    ensures not_usage { result.status ≢ 2 }
    ensures live { IsJudgedAndTold (IsNewRun plan) plan
        (record { writer = W.at writer.old; errors = E.at errors.old })
        (record { writer = W.at writer.new; errors = E.at errors.new }) result }
    ensures world { IfOk result.judged (IsOfARun plan.nodes) }
{
    let run = run_cluster(rt, alloc, plan, gate);
    tell_run(alloc, plan, run, writer, errors)
}

/// Runs a cluster on these devices, the device of node 0 first, with the greatest limits, and
/// reports what became of it as [`tell_run`] does. A device that isn't new is in a later life,
/// whose run isn't judged.
pub fn run_live_on<
    D: Device + Drop + Send,
    R: Threads + Wait + Sync,
    G: TurnHook + Sync,
    W: Sink,
    E: Sink,
>(
    rt: &R,
    alloc: Global,
    plan: ClusterPlan,
    devices: Vec<D>,
    gate: &G,
    writer: &mut W,
    errors: &mut E,
) -> LiveRun
    requires { All (λ d. IsDurable (D.content d) (D.may_leave d)) devices.items }
    ensures not_usage { result.status ≢ 2 }
    ensures live { IsJudgedAndTold (IsRunOn D.content D.failed plan devices.items) plan
        (record { writer = W.at writer.old; errors = E.at errors.old })
        (record { writer = W.at writer.new; errors = E.at errors.new }) result }
    ensures world { IfOk result.judged (IsOfARun plan.nodes) }
{
    let run = run_cluster_on(rt, alloc, plan, Limits::largest(), devices, gate);
    tell_run(alloc, plan, run, writer, errors)
}

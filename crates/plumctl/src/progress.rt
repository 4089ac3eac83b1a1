//! Reports at a terminal that work takes time.

use cluster::{ClusterPlan, TurnHook};
use meta_types::NodeId;
use plumctl_core::Progress;
use plumctl_live::Counts;
use std::io::IsTerminal;
use std::sync::Wait;
use std::sync::atomic::{AtomicBool, AtomicU64, Ordering};
use std::thread::{self, Parker, Threads};
use std::time::{Duration, Instant};

/// How many turns the nodes of a cluster have made, and how many they make in all. Once the run is
/// over, also its counts.
#[derive(Drop)]
pub struct Turns {
    made: AtomicU64,
    all: u64,
    calls: AtomicU64,
    lost: AtomicU64,
}

impl Turns {
    /// Makes the record of a run whose nodes have made no turn.
    pub fn new(plan: ClusterPlan) -> Turns {
        Turns {
            made: AtomicU64::new(0),
            all: plan.nodes.saturating_mul(plan.turns),
            calls: AtomicU64::new(0),
            lost: AtomicU64::new(0),
        }
    }

    /// Notes the counts of the run.
    pub fn count(&self, counts: Counts) {
        self.calls.store(counts.calls, Ordering::Relaxed);
        self.lost.store(counts.lost, Ordering::Relaxed);
    }

    /// Returns whether all turns were made.
    fn are_made(&self) -> bool {
        self.made.load(Ordering::Relaxed) >= self.all
    }
}

impl TurnHook for Turns {
    fn before(&self, _node: NodeId, _turn: u64) {}

    fn after(&self, _node: NodeId, _turn: u64) {
        let _ = self.made.fetch_add(1, Ordering::Relaxed);
    }
}

/// Which line of a scenario is at work, and how many lines it has; 0 of 0 while it is read.
#[derive(Drop)]
pub struct Place {
    line: AtomicU64,
    lines: AtomicU64,
}

impl Place {
    /// Makes the record of a scenario that wasn't read.
    pub fn new() -> Place {
        Place {
            line: AtomicU64::new(0),
            lines: AtomicU64::new(0),
        }
    }
}

impl Progress for Place {
    fn begin(&self, lines: u64) {
        self.lines.store(lines, Ordering::Relaxed);
    }

    fn reach(&self, line: u64) {
        self.line.store(line, Ordering::Relaxed);
    }
}

/// What is known of how far work is.
#[derive(Clone, Copy)]
pub enum Known<'a> {
    Nothing,
    /// Of a scenario.
    Lines(&'a Place),
    /// Of a cluster.
    Turns(&'a Turns),
}

/// Does the work. If standard error is a terminal, prints there that it is at work and what is
/// known of how far it is, after a second, and again after 2, 4, 8 seconds and so on. For a
/// cluster, if that was printed, it prints at last how many calls it made in a second.
pub fn told<R: Threads + Wait + Sync, T: Send, F: FnOnce() -> T + Send>(
    rt: &HostRuntime,
    handle: &R,
    known: Known<'_>,
    work: F,
) -> T
    requires { F.IsAlwaysCallable work }
{
    if !rt.stderr().is_terminal() {
        return work();
    }
    let over = AtomicBool::new(false);
    let parker = Parker::new();
    let (result, ()) = thread::join(
        handle,
        || {
            let result = work();
            over.store(true, Ordering::SeqCst);
            parker.unpark();
            result
        },
        || tell(rt, handle, known, &over, &parker),
    );
    result
}

/// Prints how many seconds it has been, until the work is over. Then, if that was printed, prints
/// for a cluster how many calls it made in a second, by the time in which its turns were made.
fn tell<R: Wait>(
    rt: &HostRuntime,
    handle: &R,
    known: Known<'_>,
    over: &AtomicBool,
    parker: &Parker,
) {
    let Ok(start) = Instant::now(rt) else {
        return;
    };
    let mut next = 1;
    let mut made = None;
    for _ in handle.forever() {
        parker.park_timeout(handle, Duration::from_millis(100));
        let time = start.elapsed(rt).unwrap_or(Duration::ZERO);
        if made.is_none() && known.are_turns_made() {
            made = Some(time);
        }
        if over.load(Ordering::SeqCst) {
            if let (Known::Turns(turns), Some(made), 2..) = (known, made, next) {
                tell_last(rt, turns, made);
            }
            return;
        }
        let seconds = time.as_secs();
        if seconds >= next {
            tell_once(rt, seconds, known);
            next = seconds.saturating_mul(2);
        }
    }
}

impl<'a> Known<'a> {
    /// Returns whether it is known that all turns of a cluster were made.
    fn are_turns_made(self) -> bool {
        match self {
            Known::Turns(turns) => turns.are_made(),
            Known::Nothing | Known::Lines(_) => false,
        }
    }
}

/// Prints the counts of a run whose turns took this time, and how many calls it made in a second.
fn tell_last(rt: &HostRuntime, turns: &Turns, time: Duration) {
    let calls = turns.calls.load(Ordering::Relaxed);
    let lost = turns.lost.load(Ordering::Relaxed);
    let milliseconds = u64::try_from(time.as_millis()).unwrap_or(u64::MAX);
    let rate = calls.saturating_mul(1000) / milliseconds.max(1);
    let _ = eprintln!(rt; "{calls} calls, {lost} frames lost, {rate} calls a second");
}

/// Prints once that the work goes on, and how far it is.
fn tell_once(rt: &HostRuntime, seconds: u64, known: Known<'_>) {
    match known {
        Known::Nothing => {
            let _ = eprintln!(rt; "at work: {seconds} s");
        }
        Known::Lines(place) => tell_place(rt, seconds, place),
        Known::Turns(turns) => tell_turns(rt, seconds, turns),
    }
}

/// Prints which line of a scenario is at work, of how many. Before its first command it prints only
/// that the work goes on.
fn tell_place(rt: &HostRuntime, seconds: u64, place: &Place) {
    let line = place.line.load(Ordering::Relaxed);
    let lines = place.lines.load(Ordering::Relaxed);
    let _ = match line {
        0 => eprintln!(rt; "at work: {seconds} s"),
        line => eprintln!(rt; "at work: {seconds} s, line {line} of {lines}"),
    };
}

/// Prints how many turns of a cluster were made, each of which is a call, and how many in a second.
/// Once all were made, prints that they are judged.
fn tell_turns(rt: &HostRuntime, seconds: u64, turns: &Turns) {
    let all = turns.all;
    let made = turns.made.load(Ordering::Relaxed);
    let _ = if made < all {
        let rate = made / seconds.max(1);
        eprintln!(rt; "at work: {seconds} s, {made} of {all} turns, {rate} a second")
    } else {
        eprintln!(rt; "at work: {seconds} s, all {all} turns made, and being judged")
    };
}

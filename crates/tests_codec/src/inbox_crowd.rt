//! Many senders, each in a thread of its own, and one that takes. What is counted doesn't depend on
//! which thread comes first.

ghost use Rattle.std.specs.Prelude.{◌≡◌};
ghost use Rattle.inbox.specs.Opening.{IsFresh};
ghost use Rattle.tests_codec.specs.Passes.{AreOf};

use crate::inbox_parts::{put, take};
use inbox::{Fresh, Inbox, PutPass, TakePass};
use std::alloc::Global;
use std::process::Abort;
use std::sync::Wait;
use std::thread::{self, Threads};

/// How many frames each sender puts.
const EACH: u32 = 10_000;

/// Puts the frame, once there is room for it.
fn put_at_last<R: Wait + Abort>(
    rt: &R,
    alloc: Global,
    inbox: &Inbox,
    pass: &mut PutPass,
    number: u32,
) -> u16
    requires { pass.old.line ≡ inbox.now.line }
    ensures { pass.new.line ≡ inbox.now.line }
{
    for _ in rt.forever() {
        let code = put(rt, alloc, inbox, pass, number);
        if code != 50 {
            return code;
        }
        thread::yield_now();
    }
    unreachable!()
}

/// Puts the frames 0, 1 and so on, and gives the pass back.
fn put_each<R: Wait + Abort>(rt: &R, alloc: Global, inbox: &Inbox, pass: PutPass) -> PutPass
    requires { pass.line ≡ inbox.now.line }
    ensures { result.line ≡ inbox.now.line }
{
    let mut pass = pass;
    for number in 0..EACH {
        let code = put_at_last(rt, alloc, inbox, &mut pass, number);
        assert!(rt; code == 0);
    }
    pass
}

/// Takes all that four senders put. Returns whether each frame came once, and in the order of its
/// sender.
fn take_each<R: Wait>(rt: &R, inbox: &Inbox, pass: TakePass) -> (bool, TakePass)
    requires { pass.line ≡ inbox.now.line }
    ensures { result.1.line ≡ inbox.now.line }
{
    let mut pass = pass;
    let mut next = [0u32; 4];
    for _ in rt.forever() {
        match take(rt, inbox, &mut pass) {
            Some((from, number)) => {
                if from >= 4 || next[from as usize] != number {
                    return (false, pass);
                }
                next[from as usize] = number.saturating_add(1);
            }
            None => thread::yield_now(),
        }
        if next == [EACH; 4] {
            return (true, pass);
        }
    }
    unreachable!()
}

/// Lets each sender put in a thread of its own.
fn put_all<R: Threads + Wait + Abort + Sync>(
    rt: &R,
    alloc: Global,
    inbox: &Inbox,
    puts: Vec<PutPass>,
) -> Vec<PutPass>
    requires { AreOf inbox.now.line puts.items }
    ensures { AreOf inbox.now.line result.items }
{
    let passes = thread::map_vec(
        rt,
        puts,
        &|pass: PutPass|
            requires { pass.line ≡ inbox.now.line }
            ensures { result.line ≡ inbox.entry.now.line }
        { put_each(rt, alloc, inbox, pass) },
    );
    passes.expect(rt, "memory")
}

fn new_for_four(rt: &impl Abort, alloc: Global) -> Fresh
    ensures { IsFresh 4 1024 result }
{
    Inbox::new(alloc, 4).ok().expect(rt, "an inbox")
}

/// Returns an inbox for four senders, with its passes.
fn for_four(rt: &impl Abort, alloc: Global) -> (Inbox, Vec<PutPass>, TakePass)
    ensures puts { AreOf result.0.line result.1.items }
    ensures takes { result.2.line ≡ result.0.line }
{
    let Fresh { inbox, puts, takes } = new_for_four(rt, alloc);
    (inbox, puts, takes)
}

fn hand_back_all(inbox: &Inbox, passes: Vec<PutPass>, takes: &mut TakePass)
    requires passes { AreOf inbox.now.line passes.items }
    requires takes { takes.old.line ≡ inbox.now.line }
    ensures { takes.new.line ≡ inbox.now.line }
{
    for pass in passes {
        inbox.hand_back(pass, takes);
    }
}

/// Lets four senders put side by side while one takes. Returns whether all came, in order, and
/// nothing is left.
fn cross<R: Threads + Wait + Abort + Sync>(rt: &R, alloc: Global) -> bool {
    let (inbox, puts, takes) = for_four(rt, alloc);
    let shared = &inbox;
    let ((came, mut takes), passes) = thread::join(
        rt,
        move ||
            requires { takes.line ≡ shared.now.line }
            ensures { result.1.line ≡ shared.entry.now.line }
        { take_each(rt, shared, takes) },
        move ||
            requires { AreOf shared.now.line puts.items }
            ensures { AreOf shared.entry.now.line result.items }
        { put_all(rt, alloc, shared, puts) },
    );
    hand_back_all(&inbox, passes, &mut takes);
    came && take(rt, &inbox, &mut takes) == None
}

#[test]
fn four_senders_put_while_one_takes(rt: HostRuntime) {
    assert!(rt; cross(&rt, rt.alloc()));
}

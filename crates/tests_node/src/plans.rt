//! What a plan of two members says, tick after tick, of a node without neighbours. Nobody answers:
//! each is given up, and again once a join through it was begun.

use driver::{Pace, Plan, Task};
use meta_types::NodeId;
use std::alloc::{AllocError, Global};

/// A task: when it is next, its first letter (an exchange's is X), and the number of its member.
struct Row(u64, u8, u16);

static WANTED: [Row; 18] = [
    Row(0, b'T', 0),
    Row(0, b'H', 1),
    Row(0, b'J', 1),
    Row(0, b'X', 1),
    Row(1_000, b'T', 0),
    Row(1_000, b'H', 2),
    Row(1_000, b'J', 2),
    Row(1_000, b'X', 2),
    Row(1_500, b'P', 1),
    Row(1_500, b'P', 2),
    Row(2_000, b'T', 0),
    Row(2_000, b'J', 1),
    Row(2_000, b'X', 1),
    Row(3_000, b'T', 0),
    Row(3_000, b'J', 2),
    Row(3_000, b'X', 2),
    Row(3_500, b'P', 1),
    Row(4_000, b'T', 0),
];

fn is_of(task: &Task, letter: u8, number: u16) -> bool {
    match task {
        Task::Tick => letter == b'T' && number == 0,
        Task::Hello(node) => letter == b'H' && number == node.number(),
        Task::Join(node) => letter == b'J' && number == node.number(),
        Task::BeginExchange(node) => letter == b'X' && number == node.number(),
        Task::PeerDown(node) => letter == b'P' && number == node.number(),
    }
}

/// Returns whether the next task is that of the row. It is done then.
fn is_next(plan: &mut Plan, row: &Row) -> bool {
    match plan.next(row.0, 0) {
        Some(task) => {
            plan.done(row.0, &task);
            is_of(&task, row.1, row.2)
        }
        None => false,
    }
}

/// Returns whether the tasks are those of the rows.
fn is_as_wanted(plan: &mut Plan) -> bool {
    for row in WANTED.iter() {
        if !is_next(plan, row) {
            return false;
        }
    }
    true
}

fn add(plan: &mut Plan, number: u16) -> Result<(), AllocError> {
    match NodeId::new(number) {
        Ok(node) => plan.add(0, node),
        Err(_) => Err(AllocError),
    }
}

fn played(alloc: Global) -> Result<bool, AllocError> {
    let pace = Pace {
        tick: 1_000,
        quiet: 1_500,
    };
    let mut plan = Plan::new(alloc, pace, 0);
    add(&mut plan, 1)?;
    add(&mut plan, 2)?;
    let is_as_wanted = is_as_wanted(&mut plan);
    drop(plan);
    Ok(is_as_wanted)
}

#[test]
fn a_plan_goes_round_under_refused_memory(rt: HostRuntime) {
    let played = played(rt.alloc()).or_else(|_| played(rt.alloc()));
    assert!(rt; played == Ok(true));
}

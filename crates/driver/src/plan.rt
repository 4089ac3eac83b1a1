//! What is due, what is owed, and to whom.

ghost use Rattle.std.specs.Prelude.{◌≡◌, ◌≤◌, ◌↔◌, ◌++◌, ◌∷◌, [], ℕ, IsSome, IsTrue, OnOk, OnErr, slice_get, length, false, true};
ghost use Rattle.driver.specs.Plan.{after, are_few, down_task, has_member, heard_from, is_given_up, is_owed, join_task, new_plan, next_place, soonest, still_owed, task_of, with_member, without_member};

use crate::member::{Member, MemberChange, change_each, take_out};
use crate::task::Task;
use meta_types::NodeId;
use std::alloc::{AllocError, Global};
use std::marker::Model;

/// How often a driver does what, in milliseconds.
#[derive(Clone, Copy, Debug, PartialEq, Eq)]
pub struct Pace {
    /// From one tick to the next: at least 1, or ticks never end.
    pub tick: u64,
    /// How long a member may send nothing until it counts as down: longer than a round of
    /// exchanges, which is a tick for each member.
    pub quiet: u64,
}

/// With how many neighbours a node joins no more.
const ENOUGH: usize = 3;

/// What a driver of a node does next, in one life of the node. It ticks at its pace; after each
/// tick it begins one exchange, with one member after the other, and while the node has too few
/// neighbours, one join, through one member after the other.
#[derive(Drop)]
pub struct Plan {
    pace: Pace,
    members: Vec<Member>,
    /// The place of the member through which the next join is.
    contact: usize,
    /// The place of the member with which the next exchange is.
    partner: usize,
    /// When the next tick is due.
    due: u64,
    owes_join: bool,
    owes_exchange: bool,
}

impl Model for Plan {
    ghost use Rattle.std.specs.Prelude.{◌≡◌, ◌<◌, length, true};
    ghost use Rattle.driver.specs.Plan.{IsPlaceIn, PlanParts};

    ghost Value = { PlanParts };

    ghost view = { λ p. record {
      pace = p.pace;
      members = p.members.items;
      contact = p.contact;
      partner = p.partner;
      due = p.due;
      owes_join = p.owes_join;
      owes_exchange = p.owes_exchange;
    } };

    ghost invariant = { λ p. IsPlaceIn p.members.items p.contact
        × IsPlaceIn p.members.items p.partner
        × (p.owes_exchange ≡ true → 0 < length p.members.items) };
}

/// Returns whether a node with this many neighbours has too few.
fn are_few(neighbours: usize, members: &[Member]) -> bool
    ensures { result ≡ are_few neighbours members.now }
{
    neighbours < ENOUGH.min(members.len())
}

/// Returns the next one of so many places; after the last one the first.
fn next_place(count: usize, at: usize) -> usize
    ensures { result ≡ next_place count at }
{
    match at.checked_add(1) {
        Some(next) if next < count => next,
        _ => 0,
    }
}

/// Returns whether the node is a member.
fn has_member(node: NodeId, members: &[Member]) -> bool
    ensures { result ≡ has_member node members.now }
{
    members.iter().any(|member| member.node == node)
}

/// Returns whether something is owed to one of these members.
fn still_owed(owed: bool, members: &[Member]) -> bool
    ensures { result ≡ still_owed owed members.now }
{
    owed && !members.is_empty()
}

/// Returns what is next for a join: a hello comes first.
fn join_task(member: Option<Member>) -> Option<Task>
    ensures { result ≡ join_task member }
{
    let member = member?;
    if member.is_greeted {
        Some(Task::Join(member.node))
    } else {
        Some(Task::Hello(member.node))
    }
}

/// Returns that the first member is down which has been silent for so long.
fn down_task(quiet: u64, now: u64, members: &[Member]) -> Option<Task>
    ensures { result ≡ down_task quiet now members.now }
{
    for member in members {
        if member.is_silent(quiet, now) {
            return Some(Task::PeerDown(member.node));
        }
    }
    None
}

/// Returns from when on one of the members is silent, if that is sooner.
fn soonest(quiet: u64, first: u64, members: &[Member]) -> u64
    ensures { result ≡ soonest quiet first members.now }
{
    let mut soonest = first;
    for member in members {
        soonest = member.sooner(quiet, soonest);
    }
    soonest
}

impl Plan {
    /// Makes a plan without members, whose first tick is due now.
    pub fn new(alloc: Global, pace: Pace, now: u64) -> Self
        ensures { result ≡ new_plan pace now }
    {
        Plan {
            pace,
            members: Vec::new(alloc),
            contact: 0,
            partner: 0,
            due: now,
            owes_join: false,
            owes_exchange: false,
        }
    }

    /// Returns the members.
    pub fn members(&self) -> &[Member]
        ensures { result.now ≡ self.now.members }
    {
        self.members.as_slice()
    }

    /// Adds a node, which counts as heard of now, unless it is a member already. Fails only when
    /// memory runs out.
    pub fn add(&mut self, now: u64, node: NodeId) -> Result<(), AllocError>
        ensures added { OnOk result (self.new ≡ with_member now node self.old) }
        ensures same { OnErr result (self.new ≡ self.old) }
    {
        if has_member(node, self.members.as_slice()) {
            return Ok(());
        }
        self.members.push(Member {
            node,
            heard: now,
            is_greeted: false,
            is_down: false,
        })?;
        Ok(())
    }

    /// Removes a node, if it is a member. Joins and exchanges then begin anew with the first
    /// member: who removes members again and again leaves the last ones out.
    pub fn remove(&mut self, node: NodeId)
        ensures { self.new ≡ without_member node self.old }
    {
        if !has_member(node, self.members.as_slice()) {
            return;
        }
        take_out(&mut self.members, node);
        self.contact = 0;
        self.partner = 0;
        self.owes_exchange = still_owed(self.owes_exchange, self.members.as_slice());
    }

    /// Returns what is to be done next, of a node with this many neighbours; nothing, if nothing is
    /// due or owed.
    pub fn next(&self, now: u64, neighbours: usize) -> Option<Task>
        ensures { result ≡ task_of now neighbours self.now }
    {
        if self.owes_join && are_few(neighbours, self.members.as_slice()) {
            return join_task(self.members.get(self.contact).copied());
        }
        if self.owes_exchange {
            let partner = self.members.get(self.partner)?;
            return Some(Task::BeginExchange(partner.node));
        }
        if self.due <= now {
            return Some(Task::Tick);
        }
        down_task(self.pace.quiet, now, self.members.as_slice())
    }

    /// Returns from when on something is to be done next, of a node with this many neighbours, if
    /// nothing happens before.
    pub fn wake(&self, neighbours: usize) -> u64
        ensures { (now : ℕ) → IsSome (task_of now neighbours self.now) ↔ (result ≤ now) }
    {
        let _contact = self.contact; // (for its type)
        if self.is_owed(neighbours) {
            return 0;
        }
        soonest(self.pace.quiet, self.due, self.members.as_slice())
    }

    /// Returns whether something is owed for the last tick.
    fn is_owed(&self, neighbours: usize) -> bool
        ensures { result ≡ is_owed neighbours self.now }
    {
        (self.owes_join && are_few(neighbours, self.members.as_slice())) || self.owes_exchange
    }

    /// Returns whether the node is a member that was given up, and since then no frame came from
    /// it, and it wasn't tried again.
    pub fn is_given_up(&self, node: NodeId) -> bool
        ensures { result ≡ is_given_up node self.now.members }
    {
        self.members
            .iter()
            .any(|member| member.node == node && member.is_down)
    }

    /// Marks the task as done.
    pub fn done(&mut self, now: u64, task: &Task)
        ensures { self.new ≡ after now task.now self.old }
    {
        match task {
            Task::Tick => {
                self.due = now.saturating_add(self.pace.tick);
                self.owes_join = true;
                self.owes_exchange = !self.members.is_empty();
            }
            Task::Hello(node) => change_each(&mut self.members, *node, MemberChange::Greeted),
            Task::Join(node) => {
                self.owes_join = false;
                self.contact = next_place(self.members.len(), self.contact);
                // It is a neighbour now: if it is down, the node has to be told so once more.
                change_each(&mut self.members, *node, MemberChange::Tried(now));
            }
            Task::BeginExchange(_) => {
                self.owes_exchange = false;
                self.partner = next_place(self.members.len(), self.partner);
            }
            Task::PeerDown(node) => change_each(&mut self.members, *node, MemberChange::GivenUp),
        }
    }

    /// Notes that a frame came from a node.
    pub fn heard(&mut self, now: u64, node: NodeId)
        ensures { self.new ≡ heard_from now node self.old }
    {
        change_each(&mut self.members, node, MemberChange::Heard(now));
    }
}

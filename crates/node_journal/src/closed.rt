//! A node that was closed.

ghost use Rattle.std.specs.Prelude.{◌≡◌, ◌<◌, ◌+◌, ◌↔◌, [], drop, nat_eq, length, map, All, IsTrue};
ghost use Rattle.std.specs.List.{IsDistinct, list_any};
ghost use Rattle.node_core.specs.Node.{opening};
ghost use Rattle.node_journal.specs.Closed.{AreWhole, IsWhole, NamesBelow, number_of};

use crate::entry::Entry;
use meta_store::Store;
use meta_types::NodeId;
use node_core::NodeState;
use node_events::NodeEvent;
use std::marker::Model;

/// What is left of a node that was closed: the state from which its journal began, the journal, and
/// what the node held at the end.
#[derive(Drop)]
pub struct Closed {
    base: NodeState,
    journal: Vec<Entry>,
    table: Store,
}

impl Model for Closed {
    ghost use Rattle.node_journal.specs.Closed.{ClosedNode};

    ghost Value = { ClosedNode };

    ghost view = { λ c. record { base = c.base; journal = c.journal.items; table = c.table } };
}

impl Closed {
    /// Makes a closed node of this base, journal and table. Nothing is required of them: a journal
    /// that was made up is found out when it is assembled with others.
    pub fn from_parts(base: NodeState, journal: Vec<Entry>, table: Store) -> Self
        ensures { result ≡ record { base = base; journal = journal.items; table = table } }
    {
        Closed {
            base,
            journal,
            table,
        }
    }

    pub fn node(&self) -> NodeId
        ensures { result ≡ number_of self.now }
    {
        self.base.node()
    }

    /// Returns the state from which the journal began.
    pub fn base(&self) -> &NodeState
        ensures { result.now ≡ self.now.base }
    {
        &self.base
    }

    /// Returns the entries, the oldest first.
    pub fn journal(&self) -> &[Entry]
        ensures { result.now ≡ self.now.journal }
    {
        self.journal.as_slice()
    }

    /// Returns what the node held at the end.
    pub fn table(&self) -> &Store
        ensures { result.now ≡ self.now.table }
    {
        &self.table
    }

    /// Returns whether this is a whole first life among `count` nodes: it began as a new node, and
    /// each contact and peer that an event of it names is one of the nodes 0 to `count` - 1.
    pub fn is_whole(&self, count: usize) -> bool
        ensures { IsTrue result ↔ IsWhole count self.now }
    {
        is_new(&self.base) && names_within(count, self.journal.as_slice())
    }
}

/// Returns whether this is a node at the beginning of its first life, which holds nothing.
fn is_new(state: &NodeState) -> bool
    ensures { IsTrue result ↔ (state.now ≡ opening state.now.node 1 []) }
{
    state.incarnation() == 1 && state.store().is_empty() && state.is_opening()
}

/// Returns whether the other node that the event names, if it names one, is below `count`.
fn names_below(count: usize, event: &NodeEvent) -> bool
    ensures { IsTrue result ↔ NamesBelow count event.now }
{
    match event.other() {
        Some(node) => usize::from(node.number()) < count,
        None => true,
    }
}

/// Returns whether each other node that events of the journal name is below `count`.
fn names_within(count: usize, journal: &[Entry]) -> bool
    ensures { IsTrue result ↔ All (λ e. NamesBelow count e.event) journal.now }
{
    journal.iter().all(|entry| names_below(count, &entry.event))
}

/// Returns whether one of the others is of the same node.
fn has_twin(one: &Closed, others: &[Closed]) -> bool
    ensures { result ≡ list_any (λ c. nat_eq (number_of one.now) (number_of c)) others.now }
{
    let node = one.node();
    others.iter().any(|other| node == other.node())
}

/// Returns the items after this place. It is a function so that a proof can name what it returns.
fn behind(closed: &[Closed], place: usize) -> &[Closed]
    requires { place < length closed.now }
    ensures { result.now ≡ drop (place + 1) closed.now }
{
    &closed[place + 1..]
}

/// Returns whether no two are of one node.
fn are_distinct(closed: &[Closed]) -> bool
    ensures { IsTrue result ↔ IsDistinct nat_eq (map number_of closed.now) }
{
    for place in 0..closed.len() {
        if has_twin(&closed[place], behind(closed, place)) {
            return false;
        }
    }
    true
}

/// Returns whether these are the nodes 0, 1 and so on, in any order, each once and with its whole
/// first life among them: what is asked of those that are to be assembled. It takes no memory.
pub fn are_whole(closed: &[Closed]) -> bool
    ensures { IsTrue result ↔ AreWhole closed.now }
{
    !closed.is_empty()
        && closed
            .iter()
            .all(|one| usize::from(one.node().number()) < closed.len())
        && are_distinct(closed)
        && closed.iter().all(|one| one.is_whole(closed.len()))
}

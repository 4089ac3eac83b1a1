//! Whose entry can come next.

ghost use Rattle.std.specs.Prelude.{◌≡◌, ◌<◌, ℕ, length, slice_index, IfOk, IfSome, IsNone};
ghost use Rattle.run_record.specs.Order.{AreFirst, CanComeNext};
ghost use Rattle.run_record.specs.Passing.{AllWait, AreHeads, AreNextPlaces, IsHead};

use crate::giving::{Giver, needs, passed_giver};
use crate::hint::Hints;
use crate::journals::journal_of;
use crate::order::Turn;
use crate::order_fault::Place;
use node_journal::Closed;
use std::alloc::{AllocError, Global};

/// The state of the next entry of a node.
#[derive(Clone, Copy, Debug, PartialEq, Eq)]
pub(crate) enum Head {
    /// There is none.
    Ended,
    /// What it needs was not gone through.
    Blocked,
    /// It can come.
    Ready(Option<Giver>),
}

/// Returns the state of the next entry of the node.
fn head_of(closed: &[Closed], next: &[usize], node: usize) -> Head
    requires places { AreNextPlaces closed.now next.now }
    requires node { node < length next.now }
    ensures { IsHead closed.now next.now node result }
{
    let place = next[node];
    let journal = journal_of(closed, node);
    if place >= journal.len() {
        return Head::Ended;
    }
    let event = &journal[place].event;
    if !needs(event) {
        return Head::Ready(None);
    }
    match passed_giver(closed, next, event) {
        Some(giver) => Head::Ready(Some(giver)),
        None => Head::Blocked,
    }
}

/// Returns the turn of the node, if its next entry can come by what the hints find.
fn quick_turn(closed: &[Closed], hints: &Hints, next: &[usize], node: usize) -> Option<Turn>
    requires places { AreNextPlaces closed.now next.now }
    requires node { node < length next.now }
    ensures { IfSome result (CanComeNext closed.now next.now) }
{
    let place = next[node];
    let journal = journal_of(closed, node);
    if place >= journal.len() {
        return None;
    }
    let event = &journal[place].event;
    if !needs(event) {
        return Some(Turn { node, giver: None });
    }
    let giver = hints.giver(closed, next, event)?;
    Some(Turn {
        node,
        giver: Some(giver),
    })
}

/// Returns the first turn that the hints find.
fn first_quick_turn(closed: &[Closed], hints: &Hints, next: &[usize]) -> Option<Turn>
    requires { AreNextPlaces closed.now next.now }
    ensures { IfSome result (CanComeNext closed.now next.now) }
{
    for node in 0..next.len() {
        if let Some(turn) = quick_turn(closed, hints, next, node) {
            return Some(turn);
        }
    }
    None
}

/// Returns the first turn of all.
fn first_turn(closed: &[Closed], next: &[usize]) -> Option<Turn>
    requires { AreNextPlaces closed.now next.now }
    ensures some { IfSome result (CanComeNext closed.now next.now) }
    ensures none { IsNone result → AllWait closed.now next.now (length next.now) }
{
    for node in 0..next.len() {
        if let Head::Ready(giver) = head_of(closed, next, node) {
            return Some(Turn { node, giver });
        }
    }
    None
}

/// Returns a turn: of the node that went on last, if the hints find that it can go on; otherwise of
/// the first node for which they do; otherwise of the first node that can go on at all.
pub(crate) fn next_turn(
    closed: &[Closed],
    hints: &Hints,
    next: &[usize],
    last: usize,
) -> Option<Turn>
    requires { AreNextPlaces closed.now next.now }
    ensures some { IfSome result (CanComeNext closed.now next.now) }
    ensures none { IsNone result → AllWait closed.now next.now (length next.now) }
{
    if last < next.len() {
        if let Some(turn) = quick_turn(closed, hints, next, last) {
            return Some(turn);
        }
    }
    match first_quick_turn(closed, hints, next) {
        Some(turn) => Some(turn),
        None => first_turn(closed, next),
    }
}

/// Returns the places of the first entries.
pub fn first_places(alloc: Global, closed: &[Closed]) -> Result<Vec<usize>, AllocError>
    ensures { IfOk result (λ next. AreFirst closed.now next.items) }
{
    let mut next = Vec::new(alloc);
    for _node in 0..closed.len() {
        next.push(0usize)?;
    }
    Ok(next)
}

/// Returns the places of the next entries of those that haven't ended.
pub(crate) fn heads(
    alloc: Global,
    closed: &[Closed],
    next: &[usize],
) -> Result<Vec<Place>, AllocError>
    ensures { IfOk result (λ places. AreHeads closed.now next.now (length next.now) places.items) }
{
    let mut places = Vec::new(alloc);
    for node in 0..next.len() {
        let place = next[node];
        if place < journal_of(closed, node).len() {
            places.push(Place { node, place })?;
        }
    }
    Ok(places)
}

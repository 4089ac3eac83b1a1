//! What each node knows and shows after a history, by sets of places. It is slow, and it is what
//! the arithmetic of clocks is compared with.

ghost use Rattle.std.specs.Prelude.{◌≡◌, ◌<◌, ◌≤◌, ◌+◌, ◌&&◌, ◌++◌, ◌∷◌, [], ◌==◌, ℕ, true, if◌then◌else◌, not, length, map, filter, slice_get, take, Some, Option, IfOk, OnOk};
ghost use Rattle.std.specs.List.{list_any};
ghost use Rattle.meta_types.specs.Node.{IsNode};
ghost use Rattle.meta_types.specs.Value.{ValueParts};
ghost use Rattle.past_model.specs.declared.happening.Happening.{Happening as H};
ghost use Rattle.past_model.specs.declared.happening.Happening.TheVariants.{Wrote};
ghost use Rattle.past_model.specs.Past.{known, past, read, writer_of, writes};
ghost use Rattle.past_model.specs.History.{IsHistory, most_restarts};
ghost use Rattle.past_model.specs.Shown.{ArePlaces, IsContext, Shows, count_in, is_sibling, siblings_by, was_read};
ghost use Rattle.past_model.specs.Moment.{AreWriters, IsAccount, lives_of, is_write_under, marked_places, node_of, writes_of_happening};

use crate::happening::Happening;
use crate::history::restarts;
use crate::moment::{Moment, account, is_marked, is_write_under, latest, moment_read, under};
use dvvset::{Counter, Vector};
use meta_types::node::MAX_NODES;
use meta_types::{Actor, MetaKey, NodeId, Value};
use std::alloc::{AllocError, Global};
use std::marker::Model;

/// A history and its account.
#[derive(Debug, Drop)]
pub struct Plain<'a> {
    history: &'a [Happening],
    moments: Vec<Moment>,
}

impl<'a> Model for Plain<'a> {
    ghost use Rattle.std.specs.Prelude.{List};
    ghost use Rattle.past_model.specs.declared.happening.Happening.{Happening as H};
    ghost use Rattle.past_model.specs.Moment.{IsAccount};

    ghost Value = { List H };

    ghost view = { λ p. p.history.now };

    ghost invariant = { λ p. IsAccount p.history.now p.moments.items };
}

impl<'a> Plain<'a> {
    /// Works out the account of a history. It takes memory for two marks for each pair of a place
    /// and a happening, and time that grows with the square of the number of happenings.
    pub fn replay(alloc: Global, history: &'a [Happening]) -> Result<Self, AllocError>
        requires { IsHistory history.now }
        ensures { IfOk result (λ plain. plain ≡ history.now) }
    {
        let moments = account(alloc, history)?;
        Ok(Plain { history, moments })
    }

    /// Returns the places of the writes that the node knows under the key, rising.
    pub fn known(
        &self,
        alloc: Global,
        node: NodeId,
        key: &MetaKey,
    ) -> Result<Vec<usize>, AllocError>
        ensures { IfOk result (λ places. ArePlaces (known self.now node key.now) places.items) }
    {
        let marks = marks_of(alloc, self.history, self.moments.as_slice(), node, key)?;
        places(alloc, marks.as_slice())
    }

    /// Returns the values of those writes that the node knows under the key and that none of them
    /// had read, by writer, and of one writer the later first.
    pub fn siblings(
        &self,
        alloc: Global,
        node: NodeId,
        key: &MetaKey,
    ) -> Result<Vec<Value>, AllocError>
        ensures { IfOk result (λ values. Shows (writes self.now)
            (known self.now node key.now) values.items) }
    {
        let moments = self.moments.as_slice();
        let marks = marks_of(alloc, self.history, moments, node, key)?;
        siblings(alloc, self.history, moments, marks.as_slice(), key)
    }

    /// Returns, for each writer with a write that the node knows under the key, how many such
    /// writes there are.
    pub fn context(&self, alloc: Global, node: NodeId, key: &MetaKey) -> Result<Vector, AllocError>
        ensures { IfOk result (λ vector. IsContext (writes self.now)
            (known self.now node key.now) vector) }
    {
        let marks = marks_of(alloc, self.history, self.moments.as_slice(), node, key)?;
        context(alloc, self.history, marks.as_slice())
    }
}

/// Returns the marks of what the node knows under the key.
fn marks_of(
    alloc: Global,
    history: &[Happening],
    moments: &[Moment],
    node: NodeId,
    key: &MetaKey,
) -> Result<Vec<bool>, AllocError>
    requires { IsAccount history.now moments.now }
    ensures marks { IfOk result
        (λ marks. marked_places marks.items ≡ known history.now node key.now) }
    ensures of_key { IfOk result (λ marks. (p : ℕ) → marked_places marks.items p ≡ true
        → is_write_under key.now (slice_get history.now p) ≡ true) }
{
    let moment = &moments[latest(history, history.len(), node)];
    under(alloc, history, moment.known(), key)
}

fn places(alloc: Global, marks: &[bool]) -> Result<Vec<usize>, AllocError>
    ensures { IfOk result (λ places. ArePlaces (marked_places marks.now) places.items) }
{
    let mut places = Vec::new(alloc);
    for (place, mark) in marks.iter().enumerate() {
        if *mark {
            places.push(place)?;
        }
    }
    Ok(places)
}

fn siblings(
    alloc: Global,
    history: &[Happening],
    moments: &[Moment],
    marks: &[bool],
    key: &MetaKey,
) -> Result<Vec<Value>, AllocError>
    requires account { IsAccount history.now moments.now }
    requires of_key { (p : ℕ) → marked_places marks.now p ≡ true
        → is_write_under key.now (slice_get history.now p) ≡ true }
    ensures { IfOk result (λ values. Shows (writes history.now)
        (marked_places marks.now) values.items) }
{
    let writers = writers(alloc, history)?;
    let mut values = Vec::new(alloc);
    for writer in &writers {
        push_siblings(&mut values, history, moments, marks, key, *writer)?;
    }
    Ok(values)
}

/// Returns each node in each of its lives, rising.
fn writers(alloc: Global, history: &[Happening]) -> Result<Vec<Actor>, AllocError>
    requires history { IsHistory history.now }
    requires nodes { (p : ℕ) (h : H) → slice_get history.now p ≡ Some h → IsNode (node_of h) }
    ensures { IfOk result (λ writers. AreWriters (writes history.now) writers.items) }
{
    let mut writers = Vec::new(alloc);
    for number in 0..MAX_NODES {
        push_lives(&mut writers, history, number)?;
    }
    Ok(writers)
}

/// Adds a node in each of its lives, rising.
fn push_lives(
    writers: &mut Vec<Actor>,
    history: &[Happening],
    number: u16,
) -> Result<(), AllocError>
    requires history { IsHistory history.now }
    requires node { IsNode number }
    ensures { OnOk result (writers.new.items
        ≡ writers.old.items ++ lives_of number ((past history.now).restarts number + 1)) }
{
    if let Ok(node) = NodeId::new(number) {
        for life in 0..incarnation(history, node) {
            writers.push(Actor::new(node, life + 1))?;
        }
    }
    Ok(())
}

/// Adds the values of one writer's siblings, the later first.
fn push_siblings(
    values: &mut Vec<Value>,
    history: &[Happening],
    moments: &[Moment],
    marks: &[bool],
    key: &MetaKey,
    writer: Actor,
) -> Result<(), AllocError>
    requires account { IsAccount history.now moments.now }
    requires of_key { (p : ℕ) → marked_places marks.now p ≡ true
        → is_write_under key.now (slice_get history.now p) ≡ true }
    ensures { OnOk result (values.new.items ≡ values.old.items
        ++ siblings_by (writes history.now) (marked_places marks.now) writer) }
{
    for back in 0..history.len() {
        let place = history.len() - 1 - back;
        if is_sibling(history, moments, marks, key, place) {
            push_by(values, &history[..place], &history[place], writer)?;
        }
    }
    Ok(())
}

/// Adds the value of the happening, if it is a write by that writer.
fn push_by(
    values: &mut Vec<Value>,
    before: &[Happening],
    happening: &Happening,
    writer: Actor,
) -> Result<(), AllocError>
    requires { IsHistory before.now }
    ensures { OnOk result (values.new.items ≡ values.old.items
        ++ map (λ x. x.value) (filter (λ x. x.writer == writer)
        (writes_of_happening (past before.now) happening.now))) }
{
    match happening {
        Happening::Wrote { node, value, .. } => {
            if writer_of(before, *node) == writer {
                values.push(value.copy()?)?;
            }
            Ok(())
        }
        Happening::Looked { .. } => Ok(()),
        Happening::Sent { .. } => Ok(()),
        Happening::Got { .. } => Ok(()),
        Happening::Kept { .. } => Ok(()),
        Happening::Restarted { .. } => Ok(()),
    }
}

/// Returns whether the write at the place is in the set, and none of the set had read it.
fn is_sibling(
    history: &[Happening],
    moments: &[Moment],
    marks: &[bool],
    key: &MetaKey,
    place: usize,
) -> bool
    requires account { IsAccount history.now moments.now }
    requires of_key { (p : ℕ) → marked_places marks.now p ≡ true
        → is_write_under key.now (slice_get history.now p) ≡ true }
    ensures { result ≡ (marked_places marks.now place && not
        (was_read (writes history.now) (marked_places marks.now) place)) }
{
    is_marked(marks, place) && !was_read(history, moments, marks, key, place)
}

/// Returns whether a write of the set had read the one at the place.
fn was_read(
    history: &[Happening],
    moments: &[Moment],
    marks: &[bool],
    key: &MetaKey,
    place: usize,
) -> bool
    requires account { IsAccount history.now moments.now }
    requires of_key { (p : ℕ) → marked_places marks.now p ≡ true
        → is_write_under key.now (slice_get history.now p) ≡ true }
    ensures { result ≡ was_read (writes history.now) (marked_places marks.now) place }
{
    for reader in 0..history.len() {
        if is_marked(marks, reader) && had_read(history, moments, reader, key, place) {
            return true;
        }
    }
    false
}

/// Returns whether the write of `reader`, which is under the key, had read the one at the place.
fn had_read(
    history: &[Happening],
    moments: &[Moment],
    reader: usize,
    key: &MetaKey,
    place: usize,
) -> bool
    requires account { IsAccount history.now moments.now }
    requires inside { reader < length history.now }
    ensures { (n : ℕ) (v : ValueParts) (r : Option ℕ)
        → slice_get history.now reader ≡ Some (Wrote n key.now v r)
        → result ≡ read (take reader history.now) key.now r place }
{
    match &history[reader] {
        Happening::Wrote { seen, .. } => {
            let read = moments[moment_read(*seen)].known();
            is_write_under(history, place, key) && is_marked(read, place)
        }
        Happening::Looked { .. } => false,
        Happening::Sent { .. } => false,
        Happening::Got { .. } => false,
        Happening::Kept { .. } => false,
        Happening::Restarted { .. } => false,
    }
}

fn context(alloc: Global, history: &[Happening], marks: &[bool]) -> Result<Vector, AllocError>
    requires history { IsHistory history.now }
    requires nodes { (p : ℕ) (h : H) → slice_get history.now p ≡ Some h → IsNode (node_of h) }
    ensures { IfOk result (λ vector. IsContext (writes history.now)
        (marked_places marks.now) vector) }
{
    let writers = writers(alloc, history)?;
    let mut counters = Vec::new(alloc);
    for writer in &writers {
        push_counter(&mut counters, *writer, count(history, marks, *writer))?;
    }
    Ok(Vector::new(counters))
}

/// Adds a counter, if there is something to count.
fn push_counter(counters: &mut Vec<Counter>, writer: Actor, count: u64) -> Result<(), AllocError>
    ensures { OnOk result (counters.new.items ≡ counters.old.items
        ++ (if count == 0 then [] else (record { id = writer; count = count }) ∷ [])) }
{
    if count > 0 {
        counters.push(Counter::new(writer, count))?;
    }
    Ok(())
}

/// Returns how many writes of the set are by that writer.
fn count(history: &[Happening], marks: &[bool], writer: Actor) -> u64
    requires { IsHistory history.now }
    ensures { result ≡ count_in (writes history.now) (marked_places marks.now) writer }
{
    let mut count = 0;
    for (place, happening) in history.iter().enumerate() {
        if is_marked(marks, place) && is_write_by(&history[..place], happening, writer) {
            count += 1;
        }
    }
    count
}

/// Returns whether it is a write by that writer.
fn is_write_by(before: &[Happening], happening: &Happening, writer: Actor) -> bool
    requires { IsHistory before.now }
    ensures { result ≡ list_any (λ x. x.writer == writer)
        (writes_of_happening (past before.now) happening.now) }
{
    match happening {
        Happening::Wrote { node, .. } => writer_of(before, *node) == writer,
        Happening::Looked { .. } => false,
        Happening::Sent { .. } => false,
        Happening::Got { .. } => false,
        Happening::Kept { .. } => false,
        Happening::Restarted { .. } => false,
    }
}

/// Returns the writer of a write that the node makes after these happenings.
fn writer_of(before: &[Happening], node: NodeId) -> Actor
    requires { IsHistory before.now }
    ensures { result ≡ writer_of (past before.now) node }
{
    Actor::new(node, incarnation(before, node))
}

/// Returns the incarnation that the node has after these happenings: 1 in its first life.
fn incarnation(before: &[Happening], node: NodeId) -> u32
    requires { IsHistory before.now }
    ensures value { result ≡ (past before.now).restarts node + 1 }
    ensures few { result ≤ most_restarts + 1 }
{
    restarts(before, node) as u32 + 1
}

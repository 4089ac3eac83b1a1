//! Logs of values: what a writer wrote under a key stands in one of them once, and entries of
//! objects show parts of it.

ghost use Rattle.std.specs.Prelude.{◌≡◌, ◌∷◌, ◌++◌, [], length, map, reverse, set, IfOk, IfSome, IsTrue, OnOk, OnErr, ◌<◌, ◌-◌, ◌≤◌, All, take};
ghost use Rattle.dvvset.specs.Object.{IsObject};
ghost use Rattle.restart_images.specs.Logs.{Continues, IsInLogs, Keeps, whole_entry, log_at, whole_object};

use dvvset::{Entries, Entry, copy_values};
use meta_types::{Actor, Value};
use std::alloc::{AllocError, Global};
use std::marker::Model;

/// An entry of an object, whose values are `len` of those of a log, from the place `start` on.
#[derive(Clone, Copy, Debug)]
pub(crate) struct LoggedEntry {
    pub(crate) id: Actor,
    pub(crate) count: u64,
    pub(crate) log: usize,
    pub(crate) start: usize,
    pub(crate) len: usize,
}

/// Values of one writer's events under one key, oldest first, beginning with that of the event
/// after number `before`.
#[derive(Debug, Drop)]
struct Log {
    before: u64,
    values: Vec<Value>,
}

/// Logs, which only grow: what an entry shows of one stays.
#[derive(Debug, Drop)]
pub(crate) struct Logs {
    logs: Vec<Log>,
}

/// The place in a log where the values of an entry begin, and how many of the newest are to be
/// added at its end.
#[derive(Clone, Copy)]
struct Place {
    start: usize,
    fresh: usize,
}

impl Model for Logs {
    ghost use Rattle.std.specs.Prelude.{map};
    ghost use Rattle.restart_images.specs.Logs.{Logs as Parts};

    ghost Value = { Parts };

    ghost view = { λ l. map (λ log. log.values.items) l.logs.items };
}

impl Logs {
    pub(crate) fn new(alloc: Global) -> Self
        ensures { result ≡ [] }
    {
        Logs {
            logs: Vec::new(alloc),
        }
    }

    pub(crate) fn alloc(&self) -> Global {
        *self.logs.allocator()
    }

    /// Returns the object of these entries. Fails only when memory runs out.
    pub(crate) fn object(&self, entries: &[LoggedEntry]) -> Result<Entries, AllocError>
        requires within { All (IsInLogs self.now) entries.now }
        requires lawful { IsObject (whole_object self.now entries.now) }
        ensures { IfOk result (λ object. object ≡ whole_object self.now entries.now) }
    {
        let mut object = Vec::with_capacity(self.alloc(), entries.len())?;
        for entry in entries {
            object.push(self.entry(entry)?)?;
        }
        Ok(Entries::new(object))
    }

    /// Returns the entry with a copy of its values.
    fn entry(&self, entry: &LoggedEntry) -> Result<Entry, AllocError>
        requires { IsInLogs self.now entry.now }
        ensures { IfOk result (λ whole. whole ≡ whole_entry self.now entry.now) }
    {
        let log = &self.logs[entry.log];
        let part = &log.values[entry.start..entry.start + entry.len];
        let mut values = copy_values(self.alloc(), part)?;
        values.reverse();
        Ok(Entry::new(entry.id, entry.count, values))
    }

    /// Keeps an entry's values: in the log that is likely to have most of them already, if they
    /// continue it, and otherwise in a new one. What isn't there already is copied.
    pub(crate) fn keep(
        &mut self,
        entry: &Entry,
        likely: Option<usize>,
    ) -> Result<LoggedEntry, AllocError>
        ensures { Keeps self.old self.new entry.now result }
    {
        match self.place_of(entry, likely) {
            Some((log, place)) => self.go_on(entry, log, place),
            None => self.begin(entry),
        }
    }

    /// Keeps an entry's values in the log that they continue.
    fn go_on(&mut self, entry: &Entry, log: usize, place: Place) -> Result<LoggedEntry, AllocError>
        requires there { log < length self.old }
        requires continues { let values = entry.now.values in
            Continues (log_at self.old log) place.start place.fresh values }
        ensures { Keeps self.old self.new entry.now result }
    {
        let (id, count, len) = (entry.id(), entry.count(), entry.values().len());
        self.extend(log, &entry.values()[..place.fresh])?;
        Ok(LoggedEntry {
            id,
            count,
            log,
            start: place.start,
            len,
        })
    }

    /// Keeps an entry's values in a new log.
    fn begin(&mut self, entry: &Entry) -> Result<LoggedEntry, AllocError>
        ensures { Keeps self.old self.new entry.now result }
    {
        let (id, count, len) = (entry.id(), entry.count(), entry.values().len());
        let log = self.logs.len();
        self.add(count.saturating_sub(len as u64), entry.values())?;
        Ok(LoggedEntry {
            id,
            count,
            log,
            start: 0,
            len,
        })
    }

    /// Returns the place of the entry's values in the likely log, if they continue it.
    fn place_of(&self, entry: &Entry, likely: Option<usize>) -> Option<(usize, Place)>
        ensures { IfSome result (λ found. (found.0 < length self.now)
            × Continues (log_at self.now found.0) found.1.start found.1.fresh entry.now.values) }
    {
        let log = likely?;
        let place = place_in(self.logs.get(log)?, entry)?;
        Some((log, place))
    }

    /// Adds values, newest first, at the end of a log.
    fn extend(&mut self, log: usize, values: &[Value]) -> Result<(), AllocError>
        requires { log < length self.old }
        ensures value { OnOk result
            (self.new ≡ set self.old log (log_at self.old log ++ reverse values.now)) }
        ensures same { OnErr result (self.new ≡ self.old) }
    {
        let mut fresh = reversed(self.alloc(), values)?;
        self.logs[log].values.append(&mut fresh)?;
        Ok(())
    }

    /// Adds a log of these values, given newest first; the oldest is that of the event after number
    /// `before`.
    fn add(&mut self, before: u64, values: &[Value]) -> Result<(), AllocError>
        ensures value { OnOk result (self.new ≡ self.old ++ reverse values.now ∷ []) }
        ensures same { OnErr result (self.new ≡ self.old) }
    {
        let values = reversed(self.alloc(), values)?;
        self.logs.push(Log { before, values })?;
        Ok(())
    }
}

/// Returns copies of the values, in reverse order.
fn reversed(alloc: Global, values: &[Value]) -> Result<Vec<Value>, AllocError>
    ensures { IfOk result (λ copies. copies.items ≡ reverse values.now) }
{
    let mut copies = copy_values(alloc, values)?;
    copies.reverse();
    Ok(copies)
}

/// Returns the place of the entry's values in the log: where its events have their numbers there,
/// if the values that the log has are the same.
fn place_in(log: &Log, entry: &Entry) -> Option<Place>
    ensures { IfSome result (λ place.
        Continues log.now.values.items place.start place.fresh entry.now.values) }
{
    let values = entry.values();
    let before = entry.count().checked_sub(values.len() as u64)?;
    let start = usize::try_from(before.checked_sub(log.before)?).ok()?;
    let there = log.values.len().checked_sub(start)?;
    let fresh = values.len().saturating_sub(there);
    let end = start + (values.len() - fresh);
    if are_reversed(&values[fresh..], &log.values[start..end]) {
        Some(Place { start, fresh })
    } else {
        None
    }
}

/// Returns whether the values are the others in reverse order.
fn are_reversed(values: &[Value], others: &[Value]) -> bool
    ensures { IsTrue result → values.now ≡ reverse others.now }
{
    let (mut left, mut before) = (values, others);
    while let Some((value, rest)) = left.split_first() {
        match before.split_last() {
            Some((other, less)) if value == other => {
                left = rest;
                before = less;
            }
            _ => return false,
        }
    }
    before.is_empty()
}

ghost use Rattle.std.specs.Prelude.{◌≡◌, ◌+◌, ◌<◌, ◌≤◌, [], ◌∷◌, ◌++◌, length, vec_len, vec_capacity, IfOk, IfErr, OnOk, OnErr};
ghost use Rattle.circular_buffer.specs.Buffer.{buffer};
ghost use Rattle.meta_types.specs.Failing.{FailsWith};
ghost use Rattle.subscriptions.specs.Watching.{HasRoom, IsCapacity, emptied, empty, hears, with_change, with_room};
ghost use Rattle.subscriptions.specs.declared.fault.WatchFault.TheVariants.{BadWatch, Memory};

use crate::change::Change;
use crate::fault::WatchFault;
use circular_buffer::HeapCircularBuffer;
use meta_types::{FullPrefix, MetaKey};
use std::alloc::{AllocError, Global};
use std::marker::Model;

/// The most changes that a watch may have room for.
pub const MAX_CAPACITY: usize = 1024;

/// The last changes under a full prefix, and how many were missed.
#[derive(Drop)]
pub struct Watch {
    alloc: Global,
    prefix: FullPrefix,
    changes: HeapCircularBuffer<Change>,
    missed: u64,
}

impl Model for Watch {
    ghost use Rattle.subscriptions.specs.Watching.{IsCapacity, Watching};
    ghost use Rattle.std.specs.Prelude.{◌≤◌, length};

    ghost Value = { Watching };

    ghost view = { λ w. record {
      prefix = w.prefix;
      capacity = w.changes.capacity;
      changes = w.changes.items;
      missed = w.missed;
    } };

    ghost invariant = { λ w. IsCapacity w.changes.capacity
        × (length w.changes.items ≤ w.changes.capacity) };
}

impl Watch {
    /// Returns a watch of what changes under the prefix, with room for `capacity` changes. It takes
    /// the memory for their places; each change brings its own.
    ///
    /// Refused with 28 `BadWatch` if the capacity is 0 or more than 1,024, and only then, and
    /// otherwise only with 99 `Memory`.
    pub fn new(alloc: Global, prefix: FullPrefix, capacity: usize) -> Result<Self, WatchFault>
        ensures value { IfOk result (λ watch. watch ≡ empty prefix capacity) }
        ensures in_range { OnOk result (IsCapacity capacity) }
        ensures out_of_range { (IsCapacity capacity → ⊥)
            → IfErr result (λ fault. fault ≡ BadWatch) }
        ensures refusals { FailsWith Memory
            (λ fault. (fault ≡ BadWatch) × (IsCapacity capacity → ⊥)) result }
    {
        if capacity == 0 || capacity > MAX_CAPACITY {
            return Err(WatchFault::BadWatch);
        }
        let changes = HeapCircularBuffer::with_capacity(alloc, capacity)?;
        Ok(Watch {
            alloc,
            prefix,
            changes,
            missed: 0,
        })
    }

    /// Returns whether the key is under the prefix, so that its changes are noted.
    pub fn hears(&self, key: &MetaKey) -> bool
        ensures { result ≡ hears self.now key.now }
    {
        self.prefix == *key.prefix()
    }

    /// Takes a change in, unless it is of another prefix. If there is no room, the oldest leaves
    /// and counts as missed. It never fails, and takes no memory.
    pub fn note(&mut self, change: Change)
        ensures { self.new ≡ with_change change self.old }
    {
        if self.hears(&change.key) {
            self.make_room();
            push(&mut self.changes, change);
        }
    }

    fn make_room(&mut self)
        ensures oldest { self.new ≡ with_room self.old }
        ensures room { HasRoom self.new }
    {
        if self.changes.is_full() {
            self.changes.pop_front();
            self.missed = self.missed.saturating_add(1);
        }
    }

    /// Returns how many changes have left since the last `take` without being taken. The count
    /// stays at its greatest, 18,446,744,073,709,551,615.
    pub fn missed(&self) -> u64
        ensures { result ≡ self.now.missed }
    {
        self.missed
    }

    /// Takes the changes that are held, oldest first; afterwards none is held, and none counts as
    /// missed. Fails only when memory runs out, and then all is as before.
    pub fn take(&mut self) -> Result<Vec<Change>, AllocError>
        ensures changes { IfOk result (λ changes. changes.items ≡ self.old.changes) }
        ensures emptied { OnOk result (self.new ≡ emptied self.old) }
        ensures unchanged { OnErr result (self.new ≡ self.old) }
    {
        let count = self.changes.len();
        let mut changes = Vec::with_capacity(self.alloc, count)?;
        move_all(&mut self.changes, &mut changes);
        self.missed = 0;
        Ok(changes)
    }

    /// Returns copies of the changes that are held, oldest first; they stay. Fails only when memory
    /// runs out.
    pub fn noted(&self) -> Result<Vec<Change>, AllocError>
        ensures { IfOk result (λ changes. changes.items ≡ self.now.changes) }
    {
        let mut changes = Vec::with_capacity(self.alloc, self.changes.len())?;
        let (front, back) = self.changes.as_slices();
        append_copies(&mut changes, front)?;
        append_copies(&mut changes, back)?;
        Ok(changes)
    }

    /// Forgets the changes that are held, and how many were missed. It takes no memory.
    pub fn clear(&mut self)
        ensures { self.new ≡ emptied self.old }
    {
        self.changes.clear();
        self.missed = 0;
    }

    /// Fails only when memory runs out.
    pub fn copy(&self) -> Result<Self, AllocError>
        ensures { IfOk result (λ copy. copy ≡ self.now) }
    {
        Ok(Watch {
            alloc: self.alloc,
            prefix: self.prefix.copy()?,
            changes: copy_changes(self.alloc, &self.changes)?,
            missed: self.missed,
        })
    }
}

/// Adds a change, for which there is room, at the end.
fn push(changes: &mut HeapCircularBuffer<Change>, change: Change)
    requires { length changes.old.items < changes.old.capacity }
    ensures { changes.new ≡ buffer (changes.old.items ++ change ∷ []) changes.old.capacity }
{
    changes.push_back(change);
}

/// Moves all changes to the end of a list that has room for them.
fn move_all(from: &mut HeapCircularBuffer<Change>, to: &mut Vec<Change>)
    requires { vec_len to.old + length from.old.items ≤ vec_capacity to.old }
    ensures from { from.new ≡ buffer [] from.old.capacity }
    ensures to { to.new.items ≡ to.old.items ++ from.old.items }
{
    while let Some(change) = from.pop_front() {
        to.push_reserved(change);
    }
}

fn copy_changes(
    alloc: Global,
    changes: &HeapCircularBuffer<Change>,
) -> Result<HeapCircularBuffer<Change>, AllocError>
    ensures { IfOk result (λ copy. copy ≡ changes.now) }
{
    let mut copy = HeapCircularBuffer::with_capacity(alloc, changes.capacity())?;
    let (front, back) = changes.as_slices();
    push_copies(&mut copy, front)?;
    push_copies(&mut copy, back)?;
    Ok(copy)
}

/// Adds copies, for which there is room, at the end.
fn push_copies(
    copies: &mut HeapCircularBuffer<Change>,
    changes: &[Change],
) -> Result<(), AllocError>
    requires { length copies.old.items + length changes.now ≤ copies.old.capacity }
    ensures { OnOk result
        (copies.new ≡ buffer (copies.old.items ++ changes.now) copies.old.capacity) }
{
    for change in changes {
        push(copies, change.copy()?);
    }
    Ok(())
}

/// Adds copies at the end.
fn append_copies(copies: &mut Vec<Change>, changes: &[Change]) -> Result<(), AllocError>
    ensures { OnOk result (copies.new.items ≡ copies.old.items ++ changes.now) }
{
    for change in changes {
        copies.push(change.copy()?)?;
    }
    Ok(())
}

ghost use Rattle.std.specs.Prelude.{◌≡◌, ◌≤◌, ◌+◌, ◌-◌, ◌∷◌, ◌++◌, [], None, length, take, map, IfOk, OnOk, OnErr};
ghost use Rattle.meta_types.specs.Failing.{FailsBy};
ghost use Rattle.subscriptions.specs.Watching.{empty, with_change};
ghost use Rattle.subscriptions.specs.Watches.{AreChangesOf, at_number, hand_out, hearing_count, most_watches};
ghost use Rattle.subscriptions.specs.Watches.{refusal_of_changes, refusal_of_watch};
ghost use Rattle.subscriptions.specs.declared.fault.WatchFault.TheVariants.{Memory};

use crate::change::Change;
use crate::fault::WatchFault;
use crate::news::News;
use crate::watch::Watch;
use dvvset::Vector;
use meta_types::{FullPrefix, MetaKey};
use std::alloc::{AllocError, Global};
use std::marker::Model;

/// The most watches of a node.
const MAX_WATCHES: usize = 16;

/// What a watch hands out: the changes that it has noted, oldest first, and how many it had missed.
#[derive(Drop)]
pub struct HandedOut {
    pub missed: u64,
    pub changes: Vec<Change>,
}

/// Who watches a node, in the order in which the watches were made; they are numbered from 1.
#[derive(Drop)]
pub struct Watches {
    alloc: Global,
    list: Vec<Watch>,
}

impl Model for Watches {
    ghost use Rattle.std.specs.Prelude.{◌≤◌, List, length};
    ghost use Rattle.subscriptions.specs.Watches.{most_watches};
    ghost use Rattle.subscriptions.specs.Watching.{Watching};

    ghost Value = { List Watching };

    ghost view = { λ w. w.list.items };

    ghost invariant = { λ w. length w.list.items ≤ most_watches };
}

impl Watches {
    pub fn new(alloc: Global) -> Self
        ensures { result ≡ [] }
    {
        Watches {
            alloc,
            list: Vec::new(alloc),
        }
    }

    pub fn as_slice(&self) -> &[Watch]
        ensures value { result.now ≡ self.now }
        ensures few { length self.now ≤ most_watches }
    {
        self.list.as_slice()
    }

    /// Adds a watch, and returns its number. Refused with 28 `BadWatch` if there are sixteen, or
    /// the capacity is out of range, and with 99 `Memory`.
    pub fn add(&mut self, prefix: &FullPrefix, capacity: usize) -> Result<u64, WatchFault>
        ensures value { OnOk result (self.new ≡ self.old ++ empty prefix.now capacity ∷ []) }
        ensures number { IfOk result (λ number. number ≡ length self.old + 1) }
        ensures accepted { OnOk result (refusal_of_watch capacity self.old ≡ None) }
        ensures refused { FailsBy Memory (refusal_of_watch capacity self.old) result }
        ensures same { OnErr result (self.new ≡ self.old) }
    {
        let number = self.list.len() as u64 + 1;
        let watch = self.new_watch(prefix, capacity)?;
        self.list.push(watch)?;
        Ok(number)
    }

    fn new_watch(&self, prefix: &FullPrefix, capacity: usize) -> Result<Watch, WatchFault>
        ensures watch { IfOk result (λ watch. watch ≡ empty prefix.now capacity) }
        ensures accepted { OnOk result (refusal_of_watch capacity self.now ≡ None) }
        ensures refused { FailsBy Memory (refusal_of_watch capacity self.now) result }
    {
        if self.list.len() >= MAX_WATCHES {
            return Err(WatchFault::BadWatch);
        }
        let prefix = prefix.copy()?;
        Ok(Watch::new(self.alloc, prefix, capacity)?)
    }

    /// Returns copies of what the watch of this number has noted, which stays. Refused with 29
    /// `NoSuchWatch` and 99 `Memory`.
    pub fn noted_by(&self, number: u64) -> Result<HandedOut, WatchFault>
        ensures handed { IfOk result (AreChangesOf (at_number self.now number)) }
        ensures accepted { OnOk result (refusal_of_changes number self.now ≡ None) }
        ensures refused { FailsBy Memory (refusal_of_changes number self.now) result }
    {
        if number == 0 || number > self.list.len() as u64 {
            return Err(WatchFault::NoSuchWatch);
        }
        let watch = &self.list[number as usize - 1];
        Ok(HandedOut {
            missed: watch.missed(),
            changes: watch.noted()?,
        })
    }

    /// Clears the watch of this number, if there is one: what it has noted leaves it. It takes no
    /// memory.
    pub fn clear(&mut self, number: u64)
        ensures { self.new ≡ hand_out number self.old }
    {
        if number == 0 || number > self.list.len() as u64 {
            return;
        }
        self.list[number as usize - 1].clear();
    }

    /// Takes out the watch that was added last, if there is one. It takes no memory.
    pub fn forget_last(&mut self)
        ensures { self.new ≡ take (length self.old - 1) self.old }
    {
        drop(self.list.pop());
    }

    /// Returns the news of a change: a note for each watch that hears the key. Fails only when
    /// memory runs out.
    pub fn news(&self, key: &MetaKey, vector: Vector) -> Result<News, AllocError>
        ensures { IfOk result (λ news. news ≡ record {
          change = record { key = key.now; vector = vector };
          notes = hearing_count key.now self.now;
        }) }
    {
        let count = hearing_count(self.list.as_slice(), key);
        let key = key.copy()?;
        News::new(self.alloc, Change { key, vector }, count)
    }

    /// Notes the change in each watch that hears the key. It never fails, and takes no memory.
    pub fn note(&mut self, news: &mut News)
        requires { news.old.notes ≡ hearing_count news.old.change.key self.old }
        ensures watches { self.new ≡ map (with_change news.old.change) self.old }
        ensures change { news.new.change ≡ news.old.change }
    {
        for place in 0..self.list.len() {
            note_one(&mut self.list[place], news);
        }
    }

    /// Fails only when memory runs out.
    pub fn copy(&self) -> Result<Self, AllocError>
        ensures { IfOk result (λ copy. copy ≡ self.now) }
    {
        let list = copy_watches(self.alloc, self.list.as_slice())?;
        Ok(Watches {
            alloc: self.alloc,
            list,
        })
    }
}

/// Notes the change in the watch, if it hears the key.
fn note_one(watch: &mut Watch, news: &mut News)
    requires { hearing_count news.old.change.key (watch.old ∷ []) ≤ news.old.notes }
    ensures watch { watch.new ≡ with_change news.old.change watch.old }
    ensures change { news.new.change ≡ news.old.change }
    ensures notes { news.new.notes
        ≡ news.old.notes - hearing_count news.old.change.key (watch.old ∷ []) }
{
    if watch.hears(news.key()) {
        watch.note(news.next());
    }
}

/// Returns how many of the watches hear the key.
fn hearing_count(watches: &[Watch], key: &MetaKey) -> usize
    ensures { result ≡ hearing_count key.now watches.now }
{
    let mut count = 0;
    for watch in watches {
        if watch.hears(key) {
            count += 1;
        }
    }
    count
}

fn copy_watches(alloc: Global, watches: &[Watch]) -> Result<Vec<Watch>, AllocError>
    ensures { IfOk result (λ copies. copies.items ≡ watches.now) }
{
    let mut copies = Vec::with_capacity(alloc, watches.len())?;
    for watch in watches {
        copies.push(watch.copy()?)?;
    }
    Ok(copies)
}

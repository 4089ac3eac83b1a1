//! The images of one node, as a list: each is an earlier one with one object in place of what
//! stands there under its key.

ghost use Rattle.std.specs.Prelude.{◌≡◌, ◌∷◌, ◌++◌, [], length, get_or, ◌<◌, ◌^◌, All, IfOk, OnOk, OnErr, IfSome};
ghost use Rattle.std.specs.Option.{option_copied, option_map};
ghost use Rattle.meta_store.specs.Table.{IsHeld};
ghost use Rattle.restart_images.specs.Images.{change_of};
ghost use Rattle.restart_images.specs.Logs.{GrowTo, IsKeptChange, IsInLogs, Keeps, whole_change, whole_object};

use crate::kept::{Kept, KeptChange};
use crate::logs::{LoggedEntry, Logs};
use dvvset::{Entries, Entry};
use meta_types::{Actor, MetaKey};
use std::alloc::{AllocError, Global};
use std::collections::BTreeMap;
use std::marker::Model;

/// The images of one node, except image 0, which is empty. They are numbered from 1 in the order in
/// which they were made.
///
/// A value that several of them show is kept once, as long as the values of a writer under a key
/// come one after the other, however images go back and forth between them. So images take memory
/// in proportion to their number, the number of writers under their keys, and the values. Values
/// may be copied again if some were left out that a later image has after all, or if memory ran
/// out.
#[derive(Debug, Drop)]
pub struct Images {
    kept: Vec<Kept>,
    logs: Logs,
    latest: Latest,
}

/// The logs of each key.
type Latest = BTreeMap<MetaKey, Writers>;

/// For each writer under a key, the log that was last begun or continued: the one in which its next
/// values are looked for.
type Writers = BTreeMap<Actor, usize>;

impl Model for Images {
    ghost use Rattle.std.specs.Prelude.{List, map, All};
    ghost use Rattle.restart_images.specs.Image.{Image as Parts};
    ghost use Rattle.restart_images.specs.Logs.{IsImageKept, whole_image};

    ghost Value = { List Parts };

    ghost view = { λ i. map (whole_image i.logs) i.kept.items };

    ghost invariant = { λ i. All (IsImageKept i.logs) i.kept.items };
}

/// One image, as it is lent: what is there instead of what the image of the number `base` has.
#[derive(Drop)]
pub struct Image<'a> {
    kept: &'a Kept,
    logs: &'a Logs,
}

impl<'a> Model for Image<'a> {
    ghost use Rattle.restart_images.specs.Image.{Image as Parts};
    ghost use Rattle.restart_images.specs.Logs.{IsImageKept, whole_image};

    ghost Value = { Parts };

    ghost view = { λ i. whole_image i.logs.now i.kept.now };

    ghost invariant = { λ i. IsImageKept i.logs.now i.kept.now };
}

/// What an image changes, as it is lent: a key, and the object that stands there.
#[derive(Drop)]
pub struct Change<'a> {
    kept: &'a KeptChange,
    logs: &'a Logs,
}

impl<'a> Model for Change<'a> {
    ghost use Rattle.std.specs.Prelude.{List};
    ghost use Rattle.meta_types.specs.Name.{Key};
    ghost use Rattle.dvvset.specs.Object.{Entry as EntryParts};
    ghost use Rattle.restart_images.specs.Logs.{IsKeptChange, whole_change};

    ghost Value = { Key × List EntryParts };

    ghost view = { λ c. whole_change c.logs.now c.kept.now };

    ghost invariant = { λ c. IsKeptChange c.logs.now c.kept.now };
}

impl<'a> Image<'a> {
    ghost use Rattle.std.specs.Prelude.{◌≡◌};
    ghost use Rattle.restart_images.specs.Image.{IsChange};

    /// Returns the number of the image that this one changes.
    pub fn base(&self) -> usize
        ensures { result ≡ self.now.base }
    {
        self.kept.base
    }

    /// Returns what it changes; `None` if it changes nothing.
    pub fn change(&self) -> Option<Change<'a>>
        ensures value { result ≡ self.now.change }
        ensures held { IsChange self.now.change }
    {
        match &self.kept.change {
            None => None,
            Some(kept) => Some(Change {
                kept,
                logs: self.logs,
            }),
        }
    }
}

impl<'a> Change<'a> {
    ghost use Rattle.std.specs.Prelude.{◌≡◌, IfOk};
    ghost use Rattle.meta_store.specs.Table.{IsHeld};

    /// Returns the key under which something else stands.
    pub fn key(&self) -> &'a MetaKey
        ensures value { result.now ≡ self.now.0 }
        ensures held { IsHeld self.now.1 }
    {
        &self.kept.key
    }

    /// Returns a copy of what stands there. Fails only when memory runs out.
    pub fn object(&self) -> Result<Entries, AllocError>
        ensures value { IfOk result (λ object. object ≡ self.now.1) }
    {
        self.logs.object(self.kept.entries.as_slice())
    }
}

impl Images {
    /// Makes an empty list. It takes no memory; memory for what is kept comes from the allocator.
    pub fn new(alloc: Global) -> Self
        ensures { result ≡ [] }
    {
        Images {
            kept: Vec::new(alloc),
            logs: Logs::new(alloc),
            latest: BTreeMap::new(alloc),
        }
    }

    pub fn alloc(&self) -> Global {
        *self.kept.allocator()
    }

    /// Returns the number of images, without image 0.
    pub fn len(&self) -> usize
        ensures value { result ≡ length self.now }
        ensures few { result < 2 ^ 63 }
    {
        self.kept.len()
    }

    /// Returns the image of the number `at + 1`.
    pub fn at(&self, at: usize) -> Image<'_>
        requires { at < length self.now }
        ensures { result ≡ get_or self.now at result }
    {
        Image {
            kept: &self.kept[at],
            logs: &self.logs,
        }
    }

    /// Adds an image that changes the one of the number `base`: it has this object under the key.
    /// The part of the object that isn't kept already is copied. Without an object the image changes
    /// nothing. Fails only when memory runs out, and then nothing changes.
    pub fn push(
        &mut self,
        base: usize,
        key: &MetaKey,
        object: Option<&Entries>,
    ) -> Result<(), AllocError>
        requires { IfSome (option_copied object) IsHeld }
        ensures value { OnOk result (self.new ≡ self.old ++ (record {
          base = base;
          change = change_of key.now (option_copied object.entry);
        }) ∷ []) }
        ensures same { OnErr result (self.new ≡ self.old) }
    {
        let change = keep(&mut self.logs, &mut self.latest, key, object)?;
        self.kept.push(Kept { base, change })?;
        Ok(())
    }
}

/// Keeps a change, if there is an object. If memory runs out, logs may have grown.
fn keep(
    logs: &mut Logs,
    latest: &mut Latest,
    key: &MetaKey,
    object: Option<&Entries>,
) -> Result<Option<KeptChange>, AllocError>
    requires { IfSome (option_copied object) IsHeld }
    ensures grow { GrowTo logs.old logs.new }
    ensures kept { IfOk result (λ kept. IfSome kept (IsKeptChange logs.new)) }
    ensures value { IfOk result (λ kept. option_map (whole_change logs.new) kept
        ≡ change_of key.now (option_copied object.entry)) }
{
    match object {
        None => Ok(None),
        Some(object) => Ok(Some(keep_change(logs, latest, key, object)?)),
    }
}

fn keep_change(
    logs: &mut Logs,
    latest: &mut Latest,
    key: &MetaKey,
    object: &Entries,
) -> Result<KeptChange, AllocError>
    requires { IsHeld object.now }
    ensures grow { GrowTo logs.old logs.new }
    ensures change { IfOk result (IsKeptChange logs.new) }
    ensures value { IfOk result
        (λ kept. whole_change logs.new kept ≡ (key.now, object.now)) }
{
    let entries = keep_object(logs, latest, key, object.entries())?;
    Ok(KeptChange {
        key: key.copy()?,
        entries,
    })
}

/// Keeps the entries of the object under the key. If memory runs out, logs may have grown.
fn keep_object(
    logs: &mut Logs,
    latest: &mut Latest,
    key: &MetaKey,
    entries: &[Entry],
) -> Result<Vec<LoggedEntry>, AllocError>
    ensures grow { GrowTo logs.old logs.new }
    ensures within { IfOk result (λ kept. All (IsInLogs logs.new) kept.items) }
    ensures value { IfOk result (λ kept. whole_object logs.new kept.items ≡ entries.now) }
{
    if let Some(writers) = latest.get_mut(key) {
        return keep_all(logs, writers, entries);
    }
    let mut writers = BTreeMap::new(logs.alloc());
    let kept = keep_all(logs, &mut writers, entries)?;
    latest.insert(key.copy()?, writers)?;
    Ok(kept)
}

/// Keeps the entries of an object.
fn keep_all(
    logs: &mut Logs,
    writers: &mut Writers,
    entries: &[Entry],
) -> Result<Vec<LoggedEntry>, AllocError>
    ensures grow { GrowTo logs.old logs.new }
    ensures within { IfOk result (λ kept. All (IsInLogs logs.new) kept.items) }
    ensures value { IfOk result (λ kept. whole_object logs.new kept.items ≡ entries.now) }
{
    let mut kept = Vec::with_capacity(logs.alloc(), entries.len())?;
    for entry in entries {
        kept.push(keep_entry(logs, writers, entry)?)?;
    }
    Ok(kept)
}

/// Keeps an entry, and notes in which log.
fn keep_entry(
    logs: &mut Logs,
    writers: &mut Writers,
    entry: &Entry,
) -> Result<LoggedEntry, AllocError>
    ensures { Keeps logs.old logs.new entry.now result }
{
    let likely = writers.get(&entry.id()).copied();
    let kept = logs.keep(entry, likely)?;
    writers.insert(entry.id(), kept.log)?;
    Ok(kept)
}

//! Merging two objects.

ghost use Rattle.std.specs.Prelude.{◌≡◌, ◌++◌, ℕ, max, IfOk, OnOk};
ghost use Rattle.dvvset.specs.Object.{IsObject};
ghost use Rattle.dvvset.specs.Clock.{sync, sync_entry};
ghost use Rattle.dvvset.specs.Writer.{entry_of, count_of, MergesAt};

use crate::entries::Entries;
use crate::entry::Entry;
use std::alloc::{AllocError, Global};

/// Merges two sides' entries of one writer: the entry with more events, or the first side's if both
/// have equally many, cut by the other's cover.
fn sync_entry(a: &Entry, b: &Entry) -> Result<Entry, AllocError>
    ensures { IfOk result (λ entry. entry ≡ sync_entry a.now b.now) }
{
    if b.count() <= a.count() {
        a.cut(b.cover())
    } else {
        b.cut(a.cover())
    }
}

/// Adds copies of entries at the end.
pub(crate) fn push_entries(merged: &mut Vec<Entry>, entries: &[Entry]) -> Result<(), AllocError>
    ensures { OnOk result (merged.new.items ≡ merged.old.items ++ entries.now) }
{
    for entry in entries {
        merged.push(entry.copy()?)?;
    }
    Ok(())
}

/// Merges two lists of entries in one pass over both.
pub(crate) fn merge(alloc: Global, xs: &[Entry], ys: &[Entry]) -> Result<Vec<Entry>, AllocError>
    ensures { IfOk result (λ merged. merged.items ≡ sync xs.now ys.now) }
{
    let mut merged = Vec::with_capacity(alloc, xs.len().max(ys.len()))?;
    let (mut i, mut j) = (0, 0);
    while i < xs.len() && j < ys.len() {
        let (x, y) = (&xs[i], &ys[j]);
        if y.id() < x.id() {
            merged.push(y.copy()?)?;
            j += 1;
        } else if x.id() == y.id() {
            merged.push(sync_entry(x, y)?)?;
            i += 1;
            j += 1;
        } else {
            merged.push(x.copy()?)?;
            i += 1;
        }
    }
    push_entries(&mut merged, &xs[i..])?;
    push_entries(&mut merged, &ys[j..])?;
    Ok(merged)
}

/// Merges two objects. An entry that stands on one side alone is kept as it is. For a writer on
/// both sides, the merge knows the events that either side knows. It shows the values of the events
/// that neither side has covered, that is, knows and no longer shows; if both know equally many
/// events, the values are the first side's. It takes memory for the entries and for copies of the
/// values that stay, not of the others.
pub fn sync(alloc: Global, a: &Entries, b: &Entries) -> Result<Entries, AllocError>
    ensures value { IfOk result (λ merged. merged ≡ sync a.now b.now) }
    ensures lawful { IfOk result (λ merged. IsObject merged) }
    ensures writers { IfOk result (λ merged. (w : ℕ)
        → MergesAt (entry_of a.now w) (entry_of b.now w) (entry_of merged w)) }
    ensures counts { IfOk result (λ merged. (w : ℕ)
        → count_of merged w ≡ max (count_of a.now w) (count_of b.now w)) }
{
    let merged = merge(alloc, a.entries(), b.entries())?;
    Ok(Entries::new(merged))
}

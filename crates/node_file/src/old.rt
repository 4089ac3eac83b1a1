//! Reading objects as the first version of node files has them: their writers are nodes alone,
//! without the number of a life. They are read as writers in life 0.

ghost use Rattle.std.specs.Prelude.{◌≡◌, ◌≢◌, ◌≤◌, ◌*◌, IfOk, IfErr};
ghost use Rattle.meta_types.specs.Actor.{incarnations, writer_number};
ghost use Rattle.meta_types.specs.Node.{IsNode};
ghost use Rattle.frame_fields.specs.Field.{above_entry};
ghost use Rattle.frame_readers.specs.Reader.{Gives, MatchesReader, each_reader};
ghost use Rattle.node_file.specs.Old.{old_entries_reader, old_entry_reader, old_object_reader, old_writer_reader};
ghost use Rattle.frame_readers.specs.declared.fault.FieldFault.TheVariants.{Memory};

use dvvset::{Entries, Entry};
use frame_fields::lawful::{MAX_COUNT, all_are_bare};
use frame_readers::fault::FieldFault;
use frame_readers::reading::{node_from, read_node, read_values, u16_within, u64_within};
use meta_types::Actor;
use std::alloc::Global;

/// The life that a writer of the old form is in.
const OLD_LIFE: u32 = 0;

fn writer_of(node: u16) -> Actor
    requires { IsNode node }
    ensures { result ≡ writer_number node 0 }
{
    Actor::new(node_from(node), OLD_LIFE)
}

/// Reads the node of a writer that is `low` or more.
#[tactic(auto, unfolding(crate::specs::Old::old_writer_reader))]
fn read_old_writer(low: u64, bytes: &[u8]) -> Result<(u16, &[u8]), FieldFault>
    requires { low ≤ 16 * incarnations }
    ensures value { Gives (λ x. (writer_number x.0 0, x.1.now)) result
        (old_writer_reader low bytes.now) }
    ensures range { IfOk result (λ x. IsNode x.0) }
    ensures memory { IfErr result (λ fault. fault ≢ Memory) }
{
    let (node, rest) = read_node(bytes)?;
    if low <= writer_of(node).number() {
        Ok((node, rest))
    } else {
        Err(FieldFault::Left(bytes.len()))
    }
}

#[tactic(auto, unfolding(crate::specs::Old::old_entry_reader))]
fn read_old_entry(alloc: Global, low: u64, bytes: &[u8]) -> Result<(Entry, &[u8]), FieldFault>
    requires { low ≤ 16 * incarnations }
    ensures { MatchesReader result (old_entry_reader low bytes.now) }
{
    let (node, rest) = read_old_writer(low, bytes)?;
    let (count, rest) = u64_within(1, u64::MAX, rest)?;
    let (values, rest) = read_values(alloc, count, rest)?;
    Ok((Entry::new(writer_of(node), count, values), rest))
}

#[tactic(auto, unfolding(crate::specs::Old::old_entries_reader))]
fn read_old_entries(alloc: Global, bytes: &[u8]) -> Result<(Vec<Entry>, &[u8]), FieldFault>
    ensures { Gives (λ x. (x.0.items, x.1.now)) result (old_entries_reader bytes.now) }
{
    let (len, rest) = u16_within(1, MAX_COUNT as u64, bytes)?;
    let (entries, rest) = each_old_entry(alloc, len, rest)?;
    Ok((entries, rest))
}

/// Reads `len` entries, each of a node above the one before.
fn each_old_entry(alloc: Global, len: u16, bytes: &[u8]) -> Result<(Vec<Entry>, &[u8]), FieldFault>
    ensures { Gives (λ x. (x.0.items, x.1.now)) result
        (each_reader old_entry_reader above_entry 0 len bytes.now) }
{
    let mut entries = Vec::new(alloc);
    let mut rest = bytes;
    let mut low = 0;
    for _ in 0..len {
        let (entry, after) = read_old_entry(alloc, low, rest)?;
        low = entry.id().number() + 1;
        entries.push(entry)?;
        rest = after;
    }
    Ok((entries, rest))
}

/// Reads an object whose writers are nodes alone, each of which wrote in its life 0.
#[tactic(auto, unfolding(crate::specs::Old::old_object_reader))]
pub(crate) fn read_old_object(alloc: Global, bytes: &[u8]) -> Result<(Entries, &[u8]), FieldFault>
    ensures { MatchesReader result (old_object_reader bytes.now) }
{
    let (entries, rest) = read_old_entries(alloc, bytes)?;
    if all_are_bare(entries.as_slice()) {
        return Err(FieldFault::Left(bytes.len()));
    }
    Ok((Entries::new(entries), rest))
}

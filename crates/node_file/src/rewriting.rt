//! Writing a table as a new file.

ghost use Rattle.std.specs.Prelude.{◌≡◌, ◌+◌, ◌*◌, ◌<◌, ◌≤◌, ◌^◌, ◌++◌, [], ◌∷◌, true, All, length, map, None, Ok, OnOk, IfOk, IfErr};
ghost use Rattle.std.specs.FinMap.{is_sorted};
ghost use Rattle.devices.specs.Device.{IsDurable};
ghost use Rattle.meta_types.specs.Order.{key_cmp};
ghost use Rattle.meta_store.specs.Kept.{rows_under};
ghost use Rattle.meta_store.specs.Table.{IsHeld, most_keys};
ghost use Rattle.node_file.specs.Clean.{clean_bytes, life_records, row_record};
ghost use Rattle.node_file.specs.Fault.{IsOfDevice};
ghost use Rattle.node_file.specs.File.{file_state, new_state, opened, state_with, StandsFor};
ghost use Rattle.node_file.specs.Fold.{may_follow};
ghost use Rattle.node_file.specs.Reads.{record_given, with_each, with_last, with_table};
ghost use Rattle.node_file.specs.Record.{IsRecord, payload, record_bytes};
ghost use Rattle.node_file.specs.declared.record.Record.TheVariants.{Object};

use crate::fault::FileFault;
use crate::found::FRONT_LEN;
use crate::opening::write_front;
use crate::record::{NewRecord, spell_record};
use devices::Device;
use dvvset::Entries;
use meta_store::{Rows, Store};
use meta_types::{FullPrefix, MetaKey, NodeId};
use std::alloc::Global;

/// Makes the target a file of the node with this table and this last life, 0 for none: one record
/// for the life, unless it is 0, and one for each key, in order. After `Ok` it is durable.
///
/// Refused with 30 `Device` and 99 `Memory`; the target may hold anything then, and has to be made
/// again. It takes memory for one record at a time, and makes one write for each.
pub fn rewrite<E: Device>(
    alloc: Global,
    node: NodeId,
    table: &Store,
    life: u32,
    target: &mut E,
) -> Result<(), FileFault>
    ensures stands { OnOk result
        (StandsFor (new_state node life table.now) (E.content target.new)) }
    ensures bytes { OnOk result (E.content target.new ≡ clean_bytes node life table.now) }
    ensures durable { OnOk result (IsDurable (E.content target.new) (E.may_leave target.new)) }
    ensures refused { IfErr result (λ fault.
        IsOfDevice fault (E.failed target.old) (E.failed target.new)) }
    ensures still { OnOk result (E.failed target.new ≡ E.failed target.old) }
{
    // What it holds isn't needed any more.
    target.drop_copy();
    write_file(alloc, node, table, life, target)
}

/// Makes the target a file of the node, as `rewrite` does.
pub(crate) fn write_file<E: Device>(
    alloc: Global,
    node: NodeId,
    table: &Store,
    life: u32,
    target: &mut E,
) -> Result<(), FileFault>
    ensures stands { OnOk result
        (StandsFor (new_state node life table.now) (E.content target.new)) }
    ensures bytes { OnOk result (E.content target.new ≡ clean_bytes node life table.now) }
    ensures durable { OnOk result (IsDurable (E.content target.new) (E.may_leave target.new)) }
    ensures refused { IfErr result (λ fault.
        IsOfDevice fault (E.failed target.old) (E.failed target.new)) }
    ensures still { OnOk result (E.failed target.new ≡ E.failed target.old) }
{
    write_front(target, node)?;
    let gate = match write_life(alloc, target, node, life) {
        Ok(gate) => gate,
        Err(fault) => return Err(fault),
    };
    match write_table(alloc, target, gate, table) {
        Ok(()) => {}
        Err(fault) => return Err(fault),
    }
    match target.sync() {
        Ok(()) => Ok(()),
        Err(fault) => Err(FileFault::from(fault)),
    }
}

/// Writes a record and its gate over the closed gate, without a sync, and returns where the closed
/// gate stands then.
fn write_record<D: Device>(
    alloc: Global,
    device: &mut D,
    gate: usize,
    given: NewRecord<'_>,
) -> Result<usize, FileFault>
    requires lawful { IsRecord (record_given given) }
    requires opens { opened None (D.content device.old)
        ≡ Ok (file_state (D.content device.old), gate) }
    requires version { (file_state (D.content device.old)).version ≡ 2 }
    requires follows { may_follow (file_state (D.content device.old)).contents
        (record_given given) ≡ true }
    requires room { length (state_with (file_state (D.content device.old))
        (record_given given)).contents.table ≤ most_keys }
    requires short { gate < 2 ^ 60 }
    requires last { length (D.content device.old) ≡ gate + 1 }
    ensures opens { IfOk result (λ end. opened None (D.content device.new)
        ≡ Ok (state_with (file_state (D.content device.old)) (record_given given.entry), end)) }
    ensures end { IfOk result (λ end.
        end ≡ gate + (37 + length (payload (record_given given.entry)))) }
    ensures bytes { OnOk result
        (D.content device.new ≡ with_last (D.content device.old) (record_given given.entry)) }
    ensures last { IfOk result (λ end. length (D.content device.new) ≡ end + 1) }
    ensures refused { IfErr result (λ fault.
        IsOfDevice fault (D.failed device.old) (D.failed device.new)) }
    ensures still { OnOk result (D.failed device.new ≡ D.failed device.old) }
{
    let bytes = spell_record(alloc, given)?;
    device.write_at(gate, &bytes)?;
    Ok(gate + (bytes.len() - 1))
}

/// Writes the record of a life, unless it is 0, after the front of a file.
fn write_life<D: Device>(
    alloc: Global,
    device: &mut D,
    node: NodeId,
    life: u32,
) -> Result<usize, FileFault>
    requires begun { opened None (D.content device.old) ≡ Ok (new_state node 0 [], 10) }
    requires last { length (D.content device.old) ≡ 11 }
    ensures opens { IfOk result (λ gate.
        opened None (D.content device.new) ≡ Ok (new_state node life [], gate)) }
    ensures short { IfOk result (λ gate. gate ≤ 52) }
    ensures bytes { OnOk result
        (D.content device.new ≡ with_each (D.content device.old) (life_records life)) }
    ensures last { IfOk result (λ gate. length (D.content device.new) ≡ gate + 1) }
    ensures refused { IfErr result (λ fault.
        IsOfDevice fault (D.failed device.old) (D.failed device.new)) }
    ensures still { OnOk result (D.failed device.new ≡ D.failed device.old) }
{
    if life == 0 {
        return Ok(FRONT_LEN);
    }
    write_record(alloc, device, FRONT_LEN, NewRecord::Life(life))
}

/// Writes the records of a table after the closed gate of a file that has no objects.
fn write_table<D: Device>(
    alloc: Global,
    device: &mut D,
    begun: usize,
    table: &Store,
) -> Result<(), FileFault>
    requires opens { opened None (D.content device.old)
        ≡ Ok (file_state (D.content device.old), begun) }
    requires version { (file_state (D.content device.old)).version ≡ 2 }
    requires none { (file_state (D.content device.old)).contents.table ≡ [] }
    requires short { begun ≤ 52 }
    requires last { length (D.content device.old) ≡ begun + 1 }
    ensures stands { OnOk result (StandsFor
        (with_table table.now (file_state (D.content device.old))) (D.content device.new)) }
    ensures bytes { OnOk result
        (D.content device.new ≡ with_each (D.content device.old) (map row_record table.now)) }
    ensures refused { IfErr result (λ fault.
        IsOfDevice fault (D.failed device.old) (D.failed device.new)) }
    ensures still { OnOk result (D.failed device.new ≡ D.failed device.old) }
{
    let mut gate = begun;
    for (prefix, rows) in table.iter() {
        match write_rows(alloc, device, gate, prefix, rows) {
            Ok(end) => gate = end,
            Err(fault) => return Err(fault),
        }
    }
    Ok(())
}

/// Writes the records of the keys under a full prefix, which stand after those of the file.
fn write_rows<D: Device>(
    alloc: Global,
    device: &mut D,
    begun: usize,
    prefix: &FullPrefix,
    rows: &Rows,
) -> Result<usize, FileFault>
    requires opens { opened None (D.content device.old)
        ≡ Ok (file_state (D.content device.old), begun) }
    requires version { (file_state (D.content device.old)).version ≡ 2 }
    requires rising { is_sorted key_cmp ((file_state (D.content device.old)).contents.table
        ++ rows_under prefix.now rows.now) ≡ true }
    requires few { length ((file_state (D.content device.old)).contents.table
        ++ rows_under prefix.now rows.now) ≤ most_keys }
    requires held { All (λ row. IsHeld row.1) (rows_under prefix.now rows.now) }
    requires short { begun
        ≤ 52 + 16777253 * length (file_state (D.content device.old)).contents.table }
    requires last { length (D.content device.old) ≡ begun + 1 }
    ensures opens { IfOk result (λ end. opened None (D.content device.new)
        ≡ Ok (
          with_table ((file_state (D.content device.old)).contents.table
              ++ rows_under prefix.now rows.now) (file_state (D.content device.old)),
          end,
        )) }
    ensures short { IfOk result (λ end. end
        ≤ 52 + 16777253 * length (file_state (D.content device.new)).contents.table) }
    ensures bytes { OnOk result (D.content device.new
        ≡ with_each (D.content device.old) (map row_record (rows_under prefix.now rows.now))) }
    ensures last { IfOk result (λ end. length (D.content device.new) ≡ end + 1) }
    ensures refused { IfErr result (λ fault.
        IsOfDevice fault (D.failed device.old) (D.failed device.new)) }
    ensures still { OnOk result (D.failed device.new ≡ D.failed device.old) }
{
    let mut gate = begun;
    for (key, object) in rows.iter() {
        let key = MetaKey::under(prefix.copy()?, key.copy()?);
        match write_object(alloc, device, gate, &key, object) {
            Ok(end) => gate = end,
            Err(fault) => return Err(fault),
        }
    }
    Ok(gate)
}

/// Writes the record of one object.
fn write_object<D: Device>(
    alloc: Global,
    device: &mut D,
    gate: usize,
    key: &MetaKey,
    object: &Entries,
) -> Result<usize, FileFault>
    requires held { IsHeld object.now }
    requires opens { opened None (D.content device.old)
        ≡ Ok (file_state (D.content device.old), gate) }
    requires version { (file_state (D.content device.old)).version ≡ 2 }
    requires room { length (state_with (file_state (D.content device.old))
        (Object key.now object.now)).contents.table ≤ most_keys }
    requires short { gate < 2 ^ 60 }
    requires last { length (D.content device.old) ≡ gate + 1 }
    ensures opens { IfOk result (λ end. opened None (D.content device.new)
        ≡ Ok (state_with (file_state (D.content device.old)) (Object key.now object.now), end)) }
    ensures end { IfOk result (λ end. end ≤ gate + 16777253) }
    ensures bytes { OnOk result
        (D.content device.new ≡ with_last (D.content device.old) (Object key.now object.now)) }
    ensures last { IfOk result (λ end. length (D.content device.new) ≡ end + 1) }
    ensures refused { IfErr result (λ fault.
        IsOfDevice fault (D.failed device.old) (D.failed device.new)) }
    ensures still { OnOk result (D.failed device.new ≡ D.failed device.old) }
{
    // (for its type)
    let _ = key.key();
    write_record(alloc, device, gate, NewRecord::Object(key, object))
}

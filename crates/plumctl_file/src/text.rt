//! The lines of a report, and the line of a refusal.

ghost use Rattle.std.specs.Prelude.{◌≡◌, ◌++◌, IfOk, OnOk};
ghost use Rattle.std.specs.List.{flat_map};
ghost use Rattle.meta_store.specs.Kept.{rows_under};
ghost use Rattle.scenario_commands.specs.Meaning.{root_text};
ghost use Rattle.scenario_commands.specs.Printed.{line};
ghost use Rattle.plumctl_file.specs.Report.{key_line, node_line, place_text, refusal_line, warning_of};
ghost use Rattle.plumctl_file.specs.Reported.{whole_report};

use dvvset::Entries;
use file_pieces::FileContents;
use hash_tree::plain_root;
use meta_store::{Rows, Store};
use meta_types::{ByteString, FullPrefix, MetaKey, NodeId};
use node_file::FileFault;
use printing::{print_digest, print_key, print_number, print_object};
use std::alloc::{AllocError, Global};

/// What is said of a gate that shows that it was changed, after its offset.
const CHANGED: &[u8] =
    b" may have been changed on the disk: whole records stand behind it, and are not read";

/// Adds the line of a node and its last life.
fn add_node(text: &mut Vec<u8>, node: NodeId, life: u32, keys: usize) -> Result<(), AllocError>
    ensures { OnOk result (text.new.items ≡ text.old.items ++ node_line node life keys) }
{
    text.extend_from_slice(b"node ")?;
    print_number(text, u64::from(node.number()))?;
    text.extend_from_slice(b" life ")?;
    print_number(text, u64::from(life))?;
    text.extend_from_slice(b" keys ")?;
    print_number(text, keys as u64)?;
    text.push(b'\n')?;
    Ok(())
}

/// Adds the line of a key.
fn add_key(text: &mut Vec<u8>, key: &MetaKey, object: &Entries) -> Result<(), AllocError>
    ensures { OnOk result (text.new.items ≡ text.old.items ++ key_line (key.now, object.now)) }
{
    text.extend_from_slice(b"key ")?;
    print_key(text, key)?;
    text.extend_from_slice(b" ")?;
    print_object(text, object)?;
    text.push(b'\n')?;
    Ok(())
}

/// Adds the lines of the keys under a full prefix.
fn add_rows(text: &mut Vec<u8>, prefix: &FullPrefix, rows: &Rows) -> Result<(), AllocError>
    ensures { OnOk result (text.new.items
        ≡ text.old.items ++ flat_map key_line (rows_under prefix.now rows.now)) }
{
    for (key, object) in rows.iter() {
        let key = MetaKey::under(prefix.copy()?, key.copy()?);
        add_key(text, &key, object)?;
    }
    Ok(())
}

/// Adds the line of each key of a table, in order.
fn add_table(text: &mut Vec<u8>, table: &Store) -> Result<(), AllocError>
    ensures { OnOk result (text.new.items ≡ text.old.items ++ flat_map key_line table.now) }
{
    for (prefix, rows) in table.iter() {
        add_rows(text, prefix, rows)?;
    }
    Ok(())
}

/// Adds the line of the root of a table's tree.
fn add_root(alloc: Global, text: &mut Vec<u8>, table: &Store) -> Result<(), AllocError>
    ensures { OnOk result (text.new.items ≡ text.old.items ++ line (root_text table.now)) }
{
    text.extend_from_slice(b"root ")?;
    print_digest(text, &plain_root(alloc, table)?)?;
    text.push(b'\n')?;
    Ok(())
}

/// The report of a file.
#[tactic(auto, unfolding(crate::specs::Report::report_text))]
fn report_of(alloc: Global, file: &FileContents) -> Result<Vec<u8>, AllocError>
    ensures { IfOk result (λ text. text.items ≡ whole_report file.now) }
{
    let table = &file.table;
    let mut text = Vec::new(alloc);
    add_node(&mut text, file.node, file.life, table.len())?;
    add_table(&mut text, table)?;
    add_root(alloc, &mut text, table)?;
    Ok(text)
}

/// Adds where a file is damaged.
fn add_place(text: &mut Vec<u8>, fault: &FileFault) -> Result<(), AllocError>
    ensures { OnOk result (text.new.items ≡ text.old.items ++ place_text fault.now) }
{
    if let FileFault::Damaged { at } = fault {
        text.extend_from_slice(b" at ")?;
        print_number(text, *at as u64)?;
    }
    Ok(())
}

/// What is said at standard error of a file, by the offset of its closed gate if this shows that it
/// was changed.
#[tactic(auto, unfolding(crate::specs::Report::warning_of))]
fn warning_of(alloc: Global, changed: Option<usize>) -> Result<Vec<u8>, AllocError>
    ensures { IfOk result (λ text. text.items ≡ warning_of changed) }
{
    let mut text = Vec::new(alloc);
    if let Some(gate) = changed {
        text.extend_from_slice(b"warning: the gate at ")?;
        print_number(&mut text, gate as u64)?;
        text.extend_from_slice(CHANGED)?;
        text.push(b'\n')?;
    }
    Ok(text)
}

/// The report of a file, and what is said of it at standard error.
pub(crate) fn texts_of(alloc: Global, file: &FileContents) -> Result<(Vec<u8>, Vec<u8>), AllocError>
    ensures { IfOk result (λ texts. (texts.0.items ≡ whole_report file.now)
        × (texts.1.items ≡ warning_of file.now.changed_gate)) }
{
    let report = report_of(alloc, file)?;
    Ok((report, warning_of(alloc, file.changed_gate)?))
}

/// The line of a refusal.
#[tactic(auto, unfolding(crate::specs::Report::refusal_line))]
pub(crate) fn refusal_of(alloc: Global, fault: &FileFault) -> Result<Vec<u8>, AllocError>
    ensures { IfOk result (λ text. text.items ≡ refusal_line fault.now) }
{
    let mut text = Vec::new(alloc);
    text.extend_from_slice(b"error ")?;
    print_number(&mut text, u64::from(fault.code()))?;
    text.extend_from_slice(b" ")?;
    text.extend_from_slice(fault.name().as_bytes())?;
    add_place(&mut text, fault)?;
    text.push(b'\n')?;
    Ok(text)
}

//! One record, by what a file says that has it alone. So what a record may say is told in one
//! place, by `node_file`.

ghost use Rattle.std.specs.Prelude.{◌≡◌, ◌≢◌, ◌⊎◌, ◌∷◌, [], ℕ, List, drop, None, Some, Ok, Err, IfOk, IfErr, IfSome, OnOk};
ghost use Rattle.dvvset.specs.Object.{Entry};
ghost use Rattle.meta_types.specs.Name.{Key};
ghost use Rattle.meta_store.specs.Table.{IsHeld};
ghost use Rattle.node_file.specs.File.{opened, state_or_none};
ghost use Rattle.node_file.specs.Record.{record_in};
ghost use Rattle.node_file.specs.declared.fault.FileFault.{FileFault};
ghost use Rattle.file_pieces.specs.Alone.{IsFront, IsSaid, MayBeHeld, file_alone, version_in};
ghost use Rattle.file_pieces.specs.Framing.{IsFramed};

use devices::MemoryDevice;
use dvvset::Entries;
use meta_store::Store;
use meta_types::{MetaKey, NodeId};
use node_file::{FileFault, MIN_FILE_LEN, Record, open_node};
use std::alloc::{AllocError, Global};

/// The gate behind the last record.
const CLOSED_GATE: u8 = 0;

/// What a file says that was opened.
#[derive(Drop)]
pub(crate) struct Opened {
    pub(crate) node: NodeId,
    pub(crate) life: u32,
    pub(crate) table: Store,
}

/// Opens a file of this front and these records, with a closed gate behind them.
pub(crate) fn open_alone(
    alloc: Global,
    front: &[u8],
    records: &[u8],
    asked: Option<NodeId>,
) -> Result<Opened, FileFault>
    ensures opens { OnOk result ((gate : ℕ) × (opened asked (file_alone front.now records.now)
        ≡ Ok (state_or_none (opened asked (file_alone front.now records.now)), gate))) }
    ensures node { IfOk result (λ r. r.node
        ≡ (state_or_none (opened asked (file_alone front.now records.now))).node) }
    ensures life { IfOk result (λ r. r.life
        ≡ (state_or_none (opened asked (file_alone front.now records.now))).contents.life) }
    ensures table { IfOk result (λ r. r.table
        ≡ (state_or_none (opened asked (file_alone front.now records.now))).contents.table) }
    ensures refused { IfErr result (λ fault. (fault ≡ FileFault.Memory)
        ⊎ (opened asked (file_alone front.now records.now) ≡ Err fault)) }
{
    let mut bytes = Vec::with_capacity(alloc, records.len() + MIN_FILE_LEN)?;
    bytes.extend_from_slice(front)?;
    bytes.extend_from_slice(records)?;
    bytes.push(CLOSED_GATE)?;
    let device = MemoryDevice::new(alloc, bytes)?;
    match open_node(alloc, device, asked) {
        Ok((file, table, life)) => Ok(Opened {
            node: file.node(),
            life,
            table,
        }),
        Err((_, fault)) => Err(fault),
    }
}

/// Returns the only key of a table, with its object; of a table of no key or several keys any, or
/// `None`.
fn only_row(table: &Store) -> Result<Option<(MetaKey, Entries)>, AllocError>
    ensures only { IfOk result (λ row. (key : Key) (object : List Entry)
        → table.now ≡ (key, object) ∷ [] → row ≡ Some (key, object)) }
    ensures held { IfOk result (λ row. IfSome row (λ r. IsHeld r.1)) }
{
    let mut prefixes = table.prefixes()?;
    let Some(prefix) = prefixes.pop() else {
        return Ok(None);
    };
    let mut keys = table.list(&prefix)?;
    let Some(key) = keys.pop() else {
        return Ok(None);
    };
    match table.object(&key) {
        Some(object) => {
            let object = object.copy()?;
            Ok(Some((key, object)))
        }
        None => Ok(None),
    }
}

/// Returns that there is no record, for what the file is refused that has it alone, unless memory
/// ran out.
fn none_for(fault: FileFault) -> Result<Option<Record>, FileFault>
    ensures none { IfOk result (λ read. (fault ≢ FileFault.Memory) × (read ≡ None)) }
    ensures memory { IfErr result (λ e. e ≡ FileFault.Memory) }
{
    match fault {
        FileFault::Memory => Err(FileFault::Memory),
        _ => Ok(None),
    }
}

/// Returns what a record says, of these bytes with its gate; `None` if it isn't whole, or says life
/// 0, which follows no other.
pub(crate) fn read_alone(
    alloc: Global,
    front: &[u8],
    bytes: &[u8],
) -> Result<Option<Record>, FileFault>
    requires front { IsFront front.now }
    requires framed { IsFramed bytes.now }
    ensures value { IfOk result
        (λ read. IsSaid (record_in (version_in front.now) (drop 1 bytes.now)) read) }
    ensures lawful { IfOk result (λ read. IfSome read MayBeHeld) }
    ensures memory { IfErr result (λ fault. fault ≡ FileFault.Memory) }
{
    let opened = match open_alone(alloc, front, bytes, None) {
        Ok(opened) => opened,
        Err(fault) => return none_for(fault),
    };
    if opened.life > 0 {
        return Ok(Some(Record::Life(opened.life)));
    }
    match only_row(&opened.table)? {
        Some((key, object)) => Ok(Some(Record::Object(key, object))),
        None => Ok(None),
    }
}

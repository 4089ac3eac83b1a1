//! Making a node's file, opening it, and beginning the node's next life in it.

ghost use Rattle.std.specs.Prelude.{◌≡◌, ◌⊎◌, ◌+◌, ◌<◌, ◌≤◌, ◌^◌, List, ℕ, [], true, false, length, None, Some, Ok, Err, OnOk, IfOk, IfErr};
ghost use Rattle.devices.specs.Device.{CountsFailure, IsDurable, LeavesNoMore, LeavesOnly};
ghost use Rattle.meta_types.specs.Node.{IsNode};
ghost use Rattle.node_file.specs.Fault.{IsOfDevice};
ghost use Rattle.node_file.specs.File.{empty_file, file_state, IsAppended, new_state, opened, state_with, WithOrWithout};
ghost use Rattle.node_file.specs.Refusal.{refusal_of_serve};
ghost use Rattle.node_file.specs.View.{IsSettled};
ghost use Rattle.node_file.specs.declared.fault.FileFault.{FileFault};
ghost use Rattle.node_file.specs.declared.record.Record.TheVariants.{Life};

use crate::fault::FileFault;
use crate::found::{FRONT_LEN, Found, MAGIC, MIN_FILE_LEN, open_bytes};
use crate::node_file::NodeFile;
use crate::putting::put_record;
use crate::record::{CLOSED_GATE, NewRecord, spell_record};
use devices::{Device, DeviceFault};
use meta_store::Store;
use meta_types::NodeId;
use std::alloc::Global;

/// Makes the device an empty file of the node, whatever it holds. After `Ok` it is durable.
///
/// Refused with 30 `Device` and 99 `Memory`; the device may hold anything then, and has to be made
/// again. It makes three calls of the device: a cut, a write and a sync.
pub fn create<D: Device>(device: D, node: NodeId) -> Result<NodeFile<D>, (D, FileFault)>
    ensures bytes { IfOk result (λ file. D.content file.device ≡ empty_file node) }
    ensures made { IfOk result (λ file. file_state (D.content file.device)
        ≡ new_state node 0 []) }
    ensures settled { IfOk result (λ file. IsSettled D.content D.may_leave file) }
    ensures unserved { IfOk result (λ file. (file.is_stopped ≡ false) × (file.is_served ≡ false)) }
    ensures still { IfOk result (λ file. D.failed file.device ≡ D.failed device) }
    ensures refused { IfErr result (λ e. IsOfDevice e.1 (D.failed device) (D.failed e.0)) }
{
    let mut device = device;
    match write_front(&mut device, node) {
        Ok(()) => Ok(NodeFile::new(device, node, 0, FRONT_LEN, false)),
        Err(fault) => Err((device, FileFault::from(fault))),
    }
}

/// Opens a file that a crash may have left. Returns the file, its table, and the number of its last
/// life, 0 for none. Nothing is written, and a file opened in this way takes no object.
///
/// Refused in this order: 31 `Damaged` for bytes that are no file; 32 `OtherNode`; 31 for the first
/// record that isn't whole, that doesn't say one thing, or whose life doesn't rise; 25 `StoreFull`.
/// 30 `Device` and 99 `Memory` may come at any of them. The device comes back with a refusal.
///
/// It takes memory for the table, and for the bytes of a device that doesn't hold them.
pub fn open_node<D: Device>(
    alloc: Global,
    device: D,
    asked: Option<NodeId>,
) -> Result<(NodeFile<D>, Store, u32), (D, FileFault)>
    requires pending { IsDurable (D.content device) (D.may_leave device) }
    ensures ok { IfOk result (λ r. opened asked (D.content device)
        ≡ Ok (file_state (D.content device), r.0.gate)) }
    ensures table { IfOk result (λ r. r.1 ≡ (file_state (D.content device)).contents.table) }
    ensures life { IfOk result (λ r. r.2 ≡ (file_state (D.content device)).contents.life) }
    ensures settled { IfOk result (λ r. IsSettled D.content D.may_leave r.0) }
    ensures unserved { IfOk result (λ r. (r.0.is_stopped ≡ false) × (r.0.is_served ≡ false)) }
    ensures asked { IfOk result (λ r. (node : ℕ) → asked ≡ Some node → r.0.node ≡ node) }
    ensures same { IfOk result (λ r. D.content r.0.device ≡ D.content device) }
    ensures still { IfOk result (λ r. D.failed r.0.device ≡ D.failed device) }
    ensures refused { IfErr result (λ e. IsOfDevice e.1 (D.failed device) (D.failed e.0)
        ⊎ (opened asked (D.content device) ≡ Err e.1)) }
    ensures same_refused { IfErr result (λ e. (D.content e.0 ≡ D.content device)
        × IsDurable (D.content e.0) (D.may_leave e.0)) }
    ensures any_moment { IfOk result (λ r. LeavesOnly D.moment D.left_since device r.0.device
        (λ c. c ≡ D.content device)) }
    ensures any_moment_refused { IfErr result (λ e. LeavesOnly D.moment D.left_since device e.0
        (λ c. c ≡ D.content device)) }
{
    let mut device = device;
    match find(alloc, &mut device, asked) {
        Err(fault) => Err((device, fault)),
        Ok(found) => {
            device.drop_copy();
            let Found {
                version,
                node,
                contents,
                gate,
            } = found;
            let (life, table) = contents.into_parts();
            Ok((NodeFile::new(device, node, life, gate, false), table, life))
        }
    }
}

/// Opens a file and begins the node's next life in it. Returns the file, its table, and the number
/// of that life, which is greater than each before it in the file. After `Ok` it is durable.
///
/// Refused as `open_node` refuses, and then in this order: 36 `OldVersion`; 35 `IncarnationSpent`,
/// if the last life is 4,294,967,295; 33 `FileFull`; 30 `Device`. With any of these except 30,
/// nothing was written, and the device can be opened again.
///
/// Besides reading, it makes four calls of the device, as `append` does.
pub fn serve<D: Device>(
    alloc: Global,
    device: D,
    asked: Option<NodeId>,
) -> Result<(NodeFile<D>, Store, u32), (D, FileFault)>
    requires pending { IsDurable (D.content device) (D.may_leave device) }
    ensures none { OnOk result (refusal_of_serve asked (D.content device) ≡ None) }
    ensures lives_on { IfOk result (λ r. file_state (D.content r.0.device)
        ≡ state_with (file_state (D.content device)) (Life r.2)) }
    ensures table { IfOk result (λ r. r.1 ≡ (file_state (D.content device)).contents.table) }
    ensures life { IfOk result (λ r. r.2 ≡ (file_state (D.content device)).contents.life + 1) }
    ensures written { IfOk result (λ r. (gate : ℕ)
        × (opened asked (D.content device) ≡ Ok (file_state (D.content device), gate))
        × IsAppended gate (Life r.2) (D.content device) (D.content r.0.device)
        × (r.0.gate ≡ gate + 42)) }
    ensures settled { IfOk result (λ r. IsSettled D.content D.may_leave r.0) }
    ensures asked { IfOk result (λ r. (node : ℕ) → asked ≡ Some node → r.0.node ≡ node) }
    ensures served { IfOk result (λ r. (r.0.is_stopped ≡ false) × (r.0.is_served ≡ true)) }
    ensures still { IfOk result (λ r. D.failed r.0.device ≡ D.failed device) }
    ensures refused { IfErr result (λ e. IsOfDevice e.1 (D.failed device) (D.failed e.0)
        ⊎ (refusal_of_serve asked (D.content device) ≡ Some e.1)) }
    ensures unchanged { IfErr result (λ e. (fault : FileFault)
        → refusal_of_serve asked (D.content device) ≡ Some fault
        → (D.content e.0 ≡ D.content device) × IsDurable (D.content e.0) (D.may_leave e.0)
        × LeavesOnly D.moment D.left_since device e.0 (λ c. c ≡ D.content device)) }
    ensures any_moment { IfOk result (λ r. LeavesOnly D.moment D.left_since device r.0.device
        (WithOrWithout (D.content device)
        (Life ((file_state (D.content device)).contents.life + 1)))) }
    ensures any_moment_refused { IfErr result (λ e. LeavesOnly D.moment D.left_since device e.0
        (WithOrWithout (D.content device)
        (Life ((file_state (D.content device)).contents.life + 1)))) }
{
    let mut device = device;
    match find(alloc, &mut device, asked) {
        Err(fault) => Err((device, fault)),
        Ok(found) => match found.refusal() {
            Some(fault) => Err((device, fault)),
            None => {
                let Found {
                    version,
                    node,
                    contents,
                    gate,
                } = found;
                let (before, table) = contents.into_parts();
                match begin_life(alloc, &mut device, gate, before) {
                    Err(fault) => Err((device, fault)),
                    Ok(gate) => Ok((
                        NodeFile::new(device, node, before + 1, gate, true),
                        table,
                        before + 1,
                    )),
                }
            }
        },
    }
}

/// Puts the record of the life that follows `before` after the closed gate, and returns where the
/// gate stands then.
#[tactic(auto, using(crate::proofs::Appending::life_size))]
fn begin_life<D: Device>(
    alloc: Global,
    device: &mut D,
    gate: usize,
    before: u32,
) -> Result<usize, FileFault>
    requires opens { opened None (D.content device.old)
        ≡ Ok (file_state (D.content device.old), gate) }
    requires version { (file_state (D.content device.old)).version ≡ 2 }
    requires life { (file_state (D.content device.old)).contents.life ≡ before }
    requires lives { before < 4294967295 }
    requires fits { gate + 43 ≤ 2 ^ 40 }
    requires durable { IsDurable (D.content device.old) (D.may_leave device.old) }
    ensures opens { IfOk result (λ end. opened None (D.content device.new)
        ≡ Ok (state_with (file_state (D.content device.old)) (Life (before + 1)), end)) }
    ensures written { OnOk result (IsAppended gate (Life (before + 1))
        (D.content device.old) (D.content device.new)) }
    ensures gate { IfOk result (λ end. end ≡ gate + 42) }
    ensures synced { OnOk result (IsDurable (D.content device.new) (D.may_leave device.new)) }
    ensures still { OnOk result (D.failed device.new ≡ D.failed device.old) }
    ensures refused { IfErr result (λ fault.
        IsOfDevice fault (D.failed device.old) (D.failed device.new)) }
    ensures any_moment { LeavesOnly D.moment D.left_since device.old device.new
        (WithOrWithout (D.content device.old) (Life (before + 1))) }
{
    let record = NewRecord::Life(before + 1);
    let bytes = spell_record(alloc, record)?;
    let spelled = &bytes[1..];
    device.drop_copy();
    put_record(device, gate, record, spelled)?;
    Ok(gate + spelled.len())
}

/// Returns what a device's file stands for.
fn find<D: Device>(alloc: Global, device: &mut D, asked: Option<NodeId>) -> Result<Found, FileFault>
    requires pending { IsDurable (D.content device.old) (D.may_leave device.old) }
    ensures asked { IfOk result (λ f. opened asked (D.content device.old)
        ≡ Ok (file_state (D.content device.old), f.gate)) }
    ensures stands { IfOk result (λ f. file_state (D.content device.old)
        ≡ record { version = f.version; node = f.node; contents = f.contents }) }
    ensures opens { IfOk result (λ f. opened None (D.content device.old)
        ≡ Ok (file_state (D.content device.old), f.gate)) }
    ensures version { IfOk result (λ f. (f.version ≡ 1) ⊎ (f.version ≡ 2)) }
    ensures refused { IfErr result (λ fault.
        IsOfDevice fault (D.failed device.old) (D.failed device.new)
        ⊎ (opened asked (D.content device.old) ≡ Err fault)) }
    ensures same { D.content device.new ≡ D.content device.old }
    ensures durable { IsDurable (D.content device.new) (D.may_leave device.new) }
    ensures any_moment { LeavesOnly D.moment D.left_since device.old device.new
        (λ c. c ≡ D.content device.old) }
    ensures still { OnOk result (D.failed device.new ≡ D.failed device.old) }
    ensures node { IfOk result (λ f. (node : ℕ) → asked ≡ Some node → f.node ≡ node) }
{
    if let Some(bytes) = device.held() {
        return stands_for(alloc, bytes, asked);
    }
    let bytes = read_all(alloc, device)?;
    stands_for(alloc, &bytes, asked)
}

/// Returns what the bytes of a file stand for.
pub(crate) fn stands_for(
    alloc: Global,
    bytes: &[u8],
    asked: Option<NodeId>,
) -> Result<Found, FileFault>
    ensures asked { IfOk result (λ f. opened asked bytes.now ≡ Ok (file_state bytes.now, f.gate)) }
    ensures stands { IfOk result (λ f. file_state bytes.now
        ≡ record { version = f.version; node = f.node; contents = f.contents }) }
    ensures opens { IfOk result (λ f. opened None bytes.now ≡ Ok (file_state bytes.now, f.gate)) }
    ensures version { IfOk result (λ f. (f.version ≡ 1) ⊎ (f.version ≡ 2)) }
    ensures refused { IfErr result (λ fault.
        (fault ≡ FileFault.Memory) ⊎ (opened asked bytes.now ≡ Err fault)) }
    ensures node { IfOk result (λ f. (node : ℕ) → asked ≡ Some node → f.node ≡ node) }
{
    match open_bytes(alloc, bytes, asked) {
        Ok(found) => Ok(found),
        Err(fault) => Err(fault),
    }
}

/// Returns all the bytes of a device.
fn read_all<D: Device>(alloc: Global, device: &mut D) -> Result<Vec<u8>, DeviceFault>
    ensures value { IfOk result (λ bytes. bytes.items ≡ D.content device.old) }
    ensures same { D.content device.new ≡ D.content device.old }
    ensures crash { LeavesNoMore (D.may_leave device.old) (D.may_leave device.new) }
    ensures time { LeavesOnly D.moment D.left_since device.old device.new
        (D.may_leave device.old) }
    ensures cause { CountsFailure (D.failed device.old) (D.failed device.new) result }
{
    let mut bytes = vec![in alloc; 0u8; device.len()]?;
    device.read_at(0, &mut bytes)?;
    Ok(bytes)
}

/// Returns the bytes of a file of the node that has no record, as `create` makes it.
pub fn empty_file(node: NodeId) -> [u8; MIN_FILE_LEN]
    ensures { result ≡ empty_file node }
{
    let number = node.number().to_be_bytes();
    [
        MAGIC[0],
        MAGIC[1],
        MAGIC[2],
        MAGIC[3],
        MAGIC[4],
        MAGIC[5],
        MAGIC[6],
        MAGIC[7],
        number[0],
        number[1],
        CLOSED_GATE,
    ]
}

/// Makes the device an empty file of the node.
pub(crate) fn write_front<D: Device>(device: &mut D, node: NodeId) -> Result<(), DeviceFault>
    ensures made { OnOk result (D.content device.new ≡ empty_file node) }
    ensures synced { OnOk result (IsDurable (D.content device.new) (D.may_leave device.new)) }
    ensures node { IsNode node }
    ensures cause { CountsFailure (D.failed device.old) (D.failed device.new) result }
{
    device.cut(0)?;
    device.write_at(0, &empty_file(node))?;
    device.sync()
}

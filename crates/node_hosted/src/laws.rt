//! Laws of a hosted node and its host's file. The contract of a function is the law; its body does
//! nothing, or reads what the types of its arguments say: that what a node holds is a table, and
//! that what an event has read is a vector.

ghost use Rattle.std.specs.Prelude.{◌≡◌, ◌≢◌, ◌<◌, ◌++◌, List, [], length, ℕ, Option, None, Ok, Some, true};
ghost use Rattle.std.specs.FinMap.{find};
ghost use Rattle.meta_types.specs.Name.{Key};
ghost use Rattle.meta_types.specs.Order.{key_cmp};
ghost use Rattle.dvvset.specs.Object.{Entry};
ghost use Rattle.devices.specs.Calls.{CrashLeaves, CrashLeftSince, DeviceCall, content_after};
ghost use Rattle.node_events.specs.Event.{stored_key};
ghost use Rattle.node_events.specs.declared.event.NodeEvent.{NodeEvent};
ghost use Rattle.node_core.specs.Handling.{key_of_write};
ghost use Rattle.node_file.specs.File.{file_state};
ghost use Rattle.node_hosted.specs.HostFile.{AddsRecordOf, HasAllOf, HasObjectOf, HasRecordOf, IsFileOf, IsStoredIn, OpensWithOrWithout, host_calls};
ghost use Rattle.node_hosted.specs.Hosting.{Acts, BeginsBatch, EndsBatch, HostedParts, KeepsAllButContexts, RefusesActing, Serves, Stores, after_sending};
ghost use Rattle.node_hosted.specs.Lasting.{CanBeServed, GoesOn, IsAcknowledged, IsLeft, Knows, Later, Moment, Restarts};
ghost use Rattle.node_hosted.specs.declared.fault.HostFault.{HostFault};

use crate::node::HostedNode;
use node_core::laws::each_step_grows;
use node_events::NodeEvent;

/// The bytes from which a node is served are its file.
pub fn a_served_node_has_its_file(node: &HostedNode)
    ensures { (asked : Option ℕ) (file : List ℕ)
        → Serves asked file node.now → IsFileOf file node.now }
{
    let _keys = node.state().store().len();
}

/// A step leaves the node its file, and the file can take the record of the step.
pub fn a_step_keeps_the_file(node: &HostedNode, event: &NodeEvent)
    ensures { (file : List ℕ) (old : HostedParts)
        → Acts old event.now node.now → IsFileOf file old → IsFileOf file node.now }
{
    let _keys = node.state().store().len();
    each_step_grows(event);
}

/// A step that is refused leaves the node its file.
pub fn a_refused_step_keeps_the_file()
    ensures { (file : List ℕ) (old new : HostedParts) (event : NodeEvent) (fault : HostFault)
        → RefusesActing old event new fault → IsFileOf file old → IsFileOf file new }
{}

/// Sending, and keeping and forgetting contexts, leave the node its file too.
pub fn sending_and_contexts_keep_the_file()
    ensures sending { (file : List ℕ) (n : HostedParts)
        → IsFileOf file n → IsFileOf file (after_sending n) }
    ensures contexts { (file : List ℕ) (old new : HostedParts)
        → KeepsAllButContexts old new → IsFileOf file old → IsFileOf file new }
{}

/// So do the beginning of a batch and its end.
pub fn batches_keep_the_file()
    ensures begun { (file : List ℕ) (old new : HostedParts)
        → BeginsBatch old (Ok tt) new → IsFileOf file old → IsFileOf file new }
    ensures ended { (file : List ℕ) (old new : HostedParts)
        → EndsBatch old (Ok tt) new → IsFileOf file old → IsFileOf file new }
{}

/// A write of a host who keeps a file leaves a record to store, that of the object then held,
/// behind those of the steps before in the batch. So does a step that keeps a key under which
/// something is held.
pub fn a_write_has_its_record()
    ensures writes { (old new : HostedParts) (event : NodeEvent) (key : Key) (gate : ℕ)
        → Acts old event new → key_of_write event ≡ Some key → old.gate ≡ Some gate
        → AddsRecordOf key old new }
    ensures keeps { (old new : HostedParts) (event : NodeEvent) (key : Key) (gate : ℕ)
        → Acts old event new → stored_key event ≡ Some key → old.gate ≡ Some gate
        → find key_cmp key new.state.table ≢ None → AddsRecordOf key old new }
{}

/// Once the host has stored a record, or all records of a batch, by his four calls, and says so,
/// the file says what it said and then the records. It is the node's file, and every crash until
/// the next call of the file leaves such a file. A crash at any earlier moment leaves the file
/// without the records or with all of them. If the first of the calls fails, he may make it again,
/// any number of times.
pub fn a_stored_record_is_in_the_file()
    ensures { (failures : ℕ) (file : List ℕ) (old new : HostedParts)
        → Stores true old (Ok tt) new → IsFileOf file old → IsStoredIn failures file old new }
{}

/// Once the host has stored the record of a key, alone or in a batch, and until the next call of
/// the file, every crash leaves in it the object that the node holds under the key.
pub fn a_stored_write_is_in_the_file()
    ensures { (failures : ℕ) (file c : List ℕ) (old new : HostedParts) (key : Key)
        → IsFileOf file old → HasRecordOf key old → Stores true old (Ok tt) new
        → CrashLeaves file (host_calls failures old) c → HasObjectOf key new c }
{}

/// **None or all**: if a crash or a failed call breaks off the host's calls, what is left opens as
/// the file did, or with all records that were to be stored. It has all that the file had. The
/// first call may have failed before, any number of times.
pub fn what_is_left_has_all()
    ensures opens { (file c : List ℕ) (n : HostedParts)
        → IsFileOf file n → IsLeft file n c → OpensWithOrWithout file n.to_store c }
    ensures has_all { (file c : List ℕ) (n : HostedParts)
        → IsFileOf file n → IsLeft file n c → HasAllOf (file_state file) (file_state c) }
{}

/// An append ends with a sync. So a crash after further calls leaves what it would leave if they
/// had begun with the appended file.
pub fn later_calls_go_on_from_the_sync()
    ensures { (failures : ℕ) (file c : List ℕ) (n : HostedParts) (later : List DeviceCall)
        → CrashLeftSince file (later ++ host_calls failures n) (length (host_calls failures n)) c
        → CrashLeftSince (content_after file (host_calls failures n)) later 0 c }
{}

/// A node can be served again from its file, unless the file is full or there is no next life.
pub fn a_file_can_be_served_again()
    ensures { (file : List ℕ) (n : HostedParts)
        → IsFileOf file n → CanBeServed n.state.node file }
{}

/// Whatever happens, over all lives, the file stays the node's and has all that it had.
pub fn a_file_and_its_node_go_on()
    ensures { (first last : Moment)
        → IsFileOf first.file first.node → Later first last → GoesOn first last }
{}

/// **No life begins twice**: the life that begins at a restart has a greater number than each life
/// before it whose record the host has stored.
pub fn each_life_is_a_new_one()
    ensures { (first old new : Moment)
        → IsFileOf first.file first.node → first.node.to_store ≡ [] → Later first old
        → Restarts old new → first.node.state.incarnation < new.node.state.incarnation }
{}

/// **No acknowledged write is lost**: once the reply of a write, or a frame after it, has been
/// handed out, file and node know the write, at every later moment of this life and of later lives.
/// So they do each write of a batch, once the reply of the batch, or a frame after it, has been
/// handed out, and what was kept, once the reply of a keeping has been.
pub fn an_acknowledged_write_stays()
    ensures { (key : Key) (object : List Entry) (now last : Moment)
        → IsAcknowledged key object now → Later now last → Knows key object last }
{}

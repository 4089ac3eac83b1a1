//! Steps that name no value. Each is refused with 80 `NoNode`, with 1 `BadName` or 3 `BadNode` for
//! what it names, and then as `HostedNode::act` is.

ghost use Rattle.std.specs.Prelude.{◌≡◌, ◌⊎◌, [], IfOk, IfErr, OnOk};
ghost use Rattle.meta_types.specs.Name.{IsFullPrefix, IsKey};
ghost use Rattle.meta_types.specs.Fault.{code_of};
ghost use Rattle.meta_types.specs.declared.fault.TypeFault.{TypeFault};
ghost use Rattle.node_events.specs.declared.event.NodeEvent.TheVariants.{Changes, Exchange, Hello, Join, Keep, Leave, PeerDown, Read, Take, Tick, Watch};
ghost use Rattle.node_export.specs.Exports.{Answers, AnswersCopied, AnswersNamed, AnswersPeer, Declines, InSlot, StepsOrRefuses, key_named};

use crate::numbers::{NO_NODE, answer_of};
use crate::slot::Slot;
use meta_types::{ByteString, FullPrefix, MetaKey, NodeId, TypeFault};
use node_events::NodeEvent;
use node_hosted::{HostFault, HostedNode};
use std::alloc::Global;

/// Has the node in the slot make the step of an event.
pub(crate) fn act_in(alloc: Global, slot: &mut Slot, event: NodeEvent) -> u16
    ensures { Answers slot.old.handle.held event slot.new.handle.held result }
{
    let acted = slot.with(alloc, |node| answer_of(act_on(node, event)));
    acted.unwrap_or(NO_NODE)
}

/// Makes the step as `HostedNode::act` does, by one clause, as that of a write.
fn act_on(node: &mut HostedNode, event: NodeEvent) -> Result<(), HostFault>
    ensures { StepsOrRefuses event node.old result node.new }
{
    node.act(event)
}

/// Refuses what was asked for, if there is a node in the slot.
fn refuse_in(alloc: Global, slot: &mut Slot, fault: TypeFault) -> u16
    ensures { InSlot (Declines (code_of fault)) slot.old.handle.held slot.new.handle.held result }
{
    let refused = slot.show(alloc, &mut |_| fault.code());
    refused.unwrap_or(NO_NODE)
}

pub(crate) fn key_of(
    alloc: Global,
    prefix: &[u8],
    sub: &[u8],
    key: &[u8],
) -> Result<MetaKey, TypeFault>
    ensures value { IfOk result (λ k. k ≡ key_named prefix.now sub.now key.now) }
    ensures lawful { OnOk result (IsKey (key_named prefix.now sub.now key.now)) }
    ensures refused { IfErr result (λ fault. (fault ≡ TypeFault.Memory)
        ⊎ ((fault ≡ TypeFault.BadName) × (IsKey (key_named prefix.now sub.now key.now) → ⊥))) }
{
    let prefix = FullPrefix::new(prefix.to_vec(alloc)?, sub.to_vec(alloc)?)?;
    MetaKey::new(prefix, key.to_vec(alloc)?)
}

/// Reads a key at the node; `zomtagi_reply` has what it shows. Refused with 80 `NoNode`, 1
/// `BadName`, then as `HostedNode::act` is; 99 `Memory` of a copy may come in place of 34 and 37
/// too.
#[unsafe(no_mangle)]
pub extern "C" fn zomtagi_read(
    alloc: Global,
    slot: &mut Slot,
    prefix: &[u8],
    sub: &[u8],
    key: &[u8],
) -> u16
    ensures { InSlot (AnswersNamed (IsKey (key_named prefix.now sub.now key.now))
        (Read (key_named prefix.now sub.now key.now)))
        slot.old.handle.held slot.new.handle.held result }
{
    match key_of(alloc, prefix, sub, key) {
        Ok(key) => act_in(alloc, slot, NodeEvent::Read { key }),
        Err(fault) => refuse_in(alloc, slot, fault),
    }
}

/// Has what is held under the key stored. Refused as `zomtagi_read` is.
#[unsafe(no_mangle)]
pub extern "C" fn zomtagi_keep(
    alloc: Global,
    slot: &mut Slot,
    prefix: &[u8],
    sub: &[u8],
    key: &[u8],
) -> u16
    ensures { InSlot (AnswersNamed (IsKey (key_named prefix.now sub.now key.now))
        (Keep (key_named prefix.now sub.now key.now)))
        slot.old.handle.held slot.new.handle.held result }
{
    match key_of(alloc, prefix, sub, key) {
        Ok(key) => act_in(alloc, slot, NodeEvent::Keep { key }),
        Err(fault) => refuse_in(alloc, slot, fault),
    }
}

/// Hands the node bytes that should be a frame for it. The word is a random number. Refused with 80
/// `NoNode`, then as `HostedNode::act` is; 99 `Memory` of a copy may come in place of 34 and 37
/// too.
#[unsafe(no_mangle)]
pub extern "C" fn zomtagi_take(alloc: Global, slot: &mut Slot, frame: &[u8], word: u64) -> u16
    ensures { InSlot (AnswersCopied (Take frame.now word))
        slot.old.handle.held slot.new.handle.held result }
{
    match frame.to_vec(alloc) {
        Ok(frame) => {
            let frame = ByteString::new(frame);
            act_in(alloc, slot, NodeEvent::Take { frame, word })
        }
        Err(_) => refuse_in(alloc, slot, TypeFault::Memory),
    }
}

/// Lets time pass. Refused with 80 `NoNode`, then as `HostedNode::act` is.
#[unsafe(no_mangle)]
pub extern "C" fn zomtagi_tick(alloc: Global, slot: &mut Slot, word: u64) -> u16
    ensures { Answers slot.old.handle.held (Tick word) slot.new.handle.held result }
{
    act_in(alloc, slot, NodeEvent::Tick { word })
}

/// Lets the node join the cluster through a contact. Refused with 80 `NoNode`, 3 `BadNode`, then as
/// `HostedNode::act` is.
#[unsafe(no_mangle)]
pub extern "C" fn zomtagi_join(alloc: Global, slot: &mut Slot, contact: u16, word: u64) -> u16
    ensures { InSlot (AnswersPeer contact (Join contact word))
        slot.old.handle.held slot.new.handle.held result }
{
    match NodeId::new(contact) {
        Ok(contact) => act_in(alloc, slot, NodeEvent::Join { contact, word }),
        Err(fault) => refuse_in(alloc, slot, fault),
    }
}

/// Tells the node that a peer doesn't answer. Refused as `zomtagi_join` is.
#[unsafe(no_mangle)]
pub extern "C" fn zomtagi_peer_down(alloc: Global, slot: &mut Slot, peer: u16, word: u64) -> u16
    ensures { InSlot (AnswersPeer peer (PeerDown peer word))
        slot.old.handle.held slot.new.handle.held result }
{
    match NodeId::new(peer) {
        Ok(peer) => act_in(alloc, slot, NodeEvent::PeerDown { peer, word }),
        Err(fault) => refuse_in(alloc, slot, fault),
    }
}

/// Begins an exchange of the node with a peer. Refused as `zomtagi_join` is.
#[unsafe(no_mangle)]
pub extern "C" fn zomtagi_exchange(alloc: Global, slot: &mut Slot, peer: u16) -> u16
    ensures { InSlot (AnswersPeer peer (Exchange peer))
        slot.old.handle.held slot.new.handle.held result }
{
    match NodeId::new(peer) {
        Ok(peer) => act_in(alloc, slot, NodeEvent::Exchange { peer }),
        Err(fault) => refuse_in(alloc, slot, fault),
    }
}

/// Lets the node tell a peer which life it is in. Refused as `zomtagi_join` is.
#[unsafe(no_mangle)]
pub extern "C" fn zomtagi_hello(alloc: Global, slot: &mut Slot, peer: u16) -> u16
    ensures { InSlot (AnswersPeer peer (Hello peer))
        slot.old.handle.held slot.new.handle.held result }
{
    match NodeId::new(peer) {
        Ok(peer) => act_in(alloc, slot, NodeEvent::Hello { peer }),
        Err(fault) => refuse_in(alloc, slot, fault),
    }
}

/// Lets the node leave the cluster. Refused as `zomtagi_tick` is.
#[unsafe(no_mangle)]
pub extern "C" fn zomtagi_leave(alloc: Global, slot: &mut Slot) -> u16
    ensures { Answers slot.old.handle.held Leave slot.new.handle.held result }
{
    act_in(alloc, slot, NodeEvent::Leave)
}

/// Begins a watch of the changes under a full prefix, which notes the last `capacity` of them.
/// Refused as `zomtagi_read` is.
#[unsafe(no_mangle)]
pub extern "C" fn zomtagi_watch(
    alloc: Global,
    slot: &mut Slot,
    prefix: &[u8],
    sub: &[u8],
    capacity: usize,
) -> u16
    ensures { InSlot (AnswersNamed (IsFullPrefix (key_named prefix.now sub.now []).prefix)
        (Watch (key_named prefix.now sub.now []).prefix capacity))
        slot.old.handle.held slot.new.handle.held result }
{
    match prefix_of(alloc, prefix, sub) {
        Ok(prefix) => act_in(alloc, slot, NodeEvent::Watch { prefix, capacity }),
        Err(fault) => refuse_in(alloc, slot, fault),
    }
}

pub(crate) fn prefix_of(alloc: Global, prefix: &[u8], sub: &[u8]) -> Result<FullPrefix, TypeFault>
    ensures value { IfOk result (λ p. p ≡ (key_named prefix.now sub.now []).prefix) }
    ensures lawful { OnOk result (IsFullPrefix (key_named prefix.now sub.now []).prefix) }
    ensures refused { IfErr result (λ fault. (fault ≡ TypeFault.Memory)
        ⊎ ((fault ≡ TypeFault.BadName)
        × (IsFullPrefix (key_named prefix.now sub.now []).prefix → ⊥))) }
{
    FullPrefix::new(prefix.to_vec(alloc)?, sub.to_vec(alloc)?)
}

/// Has the watch of that number hand out what it has noted. Refused as `zomtagi_tick` is.
#[unsafe(no_mangle)]
pub extern "C" fn zomtagi_changes(alloc: Global, slot: &mut Slot, number: u64) -> u16
    ensures { Answers slot.old.handle.held (Changes number) slot.new.handle.held result }
{
    act_in(alloc, slot, NodeEvent::Changes { number })
}

//! A node that does what its plan has next. The program keeps the plan in a slot of its own.

ghost use Rattle.std.specs.Prelude.{◌≡◌, ◌≢◌, ◌⊎◌, ◌<◌, Some, None, Err, IfSome, IfNone};
ghost use Rattle.driver.specs.Driving.{Drives, OfFailure, OfFrame, driver_of};
ghost use Rattle.driver.specs.Plan.{new_plan};
ghost use Rattle.node_hosted.specs.declared.fault.HostFault.{HostFault};
ghost use Rattle.node_export.specs.Driving.{AddsMember, AddsOrRefuses, BadPeer, DrivesAs, DrivesCopied, DrivesPeer, DrivesTimeAs, InBoth, LacksOne, RemovesMember, RemovesOrRefuses, TellsWake, answer_of_own};

use crate::numbers::{NO_NODE, OK, answer_of};
use crate::plan_slot::PlanSlot;
use crate::slot::Slot;
use driver::{Driven, Pace, Plan, add_member, on_failure, on_frame, on_time, wake};
use meta_types::{ByteString, NodeId, TypeFault};
use node_hosted::{HostFault, HostedNode};
use std::alloc::Global;

/// Puts a plan without members into its slot, whose first tick is due now, and frees the one that
/// was there. All times are in milliseconds; ticks are `tick` apart, and a member that sent nothing
/// for `quiet` counts as down. Refused with 99 `Memory`.
#[unsafe(no_mangle)]
pub extern "C" fn zomtagi_plan_begin(
    alloc: Global,
    plan: &mut PlanSlot,
    now: u64,
    tick: u64,
    quiet: u64,
) -> u16
    ensures begun { result ≡ OK → plan.new.handle.held
        ≡ Some (new_plan (record { tick = tick; quiet = quiet }) now) }
    ensures kept { result ≢ OK → plan.new.handle.held ≡ plan.old.handle.held }
    ensures refused { (result ≡ OK) ⊎ (result ≡ 99) }
{
    match Box::new(alloc, Plan::new(alloc, Pace { tick, quiet }, now)) {
        Ok(begun) => {
            plan.put(begun);
            OK
        }
        Err(_) => TypeFault::Memory.code(),
    }
}

/// Frees the plan in its slot, if there is one.
#[unsafe(no_mangle)]
pub extern "C" fn zomtagi_plan_end(alloc: Global, plan: &mut PlanSlot)
    ensures { plan.new.handle.held ≡ None }
{
    drop(plan.take(alloc));
}

/// Makes another node a member of the plan, unless it is one already, or is the node itself.
/// Refused with 80 `NoNode`, also without a plan, 3 `BadNode` and 99 `Memory`.
#[unsafe(no_mangle)]
pub extern "C" fn zomtagi_plan_add(
    alloc: Global,
    slot: &mut Slot,
    plan: &mut PlanSlot,
    now: u64,
    member: u16,
) -> u16
    ensures { InBoth (AddsMember now member) slot.old.handle.held plan.old.handle.held
        slot.new.handle.held plan.new.handle.held result }
{
    let Some((node, mut its)) = take_both(alloc, slot, plan) else {
        return NO_NODE;
    };
    let answer = answer_of(add(&node, &mut its, now, member));
    slot.put(node);
    plan.put(its);
    answer
}

fn add(node: &HostedNode, plan: &mut Plan, now: u64, member: u16) -> Result<(), HostFault>
    ensures { AddsOrRefuses now member node.now plan.old result plan.new }
{
    let member = NodeId::new(member)?;
    add_member(node, plan, now, member)?;
    Ok(())
}

/// Takes a member out of the plan, if it is one. Refused with 80 `NoNode` without a plan, and 3
/// `BadNode`.
#[unsafe(no_mangle)]
pub extern "C" fn zomtagi_plan_remove(alloc: Global, plan: &mut PlanSlot, member: u16) -> u16
    ensures { RemovesMember member plan.old.handle.held plan.new.handle.held result }
{
    let Some(mut its) = plan.take(alloc) else {
        return NO_NODE;
    };
    let answer = answer_of(remove(&mut its, member));
    plan.put(its);
    answer
}

fn remove(plan: &mut Plan, member: u16) -> Result<(), HostFault>
    ensures { RemovesOrRefuses member plan.old result plan.new }
{
    let member = NodeId::new(member)?;
    plan.remove(member);
    Ok(())
}

/// Tells from when on the plan has something for the node to do, if nothing happens before. Refused
/// with 80 `NoNode`, also without a plan.
#[unsafe(no_mangle)]
pub extern "C" fn zomtagi_plan_wake(
    alloc: Global,
    slot: &mut Slot,
    plan: &mut PlanSlot,
    at: &mut u64,
) -> u16
    ensures tells { InBoth (TellsWake at.new) slot.old.handle.held plan.old.handle.held
        slot.new.handle.held plan.new.handle.held result }
    ensures kept { result ≢ OK → at.new ≡ at.old }
{
    let Some((node, its)) = take_both(alloc, slot, plan) else {
        return NO_NODE;
    };
    *at = wake(&node, &its);
    slot.put(node);
    plan.put(its);
    OK
}

/// Has the node do what its plan has next, as `driver::on_time` does: call it once the time that
/// `zomtagi_plan_wake` tells has come. The word is a random number. Refused with 80 `NoNode`, also
/// without a plan, then as `on_time` is.
#[unsafe(no_mangle)]
pub extern "C" fn zomtagi_drive_time(
    alloc: Global,
    slot: &mut Slot,
    plan: &mut PlanSlot,
    now: u64,
    word: u64,
) -> u16
    ensures { InBoth (DrivesTimeAs now word) slot.old.handle.held plan.old.handle.held
        slot.new.handle.held plan.new.handle.held result }
{
    let Some((mut node, mut its)) = take_both(alloc, slot, plan) else {
        return NO_NODE;
    };
    let answer = answer_of(on_time(&mut node, &mut its, now, word));
    slot.put(node);
    plan.put(its);
    answer
}

/// Has the node do what its plan has next, and hands it bytes that should be a frame for it, as
/// `driver::on_frame` does. Refused with 80 `NoNode`, also without a plan, then as `on_frame` is;
/// 99 `Memory` of a copy may come in place of 34 and 37 too.
#[unsafe(no_mangle)]
pub extern "C" fn zomtagi_drive_frame(
    alloc: Global,
    slot: &mut Slot,
    plan: &mut PlanSlot,
    now: u64,
    frame: &[u8],
    word: u64,
) -> u16
    ensures { InBoth (DrivesCopied now word (OfFrame frame.now))
        slot.old.handle.held plan.old.handle.held slot.new.handle.held plan.new.handle.held
        result }
{
    let Some((mut node, mut its)) = take_both(alloc, slot, plan) else {
        return NO_NODE;
    };
    let answer = answer_of_own(take_copy(alloc, &mut node, &mut its, now, frame, word));
    slot.put(node);
    plan.put(its);
    answer
}

fn take_copy(
    alloc: Global,
    node: &mut HostedNode,
    plan: &mut Plan,
    now: u64,
    frame: &[u8],
    word: u64,
) -> Result<Driven, HostFault>
    ensures { Drives now word (OfFrame frame.now) (driver_of node.old plan.old) result
        (driver_of node.new plan.new)
        ⊎ ((result ≡ Err HostFault.Memory) × (node.new ≡ node.old) × (plan.new ≡ plan.old)) }
{
    let frame = ByteString::new(frame.to_vec(alloc)?);
    on_frame(node, plan, now, frame, word)
}

/// Has the node do what its plan has next, and tells it that a peer is down, a link to which
/// failed, as `driver::on_failure` does. Refused with 80 `NoNode`, also without a plan, 3
/// `BadNode`, then as `on_failure` is.
#[unsafe(no_mangle)]
pub extern "C" fn zomtagi_drive_failure(
    alloc: Global,
    slot: &mut Slot,
    plan: &mut PlanSlot,
    now: u64,
    peer: u16,
    word: u64,
) -> u16
    ensures { InBoth (DrivesPeer peer now word (OfFailure peer))
        slot.old.handle.held plan.old.handle.held slot.new.handle.held plan.new.handle.held
        result }
{
    let Some((mut node, mut its)) = take_both(alloc, slot, plan) else {
        return NO_NODE;
    };
    let answer = answer_of_own(fail(&mut node, &mut its, now, peer, word));
    slot.put(node);
    plan.put(its);
    answer
}

fn fail(
    node: &mut HostedNode,
    plan: &mut Plan,
    now: u64,
    peer: u16,
    word: u64,
) -> Result<Driven, HostFault>
    ensures lawful { peer < 16 → Drives now word (OfFailure peer)
        (driver_of node.old plan.old) result (driver_of node.new plan.new) }
    ensures unlawful { (peer < 16 → ⊥) → BadPeer node.old plan.old result node.new plan.new }
{
    let peer = NodeId::new(peer)?;
    on_failure(node, plan, now, peer, word)
}

/// Returns the number that says how it ended what a call is made for.
fn answer_of_own(outcome: Result<Driven, HostFault>) -> u16
    ensures { result ≡ answer_of_own outcome }
{
    match outcome {
        Ok(
            Driven {
                worked: _worked,
                own,
            },
        ) => answer_of(own),
        Err(fault) => fault.code(),
    }
}

/// Takes the node and the plan out of their slots, if both are there.
fn take_both(
    alloc: Global,
    slot: &mut Slot,
    plan: &mut PlanSlot,
) -> Option<(Box<HostedNode>, Box<Plan>)>
    ensures taken { IfSome result (λ both. (slot.old.handle.held ≡ Some both.0.value)
        × (plan.old.handle.held ≡ Some both.1.value)) }
    ensures none { IfNone result (LacksOne slot.old.handle.held plan.old.handle.held
        slot.new.handle.held plan.new.handle.held) }
{
    let node = slot.take(alloc)?;
    let Some(its) = plan.take(alloc) else {
        slot.put(node);
        return None;
    };
    Some((node, its))
}

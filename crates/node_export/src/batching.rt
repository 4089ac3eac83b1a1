//! Batches: steps whose records the program stores at once.

ghost use Rattle.node_hosted.specs.Hosting.{BeginsBatch, EndsBatch};
ghost use Rattle.node_export.specs.Exports.{AnswersAs, InSlot};

use crate::numbers::{NO_NODE, answer_of};
use crate::slot::Slot;
use std::alloc::Global;

/// Begins a batch of the node, as `HostedNode::begin_batch` does. Refused with 80 `NoNode`, 34
/// `Stopped` and 37 `Pending`.
#[unsafe(no_mangle)]
pub extern "C" fn zomtagi_begin_batch(alloc: Global, slot: &mut Slot) -> u16
    ensures { InSlot (AnswersAs BeginsBatch) slot.old.handle.held slot.new.handle.held result }
{
    let begun = slot.with(alloc, |node| answer_of(node.begin_batch()));
    begun.unwrap_or(NO_NODE)
}

/// Ends the batch of the node. Refused with 80 `NoNode`, 34 `Stopped` and 38 `Nothing`.
#[unsafe(no_mangle)]
pub extern "C" fn zomtagi_end_batch(alloc: Global, slot: &mut Slot) -> u16
    ensures { InSlot (AnswersAs EndsBatch) slot.old.handle.held slot.new.handle.held result }
{
    let ended = slot.with(alloc, |node| answer_of(node.end_batch()));
    ended.unwrap_or(NO_NODE)
}

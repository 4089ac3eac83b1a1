//! Laws of steps. The contract of a function is the law; its body does nothing.

ghost use Rattle.std.specs.Prelude.{◌≡◌};
ghost use Rattle.std.specs.Option.{option_copied};
ghost use Rattle.node_core.specs.Growing.{EachStepGrows, HeldIsKept, OnlyReadsHandOut, context_of_write};
ghost use Rattle.node_core.specs.Leaving.{EachStepLeaves};
ghost use Rattle.node_core.specs.Run.{EachStepCounts, EventsDetermineARun, NoEventHasTwoOutcomes};
ghost use Rattle.node_core.specs.Run.{RunsGoOn, RunsJoinAndSplit};

use meta_store::Context;
use node_events::NodeEvent;

/// What a node is and the event determine the outcome.
pub fn no_event_has_two_outcomes()
    ensures { NoEventHasTwoOutcomes }
{}

/// A run is one step after another, and has one end.
pub fn runs_go_on()
    ensures { RunsGoOn }
{}

/// Two runs of the same events from the same node are the same run.
pub fn events_determine_a_run()
    ensures { EventsDetermineARun }
{}

/// A run can be cut at any place, and runs that meet are one.
pub fn runs_join_and_split()
    ensures { RunsJoinAndSplit }
{}

/// The node and its life stay, and its steps and frames are counted.
pub fn each_step_counts()
    ensures { EachStepCounts }
{}

/// A step holds what its event says, and what it sends is lawful and carries what is held then.
pub fn what_a_step_leaves()
    ensures { EachStepLeaves }
{}

/// The event changes the object under one key at most. The reply to a write is the vector of that
/// object, whose newest value of the writer is the one that was written. Each object descends the
/// one that was there.
pub fn each_step_grows(event: &NodeEvent)
    ensures { EachStepGrows event.now }
{
    // (for its type)
    match context_of_write(event) {
        Some(context) => {
            let _counters = context.vector().counters();
        }
        None => {}
    }
}

/// The context that a write brings.
fn context_of_write(event: &NodeEvent) -> Option<&Context>
    ensures { option_copied result ≡ context_of_write event.now }
{
    match event {
        NodeEvent::Write { context, .. } => context.as_ref(),
        _ => None,
    }
}

/// A key once held stays held.
pub fn what_is_held_is_kept()
    ensures { HeldIsKept }
{}

/// Only a read hands out a context.
pub fn only_reads_hand_out_a_context()
    ensures { OnlyReadsHandOut }
{}

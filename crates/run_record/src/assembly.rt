//! The world that all journals tell of.

ghost use Rattle.std.specs.Prelude.{◌≡◌, length, All, IfOk, IfErr, OnOk};
ghost use Rattle.node_journal.specs.Closed.{AreWhole};
ghost use Rattle.run_record.specs.Order.{IsOrder};
ghost use Rattle.run_record.specs.Record.{HoldsJournals, HoldsTables, IsKept, IsOfARun, Refuses, ShowWhatIsKnown};
ghost use Rattle.run_record.specs.Replay.{RefusesReplay};

use crate::checks::{check_receipts, check_tables};
use crate::fault::RecordFault;
use crate::hint::Hints;
use crate::order::{Turn, find_order};
use crate::replay::Replay;
use crate::sending::find_all_sent;
use node_journal::{Closed, Receipt};
use std::alloc::Global;
use world_core::World;

/// Returns the world in which all entries were made, in this order.
fn replayed(alloc: Global, closed: &[Closed], order: &[Turn]) -> Result<World, RecordFault>
    requires whole { AreWhole closed.now }
    requires order { IsOrder closed.now order.now }
    ensures run { IfOk result (IsOfARun (length closed.now)) }
    ensures journals { IfOk result (HoldsJournals closed.now) }
    ensures nodes { IfOk result (λ w. length w.nodes ≡ length closed.now) }
    ensures err { IfErr result (RefusesReplay closed.now) }
{
    let mut replay = Replay::begin(alloc, closed)?;
    replay.make_all(closed, order)?;
    Ok(replay.into_world())
}

/// Puts the journals of nodes 0, 1 and so on together, and returns the world that they tell of. Its
/// accepted events, node by node, are the journals, with all replies and frames. Each of its nodes
/// holds the table that the node was closed with, which shows what the node knows by the one
/// history of all.
///
/// Refused in this order: 60 `Unsent`, 61 `Stuck`, 62 `Unequal`, 63 `StrangeReceipt`, as
/// `RecordFault` says of each. 99 `Memory` may come at any time. Journals that came of a run of a
/// world, with receipts of their entries, are refused only when memory runs out
/// (`laws::a_run_has_no_cause`). The one exception is 60 for a write that has read what a `PutOver`
/// was shown, whose reply hands no context out: nodes that are driven through the replay of a world
/// can name that read. That what threads did is a run of a world no contract can say.
///
/// It takes memory for the world, which holds a copy of each event and frame, for a number, a turn
/// and a mark of each entry, and time for each entry once, as long as the journals are those of
/// nodes.
pub fn assemble(
    alloc: Global,
    closed: &[Closed],
    receipts: &[Receipt],
) -> Result<World, RecordFault>
    requires { AreWhole closed.now }
    ensures run { IfOk result (IsOfARun (length closed.now)) }
    ensures journals { IfOk result (HoldsJournals closed.now) }
    ensures tables { IfOk result (HoldsTables closed.now) }
    ensures shows { IfOk result (ShowWhatIsKnown closed.now) }
    ensures receipts { OnOk result (All (IsKept closed.now) receipts.now) }
    ensures refused { IfErr result (Refuses closed.now receipts.now) }
{
    let hints = Hints::new(alloc, closed)?;
    find_all_sent(alloc, closed, &hints)?;
    let order = find_order(alloc, closed, &hints)?;
    drop(hints); // a number for each entry, which the world doesn't need
    let world = replayed(alloc, closed, order.as_slice())?;
    check_tables(closed, &world)?;
    check_receipts(closed, receipts)?;
    Ok(world)
}

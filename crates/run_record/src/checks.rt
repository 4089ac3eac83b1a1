//! Checks of tables and receipts.

ghost use Rattle.std.specs.Prelude.{◌≡◌, ◌↔◌, length, All, IfErr, IsTrue, OnOk};
ghost use Rattle.node_journal.specs.Closed.{AreWhole};
ghost use Rattle.run_record.specs.Journals.{last_table};
ghost use Rattle.run_record.specs.Record.{AllRanAsTold, HoldsJournals, HoldsTables, IsKept, ShowWhatIsKnown};
ghost use Rattle.run_record.specs.Replay.{RefusesReceipts, RefusesReplay};

use crate::fault::RecordFault;
use crate::{journal_of, last_table};
use meta_store::Store;
use node_core::laws::runs_go_on;
use node_journal::{Closed, Receipt};
use world_core::World;

fn are_same(one: &Store, other: &Store) -> bool
    ensures { IsTrue result ↔ (one.now ≡ other.now) }
{
    one == other
}

/// Returns whether this is the table that the node was closed with.
fn is_table_of(closed: &[Closed], node: usize, held: &Store) -> bool
    ensures { IsTrue result ↔ (held.now ≡ last_table closed.now node) }
{
    match last_table(closed, node) {
        Some(table) => are_same(held, table),
        None => held.is_empty(),
    }
}

/// Refuses a world in which a node doesn't hold the table that it was closed with.
pub(crate) fn check_tables(closed: &[Closed], world: &World) -> Result<(), RecordFault>
    requires journals { HoldsJournals closed.now world.now }
    requires nodes { length world.now.nodes ≡ length closed.now }
    requires whole { AreWhole closed.now }
    ensures ok { OnOk result (HoldsTables closed.now world.now) }
    ensures ran { OnOk result (AllRanAsTold closed.now) }
    ensures shows { OnOk result (ShowWhatIsKnown closed.now world.now) }
    ensures err { IfErr result (RefusesReplay closed.now) }
{
    runs_go_on();
    for node in 0..closed.len() {
        match world.state(node as u64) {
            Some(state) => {
                if !is_table_of(closed, node, state.store()) {
                    return Err(RecordFault::Unequal { node });
                }
            }
            None => unreachable!(),
        }
    }
    Ok(())
}

/// Returns whether the entry of the receipt is that of the journal, at its place.
fn is_kept(closed: &[Closed], receipt: &Receipt) -> bool
    ensures { IsTrue result ↔ IsKept closed.now receipt.now }
{
    let journal = journal_of(closed, usize::from(receipt.node.number()));
    match usize::try_from(receipt.place) {
        Ok(place) => journal
            .get(place)
            .is_some_and(|entry| *entry == receipt.entry),
        Err(_) => false,
    }
}

/// Refuses a receipt that is of no entry.
pub(crate) fn check_receipts(closed: &[Closed], receipts: &[Receipt]) -> Result<(), RecordFault>
    ensures ok { OnOk result (All (IsKept closed.now) receipts.now) }
    ensures err { IfErr result (RefusesReceipts closed.now receipts.now) }
{
    for receipt in receipts {
        if !is_kept(closed, receipt) {
            return Err(RecordFault::StrangeReceipt);
        }
    }
    Ok(())
}

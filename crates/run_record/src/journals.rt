//! Journals and tables by the number of the node.

ghost use Rattle.std.specs.Prelude.{◌≡◌, IfSome, IsNone, []};
ghost use Rattle.run_record.specs.Journals.{journal_of, last_table};

use meta_store::Store;
use node_journal::{Closed, Entry};

/// Returns the journal of the node of this number, or no entry if there is no such node.
pub fn journal_of(closed: &[Closed], number: usize) -> &[Entry]
    ensures { result.now ≡ journal_of closed.now number }
{
    for one in closed {
        if usize::from(one.node().number()) == number {
            return one.journal();
        }
    }
    &[]
}

/// Returns what the node of this number held at the end, if it is there.
pub fn last_table(closed: &[Closed], number: usize) -> Option<&Store>
    ensures some { IfSome result (λ table. table.now ≡ last_table closed.now number) }
    ensures none { IsNone result → last_table closed.now number ≡ [] }
{
    for one in closed {
        if usize::from(one.node().number()) == number {
            return Some(one.table());
        }
    }
    None
}

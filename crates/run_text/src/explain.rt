//! A line for each thing that is wrong.

use crate::difference::add_difference;
use crate::needed::{add_ungiven, add_waiting};
use node_journal::{Closed, Entry, Receipt};
use printing::print_number;
use run_record::{Place, RecordFault, journal_of};
use std::alloc::{AllocError, Global};

/// Adds which call of which node it is, as `node 1, call 3: `.
pub(crate) fn add_call(text: &mut Vec<u8>, at: Place) -> Result<(), AllocError> {
    text.extend_from_slice(b"node ")?;
    print_number(text, at.node as u64)?;
    text.extend_from_slice(b", call ")?;
    print_number(text, (at.place as u64).saturating_add(1))?;
    text.extend_from_slice(b": ")
}

pub(crate) fn entry_at(closed: &[Closed], at: Place) -> Option<&Entry> {
    journal_of(closed, at.node).get(at.place)
}

/// Returns why `assemble` refused these journals and receipts with this fault, with a line for each
/// thing that is wrong: of 60 what was needed and by whom, of 61 what each place waits for and who
/// gives it, of 62 the first call of the node that differs from what a node does, with both sides,
/// or its table, and of 63 the first receipt that is of no entry. Nothing is said of 99.
///
/// It takes memory for the text, and for one node. Fails only when memory runs out.
pub fn explain_fault(
    alloc: Global,
    closed: &[Closed],
    receipts: &[Receipt],
    fault: &RecordFault,
) -> Result<Vec<u8>, AllocError> {
    let mut text = Vec::new(alloc);
    match fault {
        RecordFault::Unsent(at) => add_ungiven(&mut text, closed, *at)?,
        RecordFault::Stuck { places } => {
            for at in places {
                add_waiting(&mut text, closed, *at)?;
            }
        }
        RecordFault::Unequal { node } => add_difference(alloc, &mut text, closed, *node)?,
        RecordFault::StrangeReceipt => add_strange(&mut text, closed, receipts)?,
        RecordFault::Memory => {}
    }
    Ok(text)
}

/// Adds the first receipt that is of no entry.
fn add_strange(
    text: &mut Vec<u8>,
    closed: &[Closed],
    receipts: &[Receipt],
) -> Result<(), AllocError> {
    for receipt in receipts {
        let at = Place {
            node: usize::from(receipt.node.number()),
            place: receipt.place as usize,
        };
        match entry_at(closed, at) {
            Some(entry) if *entry == receipt.entry => {}
            Some(_) => {
                add_call(text, at)?;
                return text.extend_from_slice(b"a receipt tells another entry than the journal\n");
            }
            None => {
                add_call(text, at)?;
                return text.extend_from_slice(
                    b"a receipt tells of it, and the journal ends before\n",
                );
            }
        }
    }
    Ok(())
}

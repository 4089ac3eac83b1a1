//! What the calls returned, beside what the node left.

use crate::storm::looking::Looks;
use crate::storm::raised::{EACH, Left};
use crate::storm::writing::Answers;
use node_lock::{Closed, Receipt};
use std::alloc::{AllocError, Global};

/// Returns whether each writer wrote, and none was refused.
pub(crate) fn all_wrote(answers: &[Answers]) -> bool {
    answers.len() == EACH
        && answers
            .iter()
            .all(|one| one.writes > 0 && one.trouble.is_none())
}

/// Returns whether each reader looked, none was refused, and none was shown less than before.
pub(crate) fn all_looked(looks: &[Looks]) -> bool {
    looks.len() == EACH
        && looks
            .iter()
            .all(|one| one.count > 0 && one.trouble.is_none())
}

/// Returns how many writes were acknowledged in sum.
pub(crate) fn writes_of(answers: &[Answers]) -> u64 {
    let mut sum = 0u64;
    for one in answers {
        sum = sum.saturating_add(one.writes);
    }
    sum
}

/// Returns whether the node counted as many steps as writes were acknowledged.
pub(crate) fn counts_agree(left: &Left) -> bool {
    let steps = left.closed.base().steps();
    let entries = left.closed.journal().len() as u64;
    steps.saturating_add(entries) == writes_of(left.answers.as_slice())
}

/// Returns whether each receipt equals the entry at its place, and each entry has one receipt.
/// Receipts of entries that were cut off the journal have none to be compared with.
pub(crate) fn receipts_equal_entries(alloc: Global, left: &Left) -> Result<bool, AllocError> {
    let mut has_receipt = vec![in alloc; false; left.closed.journal().len()]?;
    for one in left.answers.iter() {
        if !all_equal(
            &left.closed,
            one.receipts.as_slice(),
            has_receipt.as_mut_slice(),
        ) {
            return Ok(false);
        }
    }
    Ok(has_receipt.iter().all(|has| *has))
}

/// Returns whether each of these receipts equals the entry at its place, which had none before.
fn all_equal(closed: &Closed, receipts: &[Receipt], has_receipt: &mut [bool]) -> bool {
    for receipt in receipts {
        if !equals_entry(closed, receipt, has_receipt) {
            return false;
        }
    }
    true
}

fn equals_entry(closed: &Closed, receipt: &Receipt, has_receipt: &mut [bool]) -> bool {
    let Some(place) = receipt.place.checked_sub(closed.base().steps()) else {
        return true;
    };
    let place = place as usize;
    match (closed.journal().get(place), has_receipt.get_mut(place)) {
        (Some(entry), Some(has)) => {
            let is_first = !*has;
            *has = true;
            is_first && receipt.node == closed.node() && receipt.entry == *entry
        }
        _ => false,
    }
}

//! Answers of nodes.

use crate::fault::RowFault;
use crate::journals::closing::arrange;
use crate::journals::driver::Nodes;
use crate::journals::print::add_told;
use crate::journals::trial::{Handed, Question, Receipted};
use node_journal::{Closed, Receipt};
use std::alloc::{AllocError, Global};

/// Adds the answer to a question.
pub fn add_answer(nodes: &Nodes, question: &Question, text: &mut String) -> Result<(), RowFault> {
    match question {
        Question::Assembling(handed) => add_assembled(nodes, handed, text),
        Question::Whole { node, count } => add_whole(nodes, *node, *count, text),
    }
}

/// Hands in the nodes, and adds what comes of putting their journals together.
fn add_assembled(nodes: &Nodes, handed: &Handed, text: &mut String) -> Result<(), RowFault> {
    let mut closed = nodes.closed(handed.changes.as_slice())?;
    let done = add_closed(nodes, &mut closed, handed, text);
    drop(closed);
    done
}

fn add_closed(
    nodes: &Nodes,
    closed: &mut Vec<Closed>,
    handed: &Handed,
    text: &mut String,
) -> Result<(), RowFault> {
    arrange(nodes.alloc, closed, handed.order)?;
    let receipts = receipts_of(nodes, handed.receipt)?;
    let done = add_told(nodes.alloc, closed.as_slice(), receipts.as_slice(), text);
    drop(receipts);
    Ok(done?)
}

/// Returns the receipt that is asked for, if one is.
fn receipts_of(nodes: &Nodes, asked: Option<Receipted>) -> Result<Vec<Receipt>, RowFault> {
    match asked {
        Some(asked) => Ok(list_of(nodes.alloc, nodes.receipt(asked)?)?),
        None => Ok(Vec::new(nodes.alloc)),
    }
}

/// Returns the list of one item. Its type parameter hides what is dropped if memory runs out.
fn list_of<T: Drop>(alloc: Global, item: T) -> Result<Vec<T>, AllocError> {
    let mut list = Vec::new(alloc);
    list.push(item)?;
    Ok(list)
}

/// Adds whether the node lived its whole first life among so many nodes.
fn add_whole(nodes: &Nodes, node: usize, count: usize, text: &mut String) -> Result<(), RowFault> {
    let closed = nodes.closed(&[])?;
    let is_whole = match closed.get(node) {
        Some(one) => Ok(one.is_whole(count)),
        None => Err(RowFault::Idle),
    };
    drop(closed);
    let told = if is_whole? { "true" } else { "false" };
    Ok(text.push_str(told)?)
}

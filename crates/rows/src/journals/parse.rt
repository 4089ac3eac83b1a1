use crate::fault::RowFault;
use crate::journals::trial::{
    Change, Changed, Edit, Handed, Order, Question, Receipted, Trial, Within,
};
use crate::words::Words;
use meta_types::both;
use std::alloc::Global;

/// Reads what is tried, as it stands behind `: `. Nothing is done before the whole line was read.
pub fn parse(alloc: Global, line: &str) -> Result<Trial, RowFault> {
    match line {
        "each" => Ok(Trial::Each),
        "pace" => Ok(Trial::Pace),
        "as told" => Ok(ordered(alloc, Order::AsTold)),
        "backwards" => Ok(ordered(alloc, Order::Backwards)),
        _ => parse_words(alloc, line),
    }
}

/// Hands in all nodes as they are, in this order.
fn ordered(alloc: Global, order: Order) -> Trial {
    handing_in(order, None, Vec::new(alloc))
}

fn handing_in(order: Order, receipt: Option<Receipted>, changes: Vec<Change>) -> Trial {
    Trial::Question(Question::Assembling(Handed {
        order,
        receipt,
        changes,
    }))
}

fn parse_words(alloc: Global, line: &str) -> Result<Trial, RowFault> {
    let mut words = Words::of(line);
    match words.next()? {
        "first" => {
            let count = words.place()?;
            words.end()?;
            Ok(ordered(alloc, Order::First(count)))
        }
        "whole" => {
            let (node, count) = (words.place()?, words.place()?);
            words.end()?;
            Ok(Trial::Question(Question::Whole { node, count }))
        }
        _ => parse_parts(alloc, line),
    }
}

/// Reads a receipt, changes, or a receipt and changes.
fn parse_parts(alloc: Global, line: &str) -> Result<Trial, RowFault> {
    let Some(rest) = line.strip_prefix("receipt ") else {
        return parse_changes(alloc, None, line);
    };
    match rest.split_once("; ") {
        Some((receipt, changes)) => parse_changes(alloc, Some(receipt_of(receipt)?), changes),
        None => Ok(handing_in(Order::AsTold, Some(receipt_of(rest)?), Vec::new(alloc))),
    }
}

fn parse_changes(alloc: Global, receipt: Option<Receipted>, text: &str) -> Result<Trial, RowFault> {
    let mut changes = Vec::new(alloc);
    let done = add_changes(&mut changes, text);
    let (changes, ()) = both(Ok(changes), done)?;
    Ok(handing_in(Order::AsTold, receipt, changes))
}

fn add_changes(changes: &mut Vec<Change>, text: &str) -> Result<(), RowFault> {
    for part in text.split("; ") {
        add_change(changes, part)?;
    }
    Ok(())
}

fn receipt_of(text: &str) -> Result<Receipted, RowFault> {
    let mut words = Words::of(text);
    let (node, place) = (words.place()?, words.place()?);
    let (of, at) = match words.next_if_any() {
        Some("of") => (words.place()?, words.place()?),
        Some(_) => return Err(RowFault::Mistyped),
        None => (node, place),
    };
    words.end()?;
    Ok(Receipted {
        node,
        place,
        of,
        at,
    })
}

/// Refuses a second change of a node.
fn add_change(changes: &mut Vec<Change>, text: &str) -> Result<(), RowFault> {
    let change = change_of(text)?;
    if changes.iter().any(|other| other.node == change.node) {
        return Err(RowFault::Mistyped);
    }
    Ok(changes.push(change)?)
}

fn change_of(text: &str) -> Result<Change, RowFault> {
    let mut words = Words::of(text);
    let change = read_change(&mut words)?;
    words.end()?;
    Ok(change)
}

fn read_change(words: &mut Words<'_>) -> Result<Change, RowFault> {
    let verb = words.next()?;
    if verb == "leave" {
        words.just("out")?;
    }
    let node = words.place()?;
    let part = match verb {
        "untable" => Changed::Table,
        "down" => Changed::Down {
            place: words.place()?,
            peer: words.node_id()?.number(),
        },
        _ => Changed::Entry {
            place: words.place()?,
            edit: read_edit(verb, words)?,
        },
    };
    Ok(Change { node, part })
}

/// Reads what follows the place of an entry.
fn read_edit(verb: &str, words: &mut Words<'_>) -> Result<Edit, RowFault> {
    match verb {
        "leave" => Ok(Edit::LeaveOut),
        "double" => Ok(Edit::Double),
        "swap" => Ok(Edit::Swap),
        "reply" => Ok(Edit::Within(Within::Reply)),
        "send" => Ok(Edit::Within(Within::Send(words.place()?))),
        "unsend" => Ok(Edit::Within(Within::Unsend)),
        "take" => Ok(Edit::Within(Within::Take(words.place()?))),
        "unread" => Ok(Edit::Within(Within::Unread)),
        _ => Err(RowFault::Mistyped),
    }
}

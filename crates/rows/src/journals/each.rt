//! Each change of each entry, and how long it takes to put journals together.

ghost use Rattle.node_journal.specs.Closed.{AreWhole};

use crate::fault::RowFault;
use crate::journals::claims::is_so;
use crate::journals::driver::Nodes;
use crate::journals::print::add_told;
use crate::journals::trial::{Change, Changed, Edit, Within};
use node_journal::{Closed, are_whole};
use run_record::assemble;
use std::alloc::AllocError;
use std::io;
use std::time::Instant;

/// A change that is tried of each entry.
struct Sample {
    name: &'static str,
    edit: Edit,
}

static SAMPLES: [Sample; 9] = [
    Sample {
        name: "leave out",
        edit: Edit::LeaveOut,
    },
    Sample {
        name: "double",
        edit: Edit::Double,
    },
    Sample {
        name: "swap",
        edit: Edit::Swap,
    },
    Sample {
        name: "reply",
        edit: Edit::Within(Within::Reply),
    },
    Sample {
        name: "send, the number",
        edit: Edit::Within(Within::Send(13)),
    },
    Sample {
        name: "send, the body",
        edit: Edit::Within(Within::Send(40)),
    },
    Sample {
        name: "unsend",
        edit: Edit::Within(Within::Unsend),
    },
    Sample {
        name: "take",
        edit: Edit::Within(Within::Take(13)),
    },
    Sample {
        name: "unread",
        edit: Edit::Within(Within::Unread),
    },
];

/// How many changes were tried, and of how many the answer isn't so.
#[derive(Clone, Copy)]
struct Counts {
    tried: usize,
    wrong: usize,
}

impl Counts {
    fn count(&mut self, is_so: bool) {
        self.tried = self.tried.saturating_add(1);
        self.wrong = self.wrong.saturating_add(usize::from(!is_so));
    }
}

/// Tries each change of each entry that changes something, and prints how many were tried, and that
/// each answer is so, or how many aren't.
pub fn try_each(rt: &HostRuntime, nodes: &Nodes) -> io::Result<()> {
    for sample in &SAMPLES {
        let name = sample.name;
        let Counts { tried, wrong } = counts_of(nodes, sample.edit)?;
        match wrong {
            0 => println!(rt; "{name}: {tried} tried, each answer is so")?,
            _ => println!(rt; "{name}: {tried} tried, {wrong} answers are NOT SO")?,
        }
    }
    Ok(())
}

fn counts_of(nodes: &Nodes, edit: Edit) -> Result<Counts, AllocError> {
    let mut counts = Counts { tried: 0, wrong: 0 };
    for (node, journal) in nodes.journals.iter().enumerate() {
        try_entries(nodes, node, journal.len(), edit, &mut counts)?;
    }
    Ok(counts)
}

/// Tries a change of each of the first `len` entries of a node.
fn try_entries(
    nodes: &Nodes,
    node: usize,
    len: usize,
    edit: Edit,
    counts: &mut Counts,
) -> Result<(), AllocError> {
    for place in 0..len {
        let part = Changed::Entry { place, edit };
        match is_so_with(nodes, Change { node, part }) {
            Ok(Some(is_so)) => counts.count(is_so),
            Ok(None) | Err(RowFault::Idle | RowFault::Mistyped) => {}
            Err(RowFault::Memory) => return Err(AllocError),
        }
    }
    Ok(())
}

/// Returns whether the answer is so with this change; none if the journals aren't whole.
fn is_so_with(nodes: &Nodes, change: Change) -> Result<Option<bool>, RowFault> {
    let closed = nodes.closed(&[change])?;
    let is_so = is_so_of(nodes, closed.as_slice());
    drop(closed);
    Ok(is_so?)
}

fn is_so_of(nodes: &Nodes, closed: &[Closed]) -> Result<Option<bool>, AllocError> {
    if are_whole(closed) {
        Ok(Some(is_answer_so(nodes, closed)?))
    } else {
        Ok(None)
    }
}

/// Returns whether the answer for these journals is so.
fn is_answer_so(nodes: &Nodes, closed: &[Closed]) -> Result<bool, AllocError>
    requires { AreWhole closed.now }
{
    let answer = assemble(nodes.alloc, closed, &[]);
    let is_so = is_so(nodes.alloc, closed, &[], &answer);
    drop(answer);
    is_so
}

/// Prints how long it takes to put the journals together.
pub fn try_pace(rt: &HostRuntime, nodes: &Nodes) -> io::Result<()> {
    match nodes.closed(&[]) {
        Ok(closed) => {
            let done = print_pace(rt, closed.as_slice());
            drop(closed);
            done
        }
        Err(_) => Err(io::Error::from(AllocError)),
    }
}

fn print_pace(rt: &HostRuntime, closed: &[Closed]) -> io::Result<()> {
    let mut text = String::new(rt.alloc());
    let time = time_of_told(rt, closed, &mut text)?;
    println!(rt; "pace: {text}, {time} microseconds")
}

/// Adds what comes of assembling journals, and returns how many microseconds that took.
fn time_of_told(rt: &HostRuntime, closed: &[Closed], text: &mut String) -> io::Result<u128> {
    let start = Instant::now(rt)?;
    add_told(rt.alloc(), closed, &[], text)?;
    Ok(start.elapsed(rt)?.as_micros())
}

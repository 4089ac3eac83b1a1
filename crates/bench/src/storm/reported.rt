//! What is printed of a storm once it is over.

use crate::begun::read;
use crate::samples::{rate, refused};
use crate::storm::compared::{
    all_looked, all_wrote, counts_agree, receipts_equal_entries, writes_of,
};
use crate::storm::looking::Looks;
use crate::storm::raised::Left;
use crate::storm::trouble::Trouble;
use crate::storm::writing::Answers;
use std::io;

/// Prints figures and findings.
pub(crate) fn tell(rt: &HostRuntime, path: &str, left: &Left) -> io::Result<()> {
    tell_figures(rt, left)?;
    let is_equal = receipts_equal_entries(rt.alloc(), left)?;
    let is_kept = is_kept(rt, path, left)?;
    tell_findings(rt, left, is_equal, is_kept)
}

/// Returns whether the file at the path has the table of the node as it was closed.
fn is_kept(rt: &HostRuntime, path: &str, left: &Left) -> io::Result<bool> {
    let (table, _life) = read(rt, path)?;
    let is_kept = table == *left.closed.table();
    drop(table);
    Ok(is_kept)
}

/// Prints the findings at standard output, a line for each. If a finding isn't so, its line says
/// so, and an error is returned at the end.
fn tell_findings(rt: &HostRuntime, left: &Left, is_equal: bool, is_kept: bool) -> io::Result<()> {
    let findings = [
        (all_wrote(left.answers.as_slice()), "no writer was refused"),
        (is_equal, "receipts equal their entries"),
        (counts_agree(left), "counts agree"),
        (all_looked(left.looks.as_slice()), "no reader went back"),
        (is_kept, "the file has each key's last object"),
    ];
    let mut all_so = true;
    for (is_so, what) in findings {
        all_so = all_so && is_so;
        tell_finding(rt, is_so, what)?;
    }
    if all_so { Ok(()) } else { Err(refused(())) }
}

fn tell_finding(rt: &HostRuntime, is_so: bool, what: &str) -> io::Result<()> {
    if is_so {
        println!(rt; "{what}")
    } else {
        println!(rt; "NOT SO: {what}")
    }
}

/// Prints figures at standard error, and what ended a thread before its time.
fn tell_figures(rt: &HostRuntime, left: &Left) -> io::Result<()> {
    let writes = writes_of(left.answers.as_slice());
    let looks = looks_of(left.looks.as_slice());
    let nanos = match left.time {
        Some(time) => time.as_nanos(),
        None => 0,
    };
    eprintln!(rt; "writes {writes}, {} a second", rate(writes, nanos))?;
    eprintln!(rt; "looks {looks}, {} a second", rate(looks, nanos))?;
    eprintln!(rt; "syncs {}, two for each write", writes.saturating_mul(2))?;
    let cuts = cuts_of(left.answers.as_slice());
    eprintln!(rt; "cuts {cuts}, entries {}", left.closed.journal().len())?;
    for one in left.answers.iter() {
        tell_trouble(rt, "a writer", &one.trouble)?;
    }
    for one in left.looks.iter() {
        tell_trouble(rt, "a reader", &one.trouble)?;
    }
    Ok(())
}

fn tell_trouble(rt: &HostRuntime, whose: &str, trouble: &Option<Trouble>) -> io::Result<()> {
    match trouble {
        Some(trouble) => eprintln!(rt; "{whose}: {trouble}"),
        None => Ok(()),
    }
}

fn looks_of(looks: &[Looks]) -> u64 {
    let mut sum = 0u64;
    for one in looks {
        sum = sum.saturating_add(one.count);
    }
    sum
}

fn cuts_of(answers: &[Answers]) -> u64 {
    let mut sum = 0u64;
    for one in answers {
        sum = sum.saturating_add(one.cuts);
    }
    sum
}

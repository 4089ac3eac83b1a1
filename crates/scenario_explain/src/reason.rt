//! Why a command was refused, in words.

ghost use Rattle.std.specs.Prelude.{◌≡◌, ◌++◌, OnOk, drop};
ghost use Rattle.scenario_explain.specs.Reason.{sentence_of, line_of_cause, reasons_of};
ghost use Rattle.scenario_explain.specs.Told.{told_lines};

use crate::line::add_line;
use scenario_text::Words;
use std::alloc::AllocError;

/// The first word of a refusal.
const REFUSED: &[u8] = b"refused";

/// Returns the cause that a number stands for; nothing for other numbers.
fn sentence_of(number: u64) -> &'static str
    ensures { result.now ≡ sentence_of number }
{
    match number {
        1 => "a part of a name is longer than 64, 64 or 256 bytes",
        2 => "a value has more than 1,024 bytes",
        3 =>
            "a node can't join through itself, call itself down, exchange with itself, or say hello to itself",
        10 => "the bytes end within the header or the announced body",
        11 => "the bytes don't begin as a frame does",
        12 => "the frame is of another version",
        13 => "the header names no kind of message",
        14 => "the header announces a body that is longer than 16,777,216 bytes",
        15 => "the body breaks a rule of its kind",
        16 => "bytes stand behind the announced body",
        20 => "a writer can't count any further",
        25 => "the node holds 8,192 keys",
        26 => "the read is of another key",
        27 => "there are too many siblings, or too many bytes of them",
        28 => "the capacity is out of range, or the node has sixteen watches",
        29 => "the node has no such watch in this life",
        35 => "the node is in the last life that has a number",
        40 => "the frame is for another node",
        42 => "no frame has this number",
        43 => "no read has this number",
        44 => "no node has this number",
        45 => "the bytes are a frame",
        46 => "the node has no image of this number",
        _ => "",
    }
}

/// Returns the cause that results begin with, or nothing if they don't begin with a refusal.
fn cause_in(results: &[u8]) -> &'static str
    ensures { reasons_of results.now ≡ line_of_cause result.now }
{
    let mut words = Words::of(results);
    let Some(word) = words.next() else {
        return "";
    };
    if word != REFUSED {
        return "";
    }
    match words.number() {
        Some(number) => sentence_of(number),
        None => "",
    }
}

/// Adds a line that says why, if the text behind its first `start` bytes begins with a refusal.
pub(crate) fn add_reason(text: &mut Vec<u8>, start: usize) -> Result<(), AllocError>
    ensures { OnOk result (text.new.items
        ≡ text.old.items ++ told_lines (reasons_of (drop start text.old.items))) }
{
    let cause = cause_in(text.get(start..).unwrap_or(&[]));
    if cause.is_empty() {
        return Ok(());
    }
    add_line(text, cause.as_bytes())
}

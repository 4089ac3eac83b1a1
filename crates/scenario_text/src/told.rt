//! The two lines about a line that breaks a rule.

ghost use Rattle.std.specs.Prelude.{◌≡◌, ◌++◌, OnOk, IfOk, None, Some};
ghost use Rattle.scenario_text.specs.Hint.{IsTold, OneMore, WrongAt, hint_lines, hint_text, wrong_text, wrong_words};
ghost use Rattle.scenario_text.specs.declared.hint.Hint.TheVariants.{Form, Unknown};

use crate::form::form_of;
use crate::found::found_behind;
use crate::hint::{Hint, hint_of};
use crate::shown::add_shown;
use crate::wrong::{Slot, Wrong, slot_text};
use crate::{Verb, word_of};
use printing::print_number;
use std::alloc::{AllocError, Global};

/// Adds that there is no such command, and which one is near.
fn add_near(out: &mut Vec<u8>, verb: Verb) -> Result<(), AllocError>
    ensures { OnOk result (out.new.items ≡ out.old.items ++ hint_text (Unknown (Some verb))) }
{
    out.extend_from_slice(b"no such command")?;
    out.extend_from_slice(b"; did you mean ")?;
    out.extend_from_slice(word_of(verb))?;
    out.extend_from_slice(b"?")?;
    Ok(())
}

/// Adds that a word is missing, and what it may be.
fn add_missing(out: &mut Vec<u8>, slot: Slot) -> Result<(), AllocError>
    ensures { OnOk result (out.new.items ≡ out.old.items ++ wrong_text (WrongAt slot None)) }
{
    out.extend_from_slice(b"; a word is missing: ")?;
    out.extend_from_slice(slot_text(slot).as_bytes())?;
    Ok(())
}

/// Adds that a word is wrong, and what may stand there.
fn add_bad(out: &mut Vec<u8>, slot: Slot, word: &[u8]) -> Result<(), AllocError>
    ensures { OnOk result
        (out.new.items ≡ out.old.items ++ wrong_text (WrongAt slot (Some word.now))) }
{
    out.extend_from_slice(b"; ")?;
    add_shown(out, word)?;
    out.extend_from_slice(b" is wrong: ")?;
    out.extend_from_slice(slot_text(slot).as_bytes())?;
    Ok(())
}

/// Adds that there is a word too many.
fn add_more(out: &mut Vec<u8>, word: &[u8]) -> Result<(), AllocError>
    ensures { OnOk result (out.new.items ≡ out.old.items ++ wrong_text (OneMore word.now)) }
{
    out.extend_from_slice(b"; ")?;
    add_shown(out, word)?;
    out.extend_from_slice(b" is too many")?;
    Ok(())
}

/// Adds what is wrong with the words behind a verb.
fn add_wrong(out: &mut Vec<u8>, wrong: Wrong<'_>) -> Result<(), AllocError>
    ensures { OnOk result (out.new.items ≡ out.old.items ++ wrong_text (wrong_words wrong.entry)) }
{
    match wrong {
        Wrong::Nothing => Ok(()),
        Wrong::At(slot, None) => add_missing(out, slot),
        Wrong::At(slot, Some(word)) => add_bad(out, slot, word),
        Wrong::TooMany(word) => add_more(out, word),
    }
}

/// Adds the form of a command, and what is wrong with the words behind its verb.
fn add_wanted(out: &mut Vec<u8>, verb: Verb, wrong: Wrong<'_>) -> Result<(), AllocError>
    ensures { OnOk result (out.new.items ≡ out.old.items ++ hint_text (Form verb wrong.entry)) }
{
    out.extend_from_slice(b"wanted: ")?;
    out.extend_from_slice(form_of(verb).as_bytes())?;
    add_wrong(out, wrong)
}

/// Adds what is wrong with a line.
fn add_hint(out: &mut Vec<u8>, hint: Hint<'_>) -> Result<(), AllocError>
    ensures { OnOk result (out.new.items ≡ out.old.items ++ hint_text hint.entry) }
{
    match hint {
        Hint::ByteOrderMark => out.extend_from_slice(
            b"the line begins with a byte order mark: save the text without one",
        ),
        Hint::CarriageReturn => out.extend_from_slice(
            b"the line ends with a carriage return: end lines with a line feed alone",
        ),
        Hint::Tab => out.extend_from_slice(
            b"the line has a tab: words are separated by spaces alone",
        ),
        Hint::NodesFirst => out.extend_from_slice(
            b"the first command is nodes COUNT; COUNT is 1 to 16",
        ),
        Hint::Form(verb, wrong) => add_wanted(out, verb, wrong),
        Hint::Unknown(Some(verb)) => add_near(out, verb),
        Hint::Unknown(None) => out.extend_from_slice(b"no such command"),
    }
}

/// Adds two lines: the line at fault, and what it wants.
#[tactic(auto, unfolding(crate::specs::Hint::hint_lines))]
fn add_lines(out: &mut Vec<u8>, number: u64, line: &[u8], hint: Hint<'_>) -> Result<(), AllocError>
    ensures { OnOk result (out.new.items ≡ out.old.items ++ hint_lines number line.now hint.entry) }
{
    out.extend_from_slice(b"line ")?;
    print_number(out, number)?;
    out.extend_from_slice(b": ")?;
    add_shown(out, line)?;
    out.push(b'\n')?;
    add_hint(out, hint)?;
    out.push(b'\n')?;
    Ok(())
}

/// Returns two lines about the line of this number, counted from 1, which breaks a rule: the line
/// as it stands, and what it wants, each with a line feed. Fails only when memory runs out.
pub fn told_of_line(alloc: Global, text: &[u8], number: u64) -> Result<Vec<u8>, AllocError>
    ensures { IfOk result (λ told. IsTold text.now number told.items) }
{
    let found = found_behind(text, number.saturating_sub(1));
    let mut told = Vec::new(alloc);
    add_lines(
        &mut told,
        number,
        found.line,
        hint_of(found.begun, found.line),
    )?;
    Ok(told)
}

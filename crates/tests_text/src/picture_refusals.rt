//! Runs of `draw` that draw nothing, and a part of a long scenario.

use crate::drawn::{count, draw, draw_part};
use plumctl_draw::Excerpt;
use std::alloc::{AllocError, Global};

/// Returns a scenario of `count` commands.
fn of_commands(alloc: Global, count: usize) -> Result<Vec<u8>, AllocError> {
    let mut text = b"nodes 1\n".to_vec(alloc)?;
    for _command in 1..count {
        text.extend_from_slice(b"root 0\n")?;
    }
    Ok(text)
}

/// Returns whether nothing is written of a text from this line on, the status is 1, and this stands
/// at standard error.
fn is_refused(alloc: Global, text: &[u8], from: u64, told: &[u8]) -> bool {
    let drawn = draw(alloc, text, from);
    let is = drawn.status == 1
        && drawn.written.is_empty()
        && count(drawn.told.as_slice(), told) == 1;
    drop(drawn);
    is
}

/// Returns whether a picture is written of a text from this line on, and nothing at standard error.
fn is_drawn(alloc: Global, text: &[u8], from: u64) -> bool {
    let drawn = draw(alloc, text, from);
    let is = drawn.status == 0
        && drawn.told.is_empty()
        && count(drawn.written.as_slice(), b"</svg>") == 1;
    drop(drawn);
    is
}

/// Returns whether 201 commands are too many, and the last 200 of them aren't.
fn is_bounded(alloc: Global) -> Result<bool, AllocError> {
    let text = of_commands(alloc, 201)?;
    let all = is_refused(
        alloc,
        text.as_slice(),
        0,
        b"error: too long for a picture: commands 201 (at most 200), rows 201 (at most 2000): ",
    );
    let last = is_drawn(alloc, text.as_slice(), 2);
    drop(text);
    Ok(all && last)
}

/// Returns whether nothing is written of these lines of a text, the status is 2, and this is the
/// line at standard error.
fn has_nothing(alloc: Global, text: &[u8], (from, to): (u64, u64), told: &[u8]) -> bool {
    let part = Excerpt {
        from,
        to,
        fold: false,
    };
    let drawn = draw_part(alloc, text, part);
    let is = drawn.status == 2 && drawn.written.is_empty() && drawn.told.as_slice() == told;
    drop(drawn);
    is
}

/// The lines about parts without a command.
const NO_COMMAND: &[u8] = b"error: nothing to draw: the text has no command\n";

const NONE_ASKED: &[u8] =
    b"error: nothing to draw: no command stands in the lines that are asked for\n";

const TURNED: &[u8] = b"error: nothing to draw: --from is a later line than --to\n";

/// A text whose second line is skipped, and whose fourth breaks a rule.
const LINES: &[u8] = b"nodes 1\n# a comment\nroot 0\nroots\n";

#[test]
fn a_part_without_a_command_is_named(rt: HostRuntime) {
    let alloc = rt.alloc();
    let all = has_nothing(alloc, b"# a comment\n\n", (0, u64::MAX), NO_COMMAND);
    let skipped = has_nothing(alloc, LINES, (2, 2), NONE_ASKED);
    let behind = has_nothing(alloc, LINES, (5, u64::MAX), NONE_ASKED);
    let turned = has_nothing(alloc, LINES, (3, 2), TURNED);
    assert!(rt; all && skipped && behind && turned);
}

#[test]
fn a_bad_line_is_named(rt: HostRuntime) {
    assert!(rt; is_refused(rt.alloc(), b"nodes 1\nputs 0 x\n", 0, b"line 2: puts 0 x\n"));
}

#[test]
fn a_part_of_200_commands_is_drawn(rt: HostRuntime) {
    assert!(rt; is_bounded(rt.alloc()) == Ok(true));
}

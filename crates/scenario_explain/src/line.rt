//! Lines that are told.

ghost use Rattle.std.specs.Prelude.{◌≡◌, ◌++◌, OnOk};
ghost use Rattle.scenario_explain.specs.Told.{told_line};

use scenario_text::add_printable;
use std::alloc::AllocError;

/// Adds a line: two spaces, the bytes with `?` for what can't be printed, and a line feed.
#[tactic(auto, unfolding(crate::specs::Told::told_line))]
pub(crate) fn add_line(text: &mut Vec<u8>, line: &[u8]) -> Result<(), AllocError>
    ensures { OnOk result (text.new.items ≡ text.old.items ++ told_line line.now) }
{
    text.extend_from_slice(b"  ")?;
    add_printable(text, line)?;
    text.push(b'\n')?;
    Ok(())
}

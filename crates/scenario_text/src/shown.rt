//! A line as it is shown.

ghost use Rattle.std.specs.Prelude.{◌≡◌, ◌++◌, OnOk, map};
ghost use Rattle.scenario_text.specs.Hint.{shown_byte, shown_line};

use std::alloc::AllocError;

/// The most bytes of a line that are shown.
const MOST_SHOWN: usize = 80;

/// Returns space to `~` and a tab as they are, all else as `?`.
pub fn shown_byte(byte: u8) -> u8
    ensures { result ≡ shown_byte byte }
{
    if (b' '..=b'~').contains(&byte) || byte == b'\t' {
        byte
    } else {
        b'?'
    }
}

/// Adds bytes: space to `~` and a tab as they are, all else as `?`.
pub fn add_printable(out: &mut Vec<u8>, bytes: &[u8]) -> Result<(), AllocError>
    ensures { OnOk result (out.new.items ≡ out.old.items ++ map shown_byte bytes.now) }
{
    for byte in bytes {
        out.push(shown_byte(*byte))?;
    }
    Ok(())
}

/// Adds the line as it stands, with `?` for what can't be printed. Of a line of more than 80 bytes
/// it adds only the first 80, and two dots.
#[tactic(auto, unfolding(crate::specs::Hint::shown_line))]
pub fn add_shown(out: &mut Vec<u8>, line: &[u8]) -> Result<(), AllocError>
    ensures { OnOk result (out.new.items ≡ out.old.items ++ shown_line line.now) }
{
    if line.len() > MOST_SHOWN {
        let (front, _) = line.split_at(MOST_SHOWN);
        add_printable(out, front)?;
        out.extend_from_slice(b"..")
    } else {
        add_printable(out, line)
    }
}

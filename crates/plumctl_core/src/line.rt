//! One line of digits, and what is printed for it.

ghost use Rattle.std.specs.Prelude.{◌≡◌, ◌⊎◌, ◌↔◌, Ok, Err, OnOk, IfOk, IfErr, IsTrue, option_copied};
ghost use Rattle.hex.specs.Hex.{decode_of};
ghost use Rattle.hex.specs.declared.error.FromHexError.TheVariants.{OutOfMemory};
ghost use Rattle.meta_frame.specs.declared.message.Frame.{Frame};
ghost use Rattle.meta_frame.specs.Frame.{Spells};
ghost use Rattle.plumctl_core.specs.Output.{without_spaces, IsTextOf, PrintsText, PrintsTextUnder, IsFrameLine, SpellsUnder};

use hex::FromHexError;
use memchr::memchr;
use meta_frame::{FrameFault, decode};
use printing::{print_frame, print_frame_fault};
use sealed_frames::{Keys, open};
use std::alloc::{AllocError, Global};

/// The bytes of a line without its spaces.
fn digits_of(alloc: Global, line: &[u8]) -> Result<Vec<u8>, AllocError>
    ensures { IfOk result (λ digits. digits.items ≡ without_spaces line.now) }
{
    let mut digits = Vec::with_capacity(alloc, line.len())?;
    for byte in line {
        if *byte != b' ' {
            digits.push(*byte)?;
        }
    }
    Ok(digits)
}

/// The bytes that the digits of a line stand for.
fn bytes_of(alloc: Global, line: &[u8]) -> Result<Vec<u8>, FromHexError>
    ensures ok { IfOk result (λ bytes. decode_of (without_spaces line.now) ≡ Ok bytes.items) }
    ensures err { IfErr result (λ e. (e ≡ OutOfMemory)
        ⊎ (decode_of (without_spaces line.now) ≡ Err e)) }
{
    if memchr(b' ', line).is_none() {
        return hex::decode(alloc, line);
    }
    match digits_of(alloc, line) {
        Ok(digits) => hex::decode(alloc, digits.as_slice()),
        Err(_) => Err(FromHexError::OutOfMemory),
    }
}

/// Adds what is printed for bytes, and returns whether they spell a frame.
fn print_text_of_bytes(alloc: Global, bytes: &[u8], text: &mut Vec<u8>) -> Result<bool, AllocError>
    ensures text { OnOk result (PrintsText bytes.now text.old.items text.new.items) }
    ensures frame { IfOk result (λ is. IsTrue is ↔ ((frame : Frame) × Spells frame bytes.now)) }
{
    match decode(alloc, bytes) {
        Ok(frame) => {
            print_frame(text, &frame)?;
            Ok(true)
        }
        Err(FrameFault::Memory) => Err(AllocError),
        Err(fault) => {
            print_frame_fault(text, &fault)?;
            Ok(false)
        }
    }
}

/// Adds what is printed for sealed bytes, and returns whether they spell a frame.
fn print_text_of_sealed(
    alloc: Global,
    keys: &Keys,
    bytes: &[u8],
    text: &mut Vec<u8>,
) -> Result<bool, AllocError>
    ensures text { OnOk result (PrintsTextUnder (Some keys.now) bytes.now text.old.items
        text.new.items) }
    ensures frame { IfOk result (λ is. IsTrue is ↔ ((frame : Frame)
        × SpellsUnder (Some keys.now) frame bytes.now)) }
{
    match open(keys, bytes) {
        Ok(frame) => print_text_of_bytes(alloc, frame, text),
        Err(_) => {
            text.extend_from_slice(b"error 17 BadSeal")?;
            Ok(false)
        }
    }
}

/// Adds what is printed for bytes, which are sealed if there are keys, and returns whether they
/// spell a frame.
fn print_text_under(
    alloc: Global,
    keys: Option<&Keys>,
    bytes: &[u8],
    text: &mut Vec<u8>,
) -> Result<bool, AllocError>
    ensures text { OnOk result (PrintsTextUnder (option_copied keys.entry) bytes.now
        text.old.items text.new.items) }
    ensures frame { IfOk result (λ is. IsTrue is ↔ ((frame : Frame)
        × SpellsUnder (option_copied keys.entry) frame bytes.now)) }
{
    match keys {
        Some(keys) => print_text_of_sealed(alloc, keys, bytes, text),
        None => print_text_of_bytes(alloc, bytes, text),
    }
}

/// Puts what is printed for a line into `text`, without a line feed, and returns whether the line
/// stands for a frame, which is sealed if there are keys.
pub(crate) fn print_line(
    alloc: Global,
    keys: Option<&Keys>,
    line: &[u8],
    text: &mut Vec<u8>,
) -> Result<bool, AllocError>
    ensures text { OnOk result (IsTextOf (option_copied keys.entry) line.now text.new.items) }
    ensures frame { IfOk result (λ is. IsTrue is
        ↔ IsFrameLine (option_copied keys.entry) line.now) }
{
    text.clear();
    match bytes_of(alloc, line) {
        Ok(bytes) => print_text_under(alloc, keys, bytes.as_slice(), text),
        Err(FromHexError::OutOfMemory) => Err(AllocError),
        Err(_) => {
            text.extend_from_slice(b"error 9 BadHex")?;
            Ok(false)
        }
    }
}

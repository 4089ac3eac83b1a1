//! How a picture is spelled.

use itoa::Buffer;
use std::alloc::AllocError;

/// Adds a template. These words replace its `$`, and these numbers its `%`, in order. A word is
/// text: none can end an element or an attribute.
pub(crate) fn fill(
    out: &mut Vec<u8>,
    template: &str,
    words: &[&[u8]],
    numbers: &[u64],
) -> Result<(), AllocError> {
    let (mut word, mut number) = (0usize, 0usize);
    for byte in template.as_bytes() {
        match *byte {
            b'$' => {
                add_text(out, words.get(word).copied().unwrap_or(b""))?;
                word = word.saturating_add(1);
            }
            b'%' => {
                add_number(out, numbers.get(number).copied().unwrap_or(0))?;
                number = number.saturating_add(1);
            }
            byte => out.push(byte)?,
        }
    }
    Ok(())
}

/// Adds a number in decimal digits.
fn add_number(out: &mut Vec<u8>, number: u64) -> Result<(), AllocError> {
    let mut buffer = Buffer::new();
    out.extend_from_slice(buffer.format(number).as_bytes())
}

fn add_text(out: &mut Vec<u8>, text: &[u8]) -> Result<(), AllocError> {
    for byte in text {
        match spelled(*byte) {
            Some(spelling) => out.extend_from_slice(spelling.as_bytes())?,
            None => out.push(*byte)?,
        }
    }
    Ok(())
}

/// Returns what a byte of a text is spelled as, if it isn't spelled as it is.
fn spelled(byte: u8) -> Option<&'static str> {
    match byte {
        b'&' => Some("&amp;"),
        b'<' => Some("&lt;"),
        b'>' => Some("&gt;"),
        b'"' => Some("&quot;"),
        b'\'' => Some("&#39;"),
        b' '..=b'~' => None,
        _ => Some("?"),
    }
}

/// Returns a text, or the first `most` bytes of a longer one and two dots.
pub(crate) fn cut(text: &[u8], most: usize) -> (&[u8], &[u8]) {
    match text.get(..most) {
        Some(front) if text.len() > most => (front, b".."),
        _ => (text, b""),
    }
}

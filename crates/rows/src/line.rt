//! Lines of standard input.

use std::alloc::{AllocError, Global};

/// A line, with its number in standard input, from 1.
#[derive(Clone, Copy)]
pub struct Line<'a> {
    pub number: usize,
    pub text: &'a str,
}

impl Line<'_> {
    /// Returns whether the line is skipped between rows: it is empty, or begins with `#`.
    pub fn is_skipped(&self) -> bool {
        self.text.is_empty() || self.text.starts_with('#')
    }
}

/// A part of standard input.
#[derive(Clone, Copy)]
pub struct Section<'a> {
    text: &'a str,
    /// How many lines stand before it.
    before: usize,
}

impl<'a> Section<'a> {
    pub fn new(text: &'a str, before: usize) -> Self {
        Section { text, before }
    }

    pub fn text(&self) -> &'a str {
        self.text
    }

    /// Returns the section that begins one line after the end of this one.
    pub fn followed_by(&self, text: &'a str) -> Self {
        let lines = self.text.lines().count();
        Section::new(text, self.before.saturating_add(lines).saturating_add(1))
    }

    /// Numbers the line at this place of the section, from 0.
    pub fn numbered(&self, place: usize, text: &'a str) -> Line<'a> {
        Line {
            number: self.before.saturating_add(place).saturating_add(1),
            text,
        }
    }
}

/// Joins lines to a text.
pub fn joined(alloc: Global, lines: &[Line<'_>]) -> Result<Vec<u8>, AllocError> {
    let mut text = Vec::new(alloc);
    for line in lines {
        print_line(&mut text, "", line.text)?;
    }
    Ok(text)
}

pub fn print_line(text: &mut Vec<u8>, label: &str, line: &str) -> Result<(), AllocError> {
    text.extend_from_slice(label.as_bytes())?;
    text.extend_from_slice(line.as_bytes())?;
    text.extend_from_slice(b"\n")
}

/// Returns bytes as a text; all that rows print is text.
pub fn text_of(bytes: &[u8]) -> &str {
    std::str::from_utf8(bytes).unwrap_or("bytes that are no text")
}

//! The report on rows: where they differ, which lines are none, and how many there were.

use crate::difference::print_difference;
use crate::fault::RowFault;
use crate::line::{Line, joined, print_line, text_of};
use crate::row::Row;
use printing::print_number;
use std::alloc::{AllocError, Global};

/// The report so far.
#[derive(Drop)]
pub struct Report {
    text: Vec<u8>,
    rows: u64,
    lines: u64,
    different: u64,
    is_typed: bool,
}

impl Report {
    pub fn new(alloc: Global) -> Self {
        Report {
            text: Vec::new(alloc),
            rows: 0,
            lines: 0,
            different: 0,
            is_typed: true,
        }
    }

    /// Returns whether no row differs, and no line was told of by `add_error`.
    pub fn is_right(&self) -> bool {
        self.different == 0 && self.is_typed
    }

    pub fn count_row(&mut self) {
        self.rows = self.rows.saturating_add(1);
    }

    /// Counts a line that was tried alone.
    pub fn count_line(&mut self) {
        self.lines = self.lines.saturating_add(1);
    }

    /// Adds a line that was not done. Fails if the fault is not the line's.
    pub fn add_error(&mut self, line: Line<'_>, fault: RowFault) -> Result<(), AllocError> {
        let why = fault.word()?;
        self.is_typed = false;
        self.text.extend_from_slice(b"error in line ")?;
        print_number(&mut self.text, line.number as u64)?;
        self.text.extend_from_slice(b", ")?;
        self.text.extend_from_slice(why.as_bytes())?;
        print_line(&mut self.text, ": ", line.text)
    }

    /// Adds that `name` differs, and `told` after it.
    pub fn add_different(&mut self, name: &str, told: &[u8]) -> Result<(), AllocError> {
        self.different = self.different.saturating_add(1);
        print_line(&mut self.text, "different ", name)?;
        self.text.extend_from_slice(told)
    }

    /// Compares what a row printed with what it wants, and adds where they differ.
    pub fn compare(
        &mut self,
        alloc: Global,
        row: &Row<'_>,
        output: &[u8],
    ) -> Result<(), AllocError> {
        let wanted = joined(alloc, row.wanted())?;
        if is_wanted(wanted.as_slice(), output) {
            return Ok(());
        }
        let mut told = Vec::new(alloc);
        print_difference(&mut told, text_of(wanted.as_slice()), text_of(output))?;
        self.add_different(row.name(), told.as_slice())
    }

    /// Returns the report. Its last line says how many rows and lines there were, and how many
    /// differ.
    pub fn end(mut self) -> Result<Vec<u8>, AllocError> {
        print_number(&mut self.text, self.rows)?;
        self.text.extend_from_slice(b" rows and ")?;
        print_number(&mut self.text, self.lines)?;
        self.text.extend_from_slice(b" lines, different: ")?;
        print_number(&mut self.text, self.different)?;
        self.text.extend_from_slice(b"\n")?;
        Ok(self.text)
    }
}

/// Returns whether the output is what is wanted. If `wanted` begins with a line `..`, only the last
/// lines of the output are compared.
fn is_wanted(wanted: &[u8], output: &[u8]) -> bool {
    match wanted.strip_prefix(b"..\n") {
        Some(last) => match output.strip_suffix(last) {
            Some(front) => front.is_empty() || front.ends_with(b"\n"),
            None => false,
        },
        None => output == wanted,
    }
}

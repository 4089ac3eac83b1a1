//! Where two texts differ.

use crate::line::print_line;
use std::alloc::AllocError;

/// Returns how many lines both texts begin with.
fn common_lines(wanted: &str, output: &str) -> usize {
    wanted
        .lines()
        .zip(output.lines())
        .take_while(|(line, other)| line == other)
        .count()
}

/// Adds each line of a text after a sign, without the first `first` lines.
fn print_lines(out: &mut Vec<u8>, sign: &str, text: &str, first: usize) -> Result<(), AllocError> {
    for line in text.lines().skip(first) {
        print_line(out, sign, line)?;
    }
    Ok(())
}

/// Adds the wanted lines after `- `, and the lines that came after `+ `, from the first line that
/// differs.
pub fn print_difference(out: &mut Vec<u8>, wanted: &str, output: &str) -> Result<(), AllocError> {
    let common = common_lines(wanted, output);
    print_lines(out, "- ", wanted, common)?;
    print_lines(out, "+ ", output, common)
}

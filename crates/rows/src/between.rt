use crate::fault::RowFault;
use crate::line::Line;

/// What a line between rows is.
pub enum Between<'a> {
    /// It is empty, or a comment.
    Skipped,
    /// `== NAME` begins the row of this name.
    Begins(&'a str),
    /// `! LINE` or `= LINE`: the line is tried alone.
    Tried { line: &'a str, is_bad: bool },
}

impl<'a> Between<'a> {
    pub fn of(line: Line<'a>) -> Result<Self, RowFault> {
        if line.is_skipped() {
            return Ok(Between::Skipped);
        }
        if let Some(name) = line.text.strip_prefix("== ") {
            return Ok(Between::Begins(name));
        }
        if let Some(line) = line.text.strip_prefix("! ") {
            return Ok(Between::Tried { line, is_bad: true });
        }
        match line.text.strip_prefix("= ") {
            Some(line) => Ok(Between::Tried {
                line,
                is_bad: false,
            }),
            None => Err(RowFault::Mistyped),
        }
    }
}

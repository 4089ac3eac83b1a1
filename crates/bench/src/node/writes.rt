//! What a node writes: values under keys that look random.

use crate::rows::{Dice, Rows};
use crate::subject::Subject;
use meta_types::ByteString;
use std::alloc::Global;
use std::io;

/// The keys with their value, and what chooses among them.
#[derive(Drop)]
pub(crate) struct Writes {
    rows: Rows,
    dice: Dice,
}

impl Writes {
    /// Makes what a node writes under `count` keys of one full prefix.
    pub(crate) fn new(alloc: Global, count: u32) -> io::Result<Self> {
        let rows = Rows::new(alloc, count)?;
        Ok(Writes {
            rows,
            dice: Dice::new(1),
        })
    }

    /// Writes the value under each of the keys.
    pub(crate) fn fill(&self, writer: &mut Subject) -> io::Result<()> {
        writer.fill(&self.rows)
    }

    /// Writes over what is held under the next key. Returns the frame that is sent, if one is.
    pub(crate) fn write(&mut self, writer: &mut Subject) -> io::Result<Option<ByteString>> {
        let key = self.rows.any_key(&mut self.dice)?;
        writer.put_over(&self.rows, key)
    }
}

//! The words of a line.

use crate::fault::RowFault;
use meta_types::NodeId;
use std::str::SplitWhitespace;

/// The words of a line that are still to be read.
#[derive(Drop)]
pub struct Words<'a> {
    left: SplitWhitespace<'a>,
}

impl<'a> Words<'a> {
    pub fn of(line: &'a str) -> Self {
        Words {
            left: line.split_whitespace(),
        }
    }

    /// Reads a word, if one is left.
    pub fn next_if_any(&mut self) -> Option<&'a str> {
        self.left.next()
    }

    pub fn next(&mut self) -> Result<&'a str, RowFault> {
        self.left.next().ok_or(RowFault::Mistyped)
    }

    /// Refuses if a word is left.
    pub fn end(&mut self) -> Result<(), RowFault> {
        match self.left.next() {
            Some(_) => Err(RowFault::Mistyped),
            None => Ok(()),
        }
    }

    /// Reads this word.
    pub fn just(&mut self, word: &str) -> Result<(), RowFault> {
        if self.next()? == word {
            Ok(())
        } else {
            Err(RowFault::Mistyped)
        }
    }

    /// Reads the word after this label.
    pub fn after(&mut self, label: &str) -> Result<&'a str, RowFault> {
        self.just(label)?;
        self.next()
    }

    /// Reads a node's number or a place in a list.
    pub fn place(&mut self) -> Result<usize, RowFault> {
        self.next()?.parse().map_err(|_| RowFault::Mistyped)
    }

    pub fn node_id(&mut self) -> Result<NodeId, RowFault> {
        node_of(self.next()?)
    }

    /// Returns whether the next word is `one`. Refuses if it is neither `one` nor `other`.
    pub fn is_first_of(&mut self, one: &str, other: &str) -> Result<bool, RowFault> {
        let word = self.next()?;
        if word == one || word == other {
            Ok(word == one)
        } else {
            Err(RowFault::Mistyped)
        }
    }

    /// Reads ` word W`, or 0 if no word is left.
    pub fn random(&mut self) -> Result<u64, RowFault> {
        match self.left.next() {
            Some("word") => number_of(self.next()?),
            Some(_) => Err(RowFault::Mistyped),
            None => Ok(0),
        }
    }
}

pub fn number_of(word: &str) -> Result<u64, RowFault> {
    word.parse().map_err(|_| RowFault::Mistyped)
}

pub fn node_of(word: &str) -> Result<NodeId, RowFault> {
    let number = word.parse().map_err(|_| RowFault::Mistyped)?;
    NodeId::new(number).map_err(|_| RowFault::Mistyped)
}

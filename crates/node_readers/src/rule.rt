//! The rule of the copies, as `left_right` asks for it: what the writer and each reader
//! know is a list of changes. No value of these types is made.

use crate::copies::PublishedTable;
use crate::{Naming, Published};
use crossbeam_utils::rule::{Outcome, Protocol};
use std::collections::LinkedList;
use std::marker::PhantomData;

/// What a seat knows: the changes up to one of them.
pub type Known = LinkedList<Published>;

/// The copies are those of this node.
pub struct CopiesOf<J: Naming> {
    of: PhantomData<J>,
}

impl<J: Naming> Protocol<PublishedTable, Known> for CopiesOf<J> {
    ghost use Rattle.std.specs.Prelude.{[]};
    ghost use Rattle.node_readers.specs.Rule.{HoldsCopies};

    ghost holds = { HoldsCopies J.book J.opening };

    ghost first = { [] };
}

/// Whoever takes the published copy then knows its changes; so does whoever publishes it.
impl<J: Naming> Outcome<PublishedTable, Known> for CopiesOf<J> {
    ghost use Rattle.node_readers.specs.Rule.{TakesCopy};

    ghost then = { TakesCopy J.book J.opening };
}

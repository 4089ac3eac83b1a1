ghost use Rattle.std.specs.Prelude.{◌≡◌};
ghost use Rattle.node_readers.specs.History.{word_of};

use crate::history_rule::Law;
use crate::naming::Naming;
use crate::published::Published;
use logbook::Word;
use std::marker::PhantomData;

/// Where the next change of a node's history is added. Threads may share it.
#[derive(Drop)]
pub struct Tail<J: Naming> {
    word: Word<Published, u64, Law>,
    of: PhantomData<J>,
    ghost word_is: { word ≡ word_of J.book },
}

impl<J: Naming> Tail<J> {
    pub(crate) fn new(word: Word<Published, u64, Law>) -> Self
        requires { word ≡ word_of J.book }
    {
        Tail {
            word,
            of: PhantomData,
        }
    }

    pub(crate) fn word(&self) -> &Word<Published, u64, Law>
        ensures { result.now ≡ word_of J.book }
    {
        &self.word
    }
}

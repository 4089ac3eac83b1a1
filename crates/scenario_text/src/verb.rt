ghost use Rattle.std.specs.Prelude.{◌≡◌};
ghost use Rattle.scenario_text.specs.Coded.{IsVerbOf, verb_word};

/// The first word of a command.
#[derive(Clone, Copy)]
pub enum Verb {
    Nodes,
    Put,
    Del,
    Over,
    Read,
    Show,
    Resolve,
    Deliver,
    Junk,
    Tick,
    Join,
    Down,
    Exchange,
    Hello,
    Leave,
    Restart,
    Keep,
    Watch,
    Changes,
    List,
    Root,
    Images,
    Views,
    Settle,
}

/// Each verb, once, in the order of the table.
pub const VERBS: [Verb; 24] = [
    Verb::Nodes,
    Verb::Put,
    Verb::Del,
    Verb::Over,
    Verb::Read,
    Verb::Show,
    Verb::Resolve,
    Verb::Deliver,
    Verb::Junk,
    Verb::Tick,
    Verb::Join,
    Verb::Down,
    Verb::Exchange,
    Verb::Hello,
    Verb::Leave,
    Verb::Restart,
    Verb::Keep,
    Verb::Watch,
    Verb::Changes,
    Verb::List,
    Verb::Root,
    Verb::Images,
    Verb::Views,
    Verb::Settle,
];

pub fn word_of(verb: Verb) -> &'static [u8]
    ensures { result.now ≡ verb_word verb }
{
    match verb {
        Verb::Nodes => b"nodes",
        Verb::Put => b"put",
        Verb::Del => b"del",
        Verb::Over => b"over",
        Verb::Read => b"read",
        Verb::Show => b"show",
        Verb::Resolve => b"resolve",
        Verb::Deliver => b"deliver",
        Verb::Junk => b"junk",
        Verb::Tick => b"tick",
        Verb::Join => b"join",
        Verb::Down => b"down",
        Verb::Exchange => b"exchange",
        Verb::Hello => b"hello",
        Verb::Leave => b"leave",
        Verb::Restart => b"restart",
        Verb::Keep => b"keep",
        Verb::Watch => b"watch",
        Verb::Changes => b"changes",
        Verb::List => b"list",
        Verb::Root => b"root",
        Verb::Images => b"images",
        Verb::Views => b"views",
        Verb::Settle => b"settle",
    }
}

/// Returns the verb that a word is, if it is one.
pub fn verb_of(word: &[u8]) -> Option<Verb>
    ensures { IsVerbOf word.now result }
{
    for verb in VERBS {
        if word_of(verb) == word {
            return Some(verb);
        }
    }
    None
}

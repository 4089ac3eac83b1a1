//! What commands look like.

ghost use Rattle.std.specs.Prelude.{◌≡◌};
ghost use Rattle.scenario_text.specs.Hint.{form_of};

use crate::Verb;

/// Returns the form of a command: its verb, and the words after it.
pub(crate) fn form_of(verb: Verb) -> &'static str
    ensures { result.now ≡ form_of verb }
{
    match verb {
        Verb::Nodes => "nodes COUNT, once, as the first command",
        Verb::Put => "put N KEY VALUE [stamp S] [read R]",
        Verb::Del => "del N KEY [stamp S] [read R]",
        Verb::Over => "over N KEY VALUE [stamp S]",
        Verb::Read => "read N KEY",
        Verb::Show => "show N KEY",
        Verb::Resolve => "resolve N KEY lww|largest",
        Verb::Deliver => "deliver F [N] [word W]",
        Verb::Junk => "junk N HEX",
        Verb::Tick => "tick N [word W]",
        Verb::Join => "join N C [word W]",
        Verb::Down => "down N P [word W]",
        Verb::Exchange => "exchange N P",
        Verb::Hello => "hello N P",
        Verb::Leave => "leave N",
        Verb::Restart => "restart N I",
        Verb::Keep => "keep N [KEY]",
        Verb::Watch => "watch N PREFIX CAP",
        Verb::Changes => "changes N W",
        Verb::List => "list N PREFIX",
        Verb::Root => "root N",
        Verb::Images => "images N",
        Verb::Views => "views N",
        Verb::Settle => "settle",
    }
}

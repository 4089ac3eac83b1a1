//! The names of kinds of messages by their numbers, for callers who have a header and no message.

ghost use Rattle.std.specs.Prelude.{◌≡◌};
ghost use Rattle.meta_frame.specs.Frame.{kind_of, name_of};
ghost use Rattle.meta_frame.specs.declared.message.Message.{Message};

/// Returns the name of the kind of this number, in capitals.
pub(crate) fn name_of_kind(kind: u8) -> &'static str
    requires { (m : Message) × (kind_of m ≡ kind) }
    ensures { (m : Message) → kind_of m ≡ kind → result.now ≡ name_of m }
{
    match kind {
        1 => "GOSSIP",
        2 => "IHAVE",
        3 => "GRAFT",
        4 => "PRUNE",
        5 => "JOIN",
        6 => "FORWARDJOIN",
        7 => "DISCONNECT",
        8 => "NEIGHBOR",
        9 => "NEIGHBORREPLY",
        10 => "SHUFFLE",
        11 => "SHUFFLEREPLY",
        12 => "XROOT",
        13 => "XPREFIXES",
        14 => "XINNER",
        15 => "XLEAVES",
        16 => "XBUCKET",
        17 => "XOBJECT",
        18 => "XWANT",
        19 => "HELLO",
        20 => "BYE",
        _ => unreachable!(),
    }
}

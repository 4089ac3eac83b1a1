ghost use Rattle.std.specs.Prelude.{◌≡◌, None, Some, if◌then◌else◌};
ghost use Rattle.meta_types.specs.declared.fault.TypeFault.TheVariants.{BadName};
ghost use Rattle.scenario_text.specs.Coded.{bytes_word, command_word, key_word};
ghost use Rattle.scenario_text.specs.Commands.{fault_in, fault_of_write};

use crate::bytes::BytesWord;
use crate::name::{KeyWord, PrefixWord};
use meta_types::TypeFault;

/// A command, with what its words stand for. It borrows names and bytes from the text.
#[derive(Clone, Copy)]
pub enum Command<'a> {
    /// There are `count` nodes.
    Nodes {
        count: u64,
    },
    /// The node writes a value. The write has read what the read numbered `read` showed, or
    /// nothing.
    Put {
        node: u64,
        key: KeyWord<'a>,
        value: BytesWord<'a>,
        stamp: u64,
        read: Option<u64>,
    },
    /// The node writes a tombstone.
    Del {
        node: u64,
        key: KeyWord<'a>,
        stamp: u64,
        read: Option<u64>,
    },
    /// The node writes a value over all that it shows.
    Over {
        node: u64,
        key: KeyWord<'a>,
        value: BytesWord<'a>,
        stamp: u64,
    },
    /// What the node shows, with a read number.
    Read {
        node: u64,
        key: KeyWord<'a>,
    },
    /// What the node shows.
    Show {
        node: u64,
        key: KeyWord<'a>,
    },
    /// The node writes the sibling that the resolver at this place chooses over all siblings, if
    /// there are two or more.
    Resolve {
        node: u64,
        key: KeyWord<'a>,
        by: usize,
    },
    /// The frame is handed to the node, or, if none is named, to the frame's addressee.
    Deliver {
        frame: u64,
        node: Option<u64>,
        word: u64,
    },
    /// Bytes that should be no frame are handed to the node.
    Junk {
        node: u64,
        bytes: BytesWord<'a>,
    },
    Tick {
        node: u64,
        word: u64,
    },
    Join {
        node: u64,
        contact: u64,
        word: u64,
    },
    Down {
        node: u64,
        peer: u64,
        word: u64,
    },
    Exchange {
        node: u64,
        peer: u64,
    },
    Hello {
        node: u64,
        peer: u64,
    },
    Leave {
        node: u64,
    },
    Restart {
        node: u64,
        image: u64,
    },
    /// The node keeps what it holds under the key, or under each key if none is named.
    Keep {
        node: u64,
        key: Option<KeyWord<'a>>,
    },
    Watch {
        node: u64,
        prefix: PrefixWord<'a>,
        capacity: u64,
    },
    Changes {
        node: u64,
        number: u64,
    },
    /// The keys that the node holds under the prefix.
    Keys {
        node: u64,
        prefix: PrefixWord<'a>,
    },
    Root {
        node: u64,
    },
    Images {
        node: u64,
    },
    Views {
        node: u64,
    },
    /// Each frame that was not given is delivered to its addressee.
    Settle,
}

impl<'a> Command<'a> {
    /// Returns why no world takes the command: 1 `BadName` if a part of a name is too long, then 2
    /// `ValueTooLong`.
    pub fn fault(&self) -> Option<TypeFault>
        ensures { result ≡ fault_in (command_word self.now) }
    {
        match self {
            Command::Put { key, value, .. } | Command::Over { key, value, .. } => fault_of_write(
                key, value,
            ),
            Command::Del { key, .. }
            | Command::Read { key, .. }
            | Command::Show { key, .. }
            | Command::Resolve { key, .. } => fault_of_name(key.is_name()),
            Command::Keep { key, .. } => match key {
                Some(key) => fault_of_name(key.is_name()),
                None => None,
            },
            Command::Watch { prefix, .. } | Command::Keys { prefix, .. } => fault_of_name(
                prefix.is_name(),
            ),
            _ => None,
        }
    }
}

fn fault_of_name(is_name: bool) -> Option<TypeFault>
    ensures { result ≡ (if is_name then None else Some BadName) }
{
    if is_name {
        None
    } else {
        Some(TypeFault::BadName)
    }
}

fn fault_of_write(key: &KeyWord<'_>, value: &BytesWord<'_>) -> Option<TypeFault>
    ensures { result ≡ fault_of_write (key_word key.now) (bytes_word value.now) }
{
    if !key.is_name() {
        return Some(TypeFault::BadName);
    }
    if value.is_value() {
        None
    } else {
        Some(TypeFault::ValueTooLong)
    }
}

//! The line of an event, without its line feed.

ghost use Rattle.std.specs.Prelude.{◌≡◌, ◌∷◌, ◌++◌, [], IfSome, OnOk, decimal};
ghost use Rattle.printing.specs.Field.{bytes_text, key_text, prefix_text};
ghost use Rattle.scenario_text.specs.Commands as spoken;
ghost use Rattle.scenario_text.specs.Spelling.{after_spaces, random_words, read_words, spaced_words, spelled, unless_0};
ghost use Rattle.run_text.specs.Replay.{command_of_event, step_command, write_command};

use meta_types::{FullPrefix, MetaKey, NodeId, Value};
use node_events::NodeEvent;
use printing::{print_key, print_name, print_number};
use std::alloc::AllocError;
use world_core::Event;

/// Adds a word, with a space before it.
fn add_word(text: &mut Vec<u8>, word: &[u8]) -> Result<(), AllocError>
    ensures { OnOk result (text.new.items ≡ text.old.items ++ after_spaces (word.now ∷ [])) }
{
    text.push(b' ')?;
    text.extend_from_slice(word)?;
    Ok(())
}

/// Adds a number, with a space before it.
fn add_number(text: &mut Vec<u8>, number: u64) -> Result<(), AllocError>
    ensures { OnOk result (text.new.items ≡ text.old.items ++ after_spaces (decimal number ∷ [])) }
{
    text.push(b' ')?;
    print_number(text, number)
}

/// Adds a key, with a space before it.
fn add_key(text: &mut Vec<u8>, key: &MetaKey) -> Result<(), AllocError>
    ensures { OnOk result
        (text.new.items ≡ text.old.items ++ after_spaces (key_text key.now ∷ [])) }
{
    text.push(b' ')?;
    print_key(text, key)
}

/// Adds the bytes of a value, with a space before them.
fn add_bytes(text: &mut Vec<u8>, bytes: &[u8]) -> Result<(), AllocError>
    ensures { OnOk result
        (text.new.items ≡ text.old.items ++ after_spaces (bytes_text bytes.now ∷ [])) }
{
    text.push(b' ')?;
    print_name(text, bytes)
}

/// Adds a label and a number after it, unless the number is 0.
fn add_labelled(text: &mut Vec<u8>, label: &[u8], number: u64) -> Result<(), AllocError>
    ensures { OnOk result
        (text.new.items ≡ text.old.items ++ after_spaces (unless_0 label.now number)) }
{
    if number == 0 {
        return Ok(());
    }
    add_word(text, label)?;
    add_number(text, number)
}

/// Adds the number of a read, if one is named.
fn add_read(text: &mut Vec<u8>, read: Option<u64>) -> Result<(), AllocError>
    ensures { OnOk result (text.new.items ≡ text.old.items ++ after_spaces (read_words read)) }
{
    match read {
        Some(read) => {
            add_word(text, b"read")?;
            add_number(text, read)
        }
        None => Ok(()),
    }
}

/// Adds the name of a command and a number.
pub(crate) fn add_command(text: &mut Vec<u8>, name: &[u8], number: u64) -> Result<(), AllocError>
    ensures { OnOk result
        (text.new.items ≡ text.old.items ++ spaced_words (name.now ∷ decimal number ∷ [])) }
{
    text.extend_from_slice(name)?;
    add_number(text, number)
}

/// Adds the name of a command and two numbers.
fn add_pair(text: &mut Vec<u8>, name: &[u8], first: u64, second: u64) -> Result<(), AllocError>
    ensures { OnOk result (text.new.items
        ≡ text.old.items ++ spaced_words (name.now ∷ decimal first ∷ decimal second ∷ [])) }
{
    add_command(text, name, first)?;
    add_number(text, second)
}

/// Adds the name of a command, two numbers, and a random word.
fn add_pair_with_word(
    text: &mut Vec<u8>,
    name: &[u8],
    first: u64,
    second: u64,
    word: u64,
) -> Result<(), AllocError>
    ensures { OnOk result (text.new.items ≡ text.old.items
        ++ spaced_words (name.now ∷ decimal first ∷ decimal second ∷ random_words word)) }
{
    add_pair(text, name, first, second)?;
    add_labelled(text, b"word", word)
}

/// Adds the name of a command, its node, and a key.
fn add_under(text: &mut Vec<u8>, name: &[u8], node: u64, key: &MetaKey) -> Result<(), AllocError>
    ensures { OnOk result (text.new.items
        ≡ text.old.items ++ spaced_words (name.now ∷ decimal node ∷ key_text key.now ∷ [])) }
{
    add_command(text, name, node)?;
    add_key(text, key)
}

fn add_put(
    text: &mut Vec<u8>,
    node: u64,
    key: &MetaKey,
    bytes: &[u8],
    stamp: u64,
    read: Option<u64>,
) -> Result<(), AllocError>
    ensures { OnOk result (text.new.items
        ≡ text.old.items ++ spelled (spoken.Put node key.now bytes.now stamp read)) }
{
    add_under(text, b"put", node, key)?;
    add_bytes(text, bytes)?;
    add_labelled(text, b"stamp", stamp)?;
    add_read(text, read)
}

fn add_del(
    text: &mut Vec<u8>,
    node: u64,
    key: &MetaKey,
    stamp: u64,
    read: Option<u64>,
) -> Result<(), AllocError>
    ensures { OnOk result (text.new.items
        ≡ text.old.items ++ spelled (spoken.Del node key.now stamp read)) }
{
    add_under(text, b"del", node, key)?;
    add_labelled(text, b"stamp", stamp)?;
    add_read(text, read)
}

/// Adds a write, of a value or of a tombstone.
fn add_write(
    text: &mut Vec<u8>,
    node: u64,
    key: &MetaKey,
    value: &Value,
    read: Option<u64>,
) -> Result<(), AllocError>
    ensures { OnOk result (text.new.items ≡ text.old.items
        ++ spelled (write_command node key.now value.now.stamp value.now.body read)) }
{
    match value.body() {
        Some(bytes) => add_put(text, node, key, bytes, value.stamp(), read),
        None => add_del(text, node, key, value.stamp(), read),
    }
}

/// Adds a write over all that is shown.
fn add_over(
    text: &mut Vec<u8>,
    node: u64,
    key: &MetaKey,
    bytes: &[u8],
    stamp: u64,
) -> Result<(), AllocError>
    ensures { OnOk result (text.new.items
        ≡ text.old.items ++ spelled (spoken.Over node key.now bytes.now stamp)) }
{
    add_under(text, b"over", node, key)?;
    add_bytes(text, bytes)?;
    add_labelled(text, b"stamp", stamp)
}

/// Adds a full prefix, with a space before it.
fn add_prefix(text: &mut Vec<u8>, prefix: &FullPrefix) -> Result<(), AllocError>
    ensures { OnOk result
        (text.new.items ≡ text.old.items ++ after_spaces (prefix_text prefix.now ∷ [])) }
{
    text.push(b' ')?;
    print_name(text, prefix.prefix())?;
    text.push(b'/')?;
    print_name(text, prefix.sub())
}

fn add_watch(
    text: &mut Vec<u8>,
    node: u64,
    prefix: &FullPrefix,
    capacity: usize,
) -> Result<(), AllocError>
    ensures { OnOk result (text.new.items
        ≡ text.old.items ++ spelled (spoken.Watch node prefix.now capacity)) }
{
    add_command(text, b"watch", node)?;
    add_prefix(text, prefix)?;
    add_number(text, capacity as u64)
}

/// Adds bytes that should be no frame, in hexadecimal digits.
fn add_junk(text: &mut Vec<u8>, node: u64, bytes: &[u8]) -> Result<(), AllocError>
    ensures { OnOk result (text.new.items
        ≡ text.old.items ++ spelled (spoken.Junk node bytes.now)) }
{
    add_command(text, b"junk", node)?;
    let digits = hex::encode(*text.allocator(), bytes)?;
    add_word(text, digits.as_bytes())
}

fn add_tick(text: &mut Vec<u8>, node: u64, word: u64) -> Result<(), AllocError>
    ensures { OnOk result (text.new.items
        ≡ text.old.items ++ spelled (spoken.Tick node word)) }
{
    add_command(text, b"tick", node)?;
    add_labelled(text, b"word", word)
}

/// Adds the command of what a node is asked. If no command is that, some bytes are added.
fn add_step(text: &mut Vec<u8>, node: u64, event: &NodeEvent) -> Result<(), AllocError>
    ensures { OnOk result (IfSome (step_command node event.now) (λ command.
        text.new.items ≡ text.old.items ++ spelled command)) }
{
    match event {
        NodeEvent::Read { key } => add_under(text, b"read", node, key),
        NodeEvent::Write { key, value, .. } => add_write(text, node, key, value, None),
        NodeEvent::PutOver { key, value } => match value.body() {
            Some(bytes) => add_over(text, node, key, bytes, value.stamp()),
            None => Ok(()),
        },
        NodeEvent::Take { frame, .. } => add_junk(text, node, frame.as_slice()),
        NodeEvent::Tick { word } => add_tick(text, node, *word),
        NodeEvent::Join { contact, word } => {
            add_pair_with_word(text, b"join", node, number(contact), *word)
        }
        NodeEvent::PeerDown { peer, word } => {
            add_pair_with_word(text, b"down", node, number(peer), *word)
        }
        NodeEvent::Exchange { peer } => add_pair(text, b"exchange", node, number(peer)),
        NodeEvent::Keep { key } => add_under(text, b"keep", node, key),
        NodeEvent::Watch { prefix, capacity } => add_watch(text, node, prefix, *capacity),
        NodeEvent::Changes { number } => add_pair(text, b"changes", node, *number),
        NodeEvent::Hello { peer } => add_pair(text, b"hello", node, number(peer)),
        NodeEvent::Leave => add_command(text, b"leave", node),
    }
}

/// Returns the number of a node, as commands have it.
pub(crate) fn number(node: &NodeId) -> u64
    ensures { result ≡ node.now }
{
    u64::from(node.number())
}

/// Adds the command of an event. If no command is that, some bytes are added.
pub(crate) fn add_event(text: &mut Vec<u8>, event: &Event) -> Result<(), AllocError>
    ensures { OnOk result (IfSome (command_of_event event.now) (λ command.
        text.new.items ≡ text.old.items ++ spelled command)) }
{
    match event {
        Event::Step { node, event } => add_step(text, *node, event),
        Event::Put {
            node,
            key,
            value,
            read,
        } => add_write(text, *node, key, value, Some(*read)),
        Event::Deliver { frame, node, word } => {
            add_pair_with_word(text, b"deliver", *frame, *node, *word)
        }
        Event::Restart { node, image } => add_pair(text, b"restart", *node, *image),
    }
}

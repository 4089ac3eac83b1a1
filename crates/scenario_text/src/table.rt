//! The table of commands: which words are which command. A function for each row.

ghost use Rattle.std.specs.Prelude.{◌≡◌};
ghost use Rattle.std.specs.Option.{option_map};
ghost use Rattle.scenario_text.specs.Coded.{ReadsWords, command_word, verb_word};
ghost use Rattle.scenario_text.specs.Commands as forms;
ghost use Rattle.scenario_text.specs.Commands.{command_of, reads_behind, rows};
ghost use Rattle.scenario_text.specs.Reading.{just, number_or_none, ◌and◌};

use crate::command::Command;
use crate::verb::{Verb, verb_of};
use crate::words::Words;

/// Reads the command that words are, if they are one, with `resolvers` resolvers at hand.
pub(crate) fn read_command<'a>(words: &mut Words<'a>, resolvers: usize) -> Option<Command<'a>>
    ensures { option_map command_word result ≡ command_of resolvers words.old }
{
    let verb = verb_of(words.next()?)?;
    let command = read_row(verb, words, resolvers)?;
    if words.are_over() {
        Some(command)
    } else {
        None
    }
}

/// Reads what follows the verb.
fn read_row<'a>(verb: Verb, words: &mut Words<'a>, resolvers: usize) -> Option<Command<'a>>
    ensures { ReadsWords (reads_behind (verb_word verb) (rows resolvers))
        words.old (option_map command_word result) words.new }
{
    match verb {
        Verb::Nodes => nodes(words),
        Verb::Put => put(words),
        Verb::Del => del(words),
        Verb::Over => over(words),
        Verb::Read => read(words),
        Verb::Show => show(words),
        Verb::Resolve => resolve(words, resolvers),
        Verb::Deliver => deliver(words),
        Verb::Junk => junk(words),
        Verb::Tick => tick(words),
        Verb::Join => join(words),
        Verb::Down => down(words),
        Verb::Exchange => exchange(words),
        Verb::Hello => hello(words),
        Verb::Leave => leave(words),
        Verb::Restart => restart(words),
        Verb::Keep => keep(words),
        Verb::Watch => watch(words),
        Verb::Changes => changes(words),
        Verb::List => keys(words),
        Verb::Root => root(words),
        Verb::Images => images(words),
        Verb::Views => views(words),
        Verb::Settle => Some(Command::Settle),
    }
}

fn nodes<'a>(words: &mut Words<'a>) -> Option<Command<'a>>
    ensures { ReadsWords (just forms.Nodes and forms.node_count)
        words.old (option_map command_word result) words.new }
{
    let count = words.node_count()?;
    Some(Command::Nodes { count })
}

fn put<'a>(words: &mut Words<'a>) -> Option<Command<'a>>
    ensures { ReadsWords (just forms.Put and forms.a_number and forms.a_key and forms.a_value
        and forms.stamp and forms.read) words.old
        (option_map command_word result) words.new }
{
    Some(Command::Put {
        node: words.number()?,
        key: words.key()?,
        value: words.value()?,
        stamp: words.stamp()?,
        read: words.read()?,
    })
}

fn del<'a>(words: &mut Words<'a>) -> Option<Command<'a>>
    ensures { ReadsWords
        (just forms.Del and forms.a_number and forms.a_key and forms.stamp and forms.read)
        words.old (option_map command_word result) words.new }
{
    Some(Command::Del {
        node: words.number()?,
        key: words.key()?,
        stamp: words.stamp()?,
        read: words.read()?,
    })
}

fn over<'a>(words: &mut Words<'a>) -> Option<Command<'a>>
    ensures { ReadsWords
        (just forms.Over and forms.a_number and forms.a_key and forms.a_value and forms.stamp)
        words.old (option_map command_word result) words.new }
{
    Some(Command::Over {
        node: words.number()?,
        key: words.key()?,
        value: words.value()?,
        stamp: words.stamp()?,
    })
}

fn read<'a>(words: &mut Words<'a>) -> Option<Command<'a>>
    ensures { ReadsWords (just forms.Read and forms.a_number and forms.a_key)
        words.old (option_map command_word result) words.new }
{
    Some(Command::Read {
        node: words.number()?,
        key: words.key()?,
    })
}

fn show<'a>(words: &mut Words<'a>) -> Option<Command<'a>>
    ensures { ReadsWords (just forms.Show and forms.a_number and forms.a_key)
        words.old (option_map command_word result) words.new }
{
    Some(Command::Show {
        node: words.number()?,
        key: words.key()?,
    })
}

fn resolve<'a>(words: &mut Words<'a>, resolvers: usize) -> Option<Command<'a>>
    ensures { ReadsWords
        (just forms.Resolve and forms.a_number and forms.a_key and forms.resolver resolvers)
        words.old (option_map command_word result) words.new }
{
    Some(Command::Resolve {
        node: words.number()?,
        key: words.key()?,
        by: words.resolver(resolvers)?,
    })
}

fn deliver<'a>(words: &mut Words<'a>) -> Option<Command<'a>>
    ensures { ReadsWords (just forms.Deliver and forms.a_number and number_or_none and forms.random)
        words.old (option_map command_word result) words.new }
{
    Some(Command::Deliver {
        frame: words.number()?,
        node: words.number_or_none(),
        word: words.random()?,
    })
}

fn junk<'a>(words: &mut Words<'a>) -> Option<Command<'a>>
    ensures { ReadsWords (just forms.Junk and forms.a_number and forms.junk)
        words.old (option_map command_word result) words.new }
{
    Some(Command::Junk {
        node: words.number()?,
        bytes: words.junk()?,
    })
}

fn tick<'a>(words: &mut Words<'a>) -> Option<Command<'a>>
    ensures { ReadsWords (just forms.Tick and forms.a_number and forms.random)
        words.old (option_map command_word result) words.new }
{
    Some(Command::Tick {
        node: words.number()?,
        word: words.random()?,
    })
}

fn join<'a>(words: &mut Words<'a>) -> Option<Command<'a>>
    ensures { ReadsWords (just forms.Join and forms.a_number and forms.a_number and forms.random)
        words.old (option_map command_word result) words.new }
{
    Some(Command::Join {
        node: words.number()?,
        contact: words.number()?,
        word: words.random()?,
    })
}

fn down<'a>(words: &mut Words<'a>) -> Option<Command<'a>>
    ensures { ReadsWords (just forms.Down and forms.a_number and forms.a_number and forms.random)
        words.old (option_map command_word result) words.new }
{
    Some(Command::Down {
        node: words.number()?,
        peer: words.number()?,
        word: words.random()?,
    })
}

fn exchange<'a>(words: &mut Words<'a>) -> Option<Command<'a>>
    ensures { ReadsWords (just forms.Exchange and forms.a_number and forms.a_number)
        words.old (option_map command_word result) words.new }
{
    Some(Command::Exchange {
        node: words.number()?,
        peer: words.number()?,
    })
}

fn hello<'a>(words: &mut Words<'a>) -> Option<Command<'a>>
    ensures { ReadsWords (just forms.Hello and forms.a_number and forms.a_number)
        words.old (option_map command_word result) words.new }
{
    Some(Command::Hello {
        node: words.number()?,
        peer: words.number()?,
    })
}

fn leave<'a>(words: &mut Words<'a>) -> Option<Command<'a>>
    ensures { ReadsWords (just forms.Leave and forms.a_number)
        words.old (option_map command_word result) words.new }
{
    let node = words.number()?;
    Some(Command::Leave { node })
}

fn restart<'a>(words: &mut Words<'a>) -> Option<Command<'a>>
    ensures { ReadsWords (just forms.Restart and forms.a_number and forms.a_number)
        words.old (option_map command_word result) words.new }
{
    Some(Command::Restart {
        node: words.number()?,
        image: words.number()?,
    })
}

fn keep<'a>(words: &mut Words<'a>) -> Option<Command<'a>>
    ensures { ReadsWords (just forms.Keep and forms.a_number and forms.key_if_any)
        words.old (option_map command_word result) words.new }
{
    Some(Command::Keep {
        node: words.number()?,
        key: words.key_if_any()?,
    })
}

fn watch<'a>(words: &mut Words<'a>) -> Option<Command<'a>>
    ensures { ReadsWords (just forms.Watch and forms.a_number and forms.a_prefix and forms.a_number)
        words.old (option_map command_word result) words.new }
{
    Some(Command::Watch {
        node: words.number()?,
        prefix: words.prefix()?,
        capacity: words.number()?,
    })
}

fn changes<'a>(words: &mut Words<'a>) -> Option<Command<'a>>
    ensures { ReadsWords (just forms.Changes and forms.a_number and forms.a_number)
        words.old (option_map command_word result) words.new }
{
    Some(Command::Changes {
        node: words.number()?,
        number: words.number()?,
    })
}

fn keys<'a>(words: &mut Words<'a>) -> Option<Command<'a>>
    ensures { ReadsWords (just forms.Keys and forms.a_number and forms.a_prefix)
        words.old (option_map command_word result) words.new }
{
    Some(Command::Keys {
        node: words.number()?,
        prefix: words.prefix()?,
    })
}

fn root<'a>(words: &mut Words<'a>) -> Option<Command<'a>>
    ensures { ReadsWords (just forms.Root and forms.a_number)
        words.old (option_map command_word result) words.new }
{
    let node = words.number()?;
    Some(Command::Root { node })
}

fn images<'a>(words: &mut Words<'a>) -> Option<Command<'a>>
    ensures { ReadsWords (just forms.Images and forms.a_number)
        words.old (option_map command_word result) words.new }
{
    let node = words.number()?;
    Some(Command::Images { node })
}

fn views<'a>(words: &mut Words<'a>) -> Option<Command<'a>>
    ensures { ReadsWords (just forms.Views and forms.a_number)
        words.old (option_map command_word result) words.new }
{
    let node = words.number()?;
    Some(Command::Views { node })
}

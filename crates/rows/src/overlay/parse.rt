use crate::fault::RowFault;
use crate::overlay::asked::Asked;
use crate::overlay::parse_call::read_call;
use crate::overlay::parse_event::read_event;
use crate::words::Words;
use meta_types::both;
use std::alloc::Global;

/// Reads what a line asks. Nothing is done before the whole line was read.
pub fn parse(alloc: Global, line: &str) -> Result<Asked, RowFault> {
    let mut words = Words::of(line);
    let asked = read(alloc, &mut words);
    let (asked, ()) = both(asked, words.end())?;
    Ok(asked)
}

fn read(alloc: Global, words: &mut Words<'_>) -> Result<Asked, RowFault> {
    match words.next()? {
        "node" => Ok(Asked::Begin(words.node_id()?)),
        "at" => Ok(Asked::GoOn(words.node_id()?)),
        "views" => Ok(Asked::Views),
        "peers" => Ok(Asked::Peers),
        command => read_command(alloc, command, words),
    }
}

fn read_command(alloc: Global, command: &str, words: &mut Words<'_>) -> Result<Asked, RowFault> {
    match read_call(alloc, command, words)? {
        Some(call) => Ok(Asked::Call(call)),
        None => {
            let event = read_event(alloc, command, words);
            let (event, word) = both(event, words.random())?;
            Ok(Asked::Event { event, word })
        }
    }
}

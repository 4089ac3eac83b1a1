//! The steps of nodes that the commands of a scenario ask.

ghost use Rattle.std.specs.Prelude.{◌≡◌, None};
ghost use Rattle.meta_types.specs.Name.{IsKey};
ghost use Rattle.scenario_text.specs.Coded.{command_word, key_word};
ghost use Rattle.scenario_text.specs.Commands.{fault_in};

use crate::fault::RowFault;
use meta_frame::read_header;
use meta_store::Context;
use meta_types::{ByteString, MetaKey, NodeId, Value, both};
use node_events::{NodeEvent, Reply};
use node_journal::Entry;
use scenario_text::{BytesWord, Command, KeyWord};
use std::alloc::{AllocError, Global};

/// An event, and the number of the node that it comes to.
#[derive(Drop)]
pub struct NodeStep {
    pub node: usize,
    pub event: NodeEvent,
}

impl NodeStep {
    fn new(node: u64, event: NodeEvent) -> Self {
        NodeStep {
            node: node as usize,
            event,
        }
    }
}

/// All frames that nodes sent, and all contexts that they handed out, in the order in which they
/// came.
#[derive(Drop)]
pub struct Given {
    alloc: Global,
    frames: Vec<ByteString>,
    contexts: Vec<Context>,
}

impl Given {
    pub fn none(alloc: Global) -> Self {
        Given {
            alloc,
            frames: Vec::new(alloc),
            contexts: Vec::new(alloc),
        }
    }

    /// Keeps the frames and the context that an entry gave.
    pub fn keep(&mut self, entry: &Entry) -> Result<(), AllocError> {
        if let Reply::Looked { context, .. } = &entry.reply {
            self.contexts.push(context.copy()?)?;
        }
        for frame in entry.outbox.as_slice() {
            self.frames.push(frame.copy()?)?;
        }
        Ok(())
    }

    /// Reads the step that a command asks. Mistyped is a command that asks none; idle is one that
    /// names no read or frame that was given, or no node's number.
    pub fn step_of(&self, command: &Command<'_>) -> Result<NodeStep, RowFault>
        requires { fault_in (command_word command.now) ≡ None }
    {
        match command {
            Command::Put {
                node,
                key,
                value,
                stamp,
                read,
            } => self.write(*node, key, Some(value), *stamp, *read),
            Command::Del {
                node,
                key,
                stamp,
                read,
            } => self.write(*node, key, None, *stamp, *read),
            Command::Over {
                node,
                key,
                value,
                stamp,
            } => self.over(*node, key, value, *stamp),
            Command::Read { node, key } => {
                let key = self.key(key)?;
                Ok(NodeStep::new(*node, NodeEvent::Read { key }))
            }
            Command::Deliver { frame, node, word } => self.take(*frame, *node, *word),
            command => step_of_numbers(command),
        }
    }

    fn key(&self, key: &KeyWord<'_>) -> Result<MetaKey, RowFault>
        requires { IsKey (key_word key.now) }
    {
        Ok(key.to_key(self.alloc)?)
    }

    fn value(&self, bytes: Option<&BytesWord<'_>>, stamp: u64) -> Result<Value, RowFault> {
        let body = match bytes {
            Some(bytes) => Some(bytes.to_bytes(self.alloc)?.into_vec()?),
            None => None,
        };
        Value::new(stamp, body).map_err(|_| RowFault::Idle)
    }

    /// Returns what a write has read: nothing, or a copy of the context of the read of this number.
    fn read_by(&self, read: Option<u64>) -> Result<Option<Context>, RowFault> {
        let Some(read) = read else {
            return Ok(None);
        };
        let context = numbered(self.contexts.as_slice(), read)?;
        Ok(Some(context.copy()?))
    }

    fn write(
        &self,
        node: u64,
        key: &KeyWord<'_>,
        bytes: Option<&BytesWord<'_>>,
        stamp: u64,
        read: Option<u64>,
    ) -> Result<NodeStep, RowFault>
        requires { IsKey (key_word key.now) }
    {
        let named = both(self.key(key), self.value(bytes, stamp));
        let ((key, value), context) = both(named, self.read_by(read))?;
        Ok(NodeStep::new(
            node,
            NodeEvent::Write {
                key,
                value,
                context,
            },
        ))
    }

    fn over(
        &self,
        node: u64,
        key: &KeyWord<'_>,
        bytes: &BytesWord<'_>,
        stamp: u64,
    ) -> Result<NodeStep, RowFault>
        requires { IsKey (key_word key.now) }
    {
        let (key, value) = both(self.key(key), self.value(Some(bytes), stamp))?;
        Ok(NodeStep::new(node, NodeEvent::PutOver { key, value }))
    }

    /// Hands the frame of this number to the node, or to its addressee.
    fn take(&self, number: u64, node: Option<u64>, word: u64) -> Result<NodeStep, RowFault> {
        let frame = numbered(self.frames.as_slice(), number)?;
        let node = match (node, read_header(frame.as_slice())) {
            (Some(node), _) => node,
            (None, Ok(header)) => u64::from(header.to.number()),
            (None, Err(_)) => return Err(RowFault::Idle),
        };
        let frame = frame.copy()?;
        Ok(NodeStep::new(node, NodeEvent::Take { frame, word }))
    }
}

/// Returns the item with this number in a list whose first item has number 1.
fn numbered<T>(list: &[T], number: u64) -> Result<&T, RowFault> {
    let place = number.checked_sub(1).ok_or(RowFault::Idle)?;
    list.get(place as usize).ok_or(RowFault::Idle)
}

pub fn node_id(number: u64) -> Result<NodeId, RowFault> {
    let number = u16::try_from(number).map_err(|_| RowFault::Idle)?;
    NodeId::new(number).map_err(|_| RowFault::Idle)
}

/// Reads the step that a command asks, if the command has numbers alone.
fn step_of_numbers(command: &Command<'_>) -> Result<NodeStep, RowFault> {
    match *command {
        Command::Tick { node, word } => Ok(NodeStep::new(node, NodeEvent::Tick { word })),
        Command::Join {
            node,
            contact,
            word,
        } => {
            let contact = node_id(contact)?;
            Ok(NodeStep::new(node, NodeEvent::Join { contact, word }))
        }
        Command::Down { node, peer, word } => {
            let peer = node_id(peer)?;
            Ok(NodeStep::new(node, NodeEvent::PeerDown { peer, word }))
        }
        Command::Exchange { node, peer } => {
            let peer = node_id(peer)?;
            Ok(NodeStep::new(node, NodeEvent::Exchange { peer }))
        }
        Command::Hello { node, peer } => {
            let peer = node_id(peer)?;
            Ok(NodeStep::new(node, NodeEvent::Hello { peer }))
        }
        Command::Leave { node } => Ok(NodeStep::new(node, NodeEvent::Leave)),
        _ => Err(RowFault::Mistyped),
    }
}

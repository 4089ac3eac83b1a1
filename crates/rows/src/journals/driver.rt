//! Nodes that the commands of a scenario drive, without a world. What a node accepts goes to its
//! journal.

use crate::fault::RowFault;
use crate::journals::step::{Given, NodeStep, node_id};
use crate::line::Line;
use meta_types::both;
use node_core::{NodeState, Stepped};
use node_events::{NodeEvent, StepFault};
use node_journal::Entry;
use scenario_text::{Command, Script, is_skipped, parse};
use std::alloc::{AllocError, Global};

/// Nodes with their journals, and what they gave.
#[derive(Drop)]
pub struct Nodes {
    pub alloc: Global,
    pub states: Vec<NodeState>,
    pub journals: Vec<Vec<Entry>>,
    given: Given,
}

/// Why nodes were not driven: a line of the scenario, by its place in it, or one that is missing at
/// its end.
#[derive(Clone, Copy)]
pub struct Undriven {
    pub place: usize,
    pub fault: RowFault,
}

impl Nodes {
    fn none(alloc: Global) -> Self {
        Nodes {
            alloc,
            states: Vec::new(alloc),
            journals: Vec::new(alloc),
            given: Given::none(alloc),
        }
    }

    /// Returns the nodes after the commands of a scenario, whose text has these lines.
    pub fn driven(alloc: Global, text: &[u8], lines: &[Line<'_>]) -> Result<Self, Undriven> {
        let script = match parse(text, 0) {
            Ok(Some(script)) => script,
            Ok(None) => return Err(mistyped(lines.len())),
            Err(fault) => return Err(mistyped((fault.line as usize).saturating_sub(1))),
        };
        let mut nodes = Nodes::none(alloc);
        let done = nodes.follow(script, lines);
        let (nodes, ()) = both(Ok(nodes), done)?;
        Ok(nodes)
    }

    /// Makes the nodes of a script, and obeys its commands.
    fn follow(&mut self, script: Script<'_>, lines: &[Line<'_>]) -> Result<(), Undriven> {
        let mut script = script;
        let mut has_nodes = false;
        for (place, line) in lines.iter().enumerate() {
            if is_skipped(line.text.as_bytes()) {
                continue;
            }
            let done = if has_nodes {
                self.obey_next(&mut script)
            } else {
                self.begin(script.nodes())
            };
            has_nodes = true;
            if let Err(fault) = done {
                return Err(Undriven { place, fault });
            }
        }
        Ok(())
    }

    /// Adds so many new nodes.
    fn begin(&mut self, count: u64) -> Result<(), RowFault> {
        for number in 0..count {
            let state = NodeState::new(self.alloc, node_id(number)?, 1)?;
            self.states.push(state)?;
            self.journals.push(Vec::new(self.alloc))?;
        }
        Ok(())
    }

    fn obey_next(&mut self, script: &mut Script<'_>) -> Result<(), RowFault> {
        match script.next() {
            Some(command) => self.obey(&command),
            None => Err(RowFault::Mistyped),
        }
    }

    /// Makes the step of the command on its node. Idle is one that the node refuses.
    fn obey(&mut self, command: &Command<'_>) -> Result<(), RowFault> {
        if command.fault().is_some() {
            return Err(RowFault::Idle);
        }
        let NodeStep { node, event } = self.given.step_of(command)?;
        match self.stepped(node, &event) {
            Ok(stepped) => self.journal(node, entry_of(event, stepped)),
            Err(fault) => {
                drop(event);
                Err(fault)
            }
        }
    }

    /// Returns what the step of the node gives.
    fn stepped(&mut self, node: usize, event: &NodeEvent) -> Result<Stepped, RowFault> {
        let Some(state) = self.states.get_mut(node) else {
            return Err(RowFault::Idle);
        };
        match state.step_on(event) {
            Ok(stepped) => Ok(stepped),
            Err(StepFault::Memory) => Err(RowFault::Memory),
            Err(_) => Err(RowFault::Idle),
        }
    }

    /// Puts an entry after the others of its node.
    fn journal(&mut self, node: usize, entry: Entry) -> Result<(), RowFault> {
        let kept = self.given.keep(&entry);
        let (entry, ()) = both(Ok(entry), kept)?;
        match self.journals.get_mut(node) {
            Some(journal) => Ok(journal.push(entry)?),
            None => {
                drop(entry);
                Err(RowFault::Idle)
            }
        }
    }
}

fn mistyped(place: usize) -> Undriven {
    Undriven {
        place,
        fault: RowFault::Mistyped,
    }
}

/// Makes the entry of an event and what its step gave.
fn entry_of(event: NodeEvent, stepped: Stepped) -> Entry {
    let Stepped { reply, outbox } = stepped;
    Entry {
        event,
        reply,
        outbox,
    }
}

//! Does what lines of the overlay ask.

use crate::fault::RowFault;
use crate::overlay::asked::{Asked, CastCall, Known, Told};
use crate::overlay::print::{print_cast_outs, print_list, print_view_outs};
use hyparview::{ViewEvent, Views};
use meta_types::NodeId;
use plumtree::{Cast, CastOut};
use std::alloc::{AllocError, Global};
use std::collections::BTreeMap;

/// The nodes of the lines so far, and the node of the next line.
#[derive(Drop)]
pub struct Nodes {
    by_number: BTreeMap<NodeId, Node>,
    at: Option<NodeId>,
}

impl Nodes {
    pub fn new(alloc: Global) -> Self {
        Nodes {
            by_number: BTreeMap::new(alloc),
            at: None,
        }
    }

    /// Does what is asked, and adds what that gives out, one item on each line.
    pub fn obey(
        &mut self,
        alloc: Global,
        asked: Asked,
        text: &mut Vec<u8>,
    ) -> Result<(), RowFault> {
        match asked {
            Asked::Begin(number) => self.begin(alloc, number),
            Asked::GoOn(number) => self.go_on(number),
            Asked::Views => Ok(self.current()?.print_views(text)?),
            Asked::Peers => Ok(self.current()?.print_peers(text)?),
            Asked::Event { event, word } => self.step(event, word, text),
            Asked::Call(call) => self.call(alloc, call, text),
        }
    }

    /// Begins a node that knows nobody, in place of one of the same number.
    fn begin(&mut self, alloc: Global, number: NodeId) -> Result<(), RowFault> {
        self.by_number.insert(number, Node::new(alloc, number))?;
        self.at = Some(number);
        Ok(())
    }

    fn go_on(&mut self, number: NodeId) -> Result<(), RowFault> {
        if !self.by_number.contains_key(&number) {
            return Err(RowFault::Idle);
        }
        self.at = Some(number);
        Ok(())
    }

    fn step(&mut self, event: ViewEvent, word: u64, text: &mut Vec<u8>) -> Result<(), RowFault> {
        match self.current() {
            Ok(node) => Ok(node.step(event, word, text)?),
            Err(fault) => {
                drop(event);
                Err(fault)
            }
        }
    }

    fn call(&mut self, alloc: Global, call: CastCall, text: &mut Vec<u8>) -> Result<(), RowFault> {
        match self.current() {
            Ok(node) => Ok(node.call(alloc, call, text)?),
            Err(fault) => {
                drop(call);
                Err(fault)
            }
        }
    }

    /// Returns the node of the line.
    fn current(&mut self) -> Result<&mut Node, RowFault> {
        let at = self.at.ok_or(RowFault::Idle)?;
        self.by_number.get_mut(&at).ok_or(RowFault::Idle)
    }
}

/// A node: its views and its broadcast. Neither hears of the other.
#[derive(Drop)]
struct Node {
    number: NodeId,
    views: Views,
    cast: Cast,
}

impl Node {
    /// Makes a node that knows nobody.
    fn new(alloc: Global, number: NodeId) -> Self {
        Node {
            number,
            views: Views::new(alloc, number),
            cast: Cast::new(alloc),
        }
    }

    fn step(&mut self, event: ViewEvent, word: u64, text: &mut Vec<u8>) -> Result<(), AllocError> {
        let outs = self.views.step(event, word)?;
        let done = print_view_outs(text, self.number, outs.as_slice());
        drop(outs);
        done
    }

    fn call(
        &mut self,
        alloc: Global,
        call: CastCall,
        text: &mut Vec<u8>,
    ) -> Result<(), AllocError> {
        let outs = make(&mut self.cast, alloc, call)?;
        let done = print_cast_outs(text, self.number, outs.as_slice());
        drop(outs);
        done
    }

    fn print_views(&self, text: &mut Vec<u8>) -> Result<(), AllocError> {
        print_list(text, "active ", self.views.active())?;
        print_list(text, " passive ", self.views.passive())?;
        text.extend_from_slice(b"\n")
    }

    fn print_peers(&self, text: &mut Vec<u8>) -> Result<(), AllocError> {
        print_list(text, "eager ", self.cast.eager())?;
        print_list(text, " lazy ", self.cast.lazy())?;
        text.extend_from_slice(b"\n")
    }
}

/// Makes a call, and returns what it gives out.
fn make(cast: &mut Cast, alloc: Global, call: CastCall) -> Result<Vec<CastOut>, AllocError> {
    match call {
        CastCall::Up(peer) => {
            cast.up(peer)?;
            Ok(Vec::new(alloc))
        }
        CastCall::Down(peer) => {
            cast.down(peer);
            Ok(Vec::new(alloc))
        }
        CastCall::Write(known) => write(cast, known),
        CastCall::Change(known) => {
            cast.on_change(&known.key, &known.vector);
            drop(known);
            Ok(Vec::new(alloc))
        }
        CastCall::Gossip { told, is_fresh } => gossip(cast, told, is_fresh),
        CastCall::Announce { told, is_stale } => announce(cast, told, is_stale),
        CastCall::Graft { told, is_held } => graft(cast, told, is_held),
        CastCall::Prune { from } => cast.on_prune(from),
        CastCall::Tick => cast.on_tick(),
    }
}

fn write(cast: &mut Cast, known: Known) -> Result<Vec<CastOut>, AllocError> {
    let outs = cast.on_broadcast(&known.key, &known.vector);
    drop(known);
    outs
}

fn gossip(cast: &mut Cast, told: Told, is_fresh: bool) -> Result<Vec<CastOut>, AllocError> {
    let Told { from, round, known } = told;
    let outs = cast.on_gossip(from, round, &known.key, &known.vector, is_fresh);
    drop(known);
    outs
}

fn announce(cast: &mut Cast, told: Told, is_stale: bool) -> Result<Vec<CastOut>, AllocError> {
    let Told { from, round, known } = told;
    let outs = cast.on_ihave(from, round, &known.key, &known.vector, is_stale);
    drop(known);
    outs
}

fn graft(cast: &mut Cast, told: Told, is_held: bool) -> Result<Vec<CastOut>, AllocError> {
    let Told { from, round, known } = told;
    let outs = cast.on_graft(from, round, &known.key, is_held);
    drop(known);
    outs
}

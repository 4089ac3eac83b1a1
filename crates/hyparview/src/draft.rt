//! The small steps that the rows of the table are made of.

ghost use Rattle.std.specs.Prelude.{◌≡◌, ◌<◌, ◌++◌, length, map, OnOk};
ghost use Rattle.hyparview.specs.declared.event.ViewOut.TheVariants.{Down};

use crate::event::ViewOut;
use frame_fields::Nodes;
use indexmap::IndexSet;
use meta_frame::Message;
use meta_types::NodeId;
use peer_lists::choose;
use std::alloc::{AllocError, Global};
use std::marker::Model;

/// The most members of the active view.
pub const ACTIVE_VIEW_SIZE: usize = 4;

/// The most members of the passive view.
pub const PASSIVE_VIEW_SIZE: usize = 8;

/// The views in the midst of a step, with what the step has given out. A step that fails drops it.
#[derive(Drop)]
pub struct Draft {
    pub(crate) alloc: Global,
    pub(crate) node: NodeId,
    pub(crate) active: IndexSet<NodeId>,
    pub(crate) passive: IndexSet<NodeId>,
    pub(crate) asked: IndexSet<NodeId>,
    pub(crate) sent: Nodes,
    pub(crate) out: Vec<ViewOut>,
}

impl Model for Draft {
    ghost use Rattle.hyparview.specs.Draft.{Draft as InTheMidst};

    ghost Value = { InTheMidst };

    ghost view = { λ d. record {
      node = d.node;
      active = d.active.keys;
      passive = d.passive.keys;
      asked = d.asked.keys;
      sent = d.sent;
      out = d.out.items;
    } };
}

impl Draft {
    ghost use Rattle.hyparview.specs.Draft.{add_active, add_passive, all_leave_active, drop_one};
    ghost use Rattle.hyparview.specs.Draft.{enter_active, leave_active, make_place, make_room};
    ghost use Rattle.hyparview.specs.Draft.{send};

    pub(crate) fn send(&mut self, to: NodeId, message: Message) -> Result<(), AllocError>
        ensures { OnOk result (self.new ≡ send to message self.old) }
    {
        self.out.push(ViewOut::Send(to, message))?;
        Ok(())
    }

    pub(crate) fn enter_active(&mut self, node: NodeId) -> Result<(), AllocError>
        ensures { OnOk result (self.new ≡ enter_active node self.old) }
    {
        self.active.insert(node)?;
        self.out.push(ViewOut::Up(node))?;
        Ok(())
    }

    pub(crate) fn leave_active(&mut self, node: NodeId) -> Result<(), AllocError>
        ensures { OnOk result (self.new ≡ leave_active node self.old) }
    {
        self.active.shift_remove(&node);
        self.out.push(ViewOut::Down(node))?;
        Ok(())
    }

    pub(crate) fn all_leave_active(&mut self) -> Result<(), AllocError>
        ensures { OnOk result (self.new ≡ all_leave_active self.old) }
    {
        push_downs(&mut self.out, self.active.as_slice())?;
        self.active.clear();
        Ok(())
    }

    fn make_room(&mut self, word: u64)
        ensures { self.new ≡ make_room word self.old }
    {
        if self.passive.len() >= PASSIVE_VIEW_SIZE {
            let leaving = choose(word, self.passive.as_slice());
            self.passive.shift_remove(&leaving);
        }
    }

    /// AddPassive: puts a node into reserve.
    #[tactic(auto, unfolding(crate::specs::Draft::add_passive))]
    pub(crate) fn add_passive(&mut self, word: u64, node: NodeId) -> Result<(), AllocError>
        ensures { OnOk result (self.new ≡ add_passive word node self.old) }
    {
        if node == self.node || self.active.contains(&node) || self.passive.contains(&node) {
            return Ok(());
        }
        self.make_room(word);
        self.passive.insert(node)?;
        Ok(())
    }

    #[tactic(auto, unfolding(crate::specs::Draft::drop_one))]
    fn drop_one(&mut self, word: u64) -> Result<(), AllocError>
        requires { 0 < length self.old.active }
        ensures { OnOk result (self.new ≡ drop_one word self.old) }
    {
        let dropped = choose(word, self.active.as_slice());
        self.send(dropped, Message::Disconnect)?;
        self.leave_active(dropped)?;
        self.add_passive(word, dropped)?;
        Ok(())
    }

    #[tactic(auto, unfolding(crate::specs::Draft::make_place))]
    fn make_place(&mut self, word: u64) -> Result<(), AllocError>
        ensures { OnOk result (self.new ≡ make_place word self.old) }
    {
        if self.active.len() >= ACTIVE_VIEW_SIZE {
            self.drop_one(word)?;
        }
        Ok(())
    }

    /// AddActive: makes a node a neighbour.
    #[tactic(auto, unfolding(crate::specs::Draft::add_active))]
    pub(crate) fn add_active(&mut self, word: u64, node: NodeId) -> Result<(), AllocError>
        ensures { OnOk result (self.new ≡ add_active word node self.old) }
    {
        if node == self.node || self.active.contains(&node) {
            return Ok(());
        }
        self.passive.shift_remove(&node);
        self.make_place(word)?;
        self.enter_active(node)?;
        Ok(())
    }
}

/// Gives out a `Down` for each of these nodes, in their order.
fn push_downs(out: &mut Vec<ViewOut>, nodes: &[NodeId]) -> Result<(), AllocError>
    ensures { OnOk result (out.new.items ≡ out.old.items ++ map (λ x. Down x) nodes.now) }
{
    for node in nodes {
        out.push(ViewOut::Down(*node))?;
    }
    Ok(())
}

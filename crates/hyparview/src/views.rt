ghost use Rattle.std.specs.Prelude.{◌≡◌, ◌↔◌, IfOk, IsTrue, OnErr};
ghost use Rattle.hyparview.specs.Lawful.{AreLawful};
ghost use Rattle.hyparview.specs.Views.{IsStep, draft_after, draft_of, empty, views_of};

use crate::draft::Draft;
use crate::event::{ViewEvent, ViewOut};
use frame_fields::Nodes;
use indexmap::IndexSet;
use meta_types::NodeId;
use std::alloc::{AllocError, Global};
use std::marker::Model;

/// The views of a node: the few neighbours that it talks to, and the nodes that it keeps in
/// reserve. At most 4 and 8, each once, none in both, and never the node itself.
#[derive(Drop)]
pub struct Views {
    alloc: Global,
    node: NodeId,
    active: IndexSet<NodeId>,
    passive: IndexSet<NodeId>,
    asked: IndexSet<NodeId>,
    sent: Nodes,
}

impl Model for Views {
    ghost use Rattle.hyparview.specs.Lawful.{AreLawful};
    ghost use Rattle.hyparview.specs.Views.{NodeViews};

    ghost Value = { NodeViews };

    ghost view = { λ v. record {
      node = v.node;
      active = v.active.keys;
      passive = v.passive.keys;
      asked = v.asked.keys;
      sent = v.sent;
    } };

    ghost invariant = { λ v. AreLawful v.node v.active.keys v.passive.keys };
}

impl Views {
    /// Returns the views of a node that knows nobody. It takes no memory.
    pub fn new(alloc: Global, node: NodeId) -> Self
        ensures { result ≡ empty node }
    {
        Views {
            alloc,
            node,
            active: IndexSet::new(alloc),
            passive: IndexSet::new(alloc),
            asked: IndexSet::new(alloc),
            sent: Nodes::new(Vec::new(alloc)),
        }
    }

    /// Returns whether the views are as new ones: the node knows nobody, asked nobody and sent
    /// nobody a list.
    pub fn is_new(&self) -> bool
        ensures { IsTrue result ↔ (self.now ≡ empty self.now.node) }
    {
        let knows_nobody = self.active.is_empty() && self.passive.is_empty();
        knows_nobody && self.asked.is_empty() && self.sent.as_slice().is_empty()
    }

    /// Returns the node whose views these are.
    pub fn node(&self) -> NodeId
        ensures { result ≡ self.now.node }
    {
        self.node
    }

    /// Returns the neighbours, the one of longest standing first.
    pub fn active(&self) -> &[NodeId]
        ensures value { result.now ≡ self.now.active }
        ensures lawful { AreLawful self.now.node self.now.active self.now.passive }
    {
        self.active.as_slice()
    }

    /// Returns the nodes in reserve, the one that came first at the front.
    pub fn passive(&self) -> &[NodeId]
        ensures value { result.now ≡ self.now.passive }
        ensures lawful { AreLawful self.now.node self.now.active self.now.passive }
    {
        self.passive.as_slice()
    }

    /// Takes one event, with a random word, by its row of the table. Returns what it gives out, in
    /// order: what is to be sent, and who became a neighbour or stopped being one. Fails only when
    /// memory runs out. What holds of every row is in `laws`.
    pub fn step(&mut self, event: ViewEvent, word: u64) -> Result<Vec<ViewOut>, AllocError>
        ensures row { IfOk result (λ out. IsStep self.old event word self.new out.items) }
        ensures unchanged { OnErr result (self.new ≡ self.old) }
    {
        self.take(&event, word)
    }

    /// Does what `step` does, with an event that stays the caller's.
    fn take(&mut self, event: &ViewEvent, word: u64) -> Result<Vec<ViewOut>, AllocError>
        ensures row { IfOk result (λ out. IsStep self.old event.now word self.new out.items) }
        ensures unchanged { OnErr result (self.new ≡ self.old) }
    {
        let draft = self.draft_after(word, event)?;
        Ok(self.commit(draft))
    }

    /// Returns the views after one event, and what the step gives out, while these stay as they
    /// are. Fails only when memory runs out.
    pub fn after(&self, event: &ViewEvent, word: u64) -> Result<(Views, Vec<ViewOut>), AllocError>
        ensures { IfOk result (λ after. IsStep self.now event.now word after.0 after.1.items) }
    {
        let done = self.draft_after(word, event)?;
        Ok(parted(done))
    }

    /// Returns the draft after an event.
    fn draft_after(&self, word: u64, event: &ViewEvent) -> Result<Draft, AllocError>
        ensures value { IfOk result (λ draft. draft ≡ draft_after event.now word self.now) }
        ensures lawful { IfOk result
            (λ draft. AreLawful draft.node draft.active draft.passive) }
        ensures was_lawful { AreLawful self.now.node self.now.active self.now.passive }
    {
        let mut draft = self.begin()?;
        draft.row(word, event)?;
        Ok(draft)
    }

    /// Takes over the views of the draft, and returns what the draft gave out.
    fn commit(&mut self, draft: Draft) -> Vec<ViewOut>
        requires { AreLawful draft.node draft.active draft.passive }
        ensures views { self.new ≡ views_of draft }
        ensures gives { result.items ≡ draft.out }
    {
        self.node = draft.node;
        self.active = draft.active;
        self.passive = draft.passive;
        self.asked = draft.asked;
        self.sent = draft.sent;
        draft.out
    }

    /// Fails only when memory runs out.
    pub fn copy(&self) -> Result<Self, AllocError>
        ensures { IfOk result (λ copy. copy ≡ self.now) }
    {
        Ok(Views {
            alloc: self.alloc,
            node: self.node,
            active: self.active.clone()?,
            passive: self.passive.clone()?,
            asked: self.asked.clone()?,
            sent: self.sent.copy()?,
        })
    }

    /// Begins a step on copies, so that a failed one changes nothing.
    fn begin(&self) -> Result<Draft, AllocError>
        ensures value { IfOk result (λ draft. draft ≡ draft_of self.now) }
        ensures was_lawful { AreLawful self.now.node self.now.active self.now.passive }
    {
        Ok(Draft {
            alloc: self.alloc,
            node: self.node,
            active: self.active.clone()?,
            passive: self.passive.clone()?,
            asked: self.asked.clone()?,
            sent: self.sent.copy()?,
            out: Vec::new(self.alloc),
        })
    }
}

/// Returns the views of a draft, and what it gave out.
fn parted(draft: Draft) -> (Views, Vec<ViewOut>)
    requires { AreLawful draft.node draft.active draft.passive }
    ensures views { result.0 ≡ views_of draft }
    ensures gives { result.1.items ≡ draft.out }
{
    let views = Views {
        alloc: draft.alloc,
        node: draft.node,
        active: draft.active,
        passive: draft.passive,
        asked: draft.asked,
        sent: draft.sent,
    };
    (views, draft.out)
}

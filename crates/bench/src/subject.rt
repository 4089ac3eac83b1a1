//! A node that is measured. Its driver doesn't see what it is, and so has nothing to prove of it.

use crate::rows::{Rows, node};
use crate::samples::refused;
use meta_types::{ByteString, MetaKey, NodeId};
use node_core::{NodeState, Stepped};
use node_events::{NodeEvent, Reply};
use std::alloc::Global;
use std::io;
use std::marker::Model;

/// One node.
#[derive(Drop)]
pub(crate) struct Subject {
    state: NodeState,
}

impl Model for Subject {
    ghost use Rattle.std.specs.Prelude.{ℕ};

    ghost Value = { ℕ };

    ghost view = { λ _. 0 };
}

/// Returns the last frame that was sent, if one was.
fn last_frame(stepped: Stepped) -> Option<ByteString> {
    let Stepped { reply, outbox } = stepped;
    // Dropped by a call, so that no case of the proof takes it apart.
    drop(reply);
    outbox.into_vec().pop()
}

/// Returns whether what came was new.
fn is_fresh(stepped: &Stepped) -> bool {
    matches!(&stepped.reply, Reply::TookFresh)
}

impl Subject {
    /// Makes a node that holds nothing and knows nobody.
    pub(crate) fn new(alloc: Global, node: NodeId) -> io::Result<Self> {
        let state = NodeState::new(alloc, node, 1)?;
        Ok(Subject { state })
    }

    /// Makes another node that holds the same and knows nobody.
    pub(crate) fn other(&self, alloc: Global, node: NodeId) -> io::Result<Self> {
        let store = self.state.store().copy()?;
        let state = NodeState::from_store(alloc, node, 1, store)?;
        Ok(Subject { state })
    }

    fn step(&mut self, event: NodeEvent) -> io::Result<Stepped> {
        self.state.step(event).map_err(refused)
    }

    /// Writes a copy of the rows' value over what is held under the key. Returns the frame that is
    /// sent, if one is.
    pub(crate) fn put_over(
        &mut self,
        rows: &Rows,
        key: &MetaKey,
    ) -> io::Result<Option<ByteString>> {
        let (key, value) = rows.copies(key)?;
        Ok(last_frame(self.step(NodeEvent::PutOver { key, value })?))
    }

    /// Writes the value under each of the keys.
    pub(crate) fn fill(&mut self, rows: &Rows) -> io::Result<()> {
        for key in rows.keys() {
            drop(self.put_over(rows, key)?);
        }
        Ok(())
    }

    /// Joins the cluster of node 0, and returns the frame that lets it hear of that.
    pub(crate) fn joining(&mut self) -> io::Result<Option<ByteString>> {
        let event = NodeEvent::Join {
            contact: node(0)?,
            word: 0,
        };
        Ok(last_frame(self.step(event)?))
    }

    /// Joins the cluster of node 0, which hears of it, so that both are neighbours.
    pub(crate) fn join(&mut self, contact: &mut Subject) -> io::Result<()> {
        if let Some(frame) = self.joining()? {
            contact.take(frame)?;
        }
        Ok(())
    }

    /// Takes a frame. Returns whether it brought something new.
    pub(crate) fn take(&mut self, frame: ByteString) -> io::Result<bool> {
        let stepped = self.step(NodeEvent::Take { frame, word: 0 })?;
        let is_fresh = is_fresh(&stepped);
        drop(stepped);
        Ok(is_fresh)
    }
}

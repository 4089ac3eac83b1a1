ghost use Rattle.std.specs.Prelude.{◌≡◌, IfOk};
ghost use Rattle.std.specs.Option.{option_copied};
ghost use Rattle.node_events.specs.Event.{other_of, stored_key};
ghost use Rattle.node_events.specs.declared.event.NodeEvent.TheVariants.{Write, Watch};
ghost use Rattle.node_events.specs.EqualEvents.{event_eq};

use meta_store::Context;
use meta_types::{ByteString, FullPrefix, MetaKey, NodeId, Value};
use std::alloc::AllocError;

/// What a node is asked to do. A word is a random number from outside, for the choices of a step.
#[derive(Debug, Drop)]
pub enum NodeEvent {
    /// The node is read.
    Read {
        key: MetaKey,
    },
    /// The node writes a value, which has read what the context says, or nothing.
    Write {
        key: MetaKey,
        value: Value,
        context: Option<Context>,
    },
    /// The node is read and writes at once a value that has read what was shown.
    PutOver {
        key: MetaKey,
        value: Value,
    },
    /// Bytes came that should be a frame for the node.
    Take {
        frame: ByteString,
        word: u64,
    },
    /// Time passes.
    Tick {
        word: u64,
    },
    /// The node joins the cluster through a contact.
    Join {
        contact: NodeId,
        word: u64,
    },
    /// Somebody found that a peer doesn't answer.
    PeerDown {
        peer: NodeId,
        word: u64,
    },
    /// The node begins an exchange with a peer.
    Exchange {
        peer: NodeId,
    },
    /// What is held under the key is to be stored. It changes nothing but the count of steps, as a
    /// read does.
    Keep {
        key: MetaKey,
    },
    /// Somebody wants to hear of the changes under a full prefix, the last `capacity` of them.
    Watch {
        prefix: FullPrefix,
        capacity: usize,
    },
    /// The watch of that number hands out what it has noted. Watches are numbered from 1.
    Changes {
        number: u64,
    },
    /// The node tells a peer which life it is in.
    Hello {
        peer: NodeId,
    },
    /// The node leaves the cluster.
    Leave,
}

impl NodeEvent {
    /// Returns the other node that the event names: a contact or a peer.
    pub fn other(&self) -> Option<NodeId>
        ensures { result ≡ other_of self.now }
    {
        match self {
            NodeEvent::Join { contact, .. } => Some(*contact),
            NodeEvent::PeerDown { peer, .. }
            | NodeEvent::Exchange { peer }
            | NodeEvent::Hello { peer } => Some(*peer),
            _ => None,
        }
    }

    /// Returns the key under which there is something to be stored once a node accepted the event.
    pub fn stored_key(&self) -> Option<&MetaKey>
        ensures { option_copied result ≡ stored_key self.now }
    {
        match self {
            NodeEvent::Write { key, .. }
            | NodeEvent::PutOver { key, .. }
            | NodeEvent::Keep { key } => Some(key),
            _ => None,
        }
    }

    /// Fails only when memory runs out.
    pub fn copy(&self) -> Result<Self, AllocError>
        ensures { IfOk result (λ copy. copy ≡ self.now) }
    {
        Ok(match self {
            NodeEvent::Read { key } => NodeEvent::Read { key: key.copy()? },
            NodeEvent::Write {
                key,
                value,
                context,
            } => return copy_write(key, value, context),
            NodeEvent::PutOver { key, value } => NodeEvent::PutOver {
                key: key.copy()?,
                value: value.copy()?,
            },
            NodeEvent::Take { frame, word } => NodeEvent::Take {
                frame: frame.copy()?,
                word: *word,
            },
            NodeEvent::Tick { word } => NodeEvent::Tick { word: *word },
            NodeEvent::Join { contact, word } => NodeEvent::Join {
                contact: *contact,
                word: *word,
            },
            NodeEvent::PeerDown { peer, word } => NodeEvent::PeerDown {
                peer: *peer,
                word: *word,
            },
            NodeEvent::Exchange { peer } => NodeEvent::Exchange { peer: *peer },
            NodeEvent::Keep { key } => NodeEvent::Keep { key: key.copy()? },
            NodeEvent::Watch { prefix, capacity } => NodeEvent::Watch {
                prefix: prefix.copy()?,
                capacity: *capacity,
            },
            NodeEvent::Changes { number } => NodeEvent::Changes { number: *number },
            NodeEvent::Hello { peer } => NodeEvent::Hello { peer: *peer },
            NodeEvent::Leave => NodeEvent::Leave,
        })
    }
}

fn copy_write(
    key: &MetaKey,
    value: &Value,
    context: &Option<Context>,
) -> Result<NodeEvent, AllocError>
    ensures { IfOk result (λ copy. copy ≡ Write key.now value.now context.now) }
{
    let context = match context {
        None => None,
        Some(context) => Some(context.copy()?),
    };
    let (key, value) = (key.copy()?, value.copy()?);
    Ok(NodeEvent::Write {
        key,
        value,
        context,
    })
}

impl PartialEq for NodeEvent {
    ghost use Rattle.std.specs.Prelude.{◌≡◌, ◌↔◌, IsTrue};
    ghost use Rattle.node_events.specs.EqualEvents.{event_equivalence};
    ghost use Rattle.std.specs.Cmp.{partial_equiv_from_equiv};

    ghost eq = { event_eq };

    ghost laws = { partial_equiv_from_equiv event_equivalence };

    fn eq(&self, other: &NodeEvent) -> bool
        ensures value { result ≡ event_eq self.now other.now }
        ensures same { IsTrue result ↔ (self.now ≡ other.now) }
    {
        use NodeEvent::*;
        match (self, other) {
            (Read { key }, Read { key: theirs }) => key == theirs,
            (
                Write {
                    key,
                    value,
                    context,
                },
                _,
            ) => is_write(other, key, value, context),
            (PutOver { key, value }, PutOver { key: k, value: v }) => key == k && value == v,
            (Take { frame, word }, Take { frame: f, word: w }) => frame == f && word == w,
            (Tick { word }, Tick { word: theirs }) => word == theirs,
            (
                Join { contact, word },
                Join {
                    contact: c,
                    word: w,
                },
            ) => contact == c && word == w,
            (PeerDown { peer, word }, PeerDown { peer: p, word: w }) => peer == p && word == w,
            (Exchange { peer }, Exchange { peer: theirs }) => peer == theirs,
            (Keep { key }, Keep { key: theirs }) => key == theirs,
            (Watch { prefix, capacity }, _) => is_watch(other, prefix, *capacity),
            (Changes { number }, Changes { number: theirs }) => number == theirs,
            (Hello { peer }, Hello { peer: theirs }) => peer == theirs,
            (Leave, Leave) => true,
            _ => false,
        }
    }
}

impl Eq for NodeEvent {
    ghost use Rattle.node_events.specs.EqualEvents.{event_equivalence};

    ghost laws = { event_equivalence };
}

/// Returns whether an event is the write of these parts.
fn is_write(event: &NodeEvent, key: &MetaKey, value: &Value, context: &Option<Context>) -> bool
    ensures { result ≡ event_eq (Write key.now value.now context.now) event.now }
{
    match event {
        NodeEvent::Write {
            key: k,
            value: v,
            context: c,
        } => key == k && value == v && context == c,
        _ => false,
    }
}

/// Returns whether an event is the watch of these parts.
fn is_watch(event: &NodeEvent, prefix: &FullPrefix, capacity: usize) -> bool
    ensures { result ≡ event_eq (Watch prefix.now capacity) event.now }
{
    match event {
        NodeEvent::Watch {
            prefix: p,
            capacity: c,
        } => prefix == p && capacity == *c,
        _ => false,
    }
}

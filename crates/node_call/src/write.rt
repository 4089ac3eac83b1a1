//! The writes of a batch.

ghost use Rattle.std.specs.Prelude.{◌≡◌};
ghost use Rattle.node_call.specs.Batch.{IsWrite, event_written};

use meta_store::Context;
use meta_types::{MetaKey, Value};
use node_events::NodeEvent;

/// A write of a batch.
#[derive(Debug, Drop)]
pub enum Write {
    /// Writes the value under the key, in place of all that the context has read, or of nothing.
    Put {
        key: MetaKey,
        value: Value,
        context: Option<Context>,
    },
    /// Writes the value in place of all that the node holds under the key.
    PutOver {
        key: MetaKey,
        value: Value,
    },
}

impl Write {
    pub(crate) fn into_event(self) -> NodeEvent
        ensures event { result ≡ event_written self }
        ensures write { IsWrite result }
    {
        match self {
            Write::Put {
                key,
                value,
                context,
            } => NodeEvent::Write {
                key,
                value,
                context,
            },
            Write::PutOver { key, value } => NodeEvent::PutOver { key, value },
        }
    }
}

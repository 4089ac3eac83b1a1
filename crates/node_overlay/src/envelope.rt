use meta_frame::Message;
use meta_types::NodeId;

/// A message, and to whom it goes.
#[derive(Drop)]
pub struct Envelope {
    pub to: NodeId,
    pub message: Message,
}

//! What the broadcast gives out becomes messages.

ghost use Rattle.std.specs.Prelude.{◌≡◌, IfOk, map};
ghost use Rattle.node_overlay.specs.Origin.{envelope_with, whole_messages};

use crate::envelope::Envelope;
use dvvset::Entries;
use meta_frame::Message;
use plumtree::CastOut;
use std::alloc::{AllocError, Global};

/// Returns each of these as a message; a GOSSIP carries this object. Fails only when memory runs
/// out.
pub fn gossips(
    alloc: Global,
    outs: Vec<CastOut>,
    object: &Entries,
) -> Result<Vec<Envelope>, AllocError>
    ensures { IfOk result (λ sent. sent.items ≡ map (envelope_with object.now) outs.items) }
{
    let mut sent = Vec::with_capacity(alloc, outs.len())?;
    for out in outs {
        sent.push(gossip(out, object)?)?;
    }
    Ok(sent)
}

fn gossip(out: CastOut, object: &Entries) -> Result<Envelope, AllocError>
    ensures { IfOk result (λ envelope. envelope ≡ envelope_with object.now out) }
{
    Ok(match out {
        CastOut::Gossip { to, round, key } => {
            let object = object.copy()?;
            Envelope {
                to,
                message: Message::Gossip { round, key, object },
            }
        }
        CastOut::Send(to, message) => Envelope { to, message },
    })
}

/// Returns the messages that are whole: all of them, if no GOSSIP is among them.
pub fn whole_messages(alloc: Global, outs: Vec<CastOut>) -> Result<Vec<Envelope>, AllocError>
    ensures { IfOk result (λ sent. sent.items ≡ whole_messages outs.items) }
{
    let mut sent = Vec::new(alloc);
    for out in outs {
        if let CastOut::Send(to, message) = out {
            sent.push(Envelope { to, message })?;
        }
    }
    Ok(sent)
}

//! What the bytes of a file stand for.

ghost use Rattle.std.specs.Prelude.{◌≡◌, ◌≢◌, length, None, Ok, IfOk};
ghost use Rattle.node_file.specs.File.{front_in, opened};
ghost use Rattle.node_file.specs.Reads.{OpensAs};
ghost use Rattle.node_file.specs.Refusal.{refusal_of_life};
ghost use Rattle.meta_types.specs.Node.{IsNode};

use crate::contents::{Contents, ReadFault, read_contents};
use crate::fault::FileFault;
use crate::record::{AROUND_PAYLOAD, LIFE_PAYLOAD};
use meta_store::StoreFault;
use meta_types::NodeId;
use std::alloc::Global;

/// The most bytes of a file.
pub const MAX_FILE_LEN: usize = 1 << 40;

/// How many bytes stand in front of the first gate.
pub(crate) const FRONT_LEN: usize = 10;

/// The fewest bytes of a file: its front, and a gate.
pub const MIN_FILE_LEN: usize = FRONT_LEN + 1;

pub(crate) const MAGIC: [u8; 8] = *b"PMNODE02";

const OLD_MAGIC: [u8; 8] = *b"PMNODE01";

/// What a file was found to stand for.
#[derive(Drop)]
pub(crate) struct Found {
    pub(crate) version: u8,
    pub(crate) node: NodeId,
    pub(crate) contents: Contents,
    /// The offset of the closed gate.
    pub(crate) gate: usize,
}

impl Found {
    /// Returns why the node can't begin its next life in the file.
    pub(crate) fn refusal(&self) -> Option<FileFault>
        ensures first { result ≡ refusal_of_life (Ok (
          record {
            version = self.now.version;
            node = self.now.node;
            contents = self.now.contents;
          },
          self.now.gate,
        )) }
        ensures version { result ≡ None → self.now.version ≢ 1 }
    {
        if self.version == 1 {
            return Some(FileFault::OldVersion);
        }
        if self.contents.life() == u32::MAX {
            return Some(FileFault::IncarnationSpent);
        }
        if self.gate > MAX_FILE_LEN - AROUND_PAYLOAD - LIFE_PAYLOAD {
            return Some(FileFault::FileFull);
        }
        None
    }
}

/// Returns the version and the node of a file's first ten bytes.
#[tactic(auto, unfolding(crate::specs::File::front_in))]
pub(crate) fn read_front(bytes: &[u8]) -> Result<(u8, NodeId), FileFault>
    requires { length bytes.now ≡ 10 }
    ensures { result ≡ front_in bytes.now }
{
    let magic = &bytes[..8];
    let version = if magic == MAGIC.as_slice() {
        2
    } else if magic == OLD_MAGIC.as_slice() {
        1
    } else {
        return Err(FileFault::Damaged { at: 0 });
    };
    let number = &bytes[8..];
    match NodeId::new(u16::from_be_bytes([number[0], number[1]])) {
        Ok(node) => Ok((version, node)),
        Err(_) => Err(FileFault::Damaged { at: 8 }),
    }
}

/// Returns what the bytes of a file stand for.
#[tactic(auto, unfolding(crate::specs::File::opened))]
pub(crate) fn open_bytes(
    alloc: Global,
    bytes: &[u8],
    asked: Option<NodeId>,
) -> Result<Found, FileFault>
    ensures value { OpensAs (λ f. (
      record {
        version = f.version;
        node = f.node;
        contents = f.contents;
      },
      f.gate,
    ))
        result (opened asked bytes.now) }
    ensures node { IfOk result (λ f. IsNode f.node) }
{
    if bytes.len() < MIN_FILE_LEN {
        return Err(FileFault::Damaged { at: bytes.len() });
    }
    let (version, node) = read_front(&bytes[..FRONT_LEN])?;
    if let Some(wanted) = asked {
        if wanted != node {
            return Err(FileFault::OtherNode);
        }
    }
    match read_contents(alloc, version, &bytes[FRONT_LEN..]) {
        Err(ReadFault::Memory) => Err(FileFault::Memory),
        Err(ReadFault::Full) => Err(FileFault::Store(StoreFault::StoreFull)),
        Err(ReadFault::Left(left)) => Err(FileFault::Damaged {
            at: bytes.len().saturating_sub(left),
        }),
        Ok((contents, left)) => {
            // (for its type)
            let _ = node.number();
            Ok(Found {
                version,
                node,
                contents,
                gate: bytes.len().saturating_sub(left),
            })
        }
    }
}

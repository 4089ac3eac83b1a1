//! A node's file that comes piece by piece.

ghost use Rattle.std.specs.Prelude.{◌≡◌, ◌⊎◌, ◌≤◌, ◌++◌, [], ℕ, List, length, drop, Ok, Err, IfOk, IfErr, IsTrue, OnOk, OnErr, is_ok, true};
ghost use Rattle.node_file.specs.File.{FileState, opened, state_or_none};
ghost use Rattle.node_file.specs.Gates.{changed_gate};
ghost use Rattle.node_file.specs.declared.fault.FileFault.{FileFault};
ghost use Rattle.file_pieces.specs.Told.{tells, warns};

use crate::progress::FileContents;
use crate::stage::{Stage, read_on};
use meta_types::NodeId;
use node_file::FileFault;
use node_file::laws::a_file_ends_at_its_closed_gate;
use std::alloc::{AllocError, Global};
use std::marker::Model;
use std::mem::replace;

/// A node's file of which some pieces have come, from its first byte on.
///
/// `tells` says of it what it tells of the file by the bytes that still follow, and `warns` whether
/// the closed gate then shows that it was changed on the disk.
#[derive(Drop)]
pub struct Reading {
    alloc: Global,
    stage: Stage,
    /// What has come and isn't read: a front of the file's front, or of a record with its gate; or
    /// what stands from the closed gate on.
    rest: Vec<u8>,
}

impl Model for Reading {
    ghost use Rattle.file_pieces.specs.Told.{Came, IsWaiting};

    ghost Value = { Came };

    ghost view = { λ r. record { stage = r.stage; rest = r.rest.items } };

    ghost invariant = { λ r. IsWaiting r.stage r.rest.items };
}

impl Reading {
    /// Returns the reading of a file of which nothing has come, maybe one of the node that is asked
    /// for.
    pub fn new(alloc: Global, asked: Option<NodeId>) -> Self
        ensures told { (bytes : List ℕ) → tells result bytes ≡ opened asked bytes }
        ensures warned { (bytes : List ℕ) (s : FileState) (gate : ℕ)
            → opened asked bytes ≡ Ok (s, gate) → warns result bytes ≡ changed_gate bytes }
    {
        a_file_ends_at_its_closed_gate();
        Reading {
            alloc,
            stage: Stage::Front(asked),
            rest: Vec::new(alloc),
        }
    }

    /// Reads the next piece, of any length. It takes memory for the table, for one record or, from
    /// the closed gate on, two of the greatest length, and for the piece.
    ///
    /// Refused with 99 `Memory`; then `finish` is refused with that too, whatever follows.
    pub fn push(&mut self, piece: &[u8]) -> Result<(), FileFault>
        ensures pushed { OnOk result ((following : List ℕ)
            → (tells self.new following ≡ tells self.old (piece.now ++ following))
            × (warns self.new following ≡ warns self.old (piece.now ++ following))) }
        ensures lost { OnErr result ((following : List ℕ)
            → tells self.new following ≡ Err FileFault.Memory) }
        ensures refused { IfErr result (λ fault. fault ≡ FileFault.Memory) }
    {
        if self.is_told() {
            return Ok(());
        }
        let stage = replace(&mut self.stage, Stage::Refused(FileFault::Memory));
        self.rest.extend_from_slice(piece)?;
        let (stage, read) = read_on(self.alloc, stage, &self.rest)?;
        leave_out(self.alloc, &mut self.rest, read)?;
        self.stage = stage;
        Ok(())
    }

    /// Returns whether all is told, so that no byte that follows counts: the file is refused, or of
    /// what stands from its closed gate on all has come that is looked at,
    /// [`MAX_LOOKED_AT`](node_file::MAX_LOOKED_AT) bytes.
    pub fn is_told(&self) -> bool
        ensures told { IsTrue result → (following : List ℕ)
            → tells self.now following ≡ tells self.now [] }
        ensures warned { IsTrue result → (following : List ℕ)
            → warns self.now following ≡ warns self.now [] }
    {
        match &self.stage {
            Stage::Front(_) | Stage::Records(_) => false,
            Stage::Ended(progress) => progress.is_seen_in(&self.rest),
            Stage::Refused(_) => true,
        }
    }

    /// Returns what the file stands for whose bytes have come.
    ///
    /// Refused as [`open_node`](node_file::open_node) is, except with 30 `Device`. It takes memory
    /// for what has come from the closed gate on, and for two records.
    pub fn finish(self) -> Result<FileContents, FileFault>
        ensures opens { IfOk result (λ f.
            tells self [] ≡ Ok (state_or_none (tells self []), f.gate)) }
        ensures node { IfOk result (λ f. f.node ≡ (state_or_none (tells self [])).node) }
        ensures life { IfOk result (λ f.
            f.life ≡ (state_or_none (tells self [])).contents.life) }
        ensures table { IfOk result (λ f.
            f.table ≡ (state_or_none (tells self [])).contents.table) }
        ensures changed_gate { IfOk result (λ f. f.changed_gate ≡ warns self []) }
        ensures refused { IfErr result (λ fault. (tells self [] ≡ Err fault)
            ⊎ ((fault ≡ FileFault.Memory) × (is_ok (tells self []) ≡ true))) }
    {
        let Reading { alloc, stage, rest } = self;
        match stage {
            Stage::Front(_) => Err(FileFault::Damaged { at: rest.len() }),
            Stage::Records(progress) => Err(FileFault::Damaged { at: progress.at() }),
            Stage::Ended(progress) => {
                let changed_gate = progress.changed_gate(alloc, &rest)?;
                Ok(progress.into_contents(changed_gate))
            }
            Stage::Refused(fault) => Err(fault),
        }
    }
}

/// Leaves out so many of the first bytes. What is left is copied only if there are any.
fn leave_out(alloc: Global, bytes: &mut Vec<u8>, n: usize) -> Result<(), AllocError>
    requires within { n ≤ length bytes.old.items }
    ensures left { OnOk result (bytes.new.items ≡ drop n bytes.old.items) }
{
    if n > 0 {
        *bytes = bytes[n..].to_vec(alloc)?;
    }
    Ok(())
}

//! What was read of a file: its front, and the records behind it.

ghost use Rattle.std.specs.Prelude.{◌≡◌, ◌≢◌, ◌⊎◌, ◌≤◌, ◌++◌, true, false, ℕ, List, [], length, Err, IfOk, IfErr, IsTrue};
ghost use Rattle.meta_store.specs.Table.{most_keys};
ghost use Rattle.node_file.specs.declared.fault.FileFault.{FileFault};
ghost use Rattle.node_file.specs.Fold.{may_follow_life};
ghost use Rattle.node_file.specs.File.{opened};
ghost use Rattle.node_file.specs.Gates.{shows_changed_gate};
ghost use Rattle.file_pieces.specs.Alone.{MayBeHeld};
ghost use Rattle.file_pieces.specs.Framing.{IsFramed, IsShut};
ghost use Rattle.file_pieces.specs.Progress.{HasTaken, told_of, with_said};
ghost use Rattle.file_pieces.specs.Told.{gate_if_changed};

use crate::alone::{open_alone, read_alone};
use meta_store::{Store, StoreFault};
use meta_types::NodeId;
use node_file::laws::a_changed_gate_is_seen_close_behind_it;
use node_file::{FileFault, MAX_LOOKED_AT, MIN_FILE_LEN, Record, changed_gate};
use std::alloc::{AllocError, Global};
use std::marker::Model;

/// How many bytes stand in front of the first gate.
pub(crate) const FRONT_LEN: usize = MIN_FILE_LEN - 1;

/// What a file stands for.
#[derive(Drop)]
pub struct FileContents {
    pub node: NodeId,
    /// The number of the last life, 0 for none.
    pub life: u32,
    pub table: Store,
    /// The offset of the closed gate.
    pub gate: usize,
    /// The offset of the closed gate, if what stands there shows that it was changed on the disk,
    /// as [`node_file::changed_gate`] tells.
    pub changed_gate: Option<usize>,
}

/// What was read of a file.
#[derive(Drop)]
pub(crate) struct Progress {
    front: Vec<u8>,
    node: NodeId,
    life: u32,
    table: Store,
    /// There were more keys than a store holds. The table doesn't count any more.
    has_too_many: bool,
    /// How many bytes were read.
    at: usize,
}

impl Model for Progress {
    ghost use Rattle.std.specs.Prelude.{◌≡◌};
    ghost use Rattle.file_pieces.specs.Alone.{IsFront, node_in, version_in};
    ghost use Rattle.file_pieces.specs.Progress.{ReadSoFar};

    ghost Value = { ReadSoFar };

    ghost view = { λ p. record {
      version = version_in p.front.items;
      node = p.node;
      contents = record { life = p.life; table = p.table };
      has_too_many = p.has_too_many;
      at = p.at;
    } };

    ghost invariant = { λ p. IsFront p.front.items × (p.node ≡ node_in p.front.items) };
}

impl Progress {
    /// Reads the first ten bytes of a file. Refused as a file that begins so is.
    pub(crate) fn begin(
        alloc: Global,
        front: &[u8],
        asked: Option<NodeId>,
    ) -> Result<Progress, FileFault>
        requires ten { length front.now ≡ 10 }
        ensures at { IfOk result (λ p. p.at ≡ 10) }
        ensures begun { IfOk result (λ p. (rest : List ℕ) → rest ≢ []
            → opened asked (front.now ++ rest) ≡ told_of p rest) }
        ensures refused { IfErr result (λ fault. (fault ≡ FileFault.Memory)
            ⊎ ((rest : List ℕ) → rest ≢ [] → opened asked (front.now ++ rest) ≡ Err fault)) }
    {
        let opened = match open_alone(alloc, front, &[], asked) {
            Ok(opened) => opened,
            Err(fault) => return Err(fault),
        };
        let front = front.to_vec(alloc)?;
        Ok(Progress {
            front,
            node: opened.node,
            life: 0,
            table: Store::new(alloc),
            has_too_many: false,
            at: FRONT_LEN,
        })
    }

    /// Returns how many bytes were read.
    pub(crate) fn at(&self) -> usize
        ensures { result ≡ self.now.at }
    {
        self.at
    }

    /// Returns whether there are more keys than a store holds; if not, the table is one.
    pub(crate) fn has_too_many(&self) -> bool
        ensures value { result ≡ self.now.has_too_many }
        ensures few { length self.now.contents.table ≤ most_keys }
    {
        // (for its type)
        let _ = self.table.len();
        self.has_too_many
    }

    /// Returns whether so many bytes from the closed gate on tell what it shows: no byte that
    /// follows them counts.
    pub(crate) fn is_seen_in(&self, from_gate: &[u8]) -> bool
        requires shut { IsShut from_gate.now }
        ensures { IsTrue result → (following : List ℕ)
            → shows_changed_gate self.now.version (from_gate.now ++ following)
            ≡ shows_changed_gate self.now.version from_gate.now }
    {
        a_changed_gate_is_seen_close_behind_it();
        // (for its type)
        let _ = self.front.len();
        from_gate.len() >= MAX_LOOKED_AT
    }

    /// Returns the offset of the closed gate if the bytes from it on show that it was changed.
    ///
    /// Refused with 99 `Memory`.
    pub(crate) fn changed_gate(
        &self,
        alloc: Global,
        from_gate: &[u8],
    ) -> Result<Option<usize>, FileFault>
        requires shut { IsShut from_gate.now }
        ensures value { IfOk result (λ gate. gate
            ≡ gate_if_changed self.now.version self.now.at from_gate.now) }
        ensures memory { IfErr result (λ fault. fault ≡ FileFault.Memory) }
    {
        let mut bytes = Vec::with_capacity(alloc, FRONT_LEN + from_gate.len())?;
        bytes.extend_from_slice(&self.front)?;
        bytes.extend_from_slice(from_gate)?;
        // (without the records, the gate stands right behind the front)
        match changed_gate(alloc, &bytes)? {
            Some(_) => Ok(Some(self.at)),
            None => Ok(None),
        }
    }

    /// Returns what the file stands for if its records end here, with what its closed gate shows.
    pub(crate) fn into_contents(self, changed_gate: Option<usize>) -> FileContents
        ensures { result ≡ record {
          node = self.node;
          life = self.contents.life;
          table = self.contents.table;
          gate = self.at;
          changed_gate = changed_gate;
        } }
    {
        FileContents {
            node: self.node,
            life: self.life,
            table: self.table,
            gate: self.at,
            changed_gate,
        }
    }

    /// Reads the bytes of a record with its gate, and returns whether it is whole and may follow.
    /// Fails only when memory runs out.
    pub(crate) fn take(&mut self, alloc: Global, bytes: &[u8]) -> Result<bool, FileFault>
        requires framed { IsFramed bytes.now }
        ensures taken { IfOk result (λ taken. HasTaken bytes.now self.old self.new taken) }
        ensures memory { IfErr result (λ fault. fault ≡ FileFault.Memory) }
    {
        // (for its type)
        let _ = self.table.len();
        let Some(at) = self.at.checked_add(bytes.len()) else {
            return Err(FileFault::Memory);
        };
        let Some(said) = read_alone(alloc, &self.front, bytes)? else {
            return Ok(false);
        };
        if !self.take_in(said)? {
            return Ok(false);
        }
        self.at = at;
        Ok(true)
    }

    /// Takes in what a record says, and returns whether it may follow.
    fn take_in(&mut self, said: Record) -> Result<bool, AllocError>
        requires held { MayBeHeld said }
        ensures follows { IfOk result (λ taken. taken
            ≡ may_follow_life self.old.contents.life said) }
        ensures taken { IfOk result (λ taken. taken ≡ true → self.new ≡ with_said self.old said) }
        ensures same { IfOk result (λ taken. taken ≡ false → self.new ≡ self.old) }
    {
        match said {
            Record::Life(life) => {
                if life <= self.life {
                    return Ok(false);
                }
                self.life = life;
                Ok(true)
            }
            Record::Object(key, object) => {
                if self.has_too_many {
                    return Ok(true);
                }
                if self.table.has_room_for(&key) {
                    self.table.hold(key, object)?;
                } else {
                    self.has_too_many = true;
                }
                Ok(true)
            }
        }
    }
}

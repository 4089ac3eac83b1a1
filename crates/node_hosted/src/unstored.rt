//! The records that the host has to store, as the bytes that he is to write.

ghost use Rattle.std.specs.Prelude.{◌≡◌, ◌++◌, ◌∷◌, [], OnOk, OnErr};
ghost use Rattle.std.specs.Option.{option_copied};
ghost use Rattle.node_file.specs.Batch.{batch_size};
ghost use Rattle.node_file.specs.File.{gated};
ghost use Rattle.node_file.specs.Record.{IsRecord};
ghost use Rattle.node_file.specs.declared.record.Record.{Record};
ghost use Rattle.node_hosted.specs.Unstored.{IsOneRecord, spelled};

use node_file::laws::a_record_is_read_again;
use std::alloc::{AllocError, Global};
use std::marker::Model;

/// Records one behind the other. Contracts see the records.
#[derive(Drop)]
pub(crate) struct Unstored {
    /// The records from the first open gate to the closed one after the last. Of none there is
    /// nothing.
    bytes: Vec<u8>,
}

impl Model for Unstored {
    ghost use Rattle.std.specs.Prelude.{List};
    ghost use Rattle.node_file.specs.declared.record.Record.{Record};
    ghost use Rattle.node_hosted.specs.Unstored.{AreRecords, records_in};

    ghost Value = { List Record };

    ghost view = { λ u. records_in u.bytes.items };

    ghost invariant = { λ u. AreRecords u.bytes.items };
}

impl Unstored {
    pub(crate) fn new(alloc: Global) -> Unstored
        ensures { result ≡ [] }
    {
        Unstored {
            bytes: Vec::new(alloc),
        }
    }

    /// Returns the bytes, if there are records.
    pub(crate) fn bytes(&self) -> Option<&[u8]>
        ensures { option_copied result ≡ spelled self.now }
    {
        if self.bytes.is_empty() {
            return None;
        }
        Some(self.bytes.as_slice())
    }

    /// Returns by how many bytes the closed gate moves when the records are stored.
    pub(crate) fn size(&self) -> usize
        ensures { result ≡ batch_size self.now }
    {
        self.bytes.len().saturating_sub(1)
    }

    /// Puts a record with its gates behind the others. Its open gate takes the place of their
    /// closed one.
    pub(crate) fn join(&mut self, added: Vec<u8>) -> Result<(), AllocError>
        requires { IsOneRecord added.items }
        ensures joined { OnOk result ((said : Record) → IsRecord said → added.items ≡ gated said
            → self.new ≡ self.old ++ said ∷ []) }
        ensures same { OnErr result (self.new ≡ self.old) }
    {
        // (for what the bytes say)
        a_record_is_read_again();
        let Some(last) = self.bytes.len().checked_sub(1) else {
            self.bytes = added;
            return Ok(());
        };
        self.bytes.extend_from_slice(&added[1..])?;
        self.bytes[last] = added[0];
        Ok(())
    }
}

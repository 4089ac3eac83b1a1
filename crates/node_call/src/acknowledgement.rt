ghost use Rattle.std.specs.Prelude.{◌≡◌};
ghost use Rattle.meta_types.specs.Actor.{writer_number};
ghost use Rattle.node_call.specs.Journaled.{TellsOfEntry};

use node_journal::{Entry, Receipt};
use node_readers::{Naming, Revision};
use std::marker::Model;

/// What an accepted call returns: its receipt, and the revision of the published table that has
/// what the call changed, for readers to learn.
#[derive(Drop)]
pub struct Acknowledgement<J: Naming> {
    receipt: Receipt,
    revision: Revision<J>,
}

impl<J: Naming> Model for Acknowledgement<J> {
    ghost use Rattle.meta_types.specs.Actor.{writer_number};
    ghost use Rattle.node_call.specs.Acknowledged.{Acknowledged};
    ghost use Rattle.node_call.specs.Journaled.{TellsOfEntry};

    ghost Value = { Acknowledged };

    ghost view = { λ a. record { receipt = a.receipt; list = a.revision } };

    ghost invariant = { λ a.
        TellsOfEntry (writer_number J.node J.incarnation) a.receipt.entry a.revision };
}

impl<J: Naming> Acknowledgement<J> {
    /// Makes an acknowledgement of a receipt, and of the revision that has what its call changed.
    /// If its entry is a write, the list of the revision ends with what it wrote.
    pub fn of(receipt: Receipt, revision: Revision<J>) -> Self
        requires { TellsOfEntry (writer_number J.node J.incarnation) receipt.entry revision }
        ensures { result ≡ record { receipt = receipt; list = revision } }
    {
        Acknowledgement { receipt, revision }
    }

    /// Returns the receipt. If its entry is a write, the published list ends with what it wrote.
    pub fn receipt(&self) -> &Receipt
        ensures value { result.now ≡ self.now.receipt }
        ensures tells { TellsOfEntry (writer_number J.node J.incarnation)
            self.now.receipt.entry self.now.list }
    {
        &self.receipt
    }

    /// Returns the entry of the receipt: the event, the reply, and the frames to send.
    pub fn entry(&self) -> &Entry
        ensures { result.now ≡ self.now.receipt.entry }
    {
        &self.receipt.entry
    }

    /// Returns what a reader learns, to be shown what the call changed, or what came later.
    pub fn revision(&self) -> &Revision<J>
        ensures { result.now ≡ self.now.list }
    {
        &self.revision
    }

    /// Returns the receipt by value, which may outlive the node. It takes no memory.
    pub fn into_receipt(self) -> Receipt
        ensures { result ≡ self.receipt }
    {
        self.receipt
    }
}

//! What the host is handed, in the order in which he stores and sends it.

ghost use Rattle.std.specs.Prelude.{◌≡◌, ◌≢◌, [], None};
ghost use Rattle.std.specs.Option.{option_copied};
ghost use Rattle.node_hosted.specs.Hosting.{Stores, after_sending, handed_record, handed_reply, is_held_back, is_shut, next_frame};

use crate::fault::HostFault;
use crate::node::HostedNode;
use crate::unstored::Unstored;
use meta_types::ByteString;
use node_events::Reply;

impl HostedNode {
    /// Returns the offset of the closed gate in the host's file, if he keeps one.
    pub fn gate(&self) -> Option<usize>
        ensures value { result ≡ self.now.gate }
        ensures there { self.now.to_store ≢ [] → self.now.gate ≢ None }
    {
        self.gate
    }

    /// Returns the bytes of the record that the host has to store, or of all records of a batch. He
    /// writes the bytes after the first, beginning one byte after the gate; syncs; writes the first
    /// byte over the gate; and syncs. If the first write fails, he may make it again, any number of
    /// times; if another call fails, he repeats none, and says that he failed.
    pub fn record(&self) -> Option<&[u8]>
        ensures { option_copied result ≡ handed_record self.now }
    {
        if self.is_shut() {
            return None;
        }
        self.to_store.bytes()
    }

    /// Takes note that the host stored the record, or all records of a batch, or that he failed to,
    /// which stops the node. Refused with 34 `Stopped`, and with 38 `Nothing` if none is handed
    /// out.
    pub fn stored(&mut self, is_stored: bool) -> Result<(), HostFault>
        ensures { Stores is_stored self.old result self.new }
    {
        if self.is_stopped {
            return Err(HostFault::Stopped);
        }
        if self.record().is_none() {
            return Err(HostFault::Nothing);
        }
        if is_stored {
            self.gate = self.next_gate();
            self.to_store = Unstored::new(self.alloc);
        } else {
            self.is_stopped = true;
        }
        Ok(())
    }

    /// Returns whether nothing is handed out.
    fn is_shut(&self) -> bool
        ensures { result ≡ is_shut self.now }
    {
        self.is_stopped || self.in_batch
    }

    /// Returns whether neither the reply nor a frame is handed out.
    fn is_held_back(&self) -> bool
        ensures { result ≡ is_held_back self.now }
    {
        self.is_shut() || self.to_store.bytes().is_some()
    }

    /// Returns what the last step replied, once there is nothing to store and no batch is open.
    pub fn reply(&self) -> Option<&Reply>
        ensures { option_copied result ≡ handed_reply self.now }
    {
        if self.is_held_back() {
            return None;
        }
        self.reply.as_ref()
    }

    /// Returns the next frame to send, once there is nothing to store and no batch is open.
    pub fn frame(&self) -> Option<&ByteString>
        ensures { option_copied result ≡ next_frame self.now }
    {
        if self.is_held_back() {
            return None;
        }
        self.outbox.get(self.sent)
    }

    /// Takes note that the host has the next frame, if there is one.
    pub fn sent(&mut self)
        ensures { self.new ≡ after_sending self.old }
    {
        if self.frame().is_some() {
            self.sent += 1;
        }
    }
}

//! Laws of node files. The contract of a function is the law; its body does nothing.

ghost use Rattle.std.specs.Prelude.{◌≡◌, ◌≢◌, ◌↔◌, ◌+◌, ◌-◌, ◌<◌, ◌≤◌, ◌++◌, ◌∷◌, All, List, [], ℕ, None, Some, Ok, length, set, take, drop};
ghost use Rattle.frame_readers.proofs.Readers.{IsBytes};
ghost use Rattle.node_file.specs.Batch.{CanTakeAll};
ghost use Rattle.node_file.specs.Clean.{file_of};
ghost use Rattle.node_file.specs.File.{empty_file, file_state, new_state, opened, FileState};
ghost use Rattle.node_file.specs.Gates.{changed_gate, end_of_records};
ghost use Rattle.node_file.specs.Hosted.{CanTake, TakesAll, TakesRecord};
ghost use Rattle.node_file.specs.Lives.{IsTold};
ghost use Rattle.node_file.specs.Record.{IsRecord, payload, record_bytes, record_in, record_of, Says};
ghost use Rattle.node_file.specs.Refusal.{refusal_of_serve};
ghost use Rattle.node_file.specs.declared.record.Record.{Record};

use crate::gates::MAX_LOOKED_AT;

/// A payload of version 2 is read as a record exactly if it is the payload of that record. So no
/// payload says two things, and each record that may be written is read again.
pub fn a_payload_says_one_record()
    ensures { (bytes : List ℕ) (said : Record) → IsBytes bytes
        → (record_of 2 bytes ≡ Some said) ↔ Says bytes said }
{}

/// What a file stands for is what its records say, one after the other, and the numbers of its
/// lives rise strictly, the last being the file's. So the life that `serve` returns is
/// greater than each before it.
pub fn lives_rise()
    ensures { (bytes : List ℕ) (s : FileState) (gate : ℕ)
        → opened None bytes ≡ Ok (s, gate) → IsTold s.version (drop 10 bytes) s.contents }
{}

/// What stands after the closed gate of a file, a torn record for example, counts for nothing.
pub fn nothing_counts_behind_the_closed_gate()
    ensures { (bytes behind : List ℕ) (s : FileState) (gate : ℕ)
        → opened None bytes ≡ Ok (s, gate)
        → opened None (take (gate + 1) bytes ++ behind) ≡ Ok (s, gate) }
{}

/// The records of a file end at its closed gate.
pub fn a_file_ends_at_its_closed_gate()
    ensures { (bytes : List ℕ) (s : FileState) (gate : ℕ)
        → opened None bytes ≡ Ok (s, gate) → end_of_records bytes ≡ Some gate }
{}

/// What stands behind the gate that ends the records, and behind the length after it, counts for
/// nothing, also if the file is refused: opening it returns the same without those bytes.
pub fn nothing_counts_behind_the_records()
    ensures { (front rest : List ℕ) (gate : ℕ) → end_of_records front ≡ Some gate
        → opened None (front ++ rest) ≡ opened None front }
{}

/// Whether the gate that ends the records shows that it was changed is seen in the first bytes from
/// it on, [`MAX_LOOKED_AT`](crate::MAX_LOOKED_AT) of them.
pub fn a_changed_gate_is_seen_close_behind_it()
    ensures { (front rest : List ℕ) (gate : ℕ) → end_of_records front ≡ Some gate
        → gate + MAX_LOOKED_AT ≤ length front → changed_gate (front ++ rest) ≡ changed_gate front }
{}

/// If the open gate in front of a record of a file is changed to another byte, so that this record
/// and those behind it are hidden, [`changed_gate`](crate::changed_gate) tells its offset. The one
/// exception is a change to 0 in front of the last record, since a crash leaves the same. Bytes
/// behind the last gate make no difference.
pub fn a_changed_gate_is_told()
    ensures { (node byte : ℕ) (before : List Record) (hidden : Record) (behind : List Record)
        (rest : List ℕ)
        → node < 16 → All IsRecord before → IsRecord hidden
        → byte ≢ 1 → (byte ≡ 0 → behind ≢ [])
        → let gate = length (file_of node before) - 1 in
        changed_gate (set (file_of node (before ++ hidden ∷ behind) ++ rest) gate byte)
        ≡ Some gate }
{}

/// A record that was written is read again from the front of its bytes, whatever follows them.
pub fn a_record_is_read_again()
    ensures { (said : Record) (rest : List ℕ) → IsRecord said
        → record_in 2 (record_bytes (payload said) ++ rest)
        ≡ Some (said, 36 + length (payload said)) }
{}

/// A node can be served from the empty file that [`create`](crate::create) makes for it. The file
/// has no life, and holds no key.
pub fn an_empty_file_is_served()
    ensures { (node : ℕ) → node < 16 → (refusal_of_serve (Some node) (empty_file node) ≡ None)
        × (file_state (empty_file node) ≡ new_state node 0 []) }
{}

/// A record that is appended to the bytes of a file by the four calls of an append is then in the
/// file, and every crash after the last call leaves the file with it. A crash at any moment before
/// leaves the file without the record or with it.
pub fn an_append_is_safe()
    ensures { (file : List ℕ) (gate : ℕ) (said : Record)
        → opened None file ≡ Ok (file_state file, gate) → CanTake (file_state file) said
        → TakesRecord file gate said }
{}

/// Records that are appended to the bytes of a file at once, by the same four calls, are then in
/// the file, one after the other, and every crash after the last call leaves the file with all of
/// them. A crash at any moment before leaves the file without them, or with all.
pub fn a_batch_is_safe()
    ensures { (file : List ℕ) (gate : ℕ) (first : Record) (more : List Record)
        → opened None file ≡ Ok (file_state file, gate)
        → CanTakeAll (file_state file) (first ∷ more)
        → TakesAll file gate first more }
{}

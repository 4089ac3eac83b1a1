//! Printed lines. Each call adds its text at the end of bytes; if memory runs out, a front of it
//! may have been added.

ghost use Rattle.std.specs.Prelude.{◌≡◌, ◌↔◌, ◌≤◌, ◌++◌, ◌∷◌, [], ℕ, List, Err, IsTrue, OnOk, length, map, true, decimal, codes, if◌then◌else◌};
ghost use Rattle.meta_frame.specs.Frame.{Spells};
ghost use Rattle.meta_frame.specs.Header.{header_of};
ghost use Rattle.meta_frame.specs.declared.message.Frame.{Frame as F};
ghost use Rattle.printing.specs.Field.{bytes_text};
ghost use Rattle.printing.specs.Joined.{joined, separated};
ghost use Rattle.printing.specs.Object.{vector_text};
ghost use Rattle.scenario_commands.specs.Meaning.{result_text, changed_text, looked_text, reply_text};
ghost use Rattle.scenario_commands.specs.Printed.{AreLinesOf, frame_line, line, name_refused, refused, world_refused};
ghost use Rattle.scenario_commands.specs.Coded.{AreThere, HasSent, PrintsOutcome};
ghost use Rattle.world_core.specs.Refusal.{IsFrameOf};
ghost use Rattle.world_core.specs.declared.fault.WorldFault.TheVariants.{Memory};

use crate::kinds::name_of_kind;
use dvvset::Vector;
use meta_frame::{Header, read_header};
use meta_types::{ByteString, MetaKey, TypeFault, Value};
use node_events::Reply;
use printing::{print_name, print_number, print_values, print_vector};
use std::alloc::{AllocError, Global};
use subscriptions::Change;
use world_core::{Answer, FrameNumbers, World, WorldFault};

/// Adds a text and a line feed.
pub fn print_line(out: &mut Vec<u8>, text: &str) -> Result<(), AllocError>
    ensures { OnOk result (out.new.items ≡ out.old.items ++ line text.now) }
{
    out.extend_from_slice(text.as_bytes())?;
    out.extend_from_slice(b"\n")
}

/// Adds a label, a number and a line feed.
pub fn print_count(out: &mut Vec<u8>, label: &str, count: u64) -> Result<(), AllocError>
    ensures { OnOk result (out.new.items ≡ out.old.items ++ line (label.now ++ decimal count)) }
{
    out.extend_from_slice(label.as_bytes())?;
    print_number(out, count)?;
    out.extend_from_slice(b"\n")
}

fn print_code(out: &mut Vec<u8>, code: u16, name: &str) -> Result<(), AllocError>
    ensures { OnOk result (out.new.items ≡ out.old.items ++ refused code name.now) }
{
    out.extend_from_slice(b"refused ")?;
    print_number(out, u64::from(code))?;
    out.extend_from_slice(b" ")?;
    print_line(out, name)
}

/// Adds why no world takes a command.
pub(crate) fn print_name_fault(out: &mut Vec<u8>, fault: &TypeFault) -> Result<(), AllocError>
    ensures { OnOk result (out.new.items ≡ out.old.items ++ name_refused fault.now) }
{
    print_code(out, fault.code(), fault.name())
}

/// Adds why the world refused an event. `Memory` is never printed.
pub(crate) fn print_fault(out: &mut Vec<u8>, fault: &WorldFault) -> Result<(), AllocError>
    ensures { OnOk result (out.new.items ≡ out.old.items ++ world_refused fault.now) }
{
    print_code(out, fault.code(), fault.name())
}

/// Adds what a read showed.
fn print_looked(
    out: &mut Vec<u8>,
    read: Option<u64>,
    vector: &Vector,
    values: &[Value],
) -> Result<(), AllocError>
    ensures { OnOk result (out.new.items
        ≡ out.old.items ++ line (looked_text read vector.now values.now)) }
{
    out.extend_from_slice(b"read ")?;
    print_number(out, read.unwrap_or(0))?;
    out.extend_from_slice(b" ctx ")?;
    print_vector(out, vector)?;
    out.extend_from_slice(b" values ")?;
    print_values(out, values)?;
    out.extend_from_slice(b"\n")
}

/// Adds the context after a write.
fn print_wrote(out: &mut Vec<u8>, vector: &Vector) -> Result<(), AllocError>
    ensures { OnOk result (out.new.items
        ≡ out.old.items ++ line (codes "wrote ctx " ++ vector_text vector.now)) }
{
    out.extend_from_slice(b"wrote ctx ")?;
    print_vector(out, vector)?;
    out.extend_from_slice(b"\n")
}

/// Adds the comma before a text of a list, unless it stands first.
fn print_comma(out: &mut Vec<u8>, first: bool) -> Result<(), AllocError>
    ensures { OnOk result (out.new.items ≡ out.old.items ++ (if first then [] else 44 ∷ [])) }
{
    if first {
        return Ok(());
    }
    out.extend_from_slice(b",")
}

/// Adds the own parts of the keys that changed, with a comma before each except the first.
fn print_each_change(out: &mut Vec<u8>, changes: &[Change]) -> Result<(), AllocError>
    ensures { OnOk result (out.new.items ≡ out.old.items
        ++ separated true (map (λ change. bytes_text change.key.key) changes.now)) }
{
    let mut first = true;
    for change in changes {
        print_comma(out, first)?;
        print_name(out, change.key.key())?;
        first = false;
    }
    Ok(())
}

/// Adds the own parts of the keys that changed, or `-` for none.
fn print_changed(out: &mut Vec<u8>, changes: &[Change]) -> Result<(), AllocError>
    ensures { OnOk result (out.new.items ≡ out.old.items
        ++ joined (map (λ change. bytes_text change.key.key) changes.now)) }
{
    if changes.is_empty() {
        return out.extend_from_slice(b"-");
    }
    print_each_change(out, changes)
}

/// Adds what a watch handed out.
fn print_changes(out: &mut Vec<u8>, missed: u64, changes: &[Change]) -> Result<(), AllocError>
    ensures { OnOk result (out.new.items
        ≡ out.old.items ++ line (changed_text missed changes.now)) }
{
    out.extend_from_slice(b"missed ")?;
    print_number(out, missed)?;
    out.extend_from_slice(b" keys ")?;
    print_changed(out, changes)?;
    out.extend_from_slice(b"\n")
}

/// Adds the own parts of keys, with a comma before each except the first.
fn print_each_key(out: &mut Vec<u8>, keys: &[MetaKey]) -> Result<(), AllocError>
    ensures { OnOk result (out.new.items ≡ out.old.items
        ++ separated true (map (λ k. bytes_text k.key) keys.now)) }
{
    let mut first = true;
    for key in keys {
        print_comma(out, first)?;
        print_name(out, key.key())?;
        first = false;
    }
    Ok(())
}

/// Adds the own parts of keys, or `-` for none.
pub(crate) fn print_keys(out: &mut Vec<u8>, keys: &[MetaKey]) -> Result<(), AllocError>
    ensures { OnOk result (out.new.items ≡ out.old.items
        ++ joined (map (λ k. bytes_text k.key) keys.now)) }
{
    if keys.is_empty() {
        return out.extend_from_slice(b"-");
    }
    print_each_key(out, keys)
}

/// Adds the result line of an answer.
fn print_reply(out: &mut Vec<u8>, read: Option<u64>, reply: &Reply) -> Result<(), AllocError>
    ensures { OnOk result (out.new.items ≡ out.old.items ++ line (reply_text read reply.now)) }
{
    match reply {
        Reply::Looked { values, context } => print_looked(
            out,
            read,
            context.vector(),
            values.as_slice(),
        ),
        Reply::Wrote { vector } => print_wrote(out, vector),
        Reply::Took => print_line(out, "took"),
        Reply::TookFresh => print_line(out, "took fresh"),
        Reply::TookStale => print_line(out, "took stale"),
        Reply::Done => print_line(out, "ok"),
        Reply::Watching { number } => print_count(out, "watch ", *number),
        Reply::Changed { missed, changes } => print_changes(out, *missed, changes.as_slice()),
    }
}

/// Adds the line of the frame of this header.
fn print_sent(out: &mut Vec<u8>, number: u64, header: Header) -> Result<(), AllocError>
    requires { (frame : F) × (header ≡ header_of frame) }
    ensures { (frame : F) → header ≡ header_of frame
        → OnOk result (out.new.items ≡ out.old.items ++ frame_line number frame) }
{
    out.extend_from_slice(b"frame ")?;
    print_number(out, number)?;
    out.extend_from_slice(b" ")?;
    out.extend_from_slice(name_of_kind(header.kind).as_bytes())?;
    out.extend_from_slice(b" ")?;
    print_number(out, u64::from(header.from.number()))?;
    print_count(out, " ", u64::from(header.to.number()))
}

/// Adds the line of the frame that these bytes spell. It reads the header alone.
fn print_frame_line(out: &mut Vec<u8>, number: u64, bytes: &ByteString) -> Result<(), AllocError>
    requires { (frame : F) × Spells frame bytes.now }
    ensures { OnOk result ((frame : F) × (Spells frame bytes.now
        × (out.new.items ≡ out.old.items ++ frame_line number frame))) }
{
    match read_header(bytes.as_slice()) {
        Ok(header) => print_sent(out, number, header),
        Err(_) => unreachable!(),
    }
}

/// Adds the line of the frame of that number, which is there.
pub fn print_frame_of(
    alloc: Global,
    out: &mut Vec<u8>,
    world: &World,
    number: u64,
) -> Result<(), AllocError>
    requires { (1 ≤ number) × (number ≤ length world.now.frames) }
    ensures { OnOk result ((frame : F) × (IsFrameOf world.now number frame
        × (out.new.items ≡ out.old.items ++ frame_line number frame))) }
{
    match world.frame(number)? {
        Some(bytes) => print_frame_line(out, number, &bytes),
        None => unreachable!(),
    }
}

/// Adds a line for each of these frames, which the world has.
fn print_frames(
    alloc: Global,
    out: &mut Vec<u8>,
    world: &World,
    sent: FrameNumbers,
) -> Result<(), AllocError>
    requires { AreThere world.now sent }
    ensures { OnOk result ((text : List ℕ) × (AreLinesOf world.now sent text
        × (out.new.items ≡ out.old.items ++ text))) }
{
    // Called for what its contract says: a frame's number fits.
    let _count = world.frame_count();
    for offset in 0..sent.count {
        print_frame_of(alloc, out, world, sent.first + offset)?;
    }
    Ok(())
}

/// Adds the result line of an answer, and a line for each frame that was sent.
fn print_answer(
    alloc: Global,
    out: &mut Vec<u8>,
    world: &World,
    answer: &Answer,
) -> Result<(), AllocError>
    requires { AreThere world.now answer.now.sent }
    ensures { OnOk result ((sent : List ℕ) × (AreLinesOf world.now answer.now.sent sent
        × (out.new.items ≡ out.old.items ++ (line (result_text answer.now) ++ sent)))) }
{
    print_reply(out, answer.read, &answer.reply)?;
    print_frames(alloc, out, world, answer.sent)
}

/// Returns whether memory ran out for an event.
pub(crate) fn lacks_memory(outcome: &Result<Answer, WorldFault>) -> bool
    ensures { IsTrue result ↔ (outcome.now ≡ Err Memory) }
{
    matches!(outcome, Err(WorldFault::Memory))
}

/// Adds the outcome of an event, and what it sent. If memory ran out nothing is printed, and the
/// run ends.
pub(crate) fn print_outcome(
    alloc: Global,
    out: &mut Vec<u8>,
    world: &World,
    outcome: &Result<Answer, WorldFault>,
) -> Result<(), AllocError>
    requires { HasSent world.now outcome.now }
    ensures { OnOk result
        (PrintsOutcome world.now outcome.now out.old.items out.new.items) }
{
    if lacks_memory(outcome) {
        return Err(AllocError);
    }
    match outcome {
        Ok(answer) => print_answer(alloc, out, world, answer),
        Err(fault) => print_fault(out, fault),
    }
}

//! The command `draw`.

ghost use Rattle.std.specs.Prelude.{◌≡◌, ◌≢◌};
ghost use Rattle.plumctl_draw.specs.Asked.{DrawsNothing, EndsDrawing, IsDrawStatus};

use crate::asked::{asks_nothing, tell_nothing};
use crate::drawing::{Excerpt, MAX_COMMANDS, MAX_MOMENTS, draw_text};
use crate::fault::DrawFault;
use plumctl_core::{Progress, tell};
use printing::print_number;
use resolvers::{Largest, Lww, Resolver};
use scenario::{ScenarioFault, read_text};
use scenario_text::told_of_line;
use std::alloc::{AllocError, Global};
use streams::{Sink, Source, StreamFault, flush, write_whole};

/// The exit status of a scenario that is refused.
const REFUSED: u8 = 1;

/// The exit status if no command stands in the part: the arguments are wrong.
const NOTHING_ASKED: u8 = 2;

/// Prints a text at standard error, as far as that takes it, and returns the exit status of a
/// scenario that is refused, or of memory that ran out if there is no text.
fn refuse<E: Sink>(errors: &mut E, text: Result<Vec<u8>, AllocError>) -> u8
    ensures { result ≢ 2 }
{
    match text {
        Ok(text) => {
            let _ = write_whole(errors, text.as_slice());
            REFUSED
        }
        Err(_) => tell(errors, StreamFault::Memory),
    }
}

/// Adds a word, a number and the most that it may be.
fn add_bound(text: &mut Vec<u8>, word: &[u8], number: u64, most: u64) -> Result<(), AllocError> {
    text.extend_from_slice(word)?;
    print_number(text, number)?;
    text.extend_from_slice(b" (at most ")?;
    print_number(text, most)?;
    text.extend_from_slice(b")")
}

/// The line about a part that is too long for a picture.
fn too_long(alloc: Global, commands: u64, moments: u64) -> Result<Vec<u8>, AllocError> {
    let mut text = Vec::new(alloc);
    let front = b"error: too long for a picture: commands ";
    add_bound(&mut text, front, commands, MAX_COMMANDS)?;
    add_bound(&mut text, b", rows ", moments, MAX_MOMENTS)?;
    text.extend_from_slice(b": --from N --to M draw the commands of lines N to M\n")?;
    Ok(text)
}

/// Prints why no picture was drawn, and returns the exit status.
fn tell_fault<E: Sink>(alloc: Global, errors: &mut E, text: &[u8], fault: DrawFault) -> u8
    ensures { result ≢ 2 }
{
    match fault {
        DrawFault::Scenario(ScenarioFault::Stream(fault)) => tell(errors, fault),
        DrawFault::Scenario(ScenarioFault::BadLine { line }) => {
            refuse(errors, told_of_line(alloc, text, line))
        }
        DrawFault::Scenario(ScenarioFault::Limit) => {
            refuse(errors, b"error 71 Limit\n".to_vec(alloc))
        }
        DrawFault::TooLong { commands, moments } => {
            refuse(errors, too_long(alloc, commands, moments))
        }
    }
}

/// Writes a picture, and passes it on.
fn write_picture<W: Sink>(writer: &mut W, picture: &[u8]) -> Result<(), StreamFault> {
    write_whole(writer, picture)?;
    flush(writer)
}

/// Draws the scenario that this text is with these resolvers, writes the picture, and returns the
/// exit status.
fn draw_by<W: Sink, E: Sink, G: Progress>(
    alloc: Global,
    text: &[u8],
    writer: &mut W,
    errors: &mut E,
    resolvers: &[Box<dyn Resolver>],
    part: Excerpt,
    progress: &G,
) -> u8
    ensures { result ≢ 2 }
{
    let mut picture = Vec::new(alloc);
    match draw_text(alloc, text, resolvers, part, progress, &mut picture) {
        Ok(()) => match write_picture(writer, picture.as_slice()) {
            Ok(()) => 0,
            Err(fault) => tell(errors, fault),
        },
        Err(fault) => tell_fault(alloc, errors, text, fault),
    }
}

/// Draws the scenario that this text is with the resolvers that the words `lww` and `largest` name,
/// writes the picture, and returns the exit status.
fn draw_named<W: Sink, E: Sink, G: Progress>(
    alloc: Global,
    text: &[u8],
    writer: &mut W,
    errors: &mut E,
    part: Excerpt,
    progress: &G,
) -> u8
    ensures { result ≢ 2 }
{
    let Ok(lww) = Box::new(alloc, Lww) else {
        return tell(errors, StreamFault::Memory);
    };
    let Ok(largest) = Box::new(alloc, Largest) else {
        return tell(errors, StreamFault::Memory);
    };
    let resolvers: [Box<dyn Resolver>; 2] = [lww, largest];
    draw_by(alloc, text, writer, errors, &resolvers, part, progress)
}

/// Draws a part of the scenario that this text is, if a command stands there, and returns the exit
/// status.
fn draw_asked<W: Sink, E: Sink, G: Progress>(
    alloc: Global,
    text: &[u8],
    writer: &mut W,
    errors: &mut E,
    part: Excerpt,
    progress: &G,
) -> u8
    ensures status { IsDrawStatus part.from part.to text.now result }
    ensures nothing { result ≡ 2 → DrawsNothing part.from part.to (W.at writer.old)
        (W.at writer.new) (E.at errors.old) (E.at errors.new) }
{
    if asks_nothing(text, part) {
        tell_nothing(errors, part);
        return NOTHING_ASKED;
    }
    draw_named(alloc, text, writer, errors, part, progress)
}

/// Reads a scenario to its end, runs it with the resolvers that the words `lww` and `largest` name,
/// and writes a picture of a part of it. `progress` is told how far the run is.
///
/// Returns the exit status: 0 if the picture was written; 1 if a line breaks a rule, a settling
/// would go on past its limit, the part is too long for a picture, or the input is too long; 2, the
/// status of wrong arguments, exactly if the input was read and no command stands in the part, and
/// then nothing is run; 3 if reading or writing failed; 4 if memory ran out. Why is printed at
/// `errors`, and then nothing is written, unless writing failed. It takes memory for what the run
/// prints, for a note of each event and frame of the whole scenario, and for the picture.
pub fn draw_scenario<R: Source, W: Sink, E: Sink, G: Progress>(
    alloc: Global,
    reader: &mut R,
    writer: &mut W,
    errors: &mut E,
    part: Excerpt,
    progress: &G,
) -> u8
    ensures status { EndsDrawing part.from part.to (R.at reader.old) (R.at reader.new) result }
    ensures nothing { result ≡ 2 → DrawsNothing part.from part.to (W.at writer.old)
        (W.at writer.new) (E.at errors.old) (E.at errors.new) }
{
    match read_text(alloc, reader) {
        Ok(text) => draw_asked(alloc, text.as_slice(), writer, errors, part, progress),
        Err(fault) => tell(errors, fault),
    }
}

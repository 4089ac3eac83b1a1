//! A scenario, run over a reader and a writer.

ghost use Rattle.std.specs.Prelude.{◌≡◌, ◌⊎◌, ◌++◌, OnOk, IfErr, None, map};
ghost use Rattle.streams.specs.declared.fault.StreamFault.{StreamFault as ByStream};
ghost use Rattle.streams.specs.Fault.{FailsNoMore};
ghost use Rattle.scenario.specs.Ending.{end_line};
ghost use Rattle.scenario.specs.Output.{manner_of, plain};
ghost use Rattle.scenario.specs.Run.{EndsBefore, EndsCommand, EndsCommands, EndsEarly, EndsLine, EndsOpening, EndsPlay, EndsText, PlaysAll, Prints, PrintsAll, WritesAll, WritesCommand, WritesEnd, WritesOpening, WritesOutput};
ghost use Rattle.scenario.specs.declared.fault.ScenarioFault.TheVariants.{Stream};
ghost use Rattle.scenario_text.specs.Coded.{command_word};

use crate::fault::ScenarioFault;
use crate::input::read_text;
use crate::runner::{Plain, Runner};
use resolvers::Resolver;
use scenario_commands::{Stage, print_count, print_line};
use scenario_text::{Command, Script, parse};
use std::alloc::{AllocError, Global};
use streams::{Sink, Source, StreamFault, flush, write_whole};

/// Does what a command says, and writes what is printed of it, which is put into `text` first.
fn play_command<P: Runner, W: Sink>(
    runner: &mut P,
    stage: &mut Stage,
    command: &Command<'_>,
    resolvers: &[Box<dyn Resolver>],
    text: &mut Vec<u8>,
    writer: &mut W,
) -> Result<(), ScenarioFault>
    requires { P.follows runner.old stage.old }
    ensures follows { OnOk result (P.follows runner.new stage.new) }
    ensures ok { OnOk result (WritesCommand
        (manner_of P.opens P.does (map (λ r. choice r) resolvers.now)) stage.old
        (command_word command.now) (W.at writer.old) (W.at writer.new) stage.new) }
    ensures err { IfErr result (EndsCommand
        (manner_of P.opens P.does (map (λ r. choice r) resolvers.now)) stage.old
        (command_word command.now) (W.at writer.old) (W.at writer.new)) }
    ensures sound { OnOk result (FailsNoMore (W.at writer.old).failed (W.at writer.new).failed) }
{
    text.clear();
    runner.obey(stage, command, resolvers, text)?;
    write_whole(writer, text.as_slice())?;
    Ok(())
}

/// Does what the commands of a script say, and writes what is printed of each.
fn play_commands<P: Runner, W: Sink>(
    alloc: Global,
    runner: &mut P,
    stage: &mut Stage,
    script: &mut Script<'_>,
    resolvers: &[Box<dyn Resolver>],
    writer: &mut W,
) -> Result<(), ScenarioFault>
    requires { P.follows runner.old stage.old }
    ensures ok { OnOk result (WritesAll
        (manner_of P.opens P.does (map (λ r. choice r) resolvers.now)) stage.old
        script.old.commands (W.at writer.old) (W.at writer.new)) }
    ensures err { IfErr result (EndsCommands
        (manner_of P.opens P.does (map (λ r. choice r) resolvers.now)) stage.old
        script.old.commands (W.at writer.old) (W.at writer.new)) }
    ensures sound { OnOk result (FailsNoMore (W.at writer.old).failed (W.at writer.new).failed) }
{
    let mut text = Vec::new(alloc);
    while let Some(command) = script.next() {
        play_command(runner, stage, &command, resolvers, &mut text, writer)?;
    }
    Ok(())
}

/// Writes what is printed of `nodes`.
fn write_opening<P: Runner, W: Sink>(
    alloc: Global,
    runner: &mut P,
    stage: &Stage,
    writer: &mut W,
) -> Result<(), StreamFault>
    ensures follows { OnOk result (P.follows runner.new stage.now) }
    ensures ok { OnOk result (WritesOpening P.opens (W.at writer.old) (W.at writer.new)) }
    ensures err { IfErr result (EndsOpening P.opens (W.at writer.old) (W.at writer.new)) }
    ensures sound { OnOk result (FailsNoMore (W.at writer.old).failed (W.at writer.new).failed) }
{
    let mut text = Vec::new(alloc);
    runner.open(stage, &mut text)?;
    write_whole(writer, text.as_slice())
}

/// Runs a script over a new world, and writes what is printed of it.
fn play<P: Runner, W: Sink>(
    alloc: Global,
    runner: &mut P,
    script: &mut Script<'_>,
    resolvers: &[Box<dyn Resolver>],
    writer: &mut W,
) -> Result<(), ScenarioFault>
    ensures ok { OnOk result (PlaysAll
        (manner_of P.opens P.does (map (λ r. choice r) resolvers.now)) script.old
        (W.at writer.old) (W.at writer.new)) }
    ensures err { IfErr result (EndsPlay
        (manner_of P.opens P.does (map (λ r. choice r) resolvers.now)) script.old
        (W.at writer.old) (W.at writer.new)) }
    ensures sound { OnOk result (FailsNoMore (W.at writer.old).failed (W.at writer.new).failed) }
{
    let mut stage = Stage::new(alloc, script.nodes())?;
    write_opening(alloc, runner, &stage, writer)?;
    play_commands(alloc, runner, &mut stage, script, resolvers, writer)
}

/// Runs a text, and writes what is printed of it, except the line of a fault that ends it.
fn play_text<P: Runner, W: Sink>(
    alloc: Global,
    runner: &mut P,
    text: &[u8],
    resolvers: &[Box<dyn Resolver>],
    writer: &mut W,
) -> Result<(), ScenarioFault>
    ensures ok { OnOk result (WritesOutput
        (manner_of P.opens P.does (map (λ r. choice r) resolvers.now)) text.now
        (W.at writer.old) (W.at writer.new)) }
    ensures err { IfErr result (EndsBefore
        (manner_of P.opens P.does (map (λ r. choice r) resolvers.now)) text.now
        (W.at writer.old) (W.at writer.new)) }
    ensures sound { OnOk result (FailsNoMore (W.at writer.old).failed (W.at writer.new).failed) }
{
    match parse(text, resolvers.len())? {
        Some(mut script) => play(alloc, runner, &mut script, resolvers, writer),
        None => Ok(()),
    }
}

/// Adds the line of the fault that ended a scenario: `error 70 BadLine 2` or `error 71 Limit`.
fn print_end(out: &mut Vec<u8>, fault: ScenarioFault) -> Result<(), AllocError>
    ensures { OnOk result (out.new.items ≡ out.old.items ++ end_line fault) }
{
    match fault {
        ScenarioFault::BadLine { line } => print_count(out, "error 70 BadLine ", line),
        ScenarioFault::Limit => print_line(out, "error 71 Limit"),
        ScenarioFault::Stream(_) => Ok(()),
    }
}

/// Writes the line of the fault that ends a scenario.
fn write_end<W: Sink>(
    alloc: Global,
    writer: &mut W,
    fault: ScenarioFault,
) -> Result<(), StreamFault>
    ensures ok { OnOk result (WritesEnd (end_line fault) (W.at writer.old) (W.at writer.new)) }
    ensures err { IfErr result (EndsLine (end_line fault) (W.at writer.old) (W.at writer.new)) }
{
    let mut text = Vec::new(alloc);
    print_end(&mut text, fault)?;
    write_whole(writer, text.as_slice())?;
    flush(writer)
}

/// Writes the line of the fault that ends a scenario, if it has one, and passes on what was
/// written. Returns that fault, or the one that the writing meets.
fn end_run<W: Sink>(alloc: Global, writer: &mut W, fault: ScenarioFault) -> ScenarioFault
    ensures { ((result ≡ fault) × WritesEnd (end_line fault) (W.at writer.old) (W.at writer.new))
        ⊎ ((by_stream : ByStream) × (result ≡ Stream by_stream)
        × EndsLine (end_line fault) (W.at writer.old) (W.at writer.new) by_stream) }
{
    match write_end(alloc, writer, fault) {
        Ok(()) => fault,
        Err(other) => ScenarioFault::Stream(other),
    }
}

/// Runs a text in the manner of the runner, and writes what is printed of it. Ends with 70
/// `BadLine` and 71 `Limit` as [`run_over`] does, and writes their lines; and with `Write`,
/// `BrokenPipe` or 99 `Memory`, and then a front of the output was written.
pub fn run_text<P: Runner, W: Sink>(
    alloc: Global,
    runner: &mut P,
    text: &[u8],
    writer: &mut W,
    resolvers: &[Box<dyn Resolver>],
) -> Result<(), ScenarioFault>
    ensures ok { OnOk result (Prints
        (manner_of P.opens P.does (map (λ r. choice r) resolvers.now)) text.now
        (W.at writer.old) (W.at writer.new) None) }
    ensures err { IfErr result (EndsText
        (manner_of P.opens P.does (map (λ r. choice r) resolvers.now)) text.now
        (W.at writer.old) (W.at writer.new)) }
{
    match play_text(alloc, runner, text, resolvers, writer) {
        Ok(()) => Ok(flush(writer)?),
        Err(fault) => match fault {
            ScenarioFault::Stream(_) => Err(fault),
            _ => Err(end_run(alloc, writer, fault)),
        },
    }
}

/// Reads a text to its end, runs it over a new world, and writes what it prints. The whole text is
/// read first: if a line breaks a rule, only `error 70 BadLine` and its number are written. It
/// takes memory for the text, for what one command prints, and for the world.
///
/// Refused in this order: 7 `Read` at the first error of the reader, even an interruption, or 8
/// `InputTooLong` past 67,108,864 bytes, and then nothing was written; 70 `BadLine`; 71 `Limit`,
/// which is written too, if a `settle` would deliver more than 100,000 frames, or `Write` or
/// `BrokenPipe` if the writer fails. 99 `Memory` may come at any time. After 99 or a fault of the
/// writer a front of the output was written.
pub fn run_over<R: Source, W: Sink>(
    alloc: Global,
    reader: &mut R,
    writer: &mut W,
    resolvers: &[Box<dyn Resolver>],
) -> Result<(), ScenarioFault>
    ensures ok { OnOk result (PrintsAll (plain (map (λ r. choice r) resolvers.now))
        (R.at reader.old) (R.at reader.new) (W.at writer.old) (W.at writer.new)) }
    ensures err { IfErr result (EndsEarly (plain (map (λ r. choice r) resolvers.now))
        (R.at reader.old) (R.at reader.new) (W.at writer.old) (W.at writer.new)) }
{
    let text = read_text(alloc, reader)?;
    run_text(alloc, &mut Plain, text.as_slice(), writer, resolvers)
}

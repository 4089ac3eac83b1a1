//! The command `run`.

ghost use Rattle.std.specs.Prelude.{◌≡◌, ◌≢◌, OnOk, IfErr, map};
ghost use Rattle.std.specs.Io.KnownBytes.{Keeps};
ghost use Rattle.scenario.specs.Output.{manner_of, plain};
ghost use Rattle.scenario_explain.specs.Told.{explained};
ghost use Rattle.plumctl_core.specs.Scenario.{EndsScenario, EndsAndTells, TellsBadLine, TellsScenario, manner_by, named_choices, status_of_scenario};

use crate::opening::tell_text;
use crate::progress::{Followed, Progress};
use crate::status::tell;
use resolvers::{Largest, Lww, Resolver};
use scenario::{Plain, Runner, ScenarioFault, read_text, run_text};
use scenario_explain::Explainer;
use scenario_text::told_of_line;
use std::alloc::Global;
use streams::{Sink, Source, StreamFault};

/// Prints what is wrong with a line at standard error.
fn tell_line<E: Sink>(alloc: Global, errors: &mut E, text: &[u8], line: u64)
    ensures { TellsBadLine (E.at errors.old) (E.at errors.new) text.now line }
{
    if let Ok(told) = told_of_line(alloc, text, line) {
        tell_text(errors, told.as_slice());
    }
}

/// Prints at `errors` how the run of a text ended, and returns the exit status.
fn end_status<E: Sink>(
    alloc: Global,
    errors: &mut E,
    text: &[u8],
    ended: Result<(), ScenarioFault>,
) -> u8
    ensures run { result ≢ 2 }
    ensures done { OnOk ended ((result ≡ 0)
        × Keeps (E.at errors.old).contents (E.at errors.new).contents) }
    ensures fault { IfErr ended (λ fault. (result ≡ status_of_scenario fault)
        × TellsScenario (E.at errors.old) (E.at errors.new) text.now fault) }
{
    match ended {
        Ok(()) => 0,
        Err(ScenarioFault::Stream(fault)) => tell(errors, fault),
        Err(ScenarioFault::BadLine { line }) => {
            tell_line(alloc, errors, text, line);
            1
        }
        Err(ScenarioFault::Limit) => 1,
    }
}

/// Runs a text in the manner of the runner, reports how that ended, and returns the exit status.
fn run_as<P: Runner + Drop, W: Sink, E: Sink, G: Progress>(
    alloc: Global,
    runner: P,
    text: &[u8],
    writer: &mut W,
    errors: &mut E,
    resolvers: &[Box<dyn Resolver>],
    progress: &G,
) -> u8
    ensures run { result ≢ 2 }
    ensures ends { EndsAndTells
        (manner_of P.opens P.does (map (λ r. choice r) resolvers.now)) text.now
        (W.at writer.old) (W.at writer.new) (E.at errors.old) (E.at errors.new) result }
{
    let mut followed = Followed::new(runner, text, progress);
    let ended = run_text(alloc, &mut followed, text, writer, resolvers);
    end_status(alloc, errors, text, ended)
}

/// Runs a scenario of a reader with these resolvers, prints the results alone, reports how that
/// ended, and returns the exit status.
fn run_plain<R: Source, W: Sink, E: Sink, G: Progress>(
    alloc: Global,
    reader: &mut R,
    writer: &mut W,
    errors: &mut E,
    resolvers: &[Box<dyn Resolver>],
    progress: &G,
) -> u8
    ensures run { result ≢ 2 }
    ensures ends { EndsScenario (plain (map (λ r. choice r) resolvers.now))
        (R.at reader.old) (R.at reader.new) (W.at writer.old) (W.at writer.new)
        (E.at errors.old) (E.at errors.new) result }
{
    match read_text(alloc, reader) {
        Ok(text) => run_as(
            alloc,
            Plain,
            text.as_slice(),
            writer,
            errors,
            resolvers,
            progress,
        ),
        Err(fault) => tell(errors, fault),
    }
}

/// Does what `run_plain` does, explained.
fn run_explained<R: Source, W: Sink, E: Sink, G: Progress>(
    alloc: Global,
    reader: &mut R,
    writer: &mut W,
    errors: &mut E,
    resolvers: &[Box<dyn Resolver>],
    progress: &G,
) -> u8
    ensures run { result ≢ 2 }
    ensures ends { EndsScenario (explained (map (λ r. choice r) resolvers.now))
        (R.at reader.old) (R.at reader.new) (W.at writer.old) (W.at writer.new)
        (E.at errors.old) (E.at errors.new) result }
{
    match read_text(alloc, reader) {
        Ok(text) => {
            let explainer = Explainer::new(alloc, text.as_slice());
            run_as(
                alloc,
                explainer,
                text.as_slice(),
                writer,
                errors,
                resolvers,
                progress,
            )
        }
        Err(fault) => tell(errors, fault),
    }
}

/// Runs a scenario of a reader with the resolvers that `lww` and `largest` name, explained or with
/// the results alone, and returns the exit status.
fn run_by<R: Source, W: Sink, E: Sink, G: Progress>(
    alloc: Global,
    reader: &mut R,
    writer: &mut W,
    errors: &mut E,
    resolvers: &[Box<dyn Resolver>],
    explain: bool,
    progress: &G,
) -> u8
    requires { map (λ r. choice r) resolvers.now ≡ named_choices }
    ensures run { result ≢ 2 }
    ensures ends { EndsScenario (manner_by explain named_choices)
        (R.at reader.old) (R.at reader.new) (W.at writer.old) (W.at writer.new)
        (E.at errors.old) (E.at errors.new) result }
{
    if explain {
        run_explained(alloc, reader, writer, errors, resolvers, progress)
    } else {
        run_plain(alloc, reader, writer, errors, resolvers, progress)
    }
}

/// Runs a scenario as `run_over` does, or explains it as `explain_over` does, with the resolvers
/// that the words `lww` and `largest` name. Prints at `errors` a fault of reading, writing or
/// memory, and for the first bad line what it is and what it wants, and returns the exit status: 0
/// if it was run to its end, 1 if a line breaks a rule, a settling would go on past its limit
/// or the input is too long, 3 if reading or writing failed, 4 if memory was refused.
pub fn run_scenario<R: Source, W: Sink, E: Sink, G: Progress>(
    alloc: Global,
    reader: &mut R,
    writer: &mut W,
    errors: &mut E,
    explain: bool,
    progress: &G,
) -> u8
    ensures run { result ≢ 2 }
    ensures ends { EndsScenario (manner_by explain named_choices)
        (R.at reader.old) (R.at reader.new) (W.at writer.old) (W.at writer.new)
        (E.at errors.old) (E.at errors.new) result }
{
    let Ok(lww) = Box::new(alloc, Lww) else {
        return tell(errors, StreamFault::Memory);
    };
    let Ok(largest) = Box::new(alloc, Largest) else {
        return tell(errors, StreamFault::Memory);
    };
    let resolvers: [Box<dyn Resolver>; 2] = [lww, largest];
    run_by(alloc, reader, writer, errors, &resolvers, explain, progress)
}

//! A scenario, run and explained over a reader and a writer.

ghost use Rattle.std.specs.Prelude.{◌≡◌, OnOk, IfErr, map};
ghost use Rattle.scenario.specs.Run.{EndsEarly, PrintsAll};
ghost use Rattle.scenario_explain.specs.Noting.{NotesAll};
ghost use Rattle.scenario_explain.specs.Told.{AddsCommand, Explains, OpensExplained, explained};

use crate::line::add_line;
use crate::reason::add_reason;
use crate::told::Told;
use crate::waiting::Waiting;
use printing::print_number;
use resolvers::Resolver;
use scenario::{Runner, ScenarioFault, read_text, run_text};
use scenario_commands::{Stage, StageFault, print_line};
use scenario_text::{Command, Lines, add_shown, is_skipped};
use std::alloc::{AllocError, Global};
use streams::{Sink, Source};

/// Runs a scenario, and prints besides the results of each command its line, and what came of it.
#[derive(Drop)]
pub struct Explainer<'a> {
    alloc: Global,
    lines: Lines<'a>,
    /// How many lines of the text were passed.
    number: u64,
    told: Told,
    waiting: Waiting,
}

impl<'a> Explainer<'a> {
    /// Explains the scenario that this text is, from its first command on.
    pub fn new(alloc: Global, text: &'a [u8]) -> Self {
        Explainer {
            alloc,
            lines: Lines::of(text),
            number: 0,
            told: Told::new(alloc),
            waiting: Waiting::new(alloc),
        }
    }

    /// Adds the line of the next command, and its number.
    #[tactic(auto, using(crate::proofs::Adding::no_command))]
    fn tell_line(&mut self, text: &mut Vec<u8>) -> Result<(), AllocError>
        ensures told { OnOk result (AddsCommand text.old.items text.new.items) }
        ensures waiting { self.new.waiting ≡ self.old.waiting }
    {
        let Some(line) = next_line(&mut self.lines, &mut self.number) else {
            return Ok(());
        };
        let mut told = Vec::new(self.alloc);
        print_number(&mut told, self.number)?;
        told.extend_from_slice(b": ")?;
        add_shown(&mut told, line)?;
        add_line(text, told.as_slice())
    }
}

/// Returns the next line that isn't skipped. Each line that is passed is counted.
fn next_line<'a>(lines: &mut Lines<'a>, number: &mut u64) -> Option<&'a [u8]> {
    while let Some(line) = lines.next() {
        *number = number.saturating_add(1);
        if !is_skipped(line) {
            return Some(line);
        }
    }
    None
}

impl<'a> Runner for Explainer<'a> {
    ghost opens = { OpensExplained };

    ghost does = { Explains };

    // it has noted which frames wait there
    ghost follows = { λ e s. NotesAll e.waiting.frames.items e.waiting.seen s.given };

    fn open(&mut self, stage: &Stage, text: &mut Vec<u8>) -> Result<(), AllocError> {
        self.tell_line(text)?;
        self.told.open(stage.world())?;
        self.waiting.begin(stage)?;
        print_line(text, "ok")
    }

    fn obey(
        &mut self,
        stage: &mut Stage,
        command: &Command<'_>,
        resolvers: &[Box<dyn Resolver>],
        text: &mut Vec<u8>,
    ) -> Result<(), StageFault> {
        self.tell_line(text)?;
        let start = text.len();
        stage.obey(command, resolvers, text)?;
        add_reason(text, start)?;
        self.waiting.note(stage, command)?;
        self.waiting.add_frames(text)?;
        self.told.add_news(stage.world(), command, text)?;
        Ok(())
    }
}

/// Runs a text as `run_over` does, and writes the same lines. Before the lines of each command
/// stand, indented by two spaces, the number and the text of its line. After them stand, indented
/// too: if the command was refused, why; the numbers of the first sixteen frames that are on their
/// way, which are those that were never given to their addressees, and how many more there are; and
/// a line for each key under which a node shows other siblings or another context than before, `ctx
/// - values -` if a restart has taken them away.
///
/// The contract says why a command was refused and which frames are named, but not what is told of
/// lines and of nodes. Tables with the same root are taken to show the same. If this comes to its
/// end, or to 70 or 71, so does `run_over`. It also takes memory for a copy of what each node
/// holds.
///
/// Refused as `run_over` is.
pub fn explain_over<R: Source, W: Sink>(
    alloc: Global,
    reader: &mut R,
    writer: &mut W,
    resolvers: &[Box<dyn Resolver>],
) -> Result<(), ScenarioFault>
    ensures ok { OnOk result (PrintsAll (explained (map (λ r. choice r) resolvers.now))
        (R.at reader.old) (R.at reader.new) (W.at writer.old) (W.at writer.new)) }
    ensures err { IfErr result (EndsEarly (explained (map (λ r. choice r) resolvers.now))
        (R.at reader.old) (R.at reader.new) (W.at writer.old) (W.at writer.new)) }
{
    let text = read_text(alloc, reader)?;
    let mut explainer = Explainer::new(alloc, text.as_slice());
    run_text(alloc, &mut explainer, text.as_slice(), writer, resolvers)
}

//! How far the run of a scenario is.

use resolvers::Resolver;
use scenario::Runner;
use scenario_commands::{Stage, StageFault};
use scenario_text::{Command, Lines, is_skipped};
use std::alloc::AllocError;

/// What is called while a scenario is run, in the thread that runs it, to say how far it is.
pub trait Progress {
    /// The text was read, and has so many lines.
    fn begin(&self, lines: u64);

    /// The command in the line of this number, counted from 1, is about to be obeyed.
    fn reach(&self, line: u64);
}

/// Nobody is told how far a scenario is.
pub struct NoProgress;

impl Progress for NoProgress {
    fn begin(&self, _lines: u64) {}

    fn reach(&self, _line: u64) {}
}

/// How many lines a text has.
fn count_lines(text: &[u8]) -> u64 {
    let mut lines = Lines::of(text);
    let mut count = 0u64;
    while lines.next().is_some() {
        count = count.saturating_add(1);
    }
    count
}

/// The lines of a text, as its commands come to them.
#[derive(Drop)]
struct Place<'a, G: Progress> {
    lines: Lines<'a>,
    /// How many lines were passed.
    number: u64,
    progress: &'a G,
}

impl<'a, G: Progress> Place<'a, G> {
    /// Goes on to the next line that isn't skipped, and says which it is.
    fn advance(&mut self) {
        while let Some(line) = self.lines.next() {
            self.number = self.number.saturating_add(1);
            if !is_skipped(line) {
                self.progress.reach(self.number);
                return;
            }
        }
    }
}

/// Runs a scenario as another runner does, and says how far it is.
#[derive(Drop)]
pub struct Followed<'a, P: Runner + Drop, G: Progress> {
    runner: P,
    place: Place<'a, G>,
}

impl<'a, P: Runner + Drop, G: Progress> Followed<'a, P, G> {
    /// Says how far this runner is in the scenario that the text is.
    pub fn new(runner: P, text: &'a [u8], progress: &'a G) -> Self {
        progress.begin(count_lines(text));
        let lines = Lines::of(text);
        let place = Place {
            lines,
            number: 0,
            progress,
        };
        Followed { runner, place }
    }

    /// Returns the runner.
    pub fn into_runner(self) -> P {
        self.runner
    }
}

impl<'a, P: Runner + Drop, G: Progress> Runner for Followed<'a, P, G> {
    ghost opens = { P.opens };

    ghost does = { P.does };

    ghost follows = { λ f s. P.follows f.runner s };

    fn open(&mut self, stage: &Stage, text: &mut Vec<u8>) -> Result<(), AllocError> {
        self.place.advance();
        self.runner.open(stage, text)
    }

    fn obey(
        &mut self,
        stage: &mut Stage,
        command: &Command<'_>,
        resolvers: &[Box<dyn Resolver>],
        text: &mut Vec<u8>,
    ) -> Result<(), StageFault> {
        self.place.advance();
        self.runner.obey(stage, command, resolvers, text)
    }
}

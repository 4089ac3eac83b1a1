//! Which frames are on their way.

ghost use Rattle.std.specs.Prelude.{◌≡◌, ◌≤◌, ◌++◌, Bool, List, [], None, OnOk};
ghost use Rattle.scenario_text.specs.Coded.{command_word};
ghost use Rattle.scenario_text.specs.Commands.{Deliver};
ghost use Rattle.scenario_commands.specs.Marking.{all_waiting};
ghost use Rattle.scenario_commands.specs.Obeying.{with_given};
ghost use Rattle.scenario_explain.specs.Noting.{NotedBefore, NotesAll, NotesFront};
ghost use Rattle.scenario_explain.specs.OnTheWay.{first_of, spaced, way_lines};
ghost use Rattle.scenario_explain.specs.Told.{told_lines};

use crate::line::add_line;
use printing::print_number;
use scenario_commands::Stage;
use scenario_text::Command;
use std::alloc::{AllocError, Global};

/// The most frames that are named.
const MOST_NAMED: usize = 16;

/// The frames of a stage that were never given to their addressees, as they were last noted. A
/// command is noted by what it did, so that a stage with many frames isn't gone over each time.
#[derive(Drop)]
pub(crate) struct Waiting {
    alloc: Global,
    /// In the order of their numbers.
    pub(crate) frames: Vec<u64>,
    /// How many frames of the world were looked at.
    pub(crate) seen: u64,
}

impl Waiting {
    /// Makes the list of a world without frames.
    pub(crate) fn new(alloc: Global) -> Self {
        Waiting {
            alloc,
            frames: Vec::new(alloc),
            seen: 0,
        }
    }

    /// Notes the frames of a stage.
    pub(crate) fn begin(&mut self, stage: &Stage) -> Result<(), AllocError>
        ensures { OnOk result (NotesAll self.new.frames.items self.new.seen stage.now.given) }
    {
        self.frames.clear();
        self.seen = 0;
        self.add_sent(stage)
    }

    /// Notes what a command has given to an addressee, and what it sent. The stage is as the
    /// command has left it.
    pub(crate) fn note(&mut self, stage: &Stage, command: &Command<'_>) -> Result<(), AllocError>
        requires { NotedBefore self.old.frames.items self.old.seen (command_word command.now)
            stage.now.given }
        ensures { OnOk result (NotesAll self.new.frames.items self.new.seen stage.now.given) }
    {
        self.drop_given(stage, command);
        self.add_sent(stage)
    }

    /// Drops the frames that the command has given.
    fn drop_given(&mut self, stage: &Stage, command: &Command<'_>)
        requires { NotedBefore self.old.frames.items self.old.seen (command_word command.now)
            stage.now.given }
        ensures { NotesFront self.new.frames.items self.new.seen stage.now.given }
    {
        match command {
            Command::Settle => self.drop_all(stage),
            Command::Deliver { frame, .. } => self.drop_delivered(stage, *frame),
            _ => {}
        }
    }

    /// Drops the frame that was delivered, if it was given.
    fn drop_delivered(&mut self, stage: &Stage, frame: u64)
        requires { NotedBefore self.old.frames.items self.old.seen (Deliver frame None 0)
            stage.now.given }
        ensures { NotesFront self.new.frames.items self.new.seen stage.now.given }
    {
        if stage.was_given(frame) {
            self.drop_frame(frame);
        }
    }

    /// Drops all frames: all were given.
    fn drop_all(&mut self, stage: &Stage)
        requires { all_waiting 1 stage.now.given ≡ [] }
        ensures { NotesFront self.new.frames.items self.new.seen stage.now.given }
    {
        self.frames.clear();
        self.seen = stage.world().frame_count();
    }

    /// Drops the frame, if it is noted.
    fn drop_frame(&mut self, frame: u64)
        ensures seen { self.new.seen ≡ self.old.seen }
        ensures frames { (given : List Bool) → 1 ≤ frame
            → self.old.frames.items ≡ all_waiting 1 given
            → self.new.frames.items ≡ all_waiting 1 (with_given frame given) }
    {
        if let Ok(place) = self.frames.as_slice().binary_search(&frame) {
            self.frames.remove(place);
        }
    }

    /// Notes the frames that were sent after the last that was noted.
    fn add_sent(&mut self, stage: &Stage) -> Result<(), AllocError>
        requires { NotesFront self.old.frames.items self.old.seen stage.now.given }
        ensures { OnOk result (NotesAll self.new.frames.items self.new.seen stage.now.given) }
    {
        let count = stage.world().frame_count();
        for place in self.seen..count {
            if !stage.was_given(place + 1) {
                self.frames.push(place + 1)?;
            }
        }
        self.seen = count;
        Ok(())
    }

    /// Adds a line of the frames that are on their way, if there are any.
    pub(crate) fn add_frames(&self, text: &mut Vec<u8>) -> Result<(), AllocError>
        ensures { OnOk result (text.new.items
            ≡ text.old.items ++ told_lines (way_lines self.now.frames.items)) }
    {
        if self.frames.is_empty() {
            return Ok(());
        }
        let mut line = Vec::new(self.alloc);
        line.extend_from_slice(b"on their way:")?;
        add_first(&mut line, self.frames.as_slice(), MOST_NAMED)?;
        add_line(text, line.as_slice())
    }
}

/// Adds numbers, a space before each.
fn add_spaced(line: &mut Vec<u8>, numbers: &[u64]) -> Result<(), AllocError>
    ensures { OnOk result (line.new.items ≡ line.old.items ++ spaced numbers.now) }
{
    for number in numbers {
        line.push(b' ')?;
        print_number(line, *number)?;
    }
    Ok(())
}

/// Adds the first `most` numbers, and how many more there are.
fn add_first(line: &mut Vec<u8>, numbers: &[u64], most: usize) -> Result<(), AllocError>
    ensures { OnOk result (line.new.items ≡ line.old.items ++ first_of most numbers.now) }
{
    if numbers.len() <= most {
        return add_spaced(line, numbers);
    }
    add_spaced(line, &numbers[..most])?;
    line.extend_from_slice(b" and ")?;
    print_number(line, (numbers.len() - most) as u64)?;
    line.extend_from_slice(b" more")
}

//! Who runs a scenario.

ghost use Rattle.std.specs.Prelude.{OnOk, List, ℕ, map};
ghost use Rattle.scenario.specs.Output.{PlaysCommand, opens_plainly};
ghost use Rattle.scenario.specs.Run.{DoesOrEnds, Opens};
ghost use Rattle.scenario_commands.specs.Obeying.{Choices, Obeys, Stage as StageParts};
ghost use Rattle.scenario_text.specs.Coded.{command_word};

use resolvers::Resolver;
use scenario_commands::{Stage, StageFault, print_line};
use scenario_text::Command;
use std::alloc::AllocError;

/// Whoever runs a scenario: does what its commands say, and prints what comes of each.
pub trait Runner {
    // what is printed of `nodes`
    ghost opens: { List ℕ → Type 0 };

    // what is printed of a command, by what the resolvers choose
    ghost does: { Choices → PlaysCommand };

    // that what the runner remembers is true of this stage
    ghost follows: { Self → StageParts → Type 0 };

    /// Adds what is printed of `nodes`, once the nodes are there, and follows the stage from then
    /// on. Fails only when memory runs out.
    fn open(&mut self, stage: &Stage, text: &mut Vec<u8>) -> Result<(), AllocError>
        ensures opened { OnOk result (Opens opens text.old.items text.new.items) }
        ensures begins { OnOk result (follows self.new stage.now) };

    /// Does what a command says, and adds what is printed of it. Refused as [`Stage::obey`] is.
    fn obey(
        &mut self,
        stage: &mut Stage,
        command: &Command<'_>,
        resolvers: &[Box<dyn Resolver>],
        text: &mut Vec<u8>,
    ) -> Result<(), StageFault>
        requires { follows self.old stage.old }
        ensures obeyed { DoesOrEnds (does (map (λ r. choice r) resolvers.now)) stage.old
            (command_word command.now) text.old.items text.new.items stage.new result }
        ensures goes_on { OnOk result (follows self.new stage.new) };
}

/// Prints the results alone.
#[derive(Drop)]
pub struct Plain;

impl Runner for Plain {
    ghost opens = { opens_plainly };

    ghost does = { Obeys };

    ghost follows = { λ _ _. Unit {0} };

    fn open(&mut self, _stage: &Stage, text: &mut Vec<u8>) -> Result<(), AllocError> {
        print_line(text, "ok")
    }

    fn obey(
        &mut self,
        stage: &mut Stage,
        command: &Command<'_>,
        resolvers: &[Box<dyn Resolver>],
        text: &mut Vec<u8>,
    ) -> Result<(), StageFault> {
        stage.obey(command, resolvers, text)
    }
}

//! A world in which a scenario is played, and what a command does there and prints.

ghost use Rattle.std.specs.Prelude.{◌≡◌, ◌≤◌, ℕ, List, ◌++◌, None, IfOk, OnOk, length, map};
ghost use Rattle.scenario_commands.specs.Coded.{ActsOrLooksAs, IsActOrLook, IsNoDelivery};
ghost use Rattle.scenario_text.specs.Coded.{command_word};
ghost use Rattle.scenario_text.specs.Commands.{fault_in};
ghost use Rattle.scenario_commands.specs.Obeying.{ObeysOrEnds, Happens, new_stage, was_given, with_new};
ghost use Rattle.world_core.specs.Outcome.{Passes};

use crate::event::event_of;
use crate::fault::StageFault;
use crate::look::print_no_node;
use crate::print::{print_name_fault, print_outcome};
use resolvers::Resolver;
use scenario_text::Command;
use std::alloc::{AllocError, Global};
use std::marker::Model;
use world_core::{Answer, Event, World, WorldFault};

/// A world, and marks that say which of its frames were given to their addressee: the first frames
/// have marks, and those after them were not given. The first `settled` marks are all set: a
/// settling begins after them, and looks at no frame twice.
#[derive(Drop)]
pub struct Stage {
    pub(crate) alloc: Global,
    pub(crate) world: World,
    pub(crate) given: Vec<bool>,
    pub(crate) settled: usize,
}

impl Model for Stage {
    ghost use Rattle.std.specs.Prelude.{◌≡◌, ◌≤◌, length, take, replicate, true};
    ghost use Rattle.scenario_commands.specs.Obeying.{Stage as Parts, with_new};

    ghost Value = { Parts };

    ghost view = { λ s. record {
      world = s.world;
      given = with_new (length s.world.frames) s.given.items;
    } };

    ghost invariant = { λ s. (length s.given.items ≤ length s.world.frames)
        × (take s.settled s.given.items ≡ replicate s.settled true) };
}

impl Stage {
    /// Makes a stage with a new world of `nodes` nodes: 1 to 16. Fails only when memory runs out.
    pub fn new(alloc: Global, nodes: u64) -> Result<Self, AllocError>
        requires { (1 ≤ nodes) × (nodes ≤ 16) }
        ensures { IfOk result (λ stage. stage ≡ new_stage nodes) }
    {
        match World::new(alloc, nodes) {
            Ok(world) => Ok(Stage {
                alloc,
                world,
                given: Vec::new(alloc),
                settled: 0,
            }),
            Err(_) => Err(AllocError),
        }
    }

    /// Returns the world, as the commands have made it. Each of its frames has a mark.
    pub fn world(&self) -> &World
        ensures world { result.now ≡ self.now.world }
        ensures marks { length self.now.given ≡ length self.now.world.frames }
    {
        &self.world
    }

    /// Returns whether the frame of that number was given to its addressee, as `settle` asks. It
    /// wasn't if the world has no such frame.
    pub fn was_given(&self, frame: u64) -> bool
        ensures { result ≡ was_given frame self.now.given }
    {
        match frame.checked_sub(1) {
            Some(place) => self.given.get(place as usize).copied().unwrap_or(false),
            None => false,
        }
    }

    /// Does what a command says, and adds what that prints to `text`. Ends with 71 `Limit` if a
    /// settling would deliver more than 100,000 frames, and with 99 `Memory`; then nothing is said
    /// of the stage and of what was added.
    pub fn obey(
        &mut self,
        command: &Command<'_>,
        resolvers: &[Box<dyn Resolver>],
        text: &mut Vec<u8>,
    ) -> Result<(), StageFault>
        ensures { ObeysOrEnds (map (λ r. choice r) resolvers.now) self.old
            (command_word command.now) text.old.items text.new.items self.new result }
    {
        if let Some(fault) = command.fault() {
            return Ok(print_name_fault(text, &fault)?);
        }
        match command {
            Command::Settle => self.settle(text),
            Command::Deliver { frame, node, word } => {
                Ok(self.deliver(*frame, *node, *word, text)?)
            }
            Command::Keep { node, key: None } => Ok(self.keep(*node, text)?),
            Command::Resolve { node, key, by } => {
                Ok(self.resolve(*node, key, resolvers.get(*by), text)?)
            }
            command => Ok(self.act_or_look(command, text)?),
        }
    }

    /// Does a command that is an event other than a delivery, or only looks, and whose names and
    /// value aren't too long.
    fn act_or_look(&mut self, command: &Command<'_>, text: &mut Vec<u8>) -> Result<(), AllocError>
        requires lawful { fault_in (command_word command.now) ≡ None }
        requires here { IsActOrLook (command_word command.now) }
        ensures { OnOk result (ActsOrLooksAs self.old (command_word command.now)
            text.old.items text.new.items self.new) }
    {
        match event_of(self.alloc, command) {
            Ok(Some(event)) => self.happen(event, text),
            Ok(None) => self.look(command, text),
            Err(WorldFault::NoSuchNode) => {
                // Called for what their contracts say: no world has this node.
                let _count = self.world().node_count();
                print_no_node(text)
            }
            Err(_) => Err(AllocError),
        }
    }

    /// Applies an event, which is no delivery, and adds its result line and a line for each frame
    /// that it sent.
    pub(crate) fn happen(&mut self, event: Event, text: &mut Vec<u8>) -> Result<(), AllocError>
        requires { IsNoDelivery event }
        ensures { OnOk result ((added : List ℕ) × Happens self.old event added self.new
            × (text.new.items ≡ text.old.items ++ added)) }
    {
        let outcome = self.apply(event);
        let done = print_outcome(self.alloc, text, &self.world, &outcome);
        drop(outcome);
        done
    }

    /// Applies an event to the world. The frames that it sends were not given.
    pub(crate) fn apply(&mut self, event: Event) -> Result<Answer, WorldFault>
        ensures passes { Passes self.old.world event result self.new.world }
        ensures given { self.new.given
            ≡ with_new (length self.new.world.frames) self.old.given }
        ensures marks { length self.old.given ≡ length self.old.world.frames }
    {
        self.world.apply(event)
    }
}

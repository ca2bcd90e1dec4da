//! What comes of main control's commands, carried out.

ghost use Rattle.std.specs.Prelude.{ℕ, Bool, None, ◌≡◌, []};
ghost use Rattle.tx_commands.specs.Knowledge.{no_lists, KnowsControl, KnowsOutcome};
ghost use Rattle.tx_scene.specs.Knowledge.{KnowsScene};
ghost use Rattle.tx_run.specs.Knowledge.{known_by, KnowsFormat, KnowsAfter, Holds};
ghost use Rattle.tx_eqtb.specs.Meanings.{meanings};
ghost use Rattle.tx_environment.specs.Soundness.{IsSound};
ghost use Rattle.tx_run.specs.Runs.{Concludes, IsSoundAfter, IsAsked, Keeps};

use crate::doing::Doing;
use crate::op::Tick;
use crate::run::Run;
use crate::senses::relax;
use tx_assign::Prefixes;
use tx_commands::{Command, Outcome};
use tx_format::Format;
use tx_views::Place;

impl Run {
    /// Carries out what came of an item for the command.
    pub(crate) fn conclude(&mut self, format: &Format, outcome: Outcome) -> Tick
        requires sound { IsSound (meanings format.now.frozen) self.old.scene.environment }
        requires empty { self.old.frames ≡ [] }
        ensures concludes { Concludes format.now outcome self.old result self.new }
        ensures sound { IsSoundAfter (meanings format.now.frozen) result self.new }
        ensures keeps { Keeps self.old self.new }
        ensures asked { self.old.fallen ≡ None → IsAsked result self.new }
        ensures knows { (names : ℕ → Bool) → KnowsFormat names format.now → KnowsScene names self.old.scene → KnowsOutcome (known_by names self.old.scene) outcome → KnowsAfter names result self.new }
        ensures holds { Holds self.old self.new }
    {
        match outcome {
            Outcome::Goes(command) => {
                self.command = command;
                self.doing = Doing::Wishes;
                Tick::Went
            }
            Outcome::Relaxes(command, prefixes, place) => self.relaxes(
                format, command, prefixes, place,
            ),
            Outcome::Again(back) => self.restarts_behind(back),
            Outcome::Does(effect) => self.does(format, effect),
            Outcome::Wrong(error) => self.refuse(format, error),
            Outcome::Memory => Tick::Memory,
        }
    }

    /// The command goes on, after a place was given the meaning of `\relax`.
    fn relaxes(
        &mut self,
        format: &Format,
        command: Command,
        prefixes: Prefixes,
        place: Place,
    ) -> Tick
        requires sound { IsSound (meanings format.now.frozen) self.old.scene.environment }
        requires empty { self.old.frames ≡ [] }
        ensures concludes { Concludes format.now (Outcome.Relaxes command prefixes place) self.old result self.new }
        ensures sound { IsSoundAfter (meanings format.now.frozen) result self.new }
        ensures keeps { Keeps self.old self.new }
        ensures asked { self.old.fallen ≡ None → IsAsked result self.new }
        ensures knows { (names : ℕ → Bool) → KnowsScene names self.old.scene → KnowsControl (no_lists (known_by names self.old.scene)) command → KnowsAfter names result self.new }
        ensures holds { Holds self.old self.new }
    {
        let Some(meaning) = relax() else {
            return Tick::Memory;
        };
        match self.assign(format, prefixes, place, meaning) {
            Ok(()) => {
                self.command = command;
                self.doing = Doing::Wishes;
                Tick::Went
            }
            Err(_) => Tick::Memory,
        }
    }
}

//! The end of a region.

ghost use Rattle.std.specs.Prelude.{ℕ, Bool, None, ◌≡◌, []};
ghost use Rattle.tx_scene.specs.Knowledge.{KnowsScene};
ghost use Rattle.tx_run.specs.Knowledge.{KnowsAfter, Holds};
ghost use Rattle.tx_eqtb.specs.Meanings.{meanings};
ghost use Rattle.tx_environment.specs.Soundness.{IsSound};
ghost use Rattle.tx_commands.specs.Outcomes.{move_of};
ghost use Rattle.tx_commands.specs.declared.effect.Effect.TheVariants as effect;
ghost use Rattle.tx_run.specs.Runs.{ControlComes, LeadsFor, IsSoundAfter, IsAsked, Keeps};

use crate::op::Tick;
use crate::run::Run;
use tx_format::Format;

impl Run {
    /// `\end`: what is pending is dropped, and the region ends.
    pub(crate) fn ends_region(&mut self, format: &Format) -> Tick
        requires sound { IsSound (meanings format.now.frozen) self.old.scene.environment }
        requires empty { self.old.frames ≡ [] }
        ensures leads { LeadsFor format.now (λ g. ControlComes g (meanings format.now.frozen) (move_of g.view effect.End) self.old) self.old.scene result self.new }
        ensures sound { IsSoundAfter (meanings format.now.frozen) result self.new }
        ensures keeps { Keeps self.old self.new }
        ensures asked { self.old.fallen ≡ None → IsAsked result self.new }
        ensures knows { (names : ℕ → Bool) → KnowsScene names self.old.scene → KnowsAfter names result self.new }
        ensures holds { Holds self.old self.new }
    {
        self.scene.drop_rest();
        self.finishes(format)
    }

    /// The same by `\dump`, which is an error within a group of a preamble.
    pub(crate) fn dumps(&mut self, format: &Format) -> Tick
        requires sound { IsSound (meanings format.now.frozen) self.old.scene.environment }
        requires empty { self.old.frames ≡ [] }
        ensures leads { LeadsFor format.now (λ g. ControlComes g (meanings format.now.frozen) (move_of g.view effect.Dump) self.old) self.old.scene result self.new }
        ensures sound { IsSoundAfter (meanings format.now.frozen) result self.new }
        ensures keeps { Keeps self.old self.new }
        ensures asked { self.old.fallen ≡ None → IsAsked result self.new }
        ensures knows { (names : ℕ → Bool) → KnowsScene names self.old.scene → KnowsAfter names result self.new }
        ensures holds { Holds self.old self.new }
    {
        self.scene.drop_rest();
        if !self.scene.preamble {
            return self.finishes(format);
        }
        if self.scene.groups() > 0 {
            return self.error(format, 58, 0, 0);
        }
        self.finishes(format)
    }

    /// The region ends, if no group is open.
    pub(crate) fn finishes(&mut self, format: &Format) -> Tick
        requires sound { IsSound (meanings format.now.frozen) self.old.scene.environment }
        requires empty { self.old.frames ≡ [] }
        ensures leads { LeadsFor format.now (λ g. ControlComes g (meanings format.now.frozen) (move_of g.view effect.Finish) self.old) self.old.scene result self.new }
        ensures sound { IsSoundAfter (meanings format.now.frozen) result self.new }
        ensures keeps { Keeps self.old self.new }
        ensures asked { self.old.fallen ≡ None → IsAsked result self.new }
        ensures knows { (names : ℕ → Bool) → KnowsScene names self.old.scene → KnowsAfter names result self.new }
        ensures holds { Holds self.old self.new }
    {
        let groups = self.scene.groups();
        if groups > 0 {
            return self.error(format, 59, 0, i64::from(groups));
        }
        if self.scene.is_overfull() {
            return self.overfull(format);
        }
        Tick::Done
    }
}

//! Groups. *TeX: The Program*, parts 19 and 46.

ghost use Rattle.std.specs.Prelude.{ℕ, Bool, None, ◌≡◌, []};
ghost use Rattle.tx_scene.specs.Knowledge.{KnowsScene};
ghost use Rattle.tx_run.specs.Knowledge.{KnowsAfter, Holds};
ghost use Rattle.tx_node.specs.declared.BoxNode.{BoxNode};
ghost use Rattle.tx_eqtb.specs.Meanings.{Map, meanings};
ghost use Rattle.tx_save.specs.Saves.{Fits};
ghost use Rattle.tx_private.specs.Controls.{opens as opens_group};
ghost use Rattle.tx_environment.specs.Soundness.{IsSound, IsClosing};
ghost use Rattle.tx_environment.specs.Steps.{IsOpen};
ghost use Rattle.tx_scene.specs.Scenes.{Ground, IsGround};
ghost use Rattle.tx_scene.specs.Changes.{closing};
ghost use Rattle.tx_commands.specs.Outcomes.{move_of};
ghost use Rattle.tx_commands.specs.declared.effect.Effect.TheVariants as effect;
ghost use Rattle.tx_run.specs.Runs.{ControlComes, Leads, LeadsFor, IsSoundAfter, IsAsked, Keeps};

use crate::assigning::fallen;
use crate::doing::Doing;
use crate::op::Tick;
use crate::run::Run;
use tx_format::Format;
use tx_save::{Closed, GroupKind};

/// How many groups may be open, one within another.
const MOST_GROUPS: u8 = 254;

impl Run {
    /// A group begins.
    pub(crate) fn begins_group(&mut self, format: &Format, kind: GroupKind) -> Tick
        requires sound { IsSound (meanings format.now.frozen) self.old.scene.environment }
        requires empty { self.old.frames ≡ [] }
        ensures leads { LeadsFor format.now (λ g. ControlComes g (meanings format.now.frozen) (opens_group kind) self.old) self.old.scene result self.new }
        ensures sound { IsSoundAfter (meanings format.now.frozen) result self.new }
        ensures keeps { Keeps self.old self.new }
        ensures asked { self.old.fallen ≡ None → IsAsked result self.new }
        ensures knows { (names : ℕ → Bool) → KnowsScene names self.old.scene → KnowsAfter names result self.new }
        ensures holds { Holds self.old self.new }
    {
        if self.scene.groups() >= MOST_GROUPS {
            return self.error(format, 57, 3, 0);
        }
        match self.scene.begin_group(kind) {
            Ok(()) => self.restarts(),
            Err(_) => Tick::Memory,
        }
    }

    /// A right brace ends the innermost group, if that is one of braces.
    pub(crate) fn closes_brace(&mut self, format: &Format) -> Tick
        requires sound { IsSound (meanings format.now.frozen) self.old.scene.environment }
        requires empty { self.old.frames ≡ [] }
        ensures leads { LeadsFor format.now (λ g. ControlComes g (meanings format.now.frozen) (move_of g.view effect.CloseBrace) self.old) self.old.scene result self.new }
        ensures sound { IsSoundAfter (meanings format.now.frozen) result self.new }
        ensures keeps { Keeps self.old self.new }
        ensures asked { self.old.fallen ≡ None → IsAsked result self.new }
        ensures knows { (names : ℕ → Bool) → KnowsScene names self.old.scene → KnowsAfter names result self.new }
        ensures holds { Holds self.old self.new }
    {
        match self.scene.group() {
            None => self.error(format, 3, 0, 0),
            Some(kind) => match kind {
                GroupKind::Simple => self.begins_closing(),
                GroupKind::Semi => self.error(format, 4, 0, 0),
                _ => self.error(format, 63, 0, 0),
            },
        }
    }

    /// `\endgroup` ends the innermost group, if that is one of `\begingroup`.
    pub(crate) fn ends_group(&mut self, format: &Format) -> Tick
        requires sound { IsSound (meanings format.now.frozen) self.old.scene.environment }
        requires empty { self.old.frames ≡ [] }
        ensures leads { LeadsFor format.now (λ g. ControlComes g (meanings format.now.frozen) (move_of g.view effect.EndGroup) self.old) self.old.scene result self.new }
        ensures sound { IsSoundAfter (meanings format.now.frozen) result self.new }
        ensures keeps { Keeps self.old self.new }
        ensures asked { self.old.fallen ≡ None → IsAsked result self.new }
        ensures knows { (names : ℕ → Bool) → KnowsScene names self.old.scene → KnowsAfter names result self.new }
        ensures holds { Holds self.old self.new }
    {
        match self.scene.group() {
            None => self.error(format, 5, 0, 0),
            Some(kind) => match kind {
                GroupKind::Semi => self.begins_closing(),
                GroupKind::Simple => self.error(format, 6, 0, 0),
                _ => self.error(format, 63, 0, 0),
            },
        }
    }

    /// The innermost group begins to end.
    fn begins_closing(&mut self) -> Tick
        requires open { IsOpen self.old.scene.environment }
        requires empty { self.old.frames ≡ [] }
        ensures leads { (frozen : Map BoxNode) (g : Ground) → IsGround g self.old.scene → Leads (ControlComes g frozen (closing) self.old) g frozen result self.new }
        ensures sound { (frozen : Map BoxNode) → IsSound frozen self.old.scene.environment → IsSoundAfter frozen result self.new }
        ensures keeps { Keeps self.old self.new }
        ensures asked { self.old.fallen ≡ None → IsAsked result self.new }
        ensures knows { (names : ℕ → Bool) → KnowsScene names self.old.scene → KnowsAfter names result self.new }
        ensures holds { Holds self.old self.new }
    {
        self.doing = Doing::Closes;
        Tick::Went
    }

    /// One step of the end of the innermost group.
    pub(crate) fn closes(&mut self) -> Tick
        requires open { IsOpen self.old.scene.environment }
        requires fits { Fits self.old.scene.environment.table self.old.scene.environment.saves }
        requires empty { self.old.frames ≡ [] }
        ensures leads { (frozen : Map BoxNode) (g : Ground) → IsGround g self.old.scene → Leads (ControlComes g frozen (closing) self.old) g frozen result self.new }
        ensures sound { (frozen : Map BoxNode) → IsClosing frozen self.old.scene.environment → IsSoundAfter frozen result self.new }
        ensures keeps { Keeps self.old self.new }
        ensures asked { self.old.fallen ≡ None → IsAsked result self.new }
        ensures knows { (names : ℕ → Bool) → KnowsScene names self.old.scene → KnowsAfter names result self.new }
        ensures holds { Holds self.old self.new }
    {
        match self.scene.close() {
            Closed::Dropped(out) => {
                self.fallen = fallen(&out);
                self.doing = Doing::Closes;
                Tick::Went
            }
            Closed::End(_, after) => self.restarts_behind(after),
        }
    }
}

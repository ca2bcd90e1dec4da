//! Assignments. *TeX: The Program*, part 49.

ghost use Rattle.std.specs.Prelude.{ℕ, Bool, ◌+◌, None, ◌≡◌, ◌∷◌, [], pos, option_and_then, OnOk};
ghost use Rattle.tx_environment.specs.Holding.{pooled_of};
ghost use Rattle.tx_frames.specs.Knowledge.{KnowsToken, KnowsTokens, KnowsSense, KnowsPlace};
ghost use Rattle.tx_commands.specs.Knowledge.{KnowsMeaning};
ghost use Rattle.tx_scene.specs.Knowledge.{KnowsScene, references, count_of};
ghost use Rattle.tx_run.specs.Knowledge.{counts_as, known_by, KnowsOpen, KnowsAfter, HoldsWith, Holds, HoldsOn};
ghost use Rattle.std.specs.List.{AllByRecursion};
ghost use Rattle.tx_node.specs.declared.BoxNode.{BoxNode};
ghost use Rattle.tx_eqtb.specs.Meanings.{Map, meanings};
ghost use Rattle.tx_save.specs.Saves.{Fits};
ghost use Rattle.tx_private.specs.Errors.{numbered};
ghost use Rattle.tx_private.specs.World.{put_in_front};
ghost use Rattle.tx_private.specs.Readings as private;
ghost use Rattle.tx_private.specs.Lists.{storing, most_stored};
ghost use Rattle.tx_private.specs.Assignments.{assigns, assigned, release};
ghost use Rattle.tx_private.specs.Controls.{straightened};
ghost use Rattle.tx_opens.specs.Opens.{Open, Comes};
ghost use Rattle.tx_views.specs.Views.{viewed, all_viewed};
ghost use Rattle.tx_views.specs.Places.{address_in};
ghost use Rattle.tx_views.specs.Meanings.{meaning_in};
ghost use Rattle.tx_environment.specs.Soundness.{IsSound, IsFirst};
ghost use Rattle.tx_scene.specs.Scenes.{Ground, IsGround, world};
ghost use Rattle.tx_scene.specs.Changes.{Changes};
ghost use Rattle.tx_assign.specs.Assigned.{prefixes_in};
ghost use Rattle.tx_commands.specs.Outcomes.{move_of};
ghost use Rattle.tx_commands.specs.declared.effect.Effect.TheVariants as effect;
ghost use Rattle.tx_run.specs.Readings.{Waits};
ghost use Rattle.tx_run.specs.Doings.{stored_meaning, hang_after_first};
ghost use Rattle.tx_run.specs.Runs.{opens, ControlComes, FailsNow, Leads, LeadsFor, IsSoundAfter, IsAsked, Keeps};

use crate::doing::{Doing, Start, Stored};
use crate::op::{Op, Tick};
use crate::run::Run;
use crate::senses::{meaning_of, pooled};
use std::alloc::AllocError;
use tx_assign::{Operation, Prefixes, computed};
use tx_eqtb::Meaning;
use tx_format::Format;
use tx_frames::Value;
use tx_node::BoxNode;
use tx_num::{Quant, Sp};
use tx_prims::primitives::{DimensionParameter, IntegerParameter};
use tx_tok::{Tok, Toks};
use tx_views::{Place, Sense};

impl Run {
    /// A place is given a meaning. What nothing brings back falls away, and its list with it. The only error is want of
    /// memory, after which the meaning falls away.
    pub(crate) fn assign(
        &mut self,
        format: &Format,
        prefixes: Prefixes,
        place: Place,
        meaning: Meaning<BoxNode>,
    ) -> Result<(), AllocError>
        requires sound { IsSound (meanings format.now.frozen) self.old.scene.environment }
        ensures assigned { OnOk result ((g : Ground) (depth : ℕ) → IsGround g self.old.scene → world g (meanings format.now.frozen) depth self.new.scene ≡ assigned (prefixes_in prefixes) (address_in g.view place) (meaning_in g.view meaning) (world g (meanings format.now.frozen) depth self.old.scene)) }
        ensures becomes { self.new ≡ record self.old { scene = self.new.scene; fallen = self.new.fallen } }
        ensures sound { OnOk result (IsSound (meanings format.now.frozen) self.new.scene.environment) }
        ensures first { IsFirst (meanings format.now.frozen) self.new.scene.environment }
        ensures keeps { Keeps self.old self.new }
        ensures knows { (names : ℕ → Bool) → KnowsScene names self.old.scene → KnowsScene names self.new.scene }
        ensures holds { self.old.fallen ≡ None → (id : ℕ) → references id self.new.scene + counts_as id self.new.fallen ≡ references id self.old.scene + count_of id meaning }
    {
        let global = self.scene.is_global(format.frozen(), prefixes);
        match self.scene.assign(place, meaning, global) {
            Ok(out) => {
                self.fallen = fallen(&out);
                Ok(())
            }
            Err(back) => {
                self.fallen = pooled(&back);
                Err(AllocError)
            }
        }
    }

    /// A meaning is assigned, to which what it refers to is held.
    pub(crate) fn assigns(
        &mut self,
        format: &Format,
        prefixes: Prefixes,
        place: Place,
        meaning: Meaning<BoxNode>,
    ) -> Tick
        requires sound { IsSound (meanings format.now.frozen) self.old.scene.environment }
        requires empty { self.old.frames ≡ [] }
        ensures leads { LeadsFor format.now (λ g. ControlComes g (meanings format.now.frozen) (assigns (prefixes_in prefixes) (address_in g.view place) (meaning_in g.view meaning)) self.old) self.old.scene result self.new }
        ensures sound { IsSoundAfter (meanings format.now.frozen) result self.new }
        ensures keeps { Keeps self.old self.new }
        ensures asked { self.old.fallen ≡ None → IsAsked result self.new }
        ensures knows { (names : ℕ → Bool) → KnowsScene names self.old.scene → KnowsAfter names result self.new }
        ensures holds { HoldsWith (λ id. count_of id meaning) self.old self.new }
    {
        match self.assign(format, prefixes, place, meaning) {
            Ok(()) => self.releases(),
            Err(_) => Tick::Memory,
        }
    }

    /// The token that is kept for the end of an assignment is put in front, if there is one, and main control begins
    /// again.
    fn releases(&mut self) -> Tick
        requires empty { self.old.frames ≡ [] }
        ensures leads { (frozen : Map BoxNode) (g : Ground) → IsGround g self.old.scene → Leads (ControlComes g frozen (λ w. private.Again (release w.kept w)) self.old) g frozen result self.new }
        ensures sound { (frozen : Map BoxNode) → IsSound frozen self.old.scene.environment → IsSoundAfter frozen result self.new }
        ensures keeps { Keeps self.old self.new }
        ensures asked { IsAsked result self.new }
        ensures knows { (names : ℕ → Bool) → KnowsScene names self.old.scene → KnowsAfter names result self.new }
        ensures holds { HoldsOn self.old self.new }
    {
        match self.scene.release_kept() {
            Ok(()) => self.restarts(),
            Err(_) => Tick::Memory,
        }
    }

    /// A meaning is assigned, to which nothing is held yet.
    pub(crate) fn assigns_unheld(
        &mut self,
        format: &Format,
        prefixes: Prefixes,
        place: Place,
        meaning: Meaning<BoxNode>,
    ) -> Tick
        requires sound { IsSound (meanings format.now.frozen) self.old.scene.environment }
        requires empty { self.old.frames ≡ [] }
        ensures leads { LeadsFor format.now (λ g. ControlComes g (meanings format.now.frozen) (assigns (prefixes_in prefixes) (address_in g.view place) (meaning_in g.view meaning)) self.old) self.old.scene result self.new }
        ensures sound { IsSoundAfter (meanings format.now.frozen) result self.new }
        ensures keeps { Keeps self.old self.new }
        ensures asked { self.old.fallen ≡ None → IsAsked result self.new }
        ensures knows { (names : ℕ → Bool) → KnowsScene names self.old.scene → KnowsPlace (known_by names self.old.scene) place → KnowsMeaning (known_by names self.old.scene) meaning → KnowsAfter names result self.new }
        ensures holds { Holds self.old self.new }
    {
        match pooled(&meaning) {
            Some(id) => {
                self.doing = Doing::Takes(prefixes, place, meaning, id);
                Tick::Ask(Op::Take(id))
            }
            None => self.assigns(format, prefixes, place, meaning),
        }
    }

    /// A list is shared, and assigned.
    pub(crate) fn shares(
        &mut self,
        prefixes: Prefixes,
        place: Place,
        stored: Stored,
        tokens: Toks,
    ) -> Tick
        requires empty { self.old.frames ≡ [] }
        ensures leads { (frozen : Map BoxNode) (g : Ground) → IsGround g self.old.scene → Leads (ControlComes g frozen (assigns (prefixes_in prefixes) (address_in g.view place) (stored_meaning stored (all_viewed g.view tokens))) self.old) g frozen result self.new }
        ensures sound { (frozen : Map BoxNode) → IsSound frozen self.old.scene.environment → IsSoundAfter frozen result self.new }
        ensures keeps { Keeps self.old self.new }
        ensures asked { self.old.fallen ≡ None → IsAsked result self.new }
        ensures knows { (names : ℕ → Bool) → KnowsScene names self.old.scene → KnowsPlace (known_by names self.old.scene) place → KnowsTokens (known_by names self.old.scene) tokens → KnowsAfter names result self.new }
        ensures holds { Holds self.old self.new }
    {
        self.doing = Doing::Shares(prefixes, place, stored, tokens);
        Tick::Ask(Op::Share)
    }

    /// A place is given what a token means.
    pub(crate) fn lets(
        &mut self,
        format: &Format,
        prefixes: Prefixes,
        place: Place,
        sense: Sense,
    ) -> Tick
        requires sound { IsSound (meanings format.now.frozen) self.old.scene.environment }
        requires empty { self.old.frames ≡ [] }
        ensures leads { LeadsFor format.now (λ g. ControlComes g (meanings format.now.frozen) (move_of g.view (effect.Let prefixes place sense)) self.old) self.old.scene result self.new }
        ensures sound { IsSoundAfter (meanings format.now.frozen) result self.new }
        ensures keeps { Keeps self.old self.new }
        ensures asked { self.old.fallen ≡ None → IsAsked result self.new }
        ensures knows { (names : ℕ → Bool) → KnowsScene names self.old.scene → KnowsPlace (known_by names self.old.scene) place → KnowsSense (known_by names self.old.scene) sense → KnowsAfter names result self.new }
        ensures holds { Holds self.old self.new }
    {
        match meaning_of(sense) {
            Some(meaning) => self.assigns_unheld(format, prefixes, place, meaning),
            // Every primitive has a place in the table.
            None => Tick::Memory,
        }
    }

    /// The same behind two tokens, which are put in front.
    pub(crate) fn future_lets(
        &mut self,
        format: &Format,
        prefixes: Prefixes,
        place: Place,
        sense: Sense,
        first: Tok,
        second: Tok,
    ) -> Tick
        requires sound { IsSound (meanings format.now.frozen) self.old.scene.environment }
        requires empty { self.old.frames ≡ [] }
        ensures leads { LeadsFor format.now (λ g. ControlComes g (meanings format.now.frozen) (move_of g.view (effect.FutureLet prefixes place sense first second)) self.old) self.old.scene result self.new }
        ensures sound { IsSoundAfter (meanings format.now.frozen) result self.new }
        ensures keeps { Keeps self.old self.new }
        ensures asked { self.old.fallen ≡ None → IsAsked result self.new }
        ensures knows { (names : ℕ → Bool) → KnowsScene names self.old.scene → KnowsPlace (known_by names self.old.scene) place → KnowsSense (known_by names self.old.scene) sense → KnowsToken (known_by names self.old.scene) first → KnowsToken (known_by names self.old.scene) second → KnowsAfter names result self.new }
        ensures holds { Holds self.old self.new }
    {
        match self.put_two(first, second) {
            Ok(()) => self.lets(format, prefixes, place, sense),
            Err(_) => Tick::Memory,
        }
    }

    /// Puts two tokens in front. The only error is want of memory.
    fn put_two(&mut self, first: Tok, second: Tok) -> Result<(), AllocError>
        ensures in_front { OnOk result (Changes (λ g w. put_in_front (viewed g.view first ∷ viewed g.view second ∷ []) w) self.old.scene self.new.scene) }
        ensures becomes { self.new ≡ record self.old { scene = self.new.scene } }
        ensures environment { self.new.scene.environment ≡ self.old.scene.environment }
        ensures keeps { Keeps self.old self.new }
        ensures knows { (names : ℕ → Bool) → KnowsScene names self.old.scene → KnowsToken (known_by names self.old.scene) first → KnowsToken (known_by names self.old.scene) second → KnowsScene names self.new.scene }
    {
        let mut tokens = Vec::new(self.scene.alloc);
        tokens.push(first)?;
        tokens.push(second)?;
        self.scene.put(Toks(tokens))
    }

    /// A place is given a macro.
    pub(crate) fn defines(
        &mut self,
        format: &Format,
        prefixes: Prefixes,
        place: Place,
        body: Toks,
    ) -> Tick
        requires sound { IsSound (meanings format.now.frozen) self.old.scene.environment }
        requires empty { self.old.frames ≡ [] }
        ensures leads { LeadsFor format.now (λ g. ControlComes g (meanings format.now.frozen) (move_of g.view (effect.Define prefixes place body)) self.old) self.old.scene result self.new }
        ensures sound { IsSoundAfter (meanings format.now.frozen) result self.new }
        ensures keeps { Keeps self.old self.new }
        ensures asked { self.old.fallen ≡ None → IsAsked result self.new }
        ensures knows { (names : ℕ → Bool) → KnowsScene names self.old.scene → KnowsPlace (known_by names self.old.scene) place → KnowsTokens (known_by names self.old.scene) body → KnowsAfter names result self.new }
        ensures holds { Holds self.old self.new }
    {
        if !self.scene.store(&body) {
            return self.too_much_stored(format);
        }
        self.shares(
            prefixes,
            place,
            Stored::Macro(prefixes.long, prefixes.protected),
            body,
        )
    }

    /// A reading ends with a list in braces, which is stored.
    pub(crate) fn stores(&mut self, format: &Format, tokens: Toks) -> Tick
        requires sound { IsSound (meanings format.now.frozen) self.old.scene.environment }
        requires waits { AllByRecursion Waits self.old.frames }
        ensures leads { LeadsFor format.now (λ g. λ r. (o : Open) (depth : ℕ) → Comes o (opens g.view self.old) (storing (all_viewed g.view tokens) (world g (meanings format.now.frozen) depth self.old.scene) (λ v. private.Done (private.Tokens (all_viewed g.view tokens)) v)) r) self.old.scene result self.new }
        ensures sound { IsSoundAfter (meanings format.now.frozen) result self.new }
        ensures keeps { Keeps self.old self.new }
        ensures asked { self.old.fallen ≡ None → IsAsked result self.new }
        ensures knows { (names : ℕ → Bool) → KnowsScene names self.old.scene → KnowsOpen (known_by names self.old.scene) self.old.frames self.old.command → KnowsTokens (known_by names self.old.scene) tokens → KnowsAfter names result self.new }
        ensures holds { Holds self.old self.new }
    {
        if !self.scene.store(&tokens) {
            return self.too_much_stored(format);
        }
        self.doing = Doing::Gives(Value::Tokens(tokens));
        Tick::Went
    }

    /// Ends the region because its lists have more tokens than may be stored.
    fn too_much_stored(&mut self, format: &Format) -> Tick
        requires sound { IsSound (meanings format.now.frozen) self.old.scene.environment }
        ensures leads { LeadsFor format.now (λ g. FailsNow (meanings format.now.frozen) (numbered 57 5 (pos (most_stored self.old.scene.preamble))) g self.old.scene) self.old.scene result self.new }
        ensures sound { IsSoundAfter (meanings format.now.frozen) result self.new }
        ensures keeps { Keeps self.old self.new }
        ensures asked { self.old.fallen ≡ None → IsAsked result self.new }
        ensures knows { (names : ℕ → Bool) → KnowsScene names self.old.scene → KnowsAfter names result self.new }
        ensures holds { Holds self.old self.new }
    {
        let most = if self.scene.preamble {
            4_194_304
        } else {
            1_048_576
        };
        self.error(format, 57, 5, most)
    }

    /// A place is given what it holds, with which this is computed.
    pub(crate) fn computes(
        &mut self,
        format: &Format,
        prefixes: Prefixes,
        operation: Operation,
        place: Place,
        by: Quant,
    ) -> Tick
        requires sound { IsSound (meanings format.now.frozen) self.old.scene.environment }
        requires empty { self.old.frames ≡ [] }
        ensures leads { LeadsFor format.now (λ g. ControlComes g (meanings format.now.frozen) (move_of g.view (effect.Compute prefixes operation place by)) self.old) self.old.scene result self.new }
        ensures sound { IsSoundAfter (meanings format.now.frozen) result self.new }
        ensures keeps { Keeps self.old self.new }
        ensures asked { self.old.fallen ≡ None → IsAsked result self.new }
        ensures knows { (names : ℕ → Bool) → KnowsScene names self.old.scene → KnowsPlace (known_by names self.old.scene) place → KnowsAfter names result self.new }
        ensures holds { Holds self.old self.new }
    {
        let old = self.scene.quantity(format.frozen(), place);
        match computed(operation, old, by) {
            Ok(meaning) => self.assigns_unheld(format, prefixes, place, meaning),
            Err(error) => self.refuse(format, error),
        }
    }

    /// A paragraph ends, and its lines hang no more.
    pub(crate) fn ends_paragraph(&mut self) -> Tick
        requires fits { Fits self.old.scene.environment.table self.old.scene.environment.saves }
        requires empty { self.old.frames ≡ [] }
        ensures leads { (frozen : Map BoxNode) (g : Ground) → IsGround g self.old.scene → Leads (ControlComes g frozen (λ w. private.Again (straightened w)) self.old) g frozen result self.new }
        ensures sound { (frozen : Map BoxNode) → IsSound frozen self.old.scene.environment → IsSoundAfter frozen result self.new }
        ensures keeps { Keeps self.old self.new }
        ensures asked { self.old.fallen ≡ None → IsAsked result self.new }
        ensures knows { (names : ℕ → Bool) → KnowsScene names self.old.scene → KnowsAfter names result self.new }
        ensures holds { Holds self.old self.new }
    {
        let place = Place::Dimension(DimensionParameter::HangIndent);
        match self.scene.assign(place, Meaning::Dim(Sp::ZERO), false) {
            Ok(out) => {
                self.fallen = fallen(&out);
                self.doing = Doing::Straightens;
                Tick::Went
            }
            Err(_) => Tick::Memory,
        }
    }

    /// The same, where they hang by nothing.
    pub(crate) fn straightens(&mut self) -> Tick
        requires fits { Fits self.old.scene.environment.table self.old.scene.environment.saves }
        requires empty { self.old.frames ≡ [] }
        ensures leads { (frozen : Map BoxNode) (g : Ground) → IsGround g self.old.scene → Leads (ControlComes g frozen (λ w. private.Again (hang_after_first w)) self.old) g frozen result self.new }
        ensures sound { (frozen : Map BoxNode) → IsSound frozen self.old.scene.environment → IsSoundAfter frozen result self.new }
        ensures keeps { Keeps self.old self.new }
        ensures asked { self.old.fallen ≡ None → IsAsked result self.new }
        ensures knows { (names : ℕ → Bool) → KnowsScene names self.old.scene → KnowsAfter names result self.new }
        ensures holds { Holds self.old self.new }
    {
        let place = Place::Integer(IntegerParameter::HangAfter);
        match self.scene.assign(place, Meaning::Int(1), false) {
            Ok(out) => {
                self.fallen = fallen(&out);
                self.restarts()
            }
            Err(_) => Tick::Memory,
        }
    }
}

/// The list of the pool that falls away with a meaning, if there is one.
pub(crate) fn fallen(out: &Option<Meaning<BoxNode>>) -> Option<u64>
    ensures { result ≡ option_and_then pooled_of out.now }
{
    match out {
        Some(meaning) => pooled(meaning),
        None => None,
    }
}

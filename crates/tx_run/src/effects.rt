//! What commands do at last.

ghost use Rattle.std.specs.Prelude.{ℕ, Bool, None, ◌≡◌, []};
ghost use Rattle.tx_frames.specs.Knowledge.{KnowsToken, KnowsTokens};
ghost use Rattle.tx_commands.specs.Knowledge.{KnowsEffect};
ghost use Rattle.tx_scene.specs.Knowledge.{KnowsScene};
ghost use Rattle.tx_run.specs.Knowledge.{known_by, KnowsFormat, KnowsAfter, Holds, HoldsOn};
ghost use Rattle.tx_node.specs.declared.BoxNode.{BoxNode};
ghost use Rattle.tx_eqtb.specs.Meanings.{Map, meanings};
ghost use Rattle.tx_private.specs.World.{put_in_front};
ghost use Rattle.tx_private.specs.Readings as private;
ghost use Rattle.tx_views.specs.Views.{all_viewed};
ghost use Rattle.tx_views.specs.Places.{table_in};
ghost use Rattle.tx_environment.specs.Soundness.{IsSound};
ghost use Rattle.tx_scene.specs.Scenes.{Ground, IsGround};
ghost use Rattle.tx_commands.specs.Commands.{letters_table};
ghost use Rattle.tx_commands.specs.Outcomes.{move_of};
ghost use Rattle.tx_commands.specs.declared.effect.Effect.TheVariants as effect;
ghost use Rattle.tx_run.specs.Runs.{ControlComes, Leads, LeadsFor, IsSoundAfter, IsAsked, Keeps};

use crate::doing::{Doing, Stored, Told};
use crate::op::{Op, Tick};
use crate::run::Run;
use tx_commands::{Effect, Letters, Message};
use tx_describe::Description;
use tx_format::Format;
use tx_num::ErrorNo;
use tx_prims::primitives::IntegerParameter;
use tx_tok::{Tok, Toks};
use tx_views::CodeTable;

/// The error of a message that a text gives itself.
const MESSAGE: ErrorNo = ErrorNo {
    no: 62,
    case: 0,
    value: 0,
};

impl Run {
    /// Does what a command does at last.
    pub(crate) fn does(&mut self, format: &Format, effect: Effect) -> Tick
        requires sound { IsSound (meanings format.now.frozen) self.old.scene.environment }
        requires empty { self.old.frames ≡ [] }
        ensures leads { LeadsFor format.now (λ g. ControlComes g (meanings format.now.frozen) (move_of g.view effect) self.old) self.old.scene result self.new }
        ensures sound { IsSoundAfter (meanings format.now.frozen) result self.new }
        ensures keeps { Keeps self.old self.new }
        ensures asked { self.old.fallen ≡ None → IsAsked result self.new }
        ensures knows { (names : ℕ → Bool) → KnowsFormat names format.now → KnowsScene names self.old.scene → KnowsEffect (known_by names self.old.scene) effect → KnowsAfter names result self.new }
        ensures holds { Holds self.old self.new }
    {
        match effect {
            Effect::Assign(prefixes, place, meaning) => self.assigns_unheld(
                format, prefixes, place, meaning,
            ),
            Effect::AssignTokens(prefixes, place, tokens) => self.shares(
                prefixes,
                place,
                Stored::List,
                tokens,
            ),
            Effect::Let(prefixes, place, sense) => self.lets(format, prefixes, place, sense),
            Effect::FutureLet(prefixes, place, sense, first, second) => {
                self.future_lets(format, prefixes, place, sense, first, second)
            }
            Effect::Define(prefixes, place, body) => self.defines(format, prefixes, place, body),
            Effect::Compute(prefixes, operation, place, by) => {
                self.computes(format, prefixes, operation, place, by)
            }
            Effect::BeginGroup(kind) => self.begins_group(format, kind),
            Effect::CloseBrace => self.closes_brace(format),
            Effect::EndGroup => self.ends_group(format),
            Effect::AfterGroup(token) => self.keeps_for_group(token),
            Effect::AfterAssignment(token) => self.keeps_for_assignment(token),
            Effect::Message(message, tokens) => self.tells(format, message, tokens),
            Effect::ChangeCase(letters, tokens) => self.changes_case(format, letters, tokens),
            Effect::Par => self.ends_paragraph(),
            Effect::End => self.ends_region(format),
            Effect::Dump => self.dumps(format),
            Effect::Finish => self.finishes(format),
            Effect::BadPrefix(sense) => self.describes(format, 22, sense),
            Effect::NoTarget(sense) => self.describes(format, 20, sense),
        }
    }

    /// A token is kept for the end of the innermost group.
    fn keeps_for_group(&mut self, token: Tok) -> Tick
        requires empty { self.old.frames ≡ [] }
        ensures leads { (frozen : Map BoxNode) (g : Ground) → IsGround g self.old.scene → Leads (ControlComes g frozen (move_of g.view (effect.AfterGroup token)) self.old) g frozen result self.new }
        ensures sound { (frozen : Map BoxNode) → IsSound frozen self.old.scene.environment → IsSoundAfter frozen result self.new }
        ensures keeps { Keeps self.old self.new }
        ensures asked { self.old.fallen ≡ None → IsAsked result self.new }
        ensures knows { (names : ℕ → Bool) → KnowsScene names self.old.scene → KnowsToken (known_by names self.old.scene) token → KnowsAfter names result self.new }
        ensures holds { Holds self.old self.new }
    {
        match self.scene.after_group(token) {
            Ok(()) => self.restarts(),
            Err(_) => Tick::Memory,
        }
    }

    /// A token is kept for the end of the next assignment.
    fn keeps_for_assignment(&mut self, token: Tok) -> Tick
        requires empty { self.old.frames ≡ [] }
        ensures leads { (frozen : Map BoxNode) (g : Ground) → IsGround g self.old.scene → Leads (ControlComes g frozen (move_of g.view (effect.AfterAssignment token)) self.old) g frozen result self.new }
        ensures sound { (frozen : Map BoxNode) → IsSound frozen self.old.scene.environment → IsSoundAfter frozen result self.new }
        ensures keeps { Keeps self.old self.new }
        ensures asked { self.old.fallen ≡ None → IsAsked result self.new }
        ensures knows { (names : ℕ → Bool) → KnowsScene names self.old.scene → KnowsToken (known_by names self.old.scene) token → KnowsAfter names result self.new }
        ensures holds { Holds self.old self.new }
    {
        self.scene.keep(token);
        self.restarts()
    }

    /// A text is told.
    fn tells(&mut self, format: &Format, message: Message, tokens: Toks) -> Tick
        requires sound { IsSound (meanings format.now.frozen) self.old.scene.environment }
        requires empty { self.old.frames ≡ [] }
        ensures leads { LeadsFor format.now (λ g. ControlComes g (meanings format.now.frozen) (move_of g.view (effect.Message message tokens)) self.old) self.old.scene result self.new }
        ensures sound { IsSoundAfter (meanings format.now.frozen) result self.new }
        ensures keeps { Keeps self.old self.new }
        ensures asked { self.old.fallen ≡ None → IsAsked result self.new }
        ensures knows { (names : ℕ → Bool) → KnowsScene names self.old.scene → KnowsTokens (known_by names self.old.scene) tokens → KnowsAfter names result self.new }
        ensures holds { Holds self.old self.new }
    {
        let escape = self
            .scene
            .integer(format.frozen(), IntegerParameter::EscapeChar);
        let description = Description::list(self.scene.alloc, tokens, escape);
        match message {
            Message::Log => {
                self.doing = Doing::Tells(Told::Log, description);
                Tick::Went
            }
            Message::Error => {
                self.doing = Doing::Tells(Told::Error(MESSAGE), description);
                Tick::Went
            }
        }
    }

    /// Tokens are put in front, with other letters.
    fn changes_case(&mut self, format: &Format, letters: Letters, tokens: Toks) -> Tick
        requires sound { IsSound (meanings format.now.frozen) self.old.scene.environment }
        requires empty { self.old.frames ≡ [] }
        ensures leads { LeadsFor format.now (λ g. ControlComes g (meanings format.now.frozen) (move_of g.view (effect.ChangeCase letters tokens)) self.old) self.old.scene result self.new }
        ensures sound { IsSoundAfter (meanings format.now.frozen) result self.new }
        ensures keeps { Keeps self.old self.new }
        ensures asked { self.old.fallen ≡ None → IsAsked result self.new }
        ensures knows { (names : ℕ → Bool) → KnowsScene names self.old.scene → KnowsTokens (known_by names self.old.scene) tokens → KnowsAfter names result self.new }
        ensures holds { Holds self.old self.new }
    {
        match self
            .scene
            .recoded(format.frozen(), table_of(letters), &tokens)
        {
            Ok(tokens) => self.restarts_behind(tokens),
            Err(_) => Tick::Memory,
        }
    }

    /// Main control begins again, behind these tokens.
    pub(crate) fn restarts_behind(&mut self, back: Toks) -> Tick
        requires empty { self.old.frames ≡ [] }
        ensures leads { (frozen : Map BoxNode) (g : Ground) → IsGround g self.old.scene → Leads (ControlComes g frozen (λ w. private.Again (put_in_front (all_viewed g.view back) w)) self.old) g frozen result self.new }
        ensures sound { (frozen : Map BoxNode) → IsSound frozen self.old.scene.environment → IsSoundAfter frozen result self.new }
        ensures keeps { Keeps self.old self.new }
        ensures asked { IsAsked result self.new }
        ensures knows { (names : ℕ → Bool) → KnowsScene names self.old.scene → KnowsTokens (known_by names self.old.scene) back → KnowsAfter names result self.new }
        ensures holds { HoldsOn self.old self.new }
    {
        match self.scene.put(back) {
            Ok(()) => self.restarts(),
            Err(_) => Tick::Memory,
        }
    }

    /// Main control begins again.
    pub(crate) fn restarts(&mut self) -> Tick
        requires empty { self.old.frames ≡ [] }
        ensures leads { (frozen : Map BoxNode) (g : Ground) → IsGround g self.old.scene → Leads (ControlComes g frozen (private.Again) self.old) g frozen result self.new }
        ensures sound { (frozen : Map BoxNode) → IsSound frozen self.old.scene.environment → IsSoundAfter frozen result self.new }
        ensures keeps { Keeps self.old self.new }
        ensures asked { IsAsked result self.new }
        ensures knows { (names : ℕ → Bool) → KnowsScene names self.old.scene → KnowsAfter names result self.new }
        ensures holds { HoldsOn self.old self.new }
    {
        self.doing = Doing::Restarts;
        Tick::Went
    }
}

/// The table of the letters that a text is changed to.
fn table_of(letters: Letters) -> CodeTable
    ensures { table_in result ≡ letters_table letters }
{
    match letters {
        Letters::Lower => CodeTable::LowerCases,
        Letters::Upper => CodeTable::UpperCases,
    }
}

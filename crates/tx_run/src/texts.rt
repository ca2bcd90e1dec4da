//! Texts that are printed, and told or put in front.

ghost use Rattle.std.specs.Prelude.{ℕ, Bool, ◌<◌, None, IfOk, ◌≡◌, List, Some, OnErr, length};
ghost use Rattle.tx_input.specs.Worlds.{AllKnown};
ghost use Rattle.tx_describe.specs.Descriptions.{Knows, wants};
ghost use Rattle.tx_frames.specs.Knowledge.{KnowsTokens, KnowsSense, KnowsPrint};
ghost use Rattle.tx_scene.specs.Knowledge.{KnowsScene};
ghost use Rattle.tx_run.specs.Knowledge.{known_by, KnowsFormat, KnowsStart, KnowsOpen, KnowsAfter, Holds};
ghost use Rattle.std.specs.List.{AllByRecursion};
ghost use Rattle.tx_node.specs.declared.BoxNode.{BoxNode};
ghost use Rattle.tx_eqtb.specs.Meanings.{Map, meanings};
ghost use Rattle.tx_format.specs.Formats.{list_at};
ghost use Rattle.tx_private.specs.Errors.{decimal_of, showing};
ghost use Rattle.tx_private.specs.World.{put_in_front};
ghost use Rattle.tx_private.specs.Readings as private;
ghost use Rattle.tx_private.specs.Described.{meaning_text, roman};
ghost use Rattle.tx_private.specs.Texts.{tokens_of, quantity_text as text_of_quantity};
ghost use Rattle.tx_opens.specs.Opens.{Open, Comes};
ghost use Rattle.tx_views.specs.Views.{View, all_viewed};
ghost use Rattle.tx_views.specs.Meanings.{sense_in};
ghost use Rattle.tx_environment.specs.Soundness.{IsSound};
ghost use Rattle.tx_frames.specs.Answers.{printed};
ghost use Rattle.tx_scene.specs.Scenes.{Ground, IsGround, world};
ghost use Rattle.tx_run.specs.declared.doing.Doing.TheVariants as doing;
ghost use Rattle.tx_run.specs.Readings.{kind_of, Waits};
ghost use Rattle.tx_run.specs.Doings.{used};
ghost use Rattle.tx_run.specs.Runs.{opens, AnyComes, ComesTold, Does, Leads, LeadsFor, IsSoundAfter, IsAsked, Keeps};

use crate::doing::{Doing, Start, Told, Use};
use crate::frames::Frames;
use crate::op::{Op, Tick};
use crate::run::Run;
use std::alloc::{AllocError, Global};
use tx_describe::{
    Description, Progress, Wanted, decimal_text, quantity_text, roman_text, text_tokens,
};
use tx_format::Format;
use tx_frames::Print;
use tx_num::{ErrorNo, Quant};
use tx_prims::primitives::IntegerParameter;
use tx_tok::Toks;
use tx_views::Sense;

/// The name of the job.
const JOB_NAME: &[u8] = b"texd";

impl Run {
    /// A list was copied, and the reading that began so uses it.
    pub(crate) fn copied(
        &mut self,
        begun: Start,
        how: Use,
        tokens: Result<Toks, AllocError>,
    ) -> Tick
        requires waits { AllByRecursion Waits self.old.frames }
        ensures copied { (frozen : Map BoxNode) (g : Ground) → IsGround g self.old.scene → IfOk tokens (λ copy. Leads (AnyComes g frozen (kind_of g.view begun) (opens g.view self.old) (used how (all_viewed g.view copy)) self.old) g frozen result self.new) }
        ensures memory { OnErr tokens (result ≡ Tick.Memory) }
        ensures sound { (frozen : Map BoxNode) → IsSound frozen self.old.scene.environment → IsSoundAfter frozen result self.new }
        ensures keeps { Keeps self.old self.new }
        ensures asked { self.old.fallen ≡ None → IsAsked result self.new }
        ensures knows { (names : ℕ → Bool) → KnowsScene names self.old.scene → KnowsOpen (known_by names self.old.scene) self.old.frames self.old.command → KnowsStart (known_by names self.old.scene) begun → IfOk tokens (λ copy. KnowsTokens (known_by names self.old.scene) copy) → KnowsAfter names result self.new }
        ensures holds { Holds self.old self.new }
    {
        match tokens {
            Ok(tokens) => {
                self.doing = Doing::Copies(begun, how, tokens);
                Tick::Went
            }
            Err(_) => Tick::Memory,
        }
    }

    /// A text is put in front, and the reading that began so begins again.
    pub(crate) fn prints(&mut self, format: &Format, begun: Start, print: Print) -> Tick
        requires sound { IsSound (meanings format.now.frozen) self.old.scene.environment }
        requires waits { AllByRecursion Waits self.old.frames }
        ensures leads { LeadsFor format.now (λ g. AnyComes g (meanings format.now.frozen) (kind_of g.view begun) (opens g.view self.old) (λ w. private.Again (put_in_front (tokens_of (printed g.view print w)) w)) self.old) self.old.scene result self.new }
        ensures sound { IsSoundAfter (meanings format.now.frozen) result self.new }
        ensures keeps { Keeps self.old self.new }
        ensures asked { self.old.fallen ≡ None → IsAsked result self.new }
        ensures knows { (names : ℕ → Bool) → KnowsScene names self.old.scene → KnowsOpen (known_by names self.old.scene) self.old.frames self.old.command → KnowsStart (known_by names self.old.scene) begun → KnowsPrint (known_by names self.old.scene) print → KnowsAfter names result self.new }
        ensures holds { Holds self.old self.new }
    {
        let alloc = self.scene.alloc;
        match print {
            Print::Token(token) => {
                let escape = self
                    .scene
                    .integer(format.frozen(), IntegerParameter::EscapeChar);
                self.doing = Doing::Prints(begun, Description::token(alloc, token, escape));
                Tick::Went
            }
            Print::Meaning(sense) => {
                let escape = self
                    .scene
                    .integer(format.frozen(), IntegerParameter::EscapeChar);
                self.doing = Doing::Prints(begun, Description::meaning(alloc, sense, escape));
                Tick::Went
            }
            Print::Number(number) => {
                let tokens = number_tokens(alloc, number);
                self.copied(begun, Use::Front, tokens)
            }
            Print::Roman(number) => {
                let tokens = roman_tokens(alloc, number);
                self.copied(begun, Use::Front, tokens)
            }
            Print::JobName => {
                let tokens = text_tokens(alloc, JOB_NAME);
                self.copied(begun, Use::Front, tokens)
            }
        }
    }

    /// The region ends by the error of this number, which shows what something means.
    pub(crate) fn describes(&mut self, format: &Format, no: u8, sense: Sense) -> Tick
        requires sound { IsSound (meanings format.now.frozen) self.old.scene.environment }
        requires waits { AllByRecursion Waits self.old.frames }
        ensures leads { LeadsFor format.now (λ g r. (o : Open) (around : List Open) (depth : ℕ) → Comes o around (private.Bad (showing no 0 (meaning_text (world g (meanings format.now.frozen) depth self.old.scene).environment (sense_in g.view sense))) (world g (meanings format.now.frozen) depth self.old.scene)) r) self.old.scene result self.new }
        ensures sound { IsSoundAfter (meanings format.now.frozen) result self.new }
        ensures keeps { Keeps self.old self.new }
        ensures asked { self.old.fallen ≡ None → IsAsked result self.new }
        ensures knows { (names : ℕ → Bool) → KnowsScene names self.old.scene → KnowsSense (known_by names self.old.scene) sense → KnowsAfter names result self.new }
        ensures holds { Holds self.old self.new }
    {
        let escape = self
            .scene
            .integer(format.frozen(), IntegerParameter::EscapeChar);
        let error = ErrorNo {
            no,
            case: 0,
            value: 0,
        };
        let description = Description::meaning(self.scene.alloc, sense, escape);
        self.doing = Doing::Tells(Told::Error(error), description);
        Tick::Went
    }

    /// The content of a list of the format.
    pub(crate) fn frozen_list(&self, format: &Format, place: u32) -> Result<Toks, AllocError>
        ensures list { IfOk result (λ tokens. (tokens ≡ list_at format.now.lists place) × (place < length format.now.lists)) }
        ensures knows { (names : ℕ → Bool) → KnowsFormat names format.now → IfOk result (λ copy. AllKnown names copy) }
    {
        match format.get_list(place) {
            Some(list) => Ok(Toks(list.to_vec(self.scene.alloc)?)),
            // None of the lists that are in use is missing.
            None => Err(AllocError),
        }
    }

    /// One step of the printing of a text whose tokens are put in front.
    pub(crate) fn printing(
        &mut self,
        format: &Format,
        begun: Start,
        description: Description,
    ) -> Tick
        requires sound { IsSound (meanings format.now.frozen) self.old.scene.environment }
        requires waits { AllByRecursion Waits self.old.frames }
        ensures leads { LeadsFor format.now (λ g. Does g (meanings format.now.frozen) (doing.Prints begun description) self.old) self.old.scene result self.new }
        ensures sound { IsSoundAfter (meanings format.now.frozen) result self.new }
        ensures keeps { Keeps self.old self.new }
        ensures asked { self.old.fallen ≡ None → IsAsked result self.new }
        ensures knows { (names : ℕ → Bool) → KnowsFormat names format.now → KnowsScene names self.old.scene → KnowsOpen (known_by names self.old.scene) self.old.frames self.old.command → KnowsStart (known_by names self.old.scene) begun → Knows names (known_by names self.old.scene).list description → KnowsAfter names result self.new }
        ensures holds { Holds self.old self.new }
    {
        let mut description = description;
        match description.go() {
            Progress::Went => {
                self.doing = Doing::Prints(begun, description);
                Tick::Went
            }
            Progress::Wants(wanted) => self.wants_to_print(format, begun, description, wanted),
            Progress::Done => {
                let text = description.into_text();
                let tokens = text_tokens(self.scene.alloc, text.as_slice());
                self.copied(begun, Use::Front, tokens)
            }
            Progress::Memory => Tick::Memory,
        }
    }

    /// Something has to be given before the text can be printed on: it is asked for, or it is a list of the format.
    fn wants_to_print(
        &mut self,
        format: &Format,
        begun: Start,
        description: Description,
        wanted: Wanted,
    ) -> Tick
        requires sound { IsSound (meanings format.now.frozen) self.old.scene.environment }
        requires waits { AllByRecursion Waits self.old.frames }
        requires wants { wants description ≡ Some wanted }
        ensures leads { LeadsFor format.now (λ g. Does g (meanings format.now.frozen) (doing.Prints begun description) self.old) self.old.scene result self.new }
        ensures sound { IsSoundAfter (meanings format.now.frozen) result self.new }
        ensures keeps { Keeps self.old self.new }
        ensures asked { self.old.fallen ≡ None → IsAsked result self.new }
        ensures knows { (names : ℕ → Bool) → KnowsFormat names format.now → KnowsScene names self.old.scene → KnowsOpen (known_by names self.old.scene) self.old.frames self.old.command → KnowsStart (known_by names self.old.scene) begun → Knows names (known_by names self.old.scene).list description → KnowsAfter names result self.new }
        ensures holds { Holds self.old self.new }
    {
        let mut description = description;
        match wanted {
            Wanted::Text(number) => {
                self.doing = Doing::Prints(begun, description);
                Tick::Ask(Op::Text(number))
            }
            Wanted::Content(id) => {
                self.doing = Doing::Prints(begun, description);
                Tick::Ask(Op::Read(id))
            }
            Wanted::Frozen(place) => match self.frozen_list(format, place) {
                Ok(tokens) => {
                    description.content(tokens);
                    self.doing = Doing::Prints(begun, description);
                    Tick::Went
                }
                Err(_) => Tick::Memory,
            },
        }
    }

    /// One step of the printing of a text that is told.
    pub(crate) fn telling(&mut self, format: &Format, told: Told, description: Description) -> Tick
        requires sound { IsSound (meanings format.now.frozen) self.old.scene.environment }
        requires waits { AllByRecursion Waits self.old.frames }
        ensures leads { LeadsFor format.now (λ g. Does g (meanings format.now.frozen) (doing.Tells told description) self.old) self.old.scene result self.new }
        ensures sound { IsSoundAfter (meanings format.now.frozen) result self.new }
        ensures keeps { Keeps self.old self.new }
        ensures asked { self.old.fallen ≡ None → IsAsked result self.new }
        ensures knows { (names : ℕ → Bool) → KnowsFormat names format.now → KnowsScene names self.old.scene → Knows names (known_by names self.old.scene).list description → KnowsAfter names result self.new }
        ensures holds { Holds self.old self.new }
    {
        let mut description = description;
        match description.go() {
            Progress::Went => {
                self.doing = Doing::Tells(told, description);
                Tick::Went
            }
            Progress::Wants(wanted) => self.wants_to_tell(format, told, description, wanted),
            Progress::Done => {
                let text = description.into_text();
                self.tell(format, told, text.as_slice())
            }
            Progress::Memory => Tick::Memory,
        }
    }

    /// The same of a text that is told.
    fn wants_to_tell(
        &mut self,
        format: &Format,
        told: Told,
        description: Description,
        wanted: Wanted,
    ) -> Tick
        requires sound { IsSound (meanings format.now.frozen) self.old.scene.environment }
        requires waits { AllByRecursion Waits self.old.frames }
        requires wants { wants description ≡ Some wanted }
        ensures leads { LeadsFor format.now (λ g. Does g (meanings format.now.frozen) (doing.Tells told description) self.old) self.old.scene result self.new }
        ensures sound { IsSoundAfter (meanings format.now.frozen) result self.new }
        ensures keeps { Keeps self.old self.new }
        ensures asked { self.old.fallen ≡ None → IsAsked result self.new }
        ensures knows { (names : ℕ → Bool) → KnowsFormat names format.now → KnowsScene names self.old.scene → Knows names (known_by names self.old.scene).list description → KnowsAfter names result self.new }
        ensures holds { Holds self.old self.new }
    {
        let mut description = description;
        match wanted {
            Wanted::Text(number) => {
                self.doing = Doing::Tells(told, description);
                Tick::Ask(Op::Text(number))
            }
            Wanted::Content(id) => {
                self.doing = Doing::Tells(told, description);
                Tick::Ask(Op::Read(id))
            }
            Wanted::Frozen(place) => match self.frozen_list(format, place) {
                Ok(tokens) => {
                    description.content(tokens);
                    self.doing = Doing::Tells(told, description);
                    Tick::Went
                }
                Err(_) => Tick::Memory,
            },
        }
    }

    /// A text is told: as a line of the log, behind which main control begins again with no reading open, or by an error.
    fn tell(&mut self, format: &Format, told: Told, text: &[u8]) -> Tick
        requires sound { IsSound (meanings format.now.frozen) self.old.scene.environment }
        requires waits { AllByRecursion Waits self.old.frames }
        ensures leads { LeadsFor format.now (λ g. ComesTold g (meanings format.now.frozen) told text.now self.old) self.old.scene result self.new }
        ensures sound { IsSoundAfter (meanings format.now.frozen) result self.new }
        ensures keeps { Keeps self.old self.new }
        ensures asked { self.old.fallen ≡ None → IsAsked result self.new }
        ensures knows { (names : ℕ → Bool) → KnowsScene names self.old.scene → KnowsAfter names result self.new }
        ensures holds { Holds self.old self.new }
    {
        match told {
            Told::Log => match self.scene.tell(format.frozen(), text) {
                Ok(()) => {
                    self.frames = Frames::new(self.scene.alloc);
                    self.doing = Doing::Restarts;
                    Tick::Went
                }
                Err(_) => Tick::Memory,
            },
            Told::Error(number) => self.fail(format, number, text),
        }
    }
}

/// The tokens of what `\the` gives of a quantity. The only error is want of memory.
pub(crate) fn quantity_tokens(alloc: Global, quantity: Quant) -> Result<Toks, AllocError>
    ensures { IfOk result (λ tokens. (view : View) → all_viewed view tokens ≡ tokens_of (text_of_quantity quantity)) }
{
    let text = quantity_text(alloc, quantity)?;
    text_tokens(alloc, text.as_slice())
}

/// The tokens of a number in decimal. The only error is want of memory.
fn number_tokens(alloc: Global, number: i32) -> Result<Toks, AllocError>
    ensures { IfOk result (λ tokens. (view : View) → all_viewed view tokens ≡ tokens_of (decimal_of number)) }
{
    let text = decimal_text(alloc, number)?;
    text_tokens(alloc, text.as_slice())
}

/// The tokens of a number in Roman numerals. The only error is want of memory.
fn roman_tokens(alloc: Global, number: i32) -> Result<Toks, AllocError>
    ensures { IfOk result (λ tokens. (view : View) → all_viewed view tokens ≡ tokens_of (roman number)) }
{
    let text = roman_text(alloc, number)?;
    text_tokens(alloc, text.as_slice())
}

//! Answers of readings, carried out.

ghost use Rattle.std.specs.Prelude.{ℕ, Bool, None, ◌≡◌};
ghost use Rattle.tx_frames.specs.Knowledge.{KnowsTokens, KnowsFrame, KnowsValue, KnowsAnswer};
ghost use Rattle.tx_scene.specs.Knowledge.{KnowsScene};
ghost use Rattle.tx_run.specs.Knowledge.{known_by, KnowsFormat, KnowsStart, KnowsOpen, KnowsAfter, Holds};
ghost use Rattle.std.specs.List.{AllByRecursion};
ghost use Rattle.tx_node.specs.declared.BoxNode.{BoxNode};
ghost use Rattle.tx_eqtb.specs.Meanings.{Map, meanings};
ghost use Rattle.tx_private.specs.World.{put_in_front};
ghost use Rattle.tx_private.specs.Readings as private;
ghost use Rattle.tx_opens.specs.Opens.{Open, Comes};
ghost use Rattle.tx_views.specs.Views.{all_viewed};
ghost use Rattle.tx_environment.specs.Soundness.{IsSound};
ghost use Rattle.tx_frames.specs.Values.{value_in};
ghost use Rattle.tx_frames.specs.Kinds.{wished};
ghost use Rattle.tx_frames.specs.Frames.{wish_of, open_of};
ghost use Rattle.tx_scene.specs.Scenes.{Ground, IsGround, world};
ghost use Rattle.tx_run.specs.Readings.{kind_of, start_of as start_of_frame, Waits};
ghost use Rattle.tx_run.specs.Doings.{used};
ghost use Rattle.tx_run.specs.Runs.{opens, world_in, AnyComes, CarriesOut, Leads, FailsLawfully, IsSoundAfter, Keeps, IsAsked};

use crate::doing::{Doing, Start, Use};
use crate::op::Tick;
use crate::run::Run;
use tx_format::Format;
use tx_frames::{Answer, Frame, Value};
use tx_tok::Toks;

impl Run {
    /// Carries out the answer of a reading that began so, and that was within those that are open now.
    pub(crate) fn carry(&mut self, format: &Format, begun: Start, answer: Answer) -> Tick
        requires sound { IsSound (meanings format.now.frozen) self.old.scene.environment }
        requires waits { AllByRecursion Waits self.old.frames }
        ensures carries { CarriesOut format.now begun answer self.old result self.new }
        ensures fails { FailsLawfully format.now self.old.scene result self.new }
        ensures sound { IsSoundAfter (meanings format.now.frozen) result self.new }
        ensures keeps { Keeps self.old self.new }
        ensures asked { self.old.fallen ≡ None → IsAsked result self.new }
        ensures knows { (names : ℕ → Bool) → KnowsFormat names format.now → KnowsScene names self.old.scene → KnowsOpen (known_by names self.old.scene) self.old.frames self.old.command → KnowsStart (known_by names self.old.scene) begun → KnowsAnswer (known_by names self.old.scene) answer → KnowsAfter names result self.new }
        ensures holds { Holds self.old self.new }
    {
        match answer {
            Answer::Goes(frame, back) => self.goes(frame, back),
            Answer::Again(back) => self.again(begun, back),
            Answer::Done(value, back) => self.ends(value, back),
            Answer::Wrong(error) => self.refuse(format, error),
            Answer::Works(work) => self.works(format, begun, work),
            Answer::Memory => Tick::Memory,
        }
    }

    /// A reading goes on, behind these tokens.
    fn goes(&mut self, frame: Frame, back: Toks) -> Tick
        requires waits { AllByRecursion Waits self.old.frames }
        ensures goes { (frozen : Map BoxNode) (g : Ground) → IsGround g self.old.scene → Leads (Comes (open_of g.view frame) (opens g.view self.old) (wished g.view (wish_of frame) (put_in_front (all_viewed g.view back) (world_in g frozen (kind_of g.view (start_of_frame frame)) (opens g.view self.old) self.old)))) g frozen result self.new }
        ensures sound { (frozen : Map BoxNode) → IsSound frozen self.old.scene.environment → IsSoundAfter frozen result self.new }
        ensures keeps { Keeps self.old self.new }
        ensures asked { self.old.fallen ≡ None → IsAsked result self.new }
        ensures knows { (names : ℕ → Bool) → KnowsScene names self.old.scene → KnowsOpen (known_by names self.old.scene) self.old.frames self.old.command → KnowsFrame (known_by names self.old.scene) frame → KnowsTokens (known_by names self.old.scene) back → KnowsAfter names result self.new }
        ensures holds { Holds self.old self.new }
    {
        if self.scene.put(back).is_err() || self.frames.push(frame).is_err() {
            return Tick::Memory;
        }
        self.doing = Doing::Wishes;
        Tick::Went
    }

    /// A reading begins again, behind these tokens.
    pub(crate) fn again(&mut self, begun: Start, back: Toks) -> Tick
        requires waits { AllByRecursion Waits self.old.frames }
        ensures again { (frozen : Map BoxNode) (g : Ground) → IsGround g self.old.scene → Leads (AnyComes g frozen (kind_of g.view begun) (opens g.view self.old) (λ w. private.Again (put_in_front (all_viewed g.view back) w)) self.old) g frozen result self.new }
        ensures sound { (frozen : Map BoxNode) → IsSound frozen self.old.scene.environment → IsSoundAfter frozen result self.new }
        ensures keeps { Keeps self.old self.new }
        ensures asked { self.old.fallen ≡ None → IsAsked result self.new }
        ensures knows { (names : ℕ → Bool) → KnowsScene names self.old.scene → KnowsOpen (known_by names self.old.scene) self.old.frames self.old.command → KnowsStart (known_by names self.old.scene) begun → KnowsTokens (known_by names self.old.scene) back → KnowsAfter names result self.new }
        ensures holds { Holds self.old self.new }
    {
        if self.scene.put(back).is_err() {
            return Tick::Memory;
        }
        self.doing = Doing::Begins(begun);
        Tick::Went
    }

    /// A reading ends with a value, behind these tokens.
    fn ends(&mut self, value: Value, back: Toks) -> Tick
        requires waits { AllByRecursion Waits self.old.frames }
        ensures ends { (frozen : Map BoxNode) (g : Ground) → IsGround g self.old.scene → Leads (λ r. (o : Open) (depth : ℕ) → Comes o (opens g.view self.old) (private.Done (value_in g.view value) (put_in_front (all_viewed g.view back) (world g frozen depth self.old.scene))) r) g frozen result self.new }
        ensures sound { (frozen : Map BoxNode) → IsSound frozen self.old.scene.environment → IsSoundAfter frozen result self.new }
        ensures keeps { Keeps self.old self.new }
        ensures asked { self.old.fallen ≡ None → IsAsked result self.new }
        ensures knows { (names : ℕ → Bool) → KnowsScene names self.old.scene → KnowsOpen (known_by names self.old.scene) self.old.frames self.old.command → KnowsValue (known_by names self.old.scene) value → KnowsTokens (known_by names self.old.scene) back → KnowsAfter names result self.new }
        ensures holds { Holds self.old self.new }
    {
        if self.scene.put(back).is_err() {
            return Tick::Memory;
        }
        self.doing = Doing::Gives(value);
        Tick::Went
    }

    /// The reading that began so uses a list that was copied.
    pub(crate) fn uses(&mut self, begun: Start, how: Use, tokens: Toks) -> Tick
        requires waits { AllByRecursion Waits self.old.frames }
        ensures leads { (frozen : Map BoxNode) (g : Ground) → IsGround g self.old.scene → Leads (AnyComes g frozen (kind_of g.view begun) (opens g.view self.old) (used how (all_viewed g.view tokens)) self.old) g frozen result self.new }
        ensures sound { (frozen : Map BoxNode) → IsSound frozen self.old.scene.environment → IsSoundAfter frozen result self.new }
        ensures keeps { Keeps self.old self.new }
        ensures asked { self.old.fallen ≡ None → IsAsked result self.new }
        ensures knows { (names : ℕ → Bool) → KnowsScene names self.old.scene → KnowsOpen (known_by names self.old.scene) self.old.frames self.old.command → KnowsStart (known_by names self.old.scene) begun → KnowsTokens (known_by names self.old.scene) tokens → KnowsAfter names result self.new }
        ensures holds { Holds self.old self.new }
    {
        match how {
            Use::Value => {
                self.doing = Doing::Gives(Value::Tokens(tokens));
                Tick::Went
            }
            Use::Front => self.again(begun, tokens),
        }
    }
}

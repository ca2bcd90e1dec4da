//! The innermost reading's wish for its next item, and the readings that begin.

ghost use Rattle.std.specs.Prelude.{ℕ, Bool, None, ◌≡◌, [], false};
ghost use Rattle.tx_frames.specs.Knowledge.{Known, KnowsReading, KnowsWish};
ghost use Rattle.tx_scene.specs.Knowledge.{KnowsScene};
ghost use Rattle.tx_run.specs.Knowledge.{known_by, KnowsFormat, KnowsStart, KnowsOpen, KnowsAfter, Holds};
ghost use Rattle.std.specs.List.{AllByRecursion};
ghost use Rattle.tx_node.specs.declared.BoxNode.{BoxNode};
ghost use Rattle.tx_eqtb.specs.Meanings.{Map, meanings};
ghost use Rattle.tx_private.specs.World.{is_overfull};
ghost use Rattle.tx_private.specs.Readings as private;
ghost use Rattle.tx_private.specs.Moves.{move_in};
ghost use Rattle.tx_opens.specs.Opens.{begun, Comes};
ghost use Rattle.tx_environment.specs.Soundness.{IsSound};
ghost use Rattle.tx_scene.specs.Scenes.{Ground, world};
ghost use Rattle.tx_run.specs.declared.doing.Doing.TheVariants as doing;
ghost use Rattle.tx_run.specs.Readings.{kind_of, innermost, outer, wish_in, taking, behind, waiting, Waits, Takes};
ghost use Rattle.tx_run.specs.Runs.{opens, world_now, world_in, Does, LeadsFor, IsSoundAfter, Keeps, IsAsked};

use crate::doing::{Doing, Start, Taker};
use crate::frames::counts;
use crate::op::{Op, Tick};
use crate::run::{MOST_MOVES, Run};
use tx_commands::start;
use tx_format::Format;
use tx_frames::{Reading, Wish, begin};
use tx_input::Taken;

/// How many readings that count may be open, one within another.
const DEEPEST: usize = 500;

impl Run {
    /// The innermost reading takes its next item.
    pub(crate) fn wishes(&mut self, format: &Format) -> Tick
        requires sound { IsSound (meanings format.now.frozen) self.old.scene.environment }
        requires waits { AllByRecursion Waits (waiting Taker.Innermost self.old.frames) }
        ensures leads { LeadsFor format.now (λ g. Does g (meanings format.now.frozen) doing.Wishes self.old) self.old.scene result self.new }
        ensures sound { IsSoundAfter (meanings format.now.frozen) result self.new }
        ensures keeps { Keeps self.old self.new }
        ensures asked { self.old.fallen ≡ None → IsAsked result self.new }
        ensures knows { (names : ℕ → Bool) → KnowsFormat names format.now → KnowsScene names self.old.scene → KnowsOpen (known_by names self.old.scene) self.old.frames self.old.command → KnowsAfter names result self.new }
        ensures holds { Holds self.old self.new }
    {
        if self.scene.is_overfull() {
            return self.overfull(format);
        }
        match self.wish() {
            Wish::Plain => self.take(format, Taker::Innermost),
            Wish::Expanded(text) => self.expands(format, text),
            Wish::Within(reading) => self.within(format, &reading),
        }
    }

    /// How the innermost reading takes its next item.
    fn wish(&self) -> Wish
        ensures wishes { result ≡ wish_in self.now.frames self.now.command }
        ensures knows { (known : Known) → KnowsOpen known self.now.frames self.now.command → KnowsWish known result }
    {
        match self.frames.last() {
            Some(frame) => frame.wish(),
            None => self.command.wish(),
        }
    }

    /// A reading begins.
    pub(crate) fn begins(&mut self, format: &Format, begun: Start) -> Tick
        requires sound { IsSound (meanings format.now.frozen) self.old.scene.environment }
        requires waits { AllByRecursion Waits self.old.frames }
        ensures leads { LeadsFor format.now (λ g. Does g (meanings format.now.frozen) (doing.Begins begun) self.old) self.old.scene result self.new }
        ensures sound { IsSoundAfter (meanings format.now.frozen) result self.new }
        ensures keeps { Keeps self.old self.new }
        ensures asked { self.old.fallen ≡ None → IsAsked result self.new }
        ensures knows { (names : ℕ → Bool) → KnowsFormat names format.now → KnowsScene names self.old.scene → KnowsOpen (known_by names self.old.scene) self.old.frames self.old.command → KnowsStart (known_by names self.old.scene) begun → KnowsAfter names result self.new }
        ensures holds { Holds self.old self.new }
    {
        if self.scene.is_overfull() {
            return self.overfull(format);
        }
        match begun {
            Start::Expanded(text) => self.take(format, Taker::Expanded(text)),
            Start::Within(reading) => self.open(format, &reading),
        }
    }

    /// Main control begins again, with a command of its own.
    pub(crate) fn control(&mut self, format: &Format) -> Tick
        requires sound { IsSound (meanings format.now.frozen) self.old.scene.environment }
        requires empty { self.old.frames ≡ [] }
        ensures leads { LeadsFor format.now (λ g. Does g (meanings format.now.frozen) doing.Restarts self.old) self.old.scene result self.new }
        ensures sound { IsSoundAfter (meanings format.now.frozen) result self.new }
        ensures keeps { Keeps self.old self.new }
        ensures asked { self.old.fallen ≡ None → IsAsked result self.new }
        ensures knows { (names : ℕ → Bool) → KnowsFormat names format.now → KnowsScene names self.old.scene → KnowsAfter names result self.new }
        ensures holds { Holds self.old self.new }
    {
        if self.scene.is_overfull() {
            return self.overfull(format);
        }
        self.command = start();
        self.wishes(format)
    }

    /// An expanded token is read within the innermost reading, where no more readings that count are open than may be.
    fn expands(&mut self, format: &Format, text: bool) -> Tick
        requires sound { IsSound (meanings format.now.frozen) self.old.scene.environment }
        requires waits { AllByRecursion Waits self.old.frames }
        requires room { (g : Ground) (frozen : Map BoxNode) (depth : ℕ) → is_overfull (world g frozen depth self.old.scene) ≡ false }
        ensures leads { LeadsFor format.now (λ g. Comes (innermost g.view self.old.frames self.old.command) (outer g.view self.old.frames self.old.command) (private.Sub (kind_of g.view (Start.Expanded text)) (world_now g (meanings format.now.frozen) self.old))) self.old.scene result self.new }
        ensures sound { IsSoundAfter (meanings format.now.frozen) result self.new }
        ensures keeps { Keeps self.old self.new }
        ensures asked { self.old.fallen ≡ None → IsAsked result self.new }
        ensures knows { (names : ℕ → Bool) → KnowsFormat names format.now → KnowsScene names self.old.scene → KnowsOpen (known_by names self.old.scene) self.old.frames self.old.command → KnowsAfter names result self.new }
        ensures holds { Holds self.old self.new }
    {
        if self.frames.depth() > DEEPEST {
            return self.error(format, 57, 6, 0);
        }
        self.take(format, Taker::Expanded(text))
    }

    /// A reading begins within the innermost one, where one more may be open.
    fn within(&mut self, format: &Format, reading: &Reading) -> Tick
        requires sound { IsSound (meanings format.now.frozen) self.old.scene.environment }
        requires waits { AllByRecursion Waits self.old.frames }
        requires room { (g : Ground) (frozen : Map BoxNode) (depth : ℕ) → is_overfull (world g frozen depth self.old.scene) ≡ false }
        ensures leads { LeadsFor format.now (λ g. Comes (innermost g.view self.old.frames self.old.command) (outer g.view self.old.frames self.old.command) (private.Sub (kind_of g.view (Start.Within reading.now)) (world_now g (meanings format.now.frozen) self.old))) self.old.scene result self.new }
        ensures sound { IsSoundAfter (meanings format.now.frozen) result self.new }
        ensures keeps { Keeps self.old self.new }
        ensures asked { self.old.fallen ≡ None → IsAsked result self.new }
        ensures knows { (names : ℕ → Bool) → KnowsFormat names format.now → KnowsScene names self.old.scene → KnowsOpen (known_by names self.old.scene) self.old.frames self.old.command → KnowsReading (known_by names self.old.scene) reading.now → KnowsAfter names result self.new }
        ensures holds { Holds self.old self.new }
    {
        let weight = counts(Start::Within(*reading));
        if self.frames.depth().saturating_add(weight) > DEEPEST {
            return self.error(format, 57, 6, 0);
        }
        self.open(format, reading)
    }

    /// A reading begins within the innermost one.
    fn open(&mut self, format: &Format, reading: &Reading) -> Tick
        requires sound { IsSound (meanings format.now.frozen) self.old.scene.environment }
        requires waits { AllByRecursion Waits self.old.frames }
        ensures leads { LeadsFor format.now (λ g. Comes (begun (kind_of g.view (Start.Within reading.now))) (opens g.view self.old) (move_in (kind_of g.view (Start.Within reading.now)) [] (world_in g (meanings format.now.frozen) (kind_of g.view (Start.Within reading.now)) (opens g.view self.old) self.old))) self.old.scene result self.new }
        ensures sound { IsSoundAfter (meanings format.now.frozen) result self.new }
        ensures keeps { Keeps self.old self.new }
        ensures asked { self.old.fallen ≡ None → IsAsked result self.new }
        ensures knows { (names : ℕ → Bool) → KnowsFormat names format.now → KnowsScene names self.old.scene → KnowsOpen (known_by names self.old.scene) self.old.frames self.old.command → KnowsReading (known_by names self.old.scene) reading.now → KnowsAfter names result self.new }
        ensures holds { Holds self.old self.new }
    {
        let answer = begin(self.scene.alloc, *reading);
        self.carry(format, Start::Within(*reading), answer)
    }

    /// Takes the next token.
    fn take(&mut self, format: &Format, taker: Taker) -> Tick
        requires sound { IsSound (meanings format.now.frozen) self.old.scene.environment }
        requires plain { Takes taker self.old.frames }
        requires waits { AllByRecursion Waits (waiting taker self.old.frames) }
        requires room { (g : Ground) (frozen : Map BoxNode) (depth : ℕ) → is_overfull (world g frozen depth self.old.scene) ≡ false }
        ensures leads { LeadsFor format.now (λ g. Comes (taking g.view taker self.old.frames self.old.command) (behind g.view taker self.old.frames self.old.command) (private.Take (world_now g (meanings format.now.frozen) self.old))) self.old.scene result self.new }
        ensures sound { IsSoundAfter (meanings format.now.frozen) result self.new }
        ensures keeps { Keeps self.old self.new }
        ensures asked { self.old.fallen ≡ None → IsAsked result self.new }
        ensures knows { (names : ℕ → Bool) → KnowsFormat names format.now → KnowsScene names self.old.scene → KnowsOpen (known_by names self.old.scene) self.old.frames self.old.command → KnowsAfter names result self.new }
        ensures holds { Holds self.old self.new }
    {
        match self.scene.take(format.frozen()) {
            Taken::Token(token) => {
                self.moves = MOST_MOVES;
                self.took(format, taker, token)
            }
            Taken::Name => {
                self.moves = MOST_MOVES;
                self.doing = Doing::Finds(taker);
                Tick::Ask(Op::Find)
            }
            Taken::End => self.ended(format, taker),
            Taken::Spent => Tick::Spent,
            Taken::Invalid => self.error(format, 2, 0, 0),
            Taken::Memory => Tick::Memory,
        }
    }
}

//! A run of a region.

ghost use Rattle.std.specs.Prelude.{ℕ, Bool, ◌<◌, ◌+◌, None, ◌≡◌, [], IfSome, IfNone};
ghost use Rattle.tx_node.specs.declared.BoxNode.{BoxNode};
ghost use Rattle.tx_private.specs.Reads.{Result};
ghost use Rattle.tx_environment.specs.Soundness.{IsPresent};
ghost use Rattle.tx_environment.specs.Steps.{IsOutermost};
ghost use Rattle.tx_scene.specs.Scenes.{Ground, state_in};
ghost use Rattle.tx_scene.specs.Changes.{KeepsGround};
ghost use Rattle.tx_scene.specs.Knowledge.{KnowsScene, references};
ghost use Rattle.tx_run.specs.Knowledge.{counts_as, hands, held_by, IsEmptyHanded, KnowsFormat, KnowsRun, KnowsAfter};
ghost use Rattle.tx_eqtb.specs.Meanings.{Map, meanings};
ghost use Rattle.tx_run.specs.declared.doing.Doing.TheVariants as doing;
ghost use Rattle.tx_run.specs.Runs.{Means, ComesFrom, LeadsFor, IsSoundFor, IsSoundAfter, AreWaiting, Keeps, IsAsked, IsGoing, left};

use crate::doing::Doing;
use crate::frames::Frames;
use crate::op::{Op, Tick};
use crate::senses::pooled;
use std::mem;
use tx_bytes::Bytes;
use tx_commands::{Command, start};
use tx_format::Format;
use tx_scene::Scene;

/// How many ticks may come before the next token is taken.
pub(crate) const MOST_MOVES: u32 = u32::MAX;

/// A region that runs: main control's command, the readings that are open within it, and what is about to be done.
#[derive(Drop)]
pub struct Run {
    pub scene: Scene,
    pub(crate) command: Command,
    pub(crate) frames: Frames,
    pub(crate) doing: Doing,
    /// A list that has fallen away and is still held.
    pub(crate) fallen: Option<u64>,
    /// How many ticks may come before the next token is taken.
    pub(crate) moves: u32,
}

impl Run {
    /// A run that begins with this scene.
    pub fn new(scene: Scene) -> Self
        ensures scene { result.scene ≡ scene }
        ensures doing { result.doing ≡ doing.Wishes }
        ensures frames { result.frames ≡ [] }
        ensures fallen { result.fallen ≡ None }
        ensures knows { (names : ℕ → Bool) → KnowsScene names scene → KnowsRun names result }
        ensures holds { (id : ℕ) → held_by id result ≡ references id scene }
    {
        let frames = Frames::new(scene.alloc);
        Run {
            scene,
            command: start(),
            frames,
            doing: Doing::Wishes,
            fallen: None,
            moves: MOST_MOVES,
        }
    }

    /// Begins a region of this text with this budget of steps, outside of all groups, where nothing is in hand. *TeX: The
    /// Program*, part 46.
    pub fn begin(&mut self, text: Bytes, budget: u32)
        requires journal { self.old.scene.environment.table.journal ≡ [] }
        requires outermost { IsOutermost self.old.scene.environment }
        requires empty { IsEmptyHanded self.old }
        ensures means { (g : Ground) (frozen : Map BoxNode) (r : Result) → Means g frozen self.new r → ComesFrom (state_in g frozen self.old.scene) self.old.scene.preamble text budget r }
        ensures ground { KeepsGround self.old.scene self.new.scene }
        ensures sound { (frozen : Map BoxNode) → IsPresent frozen self.old.scene.environment → IsSoundFor frozen self.new.doing self.new.scene }
        ensures waits { AreWaiting self.new.doing self.new.frames }
        ensures environment { self.new.scene.environment ≡ record self.old.scene.environment { first = self.old.scene.environment.cats } }
        ensures names { self.new.scene.input.names ≡ self.old.scene.input.names }
        ensures knows { (names : ℕ → Bool) → KnowsScene names self.old.scene → KnowsRun names self.new }
        ensures holds { (id : ℕ) → held_by id self.new ≡ held_by id self.old }
    {
        self.scene.begin(text, budget);
        self.command = start();
        self.frames = Frames::new(self.scene.alloc);
        self.doing = Doing::Wishes;
        self.moves = MOST_MOVES;
    }

    /// Hands out a list that a region's end leaves in hand: what has fallen away, or that of a meaning that was to be
    /// assigned. None comes exactly where nothing is in hand. The region goes on no more.
    pub fn falls(&mut self) -> Option<u64>
        ensures scene { self.new.scene ≡ self.old.scene }
        ensures holds { (id : ℕ) → held_by id self.new + counts_as id result ≡ held_by id self.old }
        ensures fewer { IfSome result (λ id. hands self.new < hands self.old) }
        ensures empty { IfNone result (IsEmptyHanded self.new) }
    {
        if let Some(id) = self.fallen.take() {
            return Some(id);
        }
        match mem::replace(&mut self.doing, Doing::NoMemory) {
            Doing::Assigns(_, _, meaning) => pooled(&meaning),
            _ => None,
        }
    }

    /// Goes on by one step of the work. Where it asks for an operation, that is to be answered before the next tick. A
    /// tick takes one token at the most. The error that ends a region is the definitions'; `Spent` comes exactly where
    /// a token is there and no step is left. *TeX: The Program*, part 46.
    pub fn tick(&mut self, format: &Format) -> Tick
        requires sound { IsSoundFor (meanings format.now.frozen) self.old.doing self.old.scene }
        requires waits { AreWaiting self.old.doing self.old.frames }
        ensures leads { LeadsFor format.now (λ g. Means g (meanings format.now.frozen) self.old) self.old.scene result self.new }
        ensures sound { IsSoundAfter (meanings format.now.frozen) result self.new }
        ensures keeps { Keeps self.old self.new }
        ensures fewer { IsGoing result → left self.new < left self.old }
        ensures asked { IsAsked result self.new }
        ensures knows { (names : ℕ → Bool) → KnowsFormat names format.now → KnowsRun names self.old → KnowsAfter names result self.new }
        ensures holds { (id : ℕ) → held_by id self.new ≡ held_by id self.old }
    {
        if self.moves == 0 {
            return Tick::Memory;
        }
        self.moves -= 1;
        match self.fallen {
            Some(id) => Tick::Ask(Op::Release(id)),
            None => self.go(format),
        }
    }

    /// Goes on with what is about to be done.
    fn go(&mut self, format: &Format) -> Tick
        requires sound { IsSoundFor (meanings format.now.frozen) self.old.doing self.old.scene }
        requires waits { AreWaiting self.old.doing self.old.frames }
        requires fallen { self.old.fallen ≡ None }
        ensures leads { LeadsFor format.now (λ g. Means g (meanings format.now.frozen) self.old) self.old.scene result self.new }
        ensures sound { IsSoundAfter (meanings format.now.frozen) result self.new }
        ensures keeps { Keeps self.old self.new }
        ensures asked { IsAsked result self.new }
        ensures knows { (names : ℕ → Bool) → KnowsFormat names format.now → KnowsRun names self.old → KnowsAfter names result self.new }
        ensures holds { (id : ℕ) → held_by id self.new ≡ held_by id self.old }
    {
        match mem::replace(&mut self.doing, Doing::NoMemory) {
            Doing::Wishes => self.wishes(format),
            Doing::Restarts => self.control(format),
            Doing::Begins(begun) => self.begins(format, begun),
            Doing::Gives(value) => self.gives(format, value),
            Doing::GivesList(list) => self.gives_list(format, list),
            Doing::Full(limit) => self.full(format, limit),
            Doing::Took(taker, token) => self.took(format, taker, token),
            Doing::Lettered(token, letter) => self.given(format, token, letter),
            Doing::Copies(begun, how, tokens) => self.uses(begun, how, tokens),
            Doing::Prints(begun, description) => self.printing(format, begun, description),
            Doing::Tells(told, description) => self.telling(format, told, description),
            Doing::Assigns(prefixes, place, meaning) => {
                self.assigns(format, prefixes, place, meaning)
            }
            Doing::Closes => self.closes(),
            Doing::Straightens => self.straightens(),
            Doing::NoMemory => Tick::Memory,
            Doing::Finds(taker) => self.asks(Doing::Finds(taker), Op::Find),
            Doing::Interns(taker) => self.asks(Doing::Interns(taker), Op::Intern),
            Doing::Letter(number) => self.asks(Doing::Letter(number), Op::Text(number)),
            Doing::Reads(begun, how, id) => self.asks(Doing::Reads(begun, how, id), Op::Read(id)),
            Doing::Shares(prefixes, place, stored, tokens) => self.asks(
                Doing::Shares(prefixes, place, stored, tokens),
                Op::Share,
            ),
            Doing::Takes(prefixes, place, meaning, id) => self.asks(
                Doing::Takes(prefixes, place, meaning, id),
                Op::Take(id),
            ),
        }
    }

    /// Asks for an operation, by which this goes on.
    fn asks(&mut self, doing: Doing, operation: Op) -> Tick
        ensures becomes { self.new ≡ record self.old { doing = doing } }
        ensures asks { result ≡ Tick.Ask operation }
    {
        self.doing = doing;
        Tick::Ask(operation)
    }
}

//! A region that runs, tick by tick.

ghost use Rattle.std.specs.Prelude.{◌≡◌, ◌≢◌, ◌+◌, ◌≤◌, ◌∷◌, [], IfOk, OnOk};
ghost use Rattle.tx_model.specs.Environment.{Map};
ghost use Rattle.tx_model.specs.World.{failure};
ghost use Rattle.tx_model.specs.Reads.{Failed};
ghost use Rattle.tx_model.specs.Region.{outcome_of};
ghost use Rattle.tx_names.specs.Names.{Naming, Extends};
ghost use Rattle.tx_gullet.specs.Meanings.{IsKnown, KnowsMeaning};
ghost use Rattle.tx_gullet.specs.Levels.{levels, HasCells, KeepsBefore};
ghost use Rattle.tx_gullet.specs.Scenes.{world_of};
ghost use Rattle.tx_gullet.specs.Frames.{KnowsItem, KnowsAnswer, IsSoundAfter, ComesAtEnd, wish_of};
ghost use Rattle.tx_gullet.specs.Outcomes.{region_outcome, IsGivenBack};
ghost use Rattle.tx_gullet.specs.States.{IsAtRest, GivesBack, Answered};
ghost use Rattle.tx_gullet.specs.Runs.{IsSoundRun, IsSoundTick, AfterTick, Settles, Feeds, Took, TookAs, TookNone, Begins, ComesTo, IsKnownAfter, AfterEnd, GaveBack, state_of};

use crate::equivalents::Equivalents;
use crate::feed::{at_end, feed, give};
use crate::frame::{Answer, AtEnd, Frame, Item, Waiting, Wish};
use crate::input::Lists;
use crate::meaning::Meaning;
use crate::outcome::{Outcome, Output};
use crate::scene::{Scene, Taken};
use crate::steps::Steps;
use crate::texts::log_error;
use std::alloc::{AllocError, Global};
use std::mem;
use tx_bytes::Bytes;
use tx_model::Error;
use tx_names::NameTable;
use tx_scan::Scanner;
use tx_tok::{Log, Tok};

/// The answer of a tick.
#[derive(Clone, Copy, Debug, PartialEq, Eq)]
pub(crate) enum Tick {
    /// One token was taken, and the region goes on.
    Went,
    /// The text is used up.
    Done,
    /// An error ends the region.
    Failed(Error),
    /// A token is there, and no step is left.
    Spent,
    /// Memory was wanting.
    Memory,
}

/// A region that runs, or the rest of the last one: what readings work on, the innermost open reading and
/// those that wait for it, the latest last.
#[derive(Drop)]
pub(crate) struct Running {
    scene: Scene,
    frame: Frame,
    waiting: Vec<Waiting>,
}

impl Running {
    /// Takes one token, and does what it asks for. *TeX: The Program*, part 46.
    fn tick(&mut self) -> Tick
        requires sound { IsSoundRun self.old }
        ensures sound { IsSoundTick result self.new }
        ensures meaning { AfterTick self.old result self.new }
        ensures steps { result ≡ Tick.Went → self.new.scene.steps.spent ≡ self.old.scene.steps.spent + 1 }
        ensures within { result ≡ Tick.Went → self.new.scene.steps.spent ≤ self.new.scene.steps.budget }
        ensures budget { self.new.scene.steps.budget ≡ self.old.scene.steps.budget }
        ensures kept { KeepsBefore self.old.scene.equivalents self.new.scene.equivalents }
        ensures extends { Extends self.old.scene.names self.new.scene.names }
    {
        match self.scene.take() {
            Taken::Token(token) => self.taken(token),
            Taken::End => self.none_taken(),
            Taken::Spent => Tick::Spent,
            Taken::Invalid => Tick::Failed(Error::InvalidCharacter),
            Taken::Memory => Tick::Memory,
        }
    }

    /// Goes on with a token that was taken.
    fn taken(&mut self, token: Tok) -> Tick
        requires sound { IsSoundRun self.old }
        requires known { IsKnown self.old.scene.names token }
        ensures sound { IsSoundTick result self.new }
        ensures names { self.new.scene.names ≡ self.old.scene.names }
        ensures steps { self.new.scene.steps ≡ self.old.scene.steps }
        ensures kept { KeepsBefore self.old.scene.equivalents self.new.scene.equivalents }
        ensures took { Took token self.old result self.new }
    {
        match self.scene.equivalents.meaning_of(token) {
            Ok(meaning) => match self.frame.wish() {
                Wish::Plain => self.feed(Item::Token(token, meaning)),
                Wish::Expanded => self.expanded(token, meaning),
            },
            Err(_) => Tick::Memory,
        }
    }

    /// Goes on with a token that was taken where an expanded one is wished for. *TeX: The Program*, part 25.
    fn expanded(&mut self, token: Tok, meaning: Meaning) -> Tick
        requires sound { IsSoundRun self.old }
        requires known { IsKnown self.old.scene.names token }
        requires meaning { KnowsMeaning self.old.scene.names meaning }
        requires wish { wish_of self.old.frame ≡ Wish.Expanded }
        ensures sound { IsSoundTick result self.new }
        ensures names { self.new.scene.names ≡ self.old.scene.names }
        ensures steps { self.new.scene.steps ≡ self.old.scene.steps }
        ensures kept { KeepsBefore self.old.scene.equivalents self.new.scene.equivalents }
        ensures took { TookAs token meaning self.old result self.new }
    {
        match meaning {
            Meaning::Undefined => Tick::Failed(Error::UndefinedControlSequence),
            Meaning::Macro(list) => match self.scene.open_list(list) {
                Ok(()) => Tick::Went,
                Err(_) => Tick::Memory,
            },
            Meaning::Primitive(primitive) => {
                self.feed(Item::Expanded(token, Meaning::Primitive(primitive)))
            }
            Meaning::Character(cat, byte) => {
                self.feed(Item::Expanded(token, Meaning::Character(cat, byte)))
            }
        }
    }

    /// What comes where nothing is pending.
    fn none_taken(&self) -> Tick
        ensures ends { result ≢ Tick.Went }
        ensures took { TookNone self.now result self.now }
    {
        match at_end(&self.frame, &self.scene) {
            AtEnd::Wrong(error) => Tick::Failed(error),
            AtEnd::Done => self.control_ended(),
        }
    }

    /// What comes where main control ended: no reading may wait for it.
    fn control_ended(&self) -> Tick
        requires ended { ComesAtEnd self.now.frame AtEnd.Done self.now.scene }
        ensures ends { result ≢ Tick.Went }
        ensures took { TookNone self.now result self.now }
    {
        if self.waiting.as_slice().is_empty() {
            Tick::Done
        } else {
            Tick::Failed(Error::NotBuilt)
        }
    }

    /// Gives an item to the innermost open reading.
    fn feed(&mut self, item: Item) -> Tick
        requires sound { IsSoundRun self.old }
        requires item { KnowsItem self.old.scene.names item }
        ensures sound { IsSoundTick result self.new }
        ensures names { self.new.scene.names ≡ self.old.scene.names }
        ensures steps { self.new.scene.steps ≡ self.old.scene.steps }
        ensures kept { KeepsBefore self.old.scene.equivalents self.new.scene.equivalents }
        ensures feeds { Feeds item self.old result self.new }
    {
        let frame = mem::replace(&mut self.frame, Frame::Control);
        let answer = feed(frame, item, &mut self.scene);
        self.settle(answer)
    }

    /// Goes on by what came of an item.
    fn settle(&mut self, answer: Answer) -> Tick
        requires sound { IsSoundAfter answer self.old.scene }
        requires known { KnowsAnswer self.old.scene.names answer }
        ensures sound { IsSoundTick result self.new }
        ensures names { self.new.scene.names ≡ self.old.scene.names }
        ensures steps { self.new.scene.steps ≡ self.old.scene.steps }
        ensures kept { KeepsBefore self.old.scene.equivalents self.new.scene.equivalents }
        ensures settles { Settles answer self.old result self.new }
    {
        let mut answer = answer;
        'settling: loop {
            match answer {
                Answer::Goes(frame) => {
                    self.frame = frame;
                    return Tick::Went;
                }
                Answer::Within(waiting, frame) => {
                    match self.waiting.push(waiting) {
                        Ok(()) => {
                            self.frame = frame;
                            return Tick::Went;
                        }
                        Err(_) => return Tick::Memory,
                    }
                }
                Answer::Again => {
                    self.frame = Frame::Control;
                    return Tick::Went;
                }
                Answer::Done(tokens) => match self.waiting.pop() {
                    Some(waiting) => answer = give(waiting, tokens, &mut self.scene),
                    None => return Tick::Done,
                },
                Answer::Wrong(error) => return Tick::Failed(error),
                Answer::Memory => return Tick::Memory,
            }
        }
    }

    /// No region runs, in this state. The only error is want of memory.
    pub(crate) fn new(
        alloc: Global,
        names: NameTable,
        equivalents: Equivalents,
    ) -> Result<Self, AllocError>
        ensures { IfOk result (λ idle. state_of idle ≡ record { names = names; equivalents = equivalents }) }
    {
        Ok(Running {
            scene: Scene {
                alloc,
                names,
                equivalents,
                lists: Lists::new(alloc)?,
                scanner: Scanner::new(alloc, Bytes::new(alloc)),
                steps: Steps::new(0),
                log: Log::new(alloc),
            },
            frame: Frame::Control,
            waiting: Vec::new(alloc),
        })
    }

    /// Runs a region: a text with a budget of steps. The only error is want of memory. A region that fails or
    /// is spent, and want of memory, give the state back. *TeX: The Program*, part 46.
    pub(crate) fn run(&mut self, text: Bytes, budget: u32) -> Result<Outcome, AllocError>
        requires rest { IsAtRest (state_of self.old) }
        ensures rest { IsAtRest (state_of self.new) }
        ensures answered { IfOk result (λ outcome. Answered (state_of self.old) text budget outcome (state_of self.new)) }
        ensures given_back { IsGivenBack result → GivesBack (state_of self.old) (state_of self.new) }
    {
        self.begin(text, budget)?;
        let known = self.scene.names.len();
        match self.go() {
            Ok(outcome) => {
                self.scene.names.has_naming();
                Ok(self.end(outcome, known))
            }
            Err(error) => {
                self.give_back(known);
                Err(error)
            }
        }
    }

    /// Begins a region. The only error is want of memory.
    fn begin(&mut self, text: Bytes, budget: u32) -> Result<(), AllocError>
        requires rest { IsAtRest (state_of self.old) }
        ensures state { state_of self.new ≡ state_of self.old }
        ensures sound { OnOk result (IsSoundRun self.new) }
        ensures begins { OnOk result ((naming : Naming) (map : Map) → levels naming self.old.scene.equivalents ≡ map ∷ [] → Begins naming self.new map text budget) }
    {
        let alloc = self.scene.alloc;
        self.scene.lists = Lists::new(alloc)?;
        self.scene.scanner = Scanner::new(alloc, text);
        self.scene.steps = Steps::new(budget);
        self.scene.log = Log::new(alloc);
        self.frame = Frame::Control;
        self.waiting.clear();
        Ok(())
    }

    /// Goes on to the end of the region. The only error is want of memory.
    fn go(&mut self) -> Result<Outcome, AllocError>
        requires sound { IsSoundRun self.old }
        ensures comes { IfOk result (λ outcome. ComesTo self.old outcome self.new) }
        ensures known { IfOk result (λ outcome. IsKnownAfter outcome self.new) }
        ensures kept { KeepsBefore self.old.scene.equivalents self.new.scene.equivalents }
        ensures extends { Extends self.old.scene.names self.new.scene.names }
    {
        'ticks: loop {
            match self.tick() {
                Tick::Went => {}
                Tick::Done => return Ok(Outcome::Done(self.output())),
                Tick::Failed(error) => return self.fail(error),
                Tick::Spent => return Ok(Outcome::Spent(self.output())),
                Tick::Memory => return Err(AllocError),
            }
        }
    }

    /// Keeps what a region that is done defined, or gives back the state from before it, in which so many
    /// names were known.
    fn end(&mut self, outcome: Outcome, known: u64) -> Outcome
        requires cells { HasCells self.old.scene.equivalents }
        ensures same { result ≡ outcome }
        ensures ended { AfterEnd outcome known self.old self.new }
    {
        match outcome {
            Outcome::Done(output) => {
                self.scene.equivalents.keep();
                Outcome::Done(output)
            }
            Outcome::Fail(output) => {
                self.give_back(known);
                Outcome::Fail(output)
            }
            Outcome::Spent(output) => {
                self.give_back(known);
                Outcome::Spent(output)
            }
        }
    }

    /// Gives back the state from before a region, in which so many names were known. It takes no memory.
    fn give_back(&mut self, known: u64)
        requires cells { HasCells self.old.scene.equivalents }
        ensures { GaveBack known self.old self.new }
    {
        self.scene.equivalents.undo();
        self.scene.names.truncate(known);
    }

    /// Ends the region by an error, with the lines that say so. The only error is want of memory.
    fn fail(&mut self, error: Error) -> Result<Outcome, AllocError>
        ensures fails { IfOk result (λ outcome. (naming : Naming) → region_outcome outcome ≡ outcome_of (Failed (failure error (world_of naming self.old.scene)))) }
        ensures fail { IfOk result (λ outcome. (output : Output) × (outcome ≡ Outcome.Fail output)) }
        ensures state { state_of self.new ≡ state_of self.old }
    {
        let alloc = self.scene.alloc;
        let line = self.scene.scanner.line();
        log_error(alloc, &mut self.scene.log, error, line)?;
        Ok(Outcome::Fail(self.output()))
    }

    /// What the region has made.
    fn output(&mut self) -> Output
        ensures made { result ≡ record { steps = self.old.scene.steps.spent; pages = 0; dvi = []; log = self.old.scene.log } }
        ensures state { state_of self.new ≡ state_of self.old }
    {
        let alloc = self.scene.alloc;
        let log = mem::replace(&mut self.scene.log, Log::new(alloc));
        Output {
            steps: self.scene.steps.spent(),
            pages: 0,
            dvi: Bytes::new(alloc),
            log: Bytes(log.into_vec()),
        }
    }

    /// The state.
    pub(crate) fn into_state(self) -> (NameTable, Equivalents)
        ensures names { result.0 ≡ self.scene.names }
        ensures equivalents { result.1 ≡ self.scene.equivalents }
    {
        let Running {
            scene,
            frame: _,
            waiting: _,
        } = self;
        let Scene {
            alloc: _,
            names,
            equivalents,
            lists: _,
            scanner: _,
            steps: _,
            log: _,
        } = scene;
        (names, equivalents)
    }
}

//! Ticks of a region.

ghost use Rattle.std.specs.Prelude.{◌≡◌, ℕ, Bool, List, ◌<◌, ◌≤◌, Some};
ghost use Rattle.tx_node.specs.declared.BoxNode.{BoxNode};
ghost use Rattle.tx_eqtb.specs.Meanings.{Map, meanings};
ghost use Rattle.tx_private.specs.Region.{State};
ghost use Rattle.tx_store.specs.Sessions.{Session};
ghost use Rattle.tx_run.specs.Runs.{asked, left};
ghost use Rattle.tx_engine.specs.Standing.{IsReady, Serves, Stands};
ghost use Rattle.tx_engine.specs.Steps.{Ticks, IsGoing};

use crate::engine::{Engine, Phase};
use crate::step::{End, Step};
use tx_format::Format;
use tx_run::{Op, Tick};

/// How many references to lists a session may hold.
const MOST_REFERENCES: u32 = (1 << 28) - 1;

impl Engine {
    /// Goes on with the region by one step of the work. Where it asks for an operation, that is to be answered before the
    /// next tick. A reference more to a list than the session may hold, 2^28 - 1, counts as want of memory.
    pub fn tick(&mut self, format: &Format) -> Step
        requires phase { self.old.phase ≡ Phase.Runs }
        requires ready { IsReady (meanings format.now.frozen) self.old }
        ensures ticks { Ticks result self.new }
        ensures ready { IsReady (meanings format.now.frozen) self.new }
        ensures serves { (session : Session) → session.format ≡ format.now → Serves session self.old → Serves session self.new }
        ensures stands { (session : Session) (s : State) (preamble : Bool) (text : List ℕ) (budget : ℕ) → session.format ≡ format.now → Serves session self.old → Stands session self.old s preamble text budget → Stands session self.new s preamble text budget }
        ensures fewer { IsGoing result → left self.new.run < left self.old.run }
        ensures preamble { self.new.preamble ≡ self.old.preamble }
    {
        match self.run.tick(format) {
            Tick::Went => Step::Went,
            Tick::Ask(operation) => self.asks(operation),
            Tick::Done => self.ends(End::Done),
            Tick::Failed => self.ends(End::Failed),
            Tick::Spent => self.ends(End::Spent),
            Tick::Memory => self.ends(End::Memory),
        }
    }

    /// Asks for an operation, unless it is for a reference more than the session may hold.
    fn asks(&mut self, operation: Op) -> Step
        requires phase { self.old.phase ≡ Phase.Runs }
        requires due { asked self.old.run ≡ Some operation }
        ensures ticks { Ticks result self.new }
        ensures ready { (frozen : Map BoxNode) → IsReady frozen self.old → IsReady frozen self.new }
        ensures serves { (session : Session) → Serves session self.old → Serves session self.new }
        ensures stands { (session : Session) (s : State) (preamble : Bool) (text : List ℕ) (budget : ℕ) → Serves session self.old → Stands session self.old s preamble text budget → Stands session self.new s preamble text budget }
        ensures left { left self.new.run ≤ left self.old.run }
        ensures going { IsGoing result }
        ensures preamble { self.new.preamble ≡ self.old.preamble }
    {
        match operation {
            Op::Share | Op::Take(_) if self.references >= MOST_REFERENCES => {
                self.run.no_memory();
                Step::Went
            }
            _ => {
                self.run.knows_asked();
                Step::Ask(operation)
            }
        }
    }

    /// The region has ended so.
    fn ends(&mut self, ended: End) -> Step
        ensures becomes { self.new ≡ record self.old { phase = Phase.Drops ended } }
        ensures ended { result ≡ Step.Ended }
    {
        self.phase = Phase::Drops(ended);
        Step::Ended
    }
}

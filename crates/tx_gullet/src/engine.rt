//! The engine: the state of a session, and the regions that it runs.

ghost use Rattle.std.specs.Prelude.{◌≡◌, IfOk};
ghost use Rattle.tx_model.specs.Environment.{Map};
ghost use Rattle.tx_gullet.specs.Outcomes.{IsGivenBack};
ghost use Rattle.tx_gullet.specs.States.{IsFormat, StandsFor, GivesBack, Answered};

use crate::format::Format;
use crate::outcome::Outcome;
use crate::running::Running;
use std::alloc::{AllocError, Global};
use std::marker::Model;
use tx_bytes::Bytes;

/// The engine of a session. It has the state that the session's regions leave.
#[derive(Drop)]
pub struct Engine {
    running: Running,
}

impl Model for Engine {
    ghost use Rattle.tx_gullet.specs.States.{State, IsAtRest};
    ghost use Rattle.tx_gullet.specs.Runs.{state_of};
    ghost use Rattle.tx_gullet.specs.contracts.equivalents.Equivalents as equivalents_row;
    ghost use Rattle.std.specs.Coded.{codes};

    ghost Value = { State };

    ghost coded = { Prim.hlevel (codes, equivalents_row.the_row.coded) };

    ghost view = { λ e. state_of e.running };

    ghost invariant = { λ e. IsAtRest (state_of e.running) };
}

impl Engine {
    /// The engine of a session that begins in the format's state. The only error is want of memory.
    pub fn new(alloc: Global, format: &Format) -> Result<Engine, AllocError>
        ensures { IfOk result (λ engine. (map : Map) → IsFormat format.now map → StandsFor engine map) }
    {
        let (names, equivalents) = format.state()?;
        let running = Running::new(alloc, names, equivalents)?;
        Ok(Engine { running })
    }

    /// Runs a region: a text with a budget of steps. The only error is want of memory. A region that is done
    /// leaves what it defined outside of groups; one that fails or is spent, and want of memory, give the
    /// state back as it was. *TeX: The Program*, part 46.
    pub fn run(&mut self, text: Bytes, budget: u32) -> Result<Outcome, AllocError>
        ensures answered { IfOk result (λ outcome. Answered self.old text budget outcome self.new) }
        ensures given_back { IsGivenBack result → GivesBack self.old self.new }
    {
        self.running.run(text, budget)
    }

    /// The state that the session has, as a format. It takes no memory. *TeX: The Program*, part 50.
    pub fn freeze(self) -> Format
        ensures { result ≡ self }
    {
        let Engine { running } = self;
        let (names, equivalents) = running.into_state();
        Format::of(names, equivalents)
    }
}

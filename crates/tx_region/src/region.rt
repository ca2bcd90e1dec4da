//! One region.

ghost use Rattle.std.specs.Prelude.{◌≡◌};
ghost use Rattle.tx_model.specs.Environment.{Map};
ghost use Rattle.tx_gullet.specs.States.{StandsFor, GivesBack};
ghost use Rattle.tx_region.specs.Regions.{Answered, IsDone};

use std::alloc::Global;
use tx_bytes::Bytes;
use tx_gullet::{Engine, Outcome, Output};
use tx_proto::{Body, Reply, Request};

/// Runs a region from the session's state, and gives the reply. DONE keeps the state that the region
/// leaves; after FAIL, SPENT and MEMORY, which says that memory was wanting, the state is the one from
/// before the region, names included.
pub fn run_region(alloc: Global, engine: &mut Engine, request: &Request) -> Reply
    ensures answered { (map : Map) → StandsFor engine.old map → Answered request.now map engine.new result }
    ensures given_back { (IsDone result → ⊥) → GivesBack engine.old engine.new }
{
    let Ok(text) = Bytes::from_slice(alloc, request.text.as_slice()) else {
        return Reply::Memory;
    };
    match engine.run(text, request.budget) {
        Ok(Outcome::Done(output)) => Reply::Done(body(output)),
        Ok(Outcome::Fail(output)) => Reply::Fail(body(output)),
        Ok(Outcome::Spent(output)) => Reply::Spent(body(output)),
        Err(_) => Reply::Memory,
    }
}

/// What a region made, as the reply has it.
fn body(output: Output) -> Body
    ensures { result ≡ record { steps = output.steps; pages = output.pages; dvi = output.dvi; log = output.log } }
{
    let Output {
        steps,
        pages,
        dvi,
        log,
    } = output;
    Body {
        steps,
        pages,
        dvi,
        log,
    }
}

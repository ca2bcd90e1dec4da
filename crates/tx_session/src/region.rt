//! One region.

ghost use Rattle.std.specs.Prelude.{◌≡◌, ℕ, Bool, List};
ghost use Rattle.tx_eqtb.specs.Meanings.{meanings};
ghost use Rattle.tx_private.specs.Region.{State};
ghost use Rattle.tx_engine.specs.Standing.{IsReady, Serves, Stands, Rests, Answered};
ghost use Rattle.tx_engine.specs.Steps.{IsEnding};
ghost use Rattle.tx_session.specs.Replies.{GoesOn, RestsAs};

use crate::answer::answers;
use tx_bytes::Bytes;
use tx_engine::{Back, End, Engine, Phase, Step};
use tx_format::Format;
use tx_private::laws::one_outcome;
use tx_store::Store;

/// Runs a region of this text with this budget of steps over a store. It ends as the definitions' region does from the
/// session's state, and leaves their state; or memory was wanting, and the state is the one from before it. In each case
/// the store's row is what the state holds, and nothing is in hand.
pub fn run_region<S: Store>(
    rt: &S::Rt,
    store: &mut S,
    format: &Format,
    engine: &mut Engine,
    text: Bytes,
    budget: u32,
) -> End
    requires format { (S.session store.old).format ≡ format.now }
    requires phase { engine.old.phase ≡ Phase.Idle }
    requires ready { IsReady (meanings format.now.frozen) engine.old }
    requires serves { Serves (S.session store.old) engine.old }
    ensures format { (S.session store.new).format ≡ format.now }
    ensures phase { engine.new.phase ≡ Phase.Idle }
    ensures ready { IsReady (meanings format.now.frozen) engine.new }
    ensures serves { Serves (S.session store.new) engine.new }
    ensures preamble { engine.new.preamble ≡ engine.old.preamble }
    ensures answered { (s : State) → Rests (S.session store.old) engine.old s → Answered (S.session store.new) engine.new result s engine.old.preamble text budget }
    ensures rests { (s : State) → Rests (S.session store.old) engine.old s → RestsAs (S.session store.new) engine.new result }
{
    one_outcome();
    engine.begin(text, budget);
    goes(rt, store, format, engine);
    settles(rt, store, engine)
}

/// The region goes on to its end.
fn goes<S: Store>(rt: &S::Rt, store: &mut S, format: &Format, engine: &mut Engine)
    requires format { (S.session store.old).format ≡ format.now }
    requires phase { engine.old.phase ≡ Phase.Runs }
    requires ready { IsReady (meanings format.now.frozen) engine.old }
    requires serves { Serves (S.session store.old) engine.old }
    ensures format { (S.session store.new).format ≡ format.now }
    ensures phase { IsEnding engine.new.phase }
    ensures ready { IsReady (meanings format.now.frozen) engine.new }
    ensures serves { Serves (S.session store.new) engine.new }
    ensures preamble { engine.new.preamble ≡ engine.old.preamble }
    ensures stands { GoesOn (S.session store.old) engine.old (S.session store.new) engine.new }
{
    'ticks: loop {
        match engine.tick(format) {
            Step::Went => {}
            Step::Ask(operation) => answers(rt, store, engine, operation),
            Step::Ended => return,
        }
    }
}

/// What comes behind it is done.
fn settles<S: Store>(rt: &S::Rt, store: &mut S, engine: &mut Engine) -> End
    requires phase { IsEnding engine.old.phase }
    requires ready { IsReady (meanings (S.session store.old).format.frozen) engine.old }
    requires serves { Serves (S.session store.old) engine.old }
    ensures format { (S.session store.new).format ≡ (S.session store.old).format }
    ensures phase { engine.new.phase ≡ Phase.Idle }
    ensures ready { IsReady (meanings (S.session store.new).format.frozen) engine.new }
    ensures serves { Serves (S.session store.new) engine.new }
    ensures preamble { engine.new.preamble ≡ engine.old.preamble }
    ensures answered { (s : State) (preamble : Bool) (text : List ℕ) (budget : ℕ) → Stands (S.session store.old) engine.old s preamble text budget → Answered (S.session store.new) engine.new result s preamble text budget }
{
    'steps: loop {
        match engine.back() {
            Back::Went => {}
            Back::Releases(id) => {
                store.release(rt, id);
                store.is_sound();
            }
            Back::Rests(ended) => return ended,
        }
    }
}

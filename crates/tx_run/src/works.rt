//! The last things that readings do.

ghost use Rattle.std.specs.Prelude.{ℕ, Bool, None, ◌≡◌, List};
ghost use Rattle.tx_frames.specs.Knowledge.{KnowsList, KnowsWork};
ghost use Rattle.tx_scene.specs.Knowledge.{KnowsScene};
ghost use Rattle.tx_run.specs.Knowledge.{known_by, KnowsFormat, KnowsStart, KnowsOpen, KnowsAfter, Holds};
ghost use Rattle.std.specs.List.{AllByRecursion};
ghost use Rattle.tx_eqtb.specs.Meanings.{meanings};
ghost use Rattle.tx_model.specs.Tokens.{Token};
ghost use Rattle.tx_private.specs.World.{World};
ghost use Rattle.tx_private.specs.Expansions.{gives_tokens};
ghost use Rattle.tx_views.specs.Views.{list_in};
ghost use Rattle.tx_environment.specs.Soundness.{IsSound};
ghost use Rattle.tx_frames.specs.Answers.{move_of as work_move};
ghost use Rattle.tx_run.specs.Readings.{kind_of, Waits};
ghost use Rattle.tx_run.specs.Doings.{used};
ghost use Rattle.tx_run.specs.Runs.{opens, AnyComes, LeadsFor, IsSoundAfter, IsAsked, Keeps};

use crate::doing::{Doing, Start, Use};
use crate::op::{Op, Tick};
use crate::run::Run;
use crate::texts::quantity_tokens;
use tx_format::Format;
use tx_frames::{Value, Work};
use tx_tok::{ListRef, Toks};

impl Run {
    /// Does the last thing of a reading that began so, and that was within those that are open now.
    pub(crate) fn works(&mut self, format: &Format, begun: Start, work: Work) -> Tick
        requires sound { IsSound (meanings format.now.frozen) self.old.scene.environment }
        requires waits { AllByRecursion Waits self.old.frames }
        ensures leads { LeadsFor format.now (λ g. AnyComes g (meanings format.now.frozen) (kind_of g.view begun) (opens g.view self.old) (work_move g.view work) self.old) self.old.scene result self.new }
        ensures sound { IsSoundAfter (meanings format.now.frozen) result self.new }
        ensures keeps { Keeps self.old self.new }
        ensures asked { self.old.fallen ≡ None → IsAsked result self.new }
        ensures knows { (names : ℕ → Bool) → KnowsFormat names format.now → KnowsScene names self.old.scene → KnowsOpen (known_by names self.old.scene) self.old.frames self.old.command → KnowsStart (known_by names self.old.scene) begun → KnowsWork (known_by names self.old.scene) work → KnowsAfter names result self.new }
        ensures holds { Holds self.old self.new }
    {
        match work {
            Work::Amount(place) => {
                let quantity = self.scene.quantity(format.frozen(), place);
                self.doing = Doing::Gives(Value::Amount(quantity));
                Tick::Went
            }
            Work::ListAt(place) => {
                self.doing = Doing::GivesList(self.scene.list(format.frozen(), place));
                Tick::Went
            }
            Work::TheList(text, place) => {
                let list = self.scene.list(format.frozen(), place);
                self.copies(format, begun, use_in(text), list)
            }
            Work::TheAmount(text, quantity) => {
                let tokens = quantity_tokens(self.scene.alloc, quantity);
                self.copied(begun, use_in(text), tokens)
            }
            Work::Body(list) => self.copies(format, begun, Use::Front, list),
            Work::Print(print) => self.prints(format, begun, print),
            Work::Store(tokens) => self.stores(format, tokens),
            Work::NoQuantity(sense) => self.describes(format, 21, sense),
        }
    }

    /// A list is read, and used by the reading that began so.
    pub(crate) fn copies(&mut self, format: &Format, begun: Start, how: Use, list: ListRef) -> Tick
        requires sound { IsSound (meanings format.now.frozen) self.old.scene.environment }
        requires waits { AllByRecursion Waits self.old.frames }
        ensures leads { LeadsFor format.now (λ g. AnyComes g (meanings format.now.frozen) (kind_of g.view begun) (opens g.view self.old) (used how (list_in g.view list)) self.old) self.old.scene result self.new }
        ensures sound { IsSoundAfter (meanings format.now.frozen) result self.new }
        ensures keeps { Keeps self.old self.new }
        ensures asked { self.old.fallen ≡ None → IsAsked result self.new }
        ensures knows { (names : ℕ → Bool) → KnowsFormat names format.now → KnowsScene names self.old.scene → KnowsOpen (known_by names self.old.scene) self.old.frames self.old.command → KnowsStart (known_by names self.old.scene) begun → KnowsList (known_by names self.old.scene) list → KnowsAfter names result self.new }
        ensures holds { Holds self.old self.new }
    {
        match list {
            ListRef::Empty => {
                let tokens = Toks::new(self.scene.alloc);
                self.copied(begun, how, Ok(tokens))
            }
            ListRef::Frozen(place) => {
                let tokens = self.frozen_list(format, place);
                self.copied(begun, how, tokens)
            }
            ListRef::Pooled(id) => {
                self.doing = Doing::Reads(begun, how, id);
                Tick::Ask(Op::Read(id))
            }
        }
    }
}

/// What is done with the tokens that `\the` gives, within an expanded text or not.
fn use_in(text: bool) -> Use
    ensures { (tokens : List Token) (w : World) → used result tokens w ≡ gives_tokens text tokens w }
{
    if text { Use::Value } else { Use::Front }
}

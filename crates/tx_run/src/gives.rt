//! Values for the innermost reading.

ghost use Rattle.std.specs.Prelude.{ℕ, Bool, true, None, ◌≡◌, []};
ghost use Rattle.tx_frames.specs.Knowledge.{KnowsList, KnowsValue};
ghost use Rattle.tx_scene.specs.Knowledge.{KnowsScene};
ghost use Rattle.tx_run.specs.Knowledge.{known_by, KnowsFormat, KnowsOpen, KnowsAfter, Holds};
ghost use Rattle.std.specs.List.{AllByRecursion};
ghost use Rattle.tx_eqtb.specs.Meanings.{meanings};
ghost use Rattle.tx_private.specs.Readings as private;
ghost use Rattle.tx_views.specs.Views.{list_in};
ghost use Rattle.tx_environment.specs.Soundness.{IsSound};
ghost use Rattle.tx_frames.specs.declared.frame.Wish.{Wish};
ghost use Rattle.tx_frames.specs.Values.{value_in};
ghost use Rattle.tx_run.specs.Readings.{wish_in, Waits};
ghost use Rattle.tx_run.specs.Runs.{AnyEnds, LeadsFor, IsSoundAfter, Keeps, IsAsked};

use crate::doing::{Doing, Start, Use};
use crate::frames::start_of;
use crate::op::Tick;
use crate::run::Run;
use tx_commands::{Item as CommandItem, feed as feed_command};
use tx_format::Format;
use tx_frames::{Item, Reading, Value, Wish, feed};
use tx_tok::ListRef;

impl Run {
    /// The innermost reading is given a value.
    pub(crate) fn gives(&mut self, format: &Format, value: Value) -> Tick
        requires sound { IsSound (meanings format.now.frozen) self.old.scene.environment }
        requires waits { AllByRecursion Waits self.old.frames }
        ensures leads { LeadsFor format.now (λ g. AnyEnds g (meanings format.now.frozen) (value_in g.view value) self.old) self.old.scene result self.new }
        ensures sound { IsSoundAfter (meanings format.now.frozen) result self.new }
        ensures keeps { Keeps self.old self.new }
        ensures asked { self.old.fallen ≡ None → IsAsked result self.new }
        ensures knows { (names : ℕ → Bool) → KnowsFormat names format.now → KnowsScene names self.old.scene → KnowsOpen (known_by names self.old.scene) self.old.frames self.old.command → KnowsValue (known_by names self.old.scene) value → KnowsAfter names result self.new }
        ensures holds { Holds self.old self.new }
    {
        if self.scene.is_overfull() {
            return self.overfull(format);
        }
        match self.frames.pop() {
            None => {
                let item = CommandItem::of_value(value);
                let outcome = feed_command(self.scene.alloc, self.command, item);
                self.conclude(format, outcome)
            }
            Some(frame) => {
                let begun = start_of(&frame);
                let answer = feed(self.scene.alloc, frame, Item::Given(value));
                self.carry(format, begun, answer)
            }
        }
    }

    /// The innermost reading is given the tokens of a list. An assignment takes the list itself; for any other reading it
    /// is copied.
    pub(crate) fn gives_list(&mut self, format: &Format, list: ListRef) -> Tick
        requires sound { IsSound (meanings format.now.frozen) self.old.scene.environment }
        requires waits { AllByRecursion Waits self.old.frames }
        ensures leads { LeadsFor format.now (λ g. AnyEnds g (meanings format.now.frozen) (private.Tokens (list_in g.view list)) self.old) self.old.scene result self.new }
        ensures sound { IsSoundAfter (meanings format.now.frozen) result self.new }
        ensures keeps { Keeps self.old self.new }
        ensures asked { self.old.fallen ≡ None → IsAsked result self.new }
        ensures knows { (names : ℕ → Bool) → KnowsFormat names format.now → KnowsScene names self.old.scene → KnowsOpen (known_by names self.old.scene) self.old.frames self.old.command → KnowsList (known_by names self.old.scene) list → KnowsAfter names result self.new }
        ensures holds { Holds self.old self.new }
    {
        if self.scene.is_overfull() {
            return self.overfull(format);
        }
        if self.frames.last().is_some() || !self.assigns_list() {
            return self.copies(format, Start::Within(Reading::List), Use::Value, list);
        }
        let outcome = feed_command(self.scene.alloc, self.command, CommandItem::List(list));
        self.conclude(format, outcome)
    }

    /// Whether the command wishes for the value of a list.
    fn assigns_list(&self) -> bool
        ensures list { result ≡ true → wish_in [] self.now.command ≡ Wish.Within Reading.List }
    {
        self.command.wish() == Wish::Within(Reading::List)
    }
}

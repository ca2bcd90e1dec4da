//! Assignments to places. *TeX: The Program*, sections 1224 to 1232.

ghost use Rattle.std.specs.Prelude.{◌≡◌, ◌∷◌};
ghost use Rattle.tx_private.specs.World.{World};
ghost use Rattle.tx_private.specs.Readings.{Given, Nothing};
ghost use Rattle.tx_private.specs.Assignments.{assign_at, kind_at};
ghost use Rattle.tx_views.specs.Views.{View};
ghost use Rattle.tx_views.specs.Places.{address_in};
ghost use Rattle.tx_assign.specs.Assigned.{prefixes_in};
ghost use Rattle.tx_frames.specs.Kinds.{kind_in};
ghost use Rattle.tx_frames.specs.Knowledge.{Known, KnowsPlace, KnowsReading};
ghost use Rattle.tx_commands.specs.Outcomes.{BecomesGiven, Makes};
ghost use Rattle.tx_commands.specs.Knowledge.{KnowsOutcome, KnowsGiven};

use crate::command::{Assign, Command};
use crate::effect::Effect;
use crate::item::Item;
use crate::numbered::numbered;
use crate::outcome::Outcome;
use tx_assign::{ByteError, Prefixes, ValueKind, meaning, value_kind};
use tx_eqtb::{Meaning, RegKind};
use tx_frames::Reading;
use tx_num::Quant;
use tx_views::{CodeTable, Place};

/// An assignment to a place, of which nothing more was taken.
pub(crate) fn at_place(prefixes: Prefixes, place: Place) -> Outcome
    ensures becomes { (view : View) (w : World) → Makes view (assign_at (prefixes_in prefixes) (address_in view place)) w result }
    ensures knows { (known : Known) → KnowsPlace known place → KnowsOutcome known result }
{
    Outcome::Goes(Command::Assign(prefixes, Assign::Equals(place)))
}

/// An assignment to a place, with an item more.
pub(crate) fn assign_given(prefixes: Prefixes, assign: Assign, item: Item) -> Outcome
    ensures becomes { (view : View) (w : World) → BecomesGiven view (Command.Assign prefixes assign) item w result }
    ensures knows { KnowsGiven (Command.Assign prefixes assign) item result }
{
    match assign {
        Assign::Register(kind) => register_given(prefixes, kind, item),
        Assign::Code(table) => code_given(prefixes, table, item),
        Assign::Equals(place) => equals_given(prefixes, place, item),
        Assign::Value(place, reading) => value_given(prefixes, place, reading, item),
    }
}

/// An assignment to a register, with the item that is its number.
fn register_given(prefixes: Prefixes, kind: RegKind, item: Item) -> Outcome
    ensures becomes { (view : View) (w : World) → BecomesGiven view (Command.Assign prefixes (Assign.Register kind)) item w result }
    ensures knows { KnowsGiven (Command.Assign prefixes (Assign.Register kind)) item result }
{
    match numbered(ByteError::Register, &item) {
        Ok(no) => Outcome::Goes(Command::Assign(
            prefixes,
            Assign::Equals(Place::Register(kind, u16::from(no))),
        )),
        Err(error) => Outcome::Wrong(error),
    }
}

/// An assignment to a code, with the item that is its byte.
fn code_given(prefixes: Prefixes, table: CodeTable, item: Item) -> Outcome
    ensures becomes { (view : View) (w : World) → BecomesGiven view (Command.Assign prefixes (Assign.Code table)) item w result }
    ensures knows { KnowsGiven (Command.Assign prefixes (Assign.Code table)) item result }
{
    match numbered(ByteError::Character, &item) {
        Ok(byte) => Outcome::Goes(Command::Assign(
            prefixes,
            Assign::Equals(Place::Code(table, byte)),
        )),
        Err(error) => Outcome::Wrong(error),
    }
}

/// An assignment to a place, with its equals sign or none.
fn equals_given(prefixes: Prefixes, place: Place, item: Item) -> Outcome
    ensures becomes { (view : View) (w : World) → BecomesGiven view (Command.Assign prefixes (Assign.Equals place)) item w result }
    ensures knows { KnowsGiven (Command.Assign prefixes (Assign.Equals place)) item result }
{
    match &item {
        Item::Nothing => value_due(prefixes, place),
        _ => Outcome::error(63),
    }
}

/// An assignment to a place, whose value is due.
fn value_due(prefixes: Prefixes, place: Place) -> Outcome
    ensures becomes { (view : View) (w : World) → Makes view (λ items v. assign_at (prefixes_in prefixes) (address_in view place) (Given Nothing ∷ items) v) w result }
    ensures knows { (known : Known) → KnowsPlace known place → KnowsOutcome known result }
{
    Outcome::Goes(Command::Assign(prefixes, Assign::Value(place, value_reading(place))))
}

/// How the value of a place is read.
pub(crate) fn value_reading(place: Place) -> Reading
    ensures kind { (view : View) → kind_in view result ≡ kind_at (address_in view place) }
    ensures knows { (known : Known) → KnowsReading known result }
{
    match value_kind(place) {
        ValueKind::Number => Reading::Number,
        ValueKind::Dimension => Reading::Dimension(false),
        ValueKind::Glue(mu) => Reading::Glue(mu),
        ValueKind::List => Reading::List,
    }
}

/// An assignment to a place, with the item that is the value.
fn value_given(prefixes: Prefixes, place: Place, reading: Reading, item: Item) -> Outcome
    ensures becomes { (view : View) (w : World) → BecomesGiven view (Command.Assign prefixes (Assign.Value place reading)) item w result }
    ensures knows { KnowsGiven (Command.Assign prefixes (Assign.Value place reading)) item result }
{
    let _ = reading;
    match item {
        Item::Amount(quantity) => amount_given(prefixes, place, quantity),
        Item::Tokens(tokens) => Outcome::Does(Effect::AssignTokens(prefixes, place, tokens)),
        Item::List(list) => Outcome::Does(Effect::Assign(prefixes, place, Meaning::List(list))),
        Item::Token(_, _) => Outcome::error(63),
        Item::End => Outcome::error(63),
        Item::Expanded(_, _) => Outcome::error(63),
        Item::TextEnd => Outcome::error(63),
        Item::Word(_) => Outcome::error(63),
        Item::Nothing => Outcome::error(63),
    }
}

/// An assignment of a quantity to a place.
fn amount_given(prefixes: Prefixes, place: Place, quantity: Quant) -> Outcome
    ensures becomes { (view : View) (w : World) (reading : Reading) → BecomesGiven view (Command.Assign prefixes (Assign.Value place reading)) (Item.Amount quantity) w result }
    ensures knows { (known : Known) → KnowsPlace known place → KnowsOutcome known result }
{
    match meaning(place, quantity) {
        Ok(meaning) => Outcome::Does(Effect::Assign(prefixes, place, meaning)),
        Err(error) => Outcome::Wrong(error),
    }
}

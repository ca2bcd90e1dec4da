//! `\advance`, `\multiply` and `\divide`. *TeX: The Program*, sections 1236 to 1240.

ghost use Rattle.std.specs.Prelude.{◌≡◌, ◌∷◌};
ghost use Rattle.tx_private.specs.World.{World};
ghost use Rattle.tx_private.specs.Readings.{Given, Word};
ghost use Rattle.tx_private.specs.Arithmetic.{computes, operand, target as target_in};
ghost use Rattle.tx_views.specs.Views.{View};
ghost use Rattle.tx_views.specs.Places.{address_in};
ghost use Rattle.tx_views.specs.Meanings.{sense_in};
ghost use Rattle.tx_assign.specs.Assigned.{prefixes_in};
ghost use Rattle.tx_assign.specs.Operations.{operation_in};
ghost use Rattle.tx_frames.specs.Kinds.{kind_in};
ghost use Rattle.tx_frames.specs.Knowledge.{Known, KnowsPlace, KnowsReading, KnowsSense};
ghost use Rattle.tx_commands.specs.Outcomes.{BecomesGiven, Makes};
ghost use Rattle.tx_commands.specs.Knowledge.{KnowsOutcome, KnowsGiven};

use crate::assign::value_reading;
use crate::command::{Arithmetic, Command};
use crate::effect::Effect;
use crate::item::Item;
use crate::numbered::numbered;
use crate::outcome::Outcome;
use tx_assign::{ByteError, Operation, Prefixes, Target, target};
use tx_eqtb::RegKind;
use tx_frames::Reading;
use tx_views::{Place, Sense};

/// Arithmetic, with an item more.
pub(crate) fn arithmetic_given(
    prefixes: Prefixes,
    operation: Operation,
    stage: Arithmetic,
    item: Item,
) -> Outcome
    ensures becomes { (view : View) (w : World) → BecomesGiven view (Command.Arithmetic prefixes operation stage) item w result }
    ensures knows { KnowsGiven (Command.Arithmetic prefixes operation stage) item result }
{
    match stage {
        Arithmetic::Target => target_given(prefixes, operation, item),
        Arithmetic::Register(kind) => register_given(prefixes, operation, kind, item),
        Arithmetic::By(place) => by_given(prefixes, operation, place, item),
        Arithmetic::Operand(place, word, reading) => {
            operand_given(prefixes, operation, place, word, reading, item)
        }
    }
}

/// Arithmetic, with the item that it works on.
fn target_given(prefixes: Prefixes, operation: Operation, item: Item) -> Outcome
    ensures becomes { (view : View) (w : World) → BecomesGiven view (Command.Arithmetic prefixes operation Arithmetic.Target) item w result }
    ensures knows { KnowsGiven (Command.Arithmetic prefixes operation Arithmetic.Target) item result }
{
    match &item {
        Item::Expanded(_, sense) => in_target(prefixes, operation, sense),
        _ => Outcome::error(20),
    }
}

/// Arithmetic in what means this.
fn in_target(prefixes: Prefixes, operation: Operation, sense: &Sense) -> Outcome
    ensures becomes { (view : View) (w : World) → Makes view (target_in (prefixes_in prefixes) (operation_in operation) (sense_in view sense.now)) w result }
    ensures knows { (known : Known) → KnowsSense known sense.now → KnowsOutcome known result }
{
    match target(*sense) {
        Target::Place(place) => {
            Outcome::Goes(Command::Arithmetic(prefixes, operation, Arithmetic::By(place)))
        }
        Target::Numbered(kind) => {
            Outcome::Goes(Command::Arithmetic(prefixes, operation, Arithmetic::Register(kind)))
        }
        Target::None => Outcome::Does(Effect::NoTarget(*sense)),
    }
}

/// Arithmetic in a register, with the item that is its number.
fn register_given(prefixes: Prefixes, operation: Operation, kind: RegKind, item: Item) -> Outcome
    ensures becomes { (view : View) (w : World) → BecomesGiven view (Command.Arithmetic prefixes operation (Arithmetic.Register kind)) item w result }
    ensures knows { KnowsGiven (Command.Arithmetic prefixes operation (Arithmetic.Register kind)) item result }
{
    match numbered(ByteError::Register, &item) {
        Ok(no) => Outcome::Goes(Command::Arithmetic(
            prefixes,
            operation,
            Arithmetic::By(Place::Register(kind, u16::from(no))),
        )),
        Err(error) => Outcome::Wrong(error),
    }
}

/// Arithmetic in a place, with the keyword `by` or none.
fn by_given(prefixes: Prefixes, operation: Operation, place: Place, item: Item) -> Outcome
    ensures becomes { (view : View) (w : World) → BecomesGiven view (Command.Arithmetic prefixes operation (Arithmetic.By place)) item w result }
    ensures knows { KnowsGiven (Command.Arithmetic prefixes operation (Arithmetic.By place)) item result }
{
    match &item {
        Item::Word(word) => operand_due(prefixes, operation, place, *word),
        _ => Outcome::error(63),
    }
}

/// Arithmetic in a place, whose operand is due.
fn operand_due(prefixes: Prefixes, operation: Operation, place: Place, word: u8) -> Outcome
    ensures becomes { (view : View) (w : World) → Makes view (λ items v. computes (prefixes_in prefixes) (operation_in operation) (address_in view place) (Given (Word word) ∷ items) v) w result }
    ensures knows { (known : Known) → KnowsPlace known place → KnowsOutcome known result }
{
    Outcome::Goes(Command::Arithmetic(
        prefixes,
        operation,
        Arithmetic::Operand(place, word, operand_reading(operation, place)),
    ))
}

/// How the operand is read.
fn operand_reading(operation: Operation, place: Place) -> Reading
    ensures kind { (view : View) → kind_in view result ≡ operand (operation_in operation) (address_in view place) }
    ensures knows { (known : Known) → KnowsReading known result }
{
    match operation {
        Operation::Advance => value_reading(place),
        Operation::Multiply | Operation::Divide => Reading::Number,
    }
}

/// Arithmetic in a place, with the item that is the operand.
fn operand_given(
    prefixes: Prefixes,
    operation: Operation,
    place: Place,
    word: u8,
    reading: Reading,
    item: Item,
) -> Outcome
    ensures becomes { (view : View) (w : World) → BecomesGiven view (Command.Arithmetic prefixes operation (Arithmetic.Operand place word reading)) item w result }
    ensures knows { KnowsGiven (Command.Arithmetic prefixes operation (Arithmetic.Operand place word reading)) item result }
{
    let _ = (word, reading);
    match &item {
        Item::Amount(quantity) => {
            Outcome::Does(Effect::Compute(prefixes, operation, place, *quantity))
        }
        _ => Outcome::error(63),
    }
}

//! Numbers of registers and of bytes, as items.

ghost use Rattle.std.specs.Prelude.{◌≡◌, ℕ, List, ◌∷◌};
ghost use Rattle.tx_private.specs.World.{World};
ghost use Rattle.tx_private.specs.Readings as private;
ghost use Rattle.tx_private.specs.Quantities.{byte_first};
ghost use Rattle.tx_assign.specs.Refusals.{led, number_of};
ghost use Rattle.tx_views.specs.Views.{View};
ghost use Rattle.tx_frames.specs.Values.{item_in};
ghost use Rattle.tx_frames.specs.Opened.{GivesInteger};

use crate::value::{Item, Value};
use tx_assign::{ByteError, Refused, byte};
use tx_num::{ErrorNo, Quant};

/// The error of what isn't built.
const NOT_BUILT: Refused = Refused {
    number: ErrorNo {
        no: 63,
        case: 0,
        value: 0,
    },
    limit: None,
};

/// The number of a register or of a byte, which an item gives: an integer from 0 to 255. Another integer is the error
/// of its kind, and an item that gives no integer is the error of what isn't built. *TeX: The Program*, sections 433
/// and 434.
pub fn numbered(error: ByteError, item: Item) -> Result<u8, Refused>
    ensures { (view : View) (further : ℕ → List private.Item → World → private.Move) (items : List private.Item) (w : World) → byte_first (number_of error) further (item_in view item ∷ items) w ≡ led result (λ n. further n items w) w }
{
    match item {
        Item::Given(value) => number_given(error, value),
        Item::Token(_, _) => Err(NOT_BUILT),
        Item::End => Err(NOT_BUILT),
    }
}

/// The number of a register or of a byte, which is a value.
fn number_given(error: ByteError, value: Value) -> Result<u8, Refused>
    ensures { (view : View) (further : ℕ → List private.Item → World → private.Move) (items : List private.Item) (w : World) → byte_first (number_of error) further (item_in view (Item.Given value) ∷ items) w ≡ led result (λ n. further n items w) w }
{
    match value {
        Value::Amount(quantity) => integer_given(error, quantity),
        Value::Command(_, _) => Err(NOT_BUILT),
        Value::TextEnd => Err(NOT_BUILT),
        Value::Tokens(_tokens) => Err(NOT_BUILT),
        Value::Word(_) => Err(NOT_BUILT),
        Value::Nothing => Err(NOT_BUILT),
    }
}

/// The number of a register or of a byte, which is an integer.
fn integer_given(error: ByteError, quantity: Quant) -> Result<u8, Refused>
    ensures { (view : View) (further : ℕ → List private.Item → World → private.Move) (items : List private.Item) (w : World) → byte_first (number_of error) further (item_in view (Item.Given (Value.Amount quantity)) ∷ items) w ≡ led result (λ n. further n items w) w }
{
    match quantity {
        Quant::Int(n) => byte(error, n),
        Quant::Dim(_) | Quant::Glue(_) | Quant::Mu(_) => Err(NOT_BUILT),
    }
}

/// The integer that an item gives. None comes exactly where it gives none, and then a reading that asked for a number
/// has the error of what isn't built.
pub(crate) fn integer(item: Item) -> Option<i32>
    ensures { GivesInteger item result }
{
    match item {
        Item::Given(value) => integer_in(value),
        Item::Token(_, _) => None,
        Item::End => None,
    }
}

/// The integer that a value is.
fn integer_in(value: Value) -> Option<i32>
    ensures { GivesInteger (Item.Given value) result }
{
    match value {
        Value::Amount(quantity) => integer_of(quantity),
        Value::Command(_, _) => None,
        Value::TextEnd => None,
        Value::Tokens(_tokens) => None,
        Value::Word(_) => None,
        Value::Nothing => None,
    }
}

/// The integer that a quantity is.
fn integer_of(quantity: Quant) -> Option<i32>
    ensures { GivesInteger (Item.Given (Value.Amount quantity)) result }
{
    match quantity {
        Quant::Int(n) => Some(n),
        Quant::Dim(_) | Quant::Glue(_) | Quant::Mu(_) => None,
    }
}

//! Internal quantities. *TeX: The Program*, section 413.
#![tactic(auto, unfolding(tx_private::specs::Moves::move_in))]

ghost use Rattle.std.specs.Prelude.{◌≡◌, ◌∷◌, []};
ghost use Rattle.tx_private.specs.World.{World};
ghost use Rattle.tx_private.specs.Readings as private;
ghost use Rattle.tx_private.specs.Meanings as private_meaning;
ghost use Rattle.tx_private.specs.Quantities.{byte_first, gives};
ghost use Rattle.tx_opens.specs.Opens.{Open};
ghost use Rattle.tx_views.specs.Views.{View};
ghost use Rattle.tx_views.specs.Places.{register_in, table_in};
ghost use Rattle.tx_frames.specs.Values.{command_in, item_in};
ghost use Rattle.tx_frames.specs.Answers.{Becomes, BecomesGiven, BecomesBegun};
ghost use Rattle.tx_frames.specs.Knowledge.{Known, KnowsAnswer, KnowsToken};

use crate::answer::{Answer, Work};
use crate::frame::Frame;
use crate::numbers::numbered as numbered_item;
use crate::value::{Item, Value};
use std::alloc::Global;
use tx_assign::{ByteError, codes, register};
use tx_eqtb::RegKind;
use tx_num::Quant;
use tx_prims::primitives::{Assignment, Primitive};
use tx_tok::{Tok, Toks};
use tx_views::{CodeTable, Place, Sense};

/// The quantity that begins with a token that means this.
pub(crate) fn quantity(alloc: Global, token: Tok, sense: Sense) -> Answer
    ensures becomes { (view : View) (w : World) → BecomesBegun view (private.QuantityFrom (command_in view token sense)) w result }
    ensures knows { (known : Known) → KnowsToken known token → KnowsAnswer known result }
{
    match sense {
        Sense::Code(_, code) => {
            Answer::Done(Value::Amount(Quant::Int(i32::from(code))), Toks::new(alloc))
        }
        Sense::Register(kind, no) => Answer::Works(Work::Amount(Place::Register(kind, no))),
        Sense::Primitive(primitive) => primitive_quantity(alloc, token, primitive),
        Sense::Undefined
        | Sense::Macro(_, _, _)
        | Sense::Char(_, _)
        | Sense::Int(_)
        | Sense::Dim(_)
        | Sense::Glue(_)
        | Sense::List(_) => Answer::error(63, 0, 0),
    }
}

/// The quantity that begins with a primitive.
fn primitive_quantity(alloc: Global, token: Tok, primitive: Primitive) -> Answer
    ensures becomes { (view : View) (w : World) → BecomesBegun view (private.QuantityFrom (command_in view token (Sense.Primitive primitive))) w result }
    ensures knows { (known : Known) → KnowsToken known token → KnowsAnswer known result }
{
    match primitive {
        Primitive::Assignment(assignment) => numbered(alloc, token, assignment),
        Primitive::IntegerParameter(parameter) => {
            Answer::Works(Work::Amount(Place::Integer(parameter)))
        }
        Primitive::DimensionParameter(parameter) => {
            Answer::Works(Work::Amount(Place::Dimension(parameter)))
        }
        Primitive::GlueParameter(parameter) => Answer::Works(Work::Amount(Place::Glue(parameter))),
        Primitive::Expandable(_)
        | Primitive::Command(_)
        | Primitive::Math(_)
        | Primitive::ListParameter(_) => Answer::error(63, 0, 0),
    }
}

/// The quantity that begins with a kind of register or with a table of codes, whose number is due.
fn numbered(alloc: Global, token: Tok, assignment: Assignment) -> Answer
    ensures becomes { (view : View) (w : World) → BecomesBegun view (private.QuantityFrom (command_in view token (Sense.Primitive (Primitive.Assignment assignment)))) w result }
    ensures knows { (known : Known) → KnowsToken known token → KnowsAnswer known result }
{
    match register(assignment) {
        Some(_) => Answer::Goes(Frame::Quantity(token, assignment), Toks::new(alloc)),
        None => match codes(assignment) {
            Some(_) => Answer::Goes(Frame::Quantity(token, assignment), Toks::new(alloc)),
            None => Answer::error(63, 0, 0),
        },
    }
}

/// A quantity that began with such a command, with an item more, which is its number.
pub(crate) fn quantity_given(token: Tok, assignment: Assignment, item: Item) -> Answer
    ensures becomes { (view : View) (w : World) → BecomesGiven view (Frame.Quantity token assignment) item w result }
    ensures knows { (known : Known) → KnowsAnswer known result }
{
    match register(assignment) {
        Some(kind) => register_given(kind, item),
        None => match codes(assignment) {
            Some(table) => code_given(table, item),
            None => Answer::error(63, 0, 0),
        },
    }
}

/// A register, with the item that is its number.
fn register_given(kind: RegKind, item: Item) -> Answer
    ensures becomes { (view : View) (o : Open) (w : World) → Becomes view o (byte_first 15 (λ n rest v. gives (private_meaning.OfRegister (register_in kind) n) v) (item_in view item ∷ []) w) w result }
    ensures knows { (known : Known) → KnowsAnswer known result }
{
    match numbered_item(ByteError::Register, item) {
        Ok(no) => Answer::Works(Work::Amount(Place::Register(kind, u16::from(no)))),
        Err(error) => Answer::Wrong(error),
    }
}

/// A code of a table, with the item that is its byte.
fn code_given(table: CodeTable, item: Item) -> Answer
    ensures becomes { (view : View) (o : Open) (w : World) → Becomes view o (byte_first 16 (λ b rest v. gives (private_meaning.OfCode (table_in table) b) v) (item_in view item ∷ []) w) w result }
    ensures knows { (known : Known) → KnowsAnswer known result }
{
    match numbered_item(ByteError::Character, item) {
        Ok(byte) => Answer::Works(Work::Amount(Place::Code(table, byte))),
        Err(error) => Answer::Wrong(error),
    }
}

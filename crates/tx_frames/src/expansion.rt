//! Expansion. *TeX: The Program*, parts 25 and 27.

ghost use Rattle.std.specs.Prelude.{◌≡◌, ◌∷◌, []};
ghost use Rattle.tx_private.specs.World.{World};
ghost use Rattle.tx_private.specs.Readings as private;
ghost use Rattle.tx_private.specs.Meanings as private_meaning;
ghost use Rattle.tx_opens.specs.Opens.{Open, begun, given};
ghost use Rattle.tx_private.specs.Moves.{move_in};
ghost use Rattle.tx_private.specs.Quantities.{byte_first};
ghost use Rattle.tx_private.specs.Expansions.{expansion, expandable_primitive, the_of, list_at, gives_tokens};
ghost use Rattle.tx_views.specs.Views.{View};
ghost use Rattle.tx_views.specs.Meanings.{sense_in};
ghost use Rattle.tx_frames.specs.Values.{command_in, item_in};
ghost use Rattle.tx_frames.specs.Kinds.{expanded_kind};
ghost use Rattle.tx_frames.specs.Answers.{Becomes, BecomesGiven};
ghost use Rattle.tx_frames.specs.ListPlaces.{the_quantity as the_quantity_of};
ghost use Rattle.tx_frames.specs.Opened.{the_before, expanding, primitive_open, BeginsQuantity};
ghost use Rattle.tx_frames.specs.Knowledge.{Known, KnowsAnswer, KnowsItem, KnowsSense, KnowsToken, KnowsValue};

use crate::answer::{Answer, Print, Work};
use crate::frame::{Frame, Stage};
use crate::list_place::{ListPlace, list_place};
use crate::numbers::{integer, numbered};
use crate::value::{Item, Value};
use std::alloc::Global;
use tx_amounts::begins_quantity;
use tx_assign::ByteError;
use tx_eqtb::RegKind;
use tx_prims::primitives::{Expandable, Primitive};
use tx_tok::{Tok, Toks};
use tx_views::{Place, Sense};

/// What comes of a token that was taken where an expanded one is wished for, within an expanded text or not.
pub fn expand(alloc: Global, text: bool, token: Tok, sense: Sense) -> Answer
    ensures becomes { (view : View) (w : World) → Becomes view (expanding view text token sense) (expansion text (command_in view token sense) (sense_in view sense) [] w) w result }
    ensures knows { (known : Known) → KnowsToken known token → KnowsSense known sense → KnowsAnswer known result }
{
    match sense {
        Sense::Undefined => Answer::error(1, 0, 0),
        Sense::Macro(_, protected, list) => {
            if text && protected {
                Answer::Done(Value::Command(token, sense), Toks::new(alloc))
            } else {
                Answer::Works(Work::Body(list))
            }
        }
        Sense::Primitive(primitive) => expand_any(alloc, text, token, primitive),
        Sense::Char(_, _)
        | Sense::Code(_, _)
        | Sense::Register(_, _)
        | Sense::Int(_)
        | Sense::Dim(_)
        | Sense::Glue(_)
        | Sense::List(_) => Answer::Done(Value::Command(token, sense), Toks::new(alloc)),
    }
}

/// What comes of a primitive.
fn expand_any(alloc: Global, text: bool, token: Tok, primitive: Primitive) -> Answer
    ensures becomes { (view : View) (w : World) → Becomes view (expanding view text token (Sense.Primitive primitive)) (expansion text (command_in view token (Sense.Primitive primitive)) (sense_in view (Sense.Primitive primitive)) [] w) w result }
    ensures knows { (known : Known) → KnowsToken known token → KnowsAnswer known result }
{
    match primitive {
        Primitive::Expandable(expandable) => expand_primitive(alloc, text, expandable),
        Primitive::Assignment(_)
        | Primitive::Command(_)
        | Primitive::Math(_)
        | Primitive::IntegerParameter(_)
        | Primitive::DimensionParameter(_)
        | Primitive::GlueParameter(_)
        | Primitive::ListParameter(_) => {
            Answer::Done(
                Value::Command(token, Sense::Primitive(primitive)),
                Toks::new(alloc),
            )
        }
    }
}

/// What comes of an expandable primitive.
fn expand_primitive(alloc: Global, text: bool, primitive: Expandable) -> Answer
    ensures becomes { (view : View) (w : World) → Becomes view (primitive_open text primitive) (expandable_primitive text primitive [] w) w result }
    ensures knows { (known : Known) → KnowsAnswer known result }
{
    let none = Toks::new(alloc);
    match primitive {
        Expandable::The => Answer::Goes(Frame::Expansion(text, Stage::The), none),
        Expandable::Number => Answer::Goes(Frame::Expansion(text, Stage::Number), none),
        Expandable::RomanNumeral => Answer::Goes(Frame::Expansion(text, Stage::Roman), none),
        Expandable::String => Answer::Goes(Frame::Expansion(text, Stage::String), none),
        Expandable::Meaning => Answer::Goes(Frame::Expansion(text, Stage::Meaning), none),
        Expandable::JobName => Answer::Works(Work::Print(Print::JobName)),
        _ => Answer::error(63, 0, 0),
    }
}

/// An expansion, with an item more.
pub(crate) fn expansion_given(alloc: Global, text: bool, stage: Stage, item: Item) -> Answer
    ensures becomes { (view : View) (w : World) → BecomesGiven view (Frame.Expansion text stage) item w result }
    ensures knows { (known : Known) → KnowsItem known item → KnowsAnswer known result }
{
    match stage {
        Stage::The => the_given(alloc, text, item),
        Stage::TheRegister => register_given(text, item),
        Stage::TheQuantity(token, sense) => quantity_given(text, token, sense, item),
        Stage::Number => number_given(text, item),
        Stage::Roman => roman_given(text, item),
        Stage::String => string_given(alloc, text, item),
        Stage::Meaning => meaning_given(alloc, text, item),
    }
}

/// `\the`, with the token behind it.
fn the_given(alloc: Global, text: bool, item: Item) -> Answer
    ensures becomes { (view : View) (w : World) → BecomesGiven view (Frame.Expansion text Stage.The) item w result }
    ensures knows { (known : Known) → KnowsItem known item → KnowsAnswer known result }
{
    match item {
        Item::Given(value) => the_value_given(alloc, text, value),
        Item::Token(_, _) => Answer::error(21, 0, 0),
        Item::End => Answer::error(21, 0, 0),
    }
}

/// `\the`, with the value behind it.
fn the_value_given(alloc: Global, text: bool, value: Value) -> Answer
    ensures becomes { (view : View) (w : World) → BecomesGiven view (Frame.Expansion text Stage.The) (Item.Given value) w result }
    ensures knows { (known : Known) → KnowsValue known value → KnowsAnswer known result }
{
    match value {
        Value::Command(token, sense) => the(alloc, text, token, sense),
        Value::TextEnd => Answer::error(21, 0, 0),
        Value::Tokens(_tokens) => Answer::error(21, 0, 0),
        Value::Amount(_) => Answer::error(21, 0, 0),
        Value::Word(_) => Answer::error(21, 0, 0),
        Value::Nothing => Answer::error(21, 0, 0),
    }
}

/// `\the`, before a token that means this. *TeX: The Program*, section 465.
fn the(alloc: Global, text: bool, token: Tok, sense: Sense) -> Answer
    ensures becomes { (view : View) (w : World) → Becomes view (the_before view text token sense) (the_of text (command_in view token sense) (sense_in view sense) [] w) w result }
    ensures knows { (known : Known) → KnowsToken known token → KnowsSense known sense → KnowsAnswer known result }
{
    match list_place(&sense) {
        ListPlace::At(place) => Answer::Works(Work::TheList(text, place)),
        ListPlace::Numbered => {
            Answer::Goes(Frame::Expansion(text, Stage::TheRegister), Toks::new(alloc))
        }
        ListPlace::Nowhere => the_quantity(alloc, text, token, &sense),
    }
}

/// `\the`, before a quantity, or before what it can't be used with.
fn the_quantity(alloc: Global, text: bool, token: Tok, sense: &Sense) -> Answer
    ensures goes { BeginsQuantity text token sense.now result }
    ensures knows { (known : Known) → KnowsToken known token → KnowsSense known sense.now → KnowsAnswer known result }
{
    if begins_quantity(*sense) {
        Answer::Goes(
            Frame::Expansion(text, Stage::TheQuantity(token, *sense)),
            Toks::new(alloc),
        )
    } else {
        Answer::Works(Work::NoQuantity(*sense))
    }
}

/// `\the`, before a register of `\toks`, with the item that is its number.
fn register_given(text: bool, item: Item) -> Answer
    ensures becomes { (view : View) (o : Open) (w : World) → Becomes view o (byte_first 15 (λ n rest v. gives_tokens text (list_at (private_meaning.OfRegister private_meaning.Toks n) v) v) (item_in view item ∷ []) w) w result }
    ensures knows { (known : Known) → KnowsAnswer known result }
{
    match numbered(ByteError::Register, item) {
        Ok(no) => {
            Answer::Works(Work::TheList(text, Place::Register(RegKind::Toks, u16::from(no))))
        }
        Err(error) => Answer::Wrong(error),
    }
}

/// `\the`, before the quantity that begins with a token, with the item that is the quantity.
fn quantity_given(text: bool, token: Tok, sense: Sense, item: Item) -> Answer
    ensures becomes { (view : View) (w : World) → BecomesGiven view (Frame.Expansion text (Stage.TheQuantity token sense)) item w result }
    ensures knows { (known : Known) → KnowsAnswer known result }
{
    match list_place(&sense) {
        ListPlace::At(place) => Answer::Works(Work::TheList(text, place)),
        ListPlace::Numbered => register_given(text, item),
        ListPlace::Nowhere => amount_given(text, token, sense, item),
    }
}

/// `\the`, with the item that is the quantity.
fn amount_given(text: bool, token: Tok, sense: Sense, item: Item) -> Answer
    ensures becomes { (view : View) (o : Open) (w : World) → Becomes view o (the_quantity_of text (command_in view token sense) (sense_in view sense) (item_in view item ∷ []) w) w result }
    ensures knows { (known : Known) → KnowsAnswer known result }
{
    match item {
        Item::Given(value) => amount_value_given(text, token, sense, value),
        Item::Token(_, _) => Answer::error(63, 0, 0),
        Item::End => Answer::error(63, 0, 0),
    }
}

/// `\the`, with the value that is the quantity.
fn amount_value_given(text: bool, token: Tok, sense: Sense, value: Value) -> Answer
    ensures becomes { (view : View) (o : Open) (w : World) → Becomes view o (the_quantity_of text (command_in view token sense) (sense_in view sense) (item_in view (Item.Given value) ∷ []) w) w result }
    ensures knows { (known : Known) → KnowsAnswer known result }
{
    let _ = (token, sense);
    match value {
        Value::Amount(quantity) => Answer::Works(Work::TheAmount(text, quantity)),
        Value::Command(_, _) => Answer::error(63, 0, 0),
        Value::TextEnd => Answer::error(63, 0, 0),
        Value::Tokens(_tokens) => Answer::error(63, 0, 0),
        Value::Word(_) => Answer::error(63, 0, 0),
        Value::Nothing => Answer::error(63, 0, 0),
    }
}

/// `\number`, with the item that is its number.
fn number_given(text: bool, item: Item) -> Answer
    ensures becomes { (view : View) (w : World) → BecomesGiven view (Frame.Expansion text Stage.Number) item w result }
    ensures knows { (known : Known) → KnowsAnswer known result }
{
    let _ = text;
    match integer(item) {
        Some(n) => Answer::Works(Work::Print(Print::Number(n))),
        None => Answer::error(63, 0, 0),
    }
}

/// `\romannumeral`, with the item that is its number.
fn roman_given(text: bool, item: Item) -> Answer
    ensures becomes { (view : View) (w : World) → BecomesGiven view (Frame.Expansion text Stage.Roman) item w result }
    ensures knows { (known : Known) → KnowsAnswer known result }
{
    let _ = text;
    match integer(item) {
        Some(n) => Answer::Works(Work::Print(Print::Roman(n))),
        None => Answer::error(63, 0, 0),
    }
}

/// `\string`, with the token behind it. At the end of the text it does nothing.
fn string_given(alloc: Global, text: bool, item: Item) -> Answer
    ensures becomes { (view : View) (w : World) → BecomesGiven view (Frame.Expansion text Stage.String) item w result }
    ensures knows { (known : Known) → KnowsItem known item → KnowsAnswer known result }
{
    match item {
        Item::Token(token, _) => Answer::Works(Work::Print(Print::Token(token))),
        Item::Given(_value) => Answer::Again(Toks::new(alloc)),
        Item::End => Answer::Again(Toks::new(alloc)),
    }
}

/// `\meaning`, with the token behind it. At the end of the text it does nothing.
fn meaning_given(alloc: Global, text: bool, item: Item) -> Answer
    ensures becomes { (view : View) (w : World) → BecomesGiven view (Frame.Expansion text Stage.Meaning) item w result }
    ensures knows { (known : Known) → KnowsItem known item → KnowsAnswer known result }
{
    match item {
        Item::Token(_, sense) => Answer::Works(Work::Print(Print::Meaning(sense))),
        Item::Given(_value) => Answer::Again(Toks::new(alloc)),
        Item::End => Answer::Again(Toks::new(alloc)),
    }
}

//! Values of lists. *TeX: The Program*, sections 1226 and 1227.

ghost use Rattle.std.specs.Prelude.{◌≡◌, ◌∷◌, []};
ghost use Rattle.tx_private.specs.World.{World};
ghost use Rattle.tx_private.specs.Lists.{list_from};
ghost use Rattle.tx_opens.specs.Opens.{Open, SaysSame};
ghost use Rattle.tx_views.specs.Views.{View};
ghost use Rattle.tx_views.specs.Meanings.{sense_in};
ghost use Rattle.tx_frames.specs.Answers.{Becomes, BecomesGiven};
ghost use Rattle.tx_frames.specs.ListPlaces.{braced as braced_by};
ghost use Rattle.tx_frames.specs.Opened.{behind_sense, braced_sense};
ghost use Rattle.tx_frames.specs.Knowledge.{Known, KnowsAnswer, KnowsItem, KnowsValue};

use crate::answer::{Answer, Work};
use crate::frame::{Frame, ListStage};
use crate::list_place::{ListPlace, list_place};
use crate::numbers::numbered;
use crate::simple::is_skipped;
use crate::value::{Item, Value};
use std::alloc::Global;
use tx_assign::ByteError;
use tx_eqtb::RegKind;
use tx_tok::{Cat, Tok, Toks};
use tx_views::{Place, Sense};

/// The value of a list, with an item more.
pub(crate) fn list_given(alloc: Global, stage: ListStage, item: Item) -> Answer
    ensures becomes { (view : View) (w : World) → BecomesGiven view (Frame.List stage) item w result }
    ensures knows { (known : Known) → KnowsItem known item → KnowsAnswer known result }
{
    match stage {
        ListStage::Start => first_given(alloc, item),
        ListStage::Register => register_given(item),
        ListStage::Braced(brace) => text_given(brace, item),
    }
}

/// The value of a list, with its first token.
fn first_given(alloc: Global, item: Item) -> Answer
    ensures becomes { (view : View) (w : World) → BecomesGiven view (Frame.List ListStage.Start) item w result }
    ensures knows { (known : Known) → KnowsAnswer known result }
{
    match item {
        Item::Given(value) => first_value_given(alloc, value),
        Item::Token(_, _) => Answer::error(8, 0, 0),
        Item::End => Answer::error(8, 0, 0),
    }
}

/// The value of a list, with its first value.
fn first_value_given(alloc: Global, value: Value) -> Answer
    ensures becomes { (view : View) (w : World) → BecomesGiven view (Frame.List ListStage.Start) (Item.Given value) w result }
    ensures knows { (known : Known) → KnowsAnswer known result }
{
    match value {
        Value::Command(token, sense) => first(alloc, token, sense),
        Value::TextEnd => Answer::error(8, 0, 0),
        Value::Tokens(_tokens) => Answer::error(8, 0, 0),
        Value::Amount(_) => Answer::error(8, 0, 0),
        Value::Word(_) => Answer::error(8, 0, 0),
        Value::Nothing => Answer::error(8, 0, 0),
    }
}

/// The value of a list, with a token that can't be expanded. Spaces and `\relax` are skipped.
fn first(alloc: Global, token: Tok, sense: Sense) -> Answer
    ensures becomes { (view : View) (w : World) → BecomesGiven view (Frame.List ListStage.Start) (Item.Given (Value.Command token sense)) w result }
    ensures knows { (known : Known) → KnowsAnswer known result }
{
    let _ = token;
    if is_skipped(&sense) {
        return Answer::Goes(Frame::List(ListStage::Start), Toks::new(alloc));
    }
    behind(alloc, sense)
}

/// The value of a list that begins with what means this.
fn behind(alloc: Global, sense: Sense) -> Answer
    ensures becomes { (view : View) (w : World) → Becomes view (behind_sense view sense) (list_from (sense_in view sense) [] w) w result }
    ensures knows { (known : Known) → KnowsAnswer known result }
{
    match list_place(&sense) {
        ListPlace::At(place) => Answer::Works(Work::ListAt(place)),
        ListPlace::Numbered => Answer::Goes(Frame::List(ListStage::Register), Toks::new(alloc)),
        ListPlace::Nowhere => braced(alloc, sense),
    }
}

/// A list in braces, if it begins with what means this.
fn braced(alloc: Global, sense: Sense) -> Answer
    ensures becomes { (view : View) (w : World) → Becomes view (braced_sense view sense) (braced_by (sense_in view sense) [] w) w result }
    ensures knows { (known : Known) → KnowsAnswer known result }
{
    match sense {
        Sense::Char(cat, byte) => braced_char(alloc, cat, byte),
        Sense::Undefined
        | Sense::Macro(_, _, _)
        | Sense::Primitive(_)
        | Sense::Code(_, _)
        | Sense::Register(_, _)
        | Sense::Int(_)
        | Sense::Dim(_)
        | Sense::Glue(_)
        | Sense::List(_) => Answer::error(8, 0, 0),
    }
}

/// A list in braces, if it begins with a character of this category.
fn braced_char(alloc: Global, cat: Cat, byte: u8) -> Answer
    ensures becomes { (view : View) (w : World) → Becomes view (braced_sense view (Sense.Char cat byte)) (braced_by (sense_in view (Sense.Char cat byte)) [] w) w result }
    ensures knows { (known : Known) → KnowsAnswer known result }
{
    match cat {
        Cat::Begin => Answer::Goes(Frame::List(ListStage::Braced(byte)), Toks::new(alloc)),
        _ => Answer::error(8, 0, 0),
    }
}

/// The list of a register of `\toks`, with the item that is its number.
fn register_given(item: Item) -> Answer
    ensures becomes { (view : View) (w : World) → BecomesGiven view (Frame.List ListStage.Register) item w result }
    ensures knows { (known : Known) → KnowsAnswer known result }
{
    match numbered(ByteError::Register, item) {
        Ok(no) => Answer::Works(Work::ListAt(Place::Register(RegKind::Toks, u16::from(no)))),
        Err(error) => Answer::Wrong(error),
    }
}

/// A list in braces, with the item that is the text behind its left brace.
fn text_given(brace: u8, item: Item) -> Answer
    ensures becomes { (view : View) (w : World) → BecomesGiven view (Frame.List (ListStage.Braced brace)) item w result }
    ensures knows { (known : Known) → KnowsItem known item → KnowsAnswer known result }
{
    match item {
        Item::Given(value) => text_value_given(brace, value),
        Item::Token(_, _) => Answer::error(8, 0, 0),
        Item::End => Answer::error(8, 0, 0),
    }
}

/// A list in braces, with the value that is the text behind its left brace.
fn text_value_given(brace: u8, value: Value) -> Answer
    ensures becomes { (view : View) (w : World) → BecomesGiven view (Frame.List (ListStage.Braced brace)) (Item.Given value) w result }
    ensures knows { (known : Known) → KnowsValue known value → KnowsAnswer known result }
{
    let _ = brace;
    match value {
        Value::Tokens(tokens) => Answer::Works(Work::Store(tokens)),
        Value::Command(_, _) => Answer::error(8, 0, 0),
        Value::TextEnd => Answer::error(8, 0, 0),
        Value::Amount(_) => Answer::error(8, 0, 0),
        Value::Word(_) => Answer::error(8, 0, 0),
        Value::Nothing => Answer::error(8, 0, 0),
    }
}

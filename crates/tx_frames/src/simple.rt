//! A left brace, and an equals sign.

ghost use Rattle.std.specs.Prelude.{◌≡◌};
ghost use Rattle.tx_private.specs.World.{World};
ghost use Rattle.tx_private.specs.Lists.{is_skipped as is_skipped_in, is_begin as is_begin_in, is_space as is_space_in, is_equals as is_equals_in};
ghost use Rattle.tx_views.specs.Views.{View, viewed};
ghost use Rattle.tx_views.specs.Meanings.{sense_in};
ghost use Rattle.tx_frames.specs.Answers.{BecomesGiven};
ghost use Rattle.tx_frames.specs.Knowledge.{Known, KnowsAnswer, KnowsItem, KnowsToken, KnowsValue};

use crate::answer::Answer;
use crate::frame::Frame;
use crate::value::{Item, Value};
use std::alloc::Global;
use tx_prims::primitives::{Command, Primitive};
use tx_tok::{Cat, Tok, Toks};
use tx_views::Sense;

/// Whether what means this is skipped before a left brace: spaces and `\relax`.
pub fn is_skipped(sense: &Sense) -> bool
    ensures { (view : View) → result ≡ is_skipped_in (sense_in view sense.now) }
{
    match sense {
        Sense::Char(cat, byte) => is_blank(*cat, *byte),
        Sense::Primitive(primitive) => is_relax(*primitive),
        Sense::Undefined
        | Sense::Macro(_, _, _)
        | Sense::Code(_, _)
        | Sense::Register(_, _)
        | Sense::Int(_)
        | Sense::Dim(_)
        | Sense::Glue(_)
        | Sense::List(_) => false,
    }
}

/// Whether a character is a space.
fn is_blank(cat: Cat, byte: u8) -> bool
    ensures { (view : View) → result ≡ is_skipped_in (sense_in view (Sense.Char cat byte)) }
{
    let _ = byte;
    matches!(cat, Cat::Space)
}

/// Whether a primitive is `\relax`.
fn is_relax(primitive: Primitive) -> bool
    ensures { (view : View) → result ≡ is_skipped_in (sense_in view (Sense.Primitive primitive)) }
{
    matches!(primitive, Primitive::Command(Command::Relax))
}

/// Whether what means this is a left brace.
fn is_begin(sense: &Sense) -> bool
    ensures { (view : View) → result ≡ is_begin_in (sense_in view sense.now) }
{
    matches!(sense, Sense::Char(Cat::Begin, _))
}

/// Whether what means this is a character of category space.
pub fn is_space(sense: &Sense) -> bool
    ensures { (view : View) → result ≡ is_space_in (sense_in view sense.now) }
{
    matches!(sense, Sense::Char(Cat::Space, _))
}

/// Whether a token is the character `=` of category other.
pub fn is_equals(token: Tok) -> bool
    ensures { (view : View) → result ≡ is_equals_in (viewed view token) }
{
    match token {
        Tok::Char(Cat::Other, byte) => byte == b'=',
        _ => false,
    }
}

/// A left brace, with an item more. *TeX: The Program*, section 403.
pub(crate) fn brace_given(alloc: Global, item: Item) -> Answer
    ensures becomes { (view : View) (w : World) → BecomesGiven view Frame.LeftBrace item w result }
    ensures knows { (known : Known) → KnowsAnswer known result }
{
    match item {
        Item::Given(value) => brace_value_given(alloc, value),
        Item::Token(_, _) => Answer::error(8, 0, 0),
        Item::End => Answer::error(8, 0, 0),
    }
}

/// A left brace, with a value more.
fn brace_value_given(alloc: Global, value: Value) -> Answer
    ensures becomes { (view : View) (w : World) → BecomesGiven view Frame.LeftBrace (Item.Given value) w result }
    ensures knows { (known : Known) → KnowsAnswer known result }
{
    match value {
        Value::Command(token, sense) => brace(alloc, token, sense),
        Value::TextEnd => Answer::error(8, 0, 0),
        Value::Tokens(_tokens) => Answer::error(8, 0, 0),
        Value::Amount(_) => Answer::error(8, 0, 0),
        Value::Word(_) => Answer::error(8, 0, 0),
        Value::Nothing => Answer::error(8, 0, 0),
    }
}

/// A left brace, with a token that can't be expanded.
fn brace(alloc: Global, token: Tok, sense: Sense) -> Answer
    ensures becomes { (view : View) (w : World) → BecomesGiven view Frame.LeftBrace (Item.Given (Value.Command token sense)) w result }
    ensures knows { (known : Known) → KnowsAnswer known result }
{
    let _ = token;
    if is_skipped(&sense) {
        Answer::Goes(Frame::LeftBrace, Toks::new(alloc))
    } else if is_begin(&sense) {
        Answer::Done(Value::Nothing, Toks::new(alloc))
    } else {
        Answer::error(8, 0, 0)
    }
}

/// An equals sign or none, with an item more. *TeX: The Program*, section 405.
pub(crate) fn equals_given(alloc: Global, item: Item) -> Answer
    ensures becomes { (view : View) (w : World) → BecomesGiven view Frame.Equals item w result }
    ensures knows { (known : Known) → KnowsItem known item → KnowsAnswer known result }
{
    match item {
        Item::Given(value) => equals_value_given(alloc, value),
        Item::Token(_, _) => Answer::Done(Value::Nothing, Toks::new(alloc)),
        Item::End => Answer::Done(Value::Nothing, Toks::new(alloc)),
    }
}

/// An equals sign or none, with a value more.
fn equals_value_given(alloc: Global, value: Value) -> Answer
    ensures becomes { (view : View) (w : World) → BecomesGiven view Frame.Equals (Item.Given value) w result }
    ensures knows { (known : Known) → KnowsValue known value → KnowsAnswer known result }
{
    match value {
        Value::Command(token, sense) => equals(alloc, token, sense),
        Value::TextEnd => Answer::Done(Value::Nothing, Toks::new(alloc)),
        Value::Tokens(_tokens) => Answer::Done(Value::Nothing, Toks::new(alloc)),
        Value::Amount(_) => Answer::Done(Value::Nothing, Toks::new(alloc)),
        Value::Word(_) => Answer::Done(Value::Nothing, Toks::new(alloc)),
        Value::Nothing => Answer::Done(Value::Nothing, Toks::new(alloc)),
    }
}

/// An equals sign or none, with a token that can't be expanded.
fn equals(alloc: Global, token: Tok, sense: Sense) -> Answer
    ensures becomes { (view : View) (w : World) → BecomesGiven view Frame.Equals (Item.Given (Value.Command token sense)) w result }
    ensures knows { (known : Known) → KnowsToken known token → KnowsAnswer known result }
{
    if is_space(&sense) {
        return Answer::Goes(Frame::Equals, Toks::new(alloc));
    }
    if is_equals(token) {
        return Answer::Done(Value::Nothing, Toks::new(alloc));
    }
    let mut back = Vec::new(alloc);
    match back.push(token) {
        Ok(()) => Answer::Done(Value::Nothing, Toks(back)),
        Err(_) => Answer::Memory,
    }
}

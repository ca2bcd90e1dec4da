//! Commands behind their names. *TeX: The Program*, sections 1218, 1221 and 1224.

ghost use Rattle.std.specs.Prelude.{◌≡◌, IfOk};
ghost use Rattle.tx_private.specs.World.{World};
ghost use Rattle.tx_private.specs.Meanings as meanings;
ghost use Rattle.tx_private.specs.Readings.{Move};
ghost use Rattle.tx_views.specs.Views.{View};
ghost use Rattle.tx_views.specs.Meanings.{meaning_in};
ghost use Rattle.tx_assign.specs.Refusals.{led};
ghost use Rattle.tx_frames.specs.Knowledge.{Known};
ghost use Rattle.tx_commands.specs.Commands.{checks, means};
ghost use Rattle.tx_commands.specs.Outcomes.{BecomesGiven, Suits};
ghost use Rattle.tx_commands.specs.Knowledge.{KnowsMeaning, KnowsGiven};

use crate::command::{Command, DefineStage, FutureLetStage, LetStage, Named, Stage, Standing};
use crate::effect::Effect;
use crate::item::Item;
use crate::looks::{is_equals, is_left_brace, is_space};
use crate::outcome::Outcome;
use tx_assign::{ByteError, Prefixes, Refused, byte, math_code};
use tx_eqtb::Meaning;
use tx_node::BoxNode;
use tx_num::Quant;
use tx_tok::Tok;
use tx_views::{Place, Sense};

/// A command behind its name, with an item more.
pub(crate) fn named_given(prefixes: Prefixes, place: Place, named: Named, item: Item) -> Outcome
    requires { Suits (Command.Named prefixes place named) item }
    ensures becomes { (view : View) (w : World) → BecomesGiven view (Command.Named prefixes place named) item w result }
    ensures knows { KnowsGiven (Command.Named prefixes place named) item result }
{
    match named {
        Named::Define(expands, stage) => define_given(prefixes, place, expands, stage, item),
        Named::Let(stage) => let_given(prefixes, place, stage, item),
        Named::FutureLet(stage) => future_let_given(prefixes, place, stage, item),
        Named::Stand(what, stage) => stand_given(prefixes, place, what, stage, item),
    }
}

/// A definition, with an item more.
fn define_given(
    prefixes: Prefixes,
    place: Place,
    expands: bool,
    stage: DefineStage,
    item: Item,
) -> Outcome
    requires { Suits (Command.Named prefixes place (Named.Define expands stage)) item }
    ensures becomes { (view : View) (w : World) → BecomesGiven view (Command.Named prefixes place (Named.Define expands stage)) item w result }
    ensures knows { KnowsGiven (Command.Named prefixes place (Named.Define expands stage)) item result }
{
    match stage {
        DefineStage::Brace => brace_given(prefixes, place, expands, item),
        DefineStage::Body(token, sense) => body_given(prefixes, place, expands, token, sense, item),
    }
}

/// A definition, with the item that is its left brace.
fn brace_given(prefixes: Prefixes, place: Place, expands: bool, item: Item) -> Outcome
    ensures becomes { (view : View) (w : World) → BecomesGiven view (Command.Named prefixes place (Named.Define expands DefineStage.Brace)) item w result }
    ensures knows { KnowsGiven (Command.Named prefixes place (Named.Define expands DefineStage.Brace)) item result }
{
    match &item {
        Item::Token(token, sense) => brace(prefixes, place, expands, *token, *sense),
        _ => Outcome::error(63),
    }
}

/// A definition, with the token that is its left brace.
fn brace(prefixes: Prefixes, place: Place, expands: bool, token: Tok, sense: Sense) -> Outcome
    ensures becomes { (view : View) (w : World) → BecomesGiven view (Command.Named prefixes place (Named.Define expands DefineStage.Brace)) (Item.Token token sense) w result }
    ensures knows { KnowsGiven (Command.Named prefixes place (Named.Define expands DefineStage.Brace)) (Item.Token token sense) result }
{
    if is_left_brace(token) {
        Outcome::Goes(Command::Named(
            prefixes,
            place,
            Named::Define(expands, DefineStage::Body(token, sense)),
        ))
    } else {
        Outcome::error(63)
    }
}

/// A definition, with the item that is its body.
fn body_given(
    prefixes: Prefixes,
    place: Place,
    expands: bool,
    token: Tok,
    sense: Sense,
    item: Item,
) -> Outcome
    requires { Suits (Command.Named prefixes place (Named.Define expands (DefineStage.Body token sense))) item }
    ensures becomes { (view : View) (w : World) → BecomesGiven view (Command.Named prefixes place (Named.Define expands (DefineStage.Body token sense))) item w result }
    ensures knows { KnowsGiven (Command.Named prefixes place (Named.Define expands (DefineStage.Body token sense))) item result }
{
    let _ = (expands, token, sense);
    match item {
        Item::Tokens(body) => Outcome::Does(Effect::Define(prefixes, place, body)),
        Item::List(_) => unreachable!(),
        Item::Token(_, _) => Outcome::error(63),
        Item::End => Outcome::error(63),
        Item::Expanded(_, _) => Outcome::error(63),
        Item::TextEnd => Outcome::error(63),
        Item::Amount(_) => Outcome::error(63),
        Item::Word(_) => Outcome::error(63),
        Item::Nothing => Outcome::error(63),
    }
}

/// `\let`, with an item more.
fn let_given(prefixes: Prefixes, place: Place, stage: LetStage, item: Item) -> Outcome
    ensures becomes { (view : View) (w : World) → BecomesGiven view (Command.Named prefixes place (Named.Let stage)) item w result }
    ensures knows { KnowsGiven (Command.Named prefixes place (Named.Let stage)) item result }
{
    match stage {
        LetStage::Start => let_start_given(prefixes, place, item),
        LetStage::Equals => let_equals_given(prefixes, place, item),
        LetStage::Last => let_last_given(prefixes, place, item),
    }
}

/// `\let` directly behind its name, with an item more.
fn let_start_given(prefixes: Prefixes, place: Place, item: Item) -> Outcome
    ensures becomes { (view : View) (w : World) → BecomesGiven view (Command.Named prefixes place (Named.Let LetStage.Start)) item w result }
    ensures knows { KnowsGiven (Command.Named prefixes place (Named.Let LetStage.Start)) item result }
{
    match &item {
        Item::Token(token, sense) => let_start(prefixes, place, *token, sense),
        _ => Outcome::error(24),
    }
}

/// `\let` directly behind its name, with a token more.
fn let_start(prefixes: Prefixes, place: Place, token: Tok, sense: &Sense) -> Outcome
    ensures becomes { (view : View) (w : World) → BecomesGiven view (Command.Named prefixes place (Named.Let LetStage.Start)) (Item.Token token sense.now) w result }
    ensures knows { KnowsGiven (Command.Named prefixes place (Named.Let LetStage.Start)) (Item.Token token sense.now) result }
{
    if is_space(sense) {
        Outcome::Goes(Command::Named(prefixes, place, Named::Let(LetStage::Start)))
    } else if is_equals(token) {
        Outcome::Goes(Command::Named(prefixes, place, Named::Let(LetStage::Equals)))
    } else {
        Outcome::Does(Effect::Let(prefixes, place, *sense))
    }
}

/// `\let` behind its equals sign, with an item more.
fn let_equals_given(prefixes: Prefixes, place: Place, item: Item) -> Outcome
    ensures becomes { (view : View) (w : World) → BecomesGiven view (Command.Named prefixes place (Named.Let LetStage.Equals)) item w result }
    ensures knows { KnowsGiven (Command.Named prefixes place (Named.Let LetStage.Equals)) item result }
{
    match &item {
        Item::Token(token, sense) => let_equals(prefixes, place, *token, sense),
        _ => Outcome::error(24),
    }
}

/// `\let` behind its equals sign, with a token more.
fn let_equals(prefixes: Prefixes, place: Place, token: Tok, sense: &Sense) -> Outcome
    ensures becomes { (view : View) (w : World) → BecomesGiven view (Command.Named prefixes place (Named.Let LetStage.Equals)) (Item.Token token sense.now) w result }
    ensures knows { KnowsGiven (Command.Named prefixes place (Named.Let LetStage.Equals)) (Item.Token token sense.now) result }
{
    let _ = token;
    if is_space(sense) {
        Outcome::Goes(Command::Named(prefixes, place, Named::Let(LetStage::Last)))
    } else {
        Outcome::Does(Effect::Let(prefixes, place, *sense))
    }
}

/// `\let` behind its equals sign and a space, with an item more.
fn let_last_given(prefixes: Prefixes, place: Place, item: Item) -> Outcome
    ensures becomes { (view : View) (w : World) → BecomesGiven view (Command.Named prefixes place (Named.Let LetStage.Last)) item w result }
    ensures knows { KnowsGiven (Command.Named prefixes place (Named.Let LetStage.Last)) item result }
{
    match &item {
        Item::Token(_, sense) => Outcome::Does(Effect::Let(prefixes, place, *sense)),
        _ => Outcome::error(24),
    }
}

/// `\futurelet`, with an item more.
fn future_let_given(prefixes: Prefixes, place: Place, stage: FutureLetStage, item: Item) -> Outcome
    ensures becomes { (view : View) (w : World) → BecomesGiven view (Command.Named prefixes place (Named.FutureLet stage)) item w result }
    ensures knows { KnowsGiven (Command.Named prefixes place (Named.FutureLet stage)) item result }
{
    match stage {
        FutureLetStage::First => first_given(prefixes, place, item),
        FutureLetStage::Second(token, sense) => second_given(prefixes, place, token, sense, item),
    }
}

/// `\futurelet`, with the item that is its first token.
fn first_given(prefixes: Prefixes, place: Place, item: Item) -> Outcome
    ensures becomes { (view : View) (w : World) → BecomesGiven view (Command.Named prefixes place (Named.FutureLet FutureLetStage.First)) item w result }
    ensures knows { KnowsGiven (Command.Named prefixes place (Named.FutureLet FutureLetStage.First)) item result }
{
    match &item {
        Item::Token(token, sense) => Outcome::Goes(Command::Named(
            prefixes,
            place,
            Named::FutureLet(FutureLetStage::Second(*token, *sense)),
        )),
        _ => Outcome::error(24),
    }
}

/// `\futurelet`, with the item that is its second token.
fn second_given(prefixes: Prefixes, place: Place, first: Tok, means: Sense, item: Item) -> Outcome
    ensures becomes { (view : View) (w : World) → BecomesGiven view (Command.Named prefixes place (Named.FutureLet (FutureLetStage.Second first means))) item w result }
    ensures knows { KnowsGiven (Command.Named prefixes place (Named.FutureLet (FutureLetStage.Second first means))) item result }
{
    let _ = means;
    match &item {
        Item::Token(token, sense) => {
            Outcome::Does(Effect::FutureLet(prefixes, place, *sense, first, *token))
        }
        _ => Outcome::error(24),
    }
}

/// A name that stands for a number, with an item more.
fn stand_given(
    prefixes: Prefixes,
    place: Place,
    what: Standing,
    stage: Stage,
    item: Item,
) -> Outcome
    ensures becomes { (view : View) (w : World) → BecomesGiven view (Command.Named prefixes place (Named.Stand what stage)) item w result }
    ensures knows { KnowsGiven (Command.Named prefixes place (Named.Stand what stage)) item result }
{
    match stage {
        Stage::Equals => equals_given(prefixes, place, what, item),
        Stage::Number => number_given(prefixes, place, what, item),
    }
}

/// A name that stands for a number, with its equals sign or none.
fn equals_given(prefixes: Prefixes, place: Place, what: Standing, item: Item) -> Outcome
    ensures becomes { (view : View) (w : World) → BecomesGiven view (Command.Named prefixes place (Named.Stand what Stage.Equals)) item w result }
    ensures knows { KnowsGiven (Command.Named prefixes place (Named.Stand what Stage.Equals)) item result }
{
    match &item {
        Item::Nothing => {
            Outcome::Goes(Command::Named(prefixes, place, Named::Stand(what, Stage::Number)))
        }
        _ => Outcome::error(63),
    }
}

/// A name that stands for a number, with the item that is the number.
fn number_given(prefixes: Prefixes, place: Place, what: Standing, item: Item) -> Outcome
    ensures becomes { (view : View) (w : World) → BecomesGiven view (Command.Named prefixes place (Named.Stand what Stage.Number)) item w result }
    ensures knows { KnowsGiven (Command.Named prefixes place (Named.Stand what Stage.Number)) item result }
{
    match &item {
        Item::Amount(quantity) => number(prefixes, place, what, *quantity),
        _ => Outcome::error(63),
    }
}

/// A name that stands for a number, with the quantity that is the number.
fn number(prefixes: Prefixes, place: Place, what: Standing, quantity: Quant) -> Outcome
    ensures becomes { (view : View) (w : World) → BecomesGiven view (Command.Named prefixes place (Named.Stand what Stage.Number)) (Item.Amount quantity) w result }
    ensures knows { KnowsGiven (Command.Named prefixes place (Named.Stand what Stage.Number)) (Item.Amount quantity) result }
{
    match quantity {
        Quant::Int(n) => stand(prefixes, place, what, n),
        _ => Outcome::error(63),
    }
}

/// A name that stands for this number.
fn stand(prefixes: Prefixes, place: Place, what: Standing, n: i32) -> Outcome
    ensures becomes { (view : View) (w : World) → BecomesGiven view (Command.Named prefixes place (Named.Stand what Stage.Number)) (Item.Amount (Quant.Int n)) w result }
    ensures knows { KnowsGiven (Command.Named prefixes place (Named.Stand what Stage.Number)) (Item.Amount (Quant.Int n)) result }
{
    match standing(what, n) {
        Ok(meaning) => Outcome::Does(Effect::Assign(prefixes, place, meaning)),
        Err(error) => Outcome::Wrong(error),
    }
}

/// What a name means that stands for this number. The errors are 15, 16 and 17, each where the number is out of range.
fn standing(what: Standing, n: i32) -> Result<Meaning<BoxNode>, Refused>
    ensures leads { (view : View) (further : meanings.Meaning → Move) (w : World) → checks what n w (λ k. further (means what k)) ≡ led result (λ m. further (meaning_in view m)) w }
    ensures knows { (known : Known) → IfOk result (KnowsMeaning known) }
{
    match what {
        Standing::Character => Ok(Meaning::Code(false, u16::from(byte(ByteError::Character, n)?))),
        Standing::MathCharacter => Ok(Meaning::Code(true, math_code(n)?)),
        Standing::Register(kind) => {
            Ok(Meaning::Register(kind, u16::from(byte(ByteError::Register, n)?)))
        }
    }
}

//! Numbers, dimensions, glue and keywords.

ghost use Rattle.std.specs.Prelude.{◌≡◌, ◌∷◌, [], pos, None, Option, IfSome};
ghost use Rattle.tx_tok.specs.declared.tok.Tok.{Tok};
ghost use Rattle.tx_private.specs.World.{World};
ghost use Rattle.tx_private.specs.Meanings as private_meaning;
ghost use Rattle.tx_private.specs.Readings as private;
ghost use Rattle.tx_views.specs.Views.{View};
ghost use Rattle.tx_amounts.specs.declared.scan.Scan as scan_state;
ghost use Rattle.tx_amounts.specs.Scanning.{wish_of as scan_wish_of, Tells, plain_item, letter_in};
ghost use Rattle.tx_amounts.specs.Names.{tokens_back};
ghost use Rattle.tx_frames.specs.Frames.{wish_of};
ghost use Rattle.tx_frames.specs.Answers.{BecomesGiven, Suits};
ghost use Rattle.tx_frames.specs.Scanned.{AnswersScan, IsNoToken};
ghost use Rattle.tx_frames.specs.Knowledge.{Known, KnowsAnswer, KnowsFrame, KnowsItem, KnowsReading, KnowsScan, KnowsSense, KnowsToken, KnowsTokens, KnowsValue};

use crate::answer::Answer;
use crate::frame::Frame;
use crate::reading::Reading;
use crate::value::{Item, Value};
use tx_amounts::{Amount, Scan, ScanWish, Scanned};
use tx_assign::Refused;
use tx_num::Quant;
use tx_tok::{Tok, Toks};
use tx_views::Sense;

/// A number, a dimension, glue or a keyword, with an item more. *TeX: The Program*, part 26.
pub(crate) fn scan_given(reading: Reading, scan: Scan, item: Item) -> Answer
    requires { Suits (Frame.Scan reading scan) item }
    ensures becomes { (view : View) (w : World) → BecomesGiven view (Frame.Scan reading scan) item w result }
    ensures knows { (known : Known) → KnowsReading known reading → KnowsScan known scan → KnowsItem known item → KnowsAnswer known result }
{
    match item {
        Item::Given(value) => value_given(reading, scan, value),
        Item::Token(_, _) => unreachable!(),
        Item::End => unreachable!(),
    }
}

/// A scan, with a value more.
fn value_given(reading: Reading, scan: Scan, value: Value) -> Answer
    requires { Suits (Frame.Scan reading scan) (Item.Given value) }
    ensures becomes { (view : View) (w : World) → BecomesGiven view (Frame.Scan reading scan) (Item.Given value) w result }
    ensures knows { (known : Known) → KnowsReading known reading → KnowsScan known scan → KnowsValue known value → KnowsAnswer known result }
{
    match scan.wish() {
        ScanWish::Expanded => token_given(reading, scan, value),
        ScanWish::Quantity => quantity_given(reading, scan, value),
        ScanWish::Plain => unreachable!(),
    }
}

/// A scan that wished for an expanded token, with the value that came. What is no token is as the end of the text.
fn token_given(reading: Reading, scan: Scan, value: Value) -> Answer
    requires { scan_wish_of scan ≡ ScanWish.Expanded }
    ensures becomes { (view : View) (w : World) → BecomesGiven view (Frame.Scan reading scan) (Item.Given value) w result }
    ensures knows { (known : Known) → KnowsReading known reading → KnowsScan known scan → KnowsValue known value → KnowsAnswer known result }
{
    match value {
        Value::Command(token, sense) => with_token(reading, scan, token, sense),
        Value::TextEnd => at_end(reading, scan),
        Value::Tokens(_tokens) => at_end(reading, scan),
        Value::Amount(_quantity) => at_end(reading, scan),
        Value::Word(_place) => at_end(reading, scan),
        Value::Nothing => at_end(reading, scan),
    }
}

/// A scan with the expanded token that it wished for.
fn with_token(reading: Reading, scan: Scan, token: Tok, sense: Sense) -> Answer
    requires { scan_wish_of scan ≡ ScanWish.Expanded }
    ensures becomes { (view : View) (w : World) → BecomesGiven view (Frame.Scan reading scan) (Item.Given (Value.Command token sense)) w result }
    ensures knows { (known : Known) → KnowsReading known reading → KnowsScan known scan → KnowsToken known token → KnowsSense known sense → KnowsAnswer known result }
{
    let mut scan = scan;
    let scanned = scan.token(token, sense);
    answered(reading, scan, scanned)
}

/// A scan with the end of the text, or another value, in place of the expanded token that it wished for.
fn at_end(reading: Reading, scan: Scan) -> Answer
    requires { scan_wish_of scan ≡ ScanWish.Expanded }
    ensures becomes { (view : View) (value : private.Value) (w : World) → IsNoToken value → AnswersScan view reading scan (private.Given value) w result }
    ensures knows { (known : Known) → KnowsReading known reading → KnowsScan known scan → KnowsAnswer known result }
{
    let mut scan = scan;
    let scanned = scan.end();
    answered(reading, scan, scanned)
}

/// A scan that wished for a quantity, with the value that came.
fn quantity_given(reading: Reading, scan: Scan, value: Value) -> Answer
    requires { scan_wish_of scan ≡ ScanWish.Quantity }
    ensures becomes { (view : View) (w : World) → BecomesGiven view (Frame.Scan reading scan) (Item.Given value) w result }
    ensures knows { (known : Known) → KnowsReading known reading → KnowsScan known scan → KnowsAnswer known result }
{
    match value {
        Value::Amount(quantity) => with_quantity(reading, scan, quantity),
        Value::Command(_, _) => no_quantity(scan),
        Value::TextEnd => no_quantity(scan),
        Value::Tokens(_tokens) => no_quantity(scan),
        Value::Word(_) => no_quantity(scan),
        Value::Nothing => no_quantity(scan),
    }
}

/// A scan with the quantity that it wished for.
fn with_quantity(reading: Reading, scan: Scan, quantity: Quant) -> Answer
    requires { scan_wish_of scan ≡ ScanWish.Quantity }
    ensures becomes { (view : View) (w : World) → BecomesGiven view (Frame.Scan reading scan) (Item.Given (Value.Amount quantity)) w result }
    ensures knows { (known : Known) → KnowsReading known reading → KnowsScan known scan → KnowsAnswer known result }
{
    let mut scan = scan;
    let scanned = scan.quantity(quantity);
    answered(reading, scan, scanned)
}

/// A scan that got no quantity where it wished for one.
fn no_quantity(scan: Scan) -> Answer
    ensures { result ≡ Answer.Wrong (record { number = record { no = 63; case = 0; value = pos 0 }; limit = None }) }
{
    let _scan = scan;
    Answer::error(63, 0, 0)
}

/// A scan that wished for a token as it stands, with that token, or None for the end of the text, and its code: that of
/// a character or of a name of one byte.
pub fn feed_letter(reading: Reading, scan: Scan, token: Option<Tok>, letter: Option<u8>) -> Answer
    requires { scan_wish_of scan ≡ ScanWish.Plain }
    ensures becomes { (view : View) (meaning : private_meaning.Meaning) (w : World) → letter ≡ letter_in view token → AnswersScan view reading scan (plain_item view meaning token) w result }
    ensures knows { (known : Known) → KnowsFrame known (Frame.Scan reading scan) → IfSome token (KnowsToken known) → KnowsAnswer known result }
{
    let mut scan = scan;
    let scanned = scan.letter(token, letter);
    answered(reading, scan, scanned)
}

/// What the answer of a scan is for its reading.
fn answered(reading: Reading, scan: Scan, scanned: Scanned) -> Answer
    ensures becomes { (view : View) (old : scan_state.Scan) (item : private.Item) (w : World) → Tells view scanned old item scan → AnswersScan view reading old item w result }
    ensures knows { (known : Known) → KnowsReading known reading → KnowsScan known scan → KnowsTokens known (tokens_back scanned) → KnowsAnswer known result }
{
    match scanned {
        Scanned::More(back) => Answer::Goes(Frame::Scan(reading, scan), back),
        Scanned::Done(amount, back) => done(amount, back),
        Scanned::Bad(number) => Answer::Wrong(Refused {
            number,
            limit: None,
        }),
        Scanned::Memory => Answer::Memory,
    }
}

/// The end of a scan with its value.
fn done(amount: Amount, back: Toks) -> Answer
    ensures becomes { (view : View) (old : scan_state.Scan) (reading : Reading) (item : private.Item) (w : World) → Tells view (Scanned.Done amount back) old item old → AnswersScan view reading old item w result }
    ensures knows { (known : Known) → KnowsTokens known back → KnowsAnswer known result }
{
    match amount {
        Amount::Quantity(quantity) => Answer::Done(Value::Amount(quantity), back),
        Amount::Word(place) => Answer::Done(Value::Word(place), back),
    }
}

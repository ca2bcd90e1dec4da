//! Open readings, from their beginning to their value.

use crate::{
    Answer, Frame, Item, ListStage, Print, Reading, Stage, TextKind, Value, Wish, Work, begin,
    expand, feed, feed_letter,
};
use std::alloc::Global;
use std::test::Fail;
use tx_amounts::{Scan, ScanWish};
use tx_eqtb::RegKind;
use tx_num::Quant;
use tx_prims::primitives::{Assignment, Command, Expandable, ListParameter, Primitive};
use tx_tok::{Cat, ListRef, Tok};
use tx_views::{Place, Sense};

/// A character as a value.
fn character(cat: Cat, byte: u8) -> Value {
    Value::Command(Tok::Char(cat, byte), Sense::Char(cat, byte))
}

/// A primitive as a value.
fn primitive(primitive: Primitive) -> Value {
    Value::Command(Tok::Name(1), Sense::Primitive(primitive))
}

/// The frame with which a reading goes on, if nothing is put in front.
fn frame(answer: Option<Answer>) -> Option<Frame> {
    match answer {
        Some(Answer::Goes(frame, back)) => if back.is_empty() { Some(frame) } else { None },
        _ => None,
    }
}

/// What a value makes of an open reading that wished for one.
fn given(alloc: Global, frame: Option<Frame>, value: Value) -> Option<Answer> {
    let frame = frame?;
    match frame.wish() {
        Wish::Plain => None,
        Wish::Expanded(_) => Some(feed(alloc, frame, Item::Given(value))),
        Wish::Within(_) => Some(feed(alloc, frame, Item::Given(value))),
    }
}

/// The work that is left.
fn work(answer: Option<Answer>) -> Option<Work> {
    match answer {
        Some(Answer::Works(work)) => Some(work),
        _ => None,
    }
}

/// The number of the error.
fn error(answer: Option<Answer>) -> Option<u8> {
    match answer {
        Some(Answer::Wrong(refused)) => Some(refused.number.no),
        _ => None,
    }
}

/// The value of a reading that ends and puts these tokens back.
fn value(answer: Option<Answer>, back: &[Tok]) -> Option<Value> {
    match answer {
        Some(Answer::Done(value, put)) => if put.as_slice() == back {
            Some(value)
        } else {
            None
        },
        _ => None,
    }
}

/// Whether a reading ends with these tokens.
fn gives(answer: Option<Answer>, wanted: &[Tok]) -> bool {
    match value(answer, &[]) {
        Some(Value::Tokens(tokens)) => tokens.as_slice() == wanted,
        _ => false,
    }
}

/// Whether a reading ends without a value and puts these tokens back.
fn ends(answer: Option<Answer>, back: &[Tok]) -> bool {
    matches!(value(answer, back), Some(Value::Nothing))
}

/// The token that a reading gives as it stands.
fn token(answer: Option<Answer>) -> Option<Tok> {
    match value(answer, &[]) {
        Some(Value::Command(token, _)) => Some(token),
        _ => None,
    }
}

/// The place whose quantity is the value.
fn amount(answer: Option<Answer>) -> Option<Place> {
    match work(answer) {
        Some(Work::Amount(place)) => Some(place),
        _ => None,
    }
}

/// The place whose list is the value.
fn list(answer: Option<Answer>) -> Option<Place> {
    match work(answer) {
        Some(Work::ListAt(place)) => Some(place),
        _ => None,
    }
}

/// The place whose list `\the` gives, within an expanded text.
fn the_list(answer: Option<Answer>) -> Option<Place> {
    match work(answer) {
        Some(Work::TheList(text, place)) => if text { Some(place) } else { None },
        _ => None,
    }
}

/// The macro's text that is put in front.
fn body(answer: Option<Answer>) -> Option<ListRef> {
    match work(answer) {
        Some(Work::Body(list)) => Some(list),
        _ => None,
    }
}

/// The number that is put in front in Roman numerals.
fn roman(answer: Option<Answer>) -> Option<i32> {
    match work(answer) {
        Some(Work::Print(Print::Roman(n))) => Some(n),
        _ => None,
    }
}

/// What a kind of register means.
fn count() -> Sense {
    Sense::Primitive(Primitive::Assignment(Assignment::Count))
}

/// What a protected macro means.
fn protected() -> Sense {
    Sense::Macro(false, true, ListRef::Pooled(4))
}

#[test]
fn braces_and_equals(rt: HostRuntime) -> Result<(), Fail> {
    let alloc = rt.alloc();
    let brace = frame(Some(begin(alloc, Reading::LeftBrace)));
    let brace = frame(given(alloc, brace, character(Cat::Space, b' ')));
    let relax = primitive(Primitive::Command(Command::Relax));
    let brace = frame(given(alloc, brace, relax));
    assert!(rt; ends(given(alloc, brace, character(Cat::Begin, b'{')), &[]));
    let brace = frame(Some(begin(alloc, Reading::LeftBrace)));
    assert_eq!(rt;
        error(given(alloc, brace, character(Cat::Letter, b'x'))),
        Some(8)
    );
    let equals = frame(Some(begin(alloc, Reading::Equals)));
    assert!(rt; ends(given(alloc, equals, character(Cat::Other, b'=')), &[]));
    let equals = frame(Some(begin(alloc, Reading::Equals)));
    let back = [Tok::Char(Cat::Letter, b'x')];
    assert!(rt; ends(given(alloc, equals, character(Cat::Letter, b'x')), &back));
    Ok(())
}

#[test]
fn texts(rt: HostRuntime) -> Result<(), Fail> {
    let alloc = rt.alloc();
    let mut text = frame(Some(begin(alloc, Reading::Text(TextKind::Expanded))));
    for (cat, byte) in [(Cat::Begin, b'{'), (Cat::Letter, b'x'), (Cat::End, b'}')] {
        text = frame(given(alloc, text, character(cat, byte)));
    }
    let wanted = [
        Tok::Char(Cat::Begin, b'{'),
        Tok::Char(Cat::Letter, b'x'),
        Tok::Char(Cat::End, b'}'),
    ];
    assert!(rt; gives(given(alloc, text, character(Cat::End, b'}')), &wanted));
    let body = frame(Some(begin(alloc, Reading::Text(TextKind::ExpandedBody))));
    assert_eq!(rt;
        error(given(alloc, body, character(Cat::Parameter, b'#'))),
        Some(63)
    );
    let text = frame(Some(begin(alloc, Reading::Text(TextKind::Expanded))));
    assert_eq!(rt; error(given(alloc, text, Value::TextEnd)), Some(63));
    Ok(())
}

#[test]
fn quantities(rt: HostRuntime) -> Result<(), Fail> {
    let alloc = rt.alloc();
    let register = frame(Some(begin(alloc, Reading::Quantity(Tok::Name(1), count()))));
    let seven = amount(given(alloc, register, Value::Amount(Quant::Int(7))));
    assert_eq!(rt; seven, Some(Place::Register(RegKind::Count, 7)));
    let register = frame(Some(begin(alloc, Reading::Quantity(Tok::Name(1), count()))));
    assert_eq!(rt;
        error(given(alloc, register, Value::Amount(Quant::Int(256)))),
        Some(15)
    );
    Ok(())
}

#[test]
fn lists(rt: HostRuntime) -> Result<(), Fail> {
    let alloc = rt.alloc();
    let reading = frame(Some(begin(alloc, Reading::List)));
    let parameter = primitive(Primitive::ListParameter(ListParameter::EveryPar));
    let place = list(given(alloc, reading, parameter));
    assert_eq!(rt; place, Some(Place::List(ListParameter::EveryPar)));
    let reading = frame(Some(begin(alloc, Reading::List)));
    assert_eq!(rt;
        error(given(alloc, reading, character(Cat::Letter, b'x'))),
        Some(8)
    );
    Ok(())
}

#[test]
fn expansions(rt: HostRuntime) -> Result<(), Fail> {
    let alloc = rt.alloc();
    let the = Sense::Primitive(Primitive::Expandable(Expandable::The));
    let toks = frame(Some(expand(alloc, true, Tok::Name(1), the)));
    let register = Value::Command(Tok::Name(2), Sense::Register(RegKind::Toks, 3));
    let place = the_list(given(alloc, toks, register));
    assert_eq!(rt; place, Some(Place::Register(RegKind::Toks, 3)));
    let text = body(Some(expand(alloc, false, Tok::Name(1), protected())));
    assert_eq!(rt; text, Some(ListRef::Pooled(4)));
    let stays = token(Some(expand(alloc, true, Tok::Name(1), protected())));
    assert_eq!(rt; stays, Some(Tok::Name(1)));
    let numeral = Sense::Primitive(Primitive::Expandable(Expandable::RomanNumeral));
    let numeral = frame(Some(expand(alloc, false, Tok::Name(1), numeral)));
    assert_eq!(rt;
        roman(given(alloc, numeral, Value::Amount(Quant::Int(9)))),
        Some(9)
    );
    assert_eq!(rt;
        error(Some(expand(alloc, false, Tok::Name(1), Sense::Undefined))),
        Some(1)
    );
    Ok(())
}

#[test]
fn wishes(rt: HostRuntime) -> Result<(), Fail> {
    assert_eq!(rt; Frame::Expansion(true, Stage::String).wish(), Wish::Plain);
    assert_eq!(rt; Frame::LeftBrace.wish(), Wish::Expanded(false));
    assert_eq!(rt;
        Frame::List(ListStage::Register).wish(),
        Wish::Within(Reading::Number)
    );
    Ok(())
}

#[test]
fn letters(rt: HostRuntime) -> Result<(), Fail> {
    let alloc = rt.alloc();
    let mut scan = Scan::number(alloc);
    if scan.wish() == ScanWish::Expanded {
        let _went = scan.token(Tok::Char(Cat::Other, b'`'), Sense::Char(Cat::Other, b'`'));
    }
    if scan.wish() == ScanWish::Plain {
        let letter = Some(Tok::Char(Cat::Letter, b'a'));
        let answer = feed_letter(Reading::Number, scan, letter, Some(97));
        assert!(rt; frame(Some(answer)).is_some());
        return Ok(());
    }
    assert!(rt; false, "a letter is due");
    Ok(())
}

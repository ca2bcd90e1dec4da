use crate::{Amount, Scan, ScanWish, Scanned, begins_quantity, letter_of};
use std::test::Fail;
use tx_eqtb::RegKind;
use tx_num::{GlueSpec, Order, Quant, Sp};
use tx_prims::primitives::{Assignment, IntegerParameter, Primitive};
use tx_quant::KeySet;
use tx_tok::{Cat, Tok};
use tx_views::Sense;

/// The category that a byte has at the start.
fn category(byte: u8) -> Cat {
    if byte == b' ' {
        Cat::Space
    } else if byte.is_ascii_alphabetic() {
        Cat::Letter
    } else {
        Cat::Other
    }
}

/// A character with the category that it has at the start.
fn character(byte: u8) -> Tok {
    Tok::Char(category(byte), byte)
}

/// The answer to a token where one is wished for.
fn answer_to(scan: &mut Scan, token: Tok, sense: Sense) -> Option<Scanned> {
    match scan.wish() {
        ScanWish::Expanded => Some(scan.token(token, sense)),
        ScanWish::Plain | ScanWish::Quantity => None,
    }
}

/// The answer to a character.
fn answer_to_byte(scan: &mut Scan, byte: u8) -> Option<Scanned> {
    answer_to(scan, character(byte), Sense::Char(category(byte), byte))
}

/// The answer to the text's end.
fn answer_to_end(scan: &mut Scan) -> Option<Scanned> {
    match scan.wish() {
        ScanWish::Expanded => Some(scan.end()),
        ScanWish::Plain | ScanWish::Quantity => None,
    }
}

/// Whether the scan goes on after each character of a text.
fn takes(scan: &mut Scan, text: &str) -> bool {
    for byte in text.as_bytes() {
        if !goes_on(answer_to_byte(scan, *byte), &[]) {
            return false;
        }
    }
    true
}

/// Whether the scan goes on and puts these tokens back.
fn goes_on(answer: Option<Scanned>, back: &[Tok]) -> bool {
    match answer {
        Some(Scanned::More(tokens)) => tokens.as_slice() == back,
        _ => false,
    }
}

/// Whether the scan ends with this value and puts these tokens back.
fn ends(answer: Option<Scanned>, amount: Amount, back: &[Tok]) -> bool {
    match answer {
        Some(Scanned::Done(value, tokens)) => value == amount && tokens.as_slice() == back,
        _ => false,
    }
}

/// An integer.
fn integer(n: i32) -> Amount {
    Amount::Quantity(Quant::Int(n))
}

/// What a name of the first dimension register means.
fn register() -> Sense {
    Sense::Register(RegKind::Dimen, 0)
}

/// What a name that is let to a space means.
fn space() -> Sense {
    Sense::Char(Cat::Space, b' ')
}

/// The number of the error with which the scan ends.
fn error(answer: Option<Scanned>) -> Option<u8> {
    match answer {
        Some(Scanned::Bad(error)) => Some(error.no),
        _ => None,
    }
}

#[test]
fn numbers(rt: HostRuntime) -> Result<(), Fail> {
    let mut scan = Scan::number(rt.alloc());
    assert!(rt; takes(&mut scan, "214748364"));
    assert_eq!(rt; error(answer_to_byte(&mut scan, b'8')), Some(10));
    let mut scan = Scan::number(rt.alloc());
    assert!(rt; takes(&mut scan, " -2147483647"));
    assert!(rt;
        ends(
            answer_to_byte(&mut scan, b'x'),
            integer(-2_147_483_647),
            &[character(b'x')]
        )
    );
    let mut scan = Scan::number(rt.alloc());
    assert!(rt; takes(&mut scan, "7"));
    assert!(rt; ends(answer_to(&mut scan, Tok::Name(9), space()), integer(7), &[]));
    let mut scan = Scan::number(rt.alloc());
    assert!(rt; takes(&mut scan, "7"));
    assert!(rt; ends(answer_to_end(&mut scan), integer(7), &[]));
    Ok(())
}

#[test]
fn keywords(rt: HostRuntime) -> Result<(), Fail> {
    let mut scan = Scan::keyword(rt.alloc(), KeySet::Plus);
    assert!(rt; takes(&mut scan, " pL"));
    let back = [character(b'p'), character(b'L'), character(b'1')];
    assert!(rt; ends(answer_to_byte(&mut scan, b'1'), Amount::Word(255), &back));
    let mut scan = Scan::keyword(rt.alloc(), KeySet::By);
    assert!(rt; takes(&mut scan, "b"));
    let back = [character(b'b'), Tok::Name(9)];
    assert!(rt;
        ends(
            answer_to(&mut scan, Tok::Name(9), space()),
            Amount::Word(255),
            &back
        )
    );
    let mut scan = Scan::keyword(rt.alloc(), KeySet::Spec);
    assert!(rt; takes(&mut scan, "sprea"));
    assert!(rt; ends(answer_to_byte(&mut scan, b'd'), Amount::Word(1), &[]));
    Ok(())
}

#[test]
fn quantities(rt: HostRuntime) -> Result<(), Fail> {
    let mut scan = Scan::dimension(rt.alloc(), false);
    assert!(rt; scan.command().is_none());
    assert!(rt; takes(&mut scan, "2"));
    assert!(rt; goes_on(answer_to(&mut scan, Tok::Name(7), register()), &[]));
    assert_eq!(rt; scan.command(), Some((Tok::Name(7), register())));
    let twice = Amount::Quantity(Quant::Dim(Sp::new(131_072).unwrap_or(Sp::ZERO)));
    match scan.wish() {
        ScanWish::Quantity => {
            assert!(rt; ends(Some(scan.quantity(Quant::Dim(Sp::POINT))), twice, &[]));
        }
        ScanWish::Expanded | ScanWish::Plain => assert!(rt; false, "a quantity has begun"),
    }
    Ok(())
}

#[test]
fn letters(rt: HostRuntime) -> Result<(), Fail> {
    assert_eq!(rt; letter_of(Tok::Name(3), b"a"), Some(97));
    assert_eq!(rt; letter_of(Tok::Name(3), b"ab"), None);
    assert_eq!(rt; letter_of(Tok::Active(b'~'), b""), Some(126));
    let mut scan = Scan::number(rt.alloc());
    assert!(rt; takes(&mut scan, "`"));
    match scan.wish() {
        ScanWish::Plain => {
            assert!(rt; goes_on(Some(scan.letter(Some(Tok::Name(3)), Some(97))), &[]));
        }
        ScanWish::Expanded | ScanWish::Quantity => assert!(rt; false, "a letter is due"),
    }
    assert!(rt; ends(answer_to_byte(&mut scan, b' '), integer(97), &[]));
    Ok(())
}

#[test]
fn glue(rt: HostRuntime) -> Result<(), Fail> {
    let mut scan = Scan::glue(rt.alloc(), true);
    assert!(rt; takes(&mut scan, "1mu"));
    let back = [character(b'x')];
    assert!(rt; goes_on(answer_to_byte(&mut scan, b'x'), &back));
    assert!(rt; goes_on(answer_to_byte(&mut scan, b'x'), &back));
    let one = GlueSpec {
        width: Sp::POINT,
        stretch: Sp::ZERO,
        stretch_order: Order::Finite,
        shrink: Sp::ZERO,
        shrink_order: Order::Finite,
    };
    let amount = Amount::Quantity(Quant::Mu(one));
    assert!(rt; ends(answer_to_byte(&mut scan, b'x'), amount, &back));
    Ok(())
}

#[test]
fn beginnings(rt: HostRuntime) -> Result<(), Fail> {
    let count = Sense::Primitive(Primitive::Assignment(Assignment::Count));
    assert!(rt; begins_quantity(count));
    let parameter = Primitive::IntegerParameter(IntegerParameter::EndLineChar);
    assert!(rt; begins_quantity(Sense::Primitive(parameter)));
    assert!(rt; begins_quantity(Sense::Code(false, 65)));
    assert!(rt; !begins_quantity(Sense::Register(RegKind::Toks, 0)));
    assert!(rt; !begins_quantity(Sense::Char(Cat::Letter, b'a')));
    Ok(())
}

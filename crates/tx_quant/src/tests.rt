use crate::errors::{IMPROPER_CONSTANT, INCOMPATIBLE_UNITS, MISSING_NUMBER, NUMBER_TOO_BIG};
use crate::{KeySet, Keyword, NumScan};
use std::test::Fail;
use tx_num::{Feed, GlueSpec, Order, Quant, Sp, Want};
use tx_tok::{Cat, Tok};

/// A character with the category that it has at the start.
pub(crate) fn token(byte: u8) -> Tok {
    if byte == b' ' {
        Tok::Char(Cat::Space, byte)
    } else if byte.is_ascii_alphabetic() {
        Tok::Char(Cat::Letter, byte)
    } else {
        Tok::Char(Cat::Other, byte)
    }
}

/// The first answer other than More to the characters of a text, and how many were fed.
fn keyword(words: KeySet, text: &str) -> (Feed<u8>, usize) {
    let mut scan = Keyword::new(words);
    for (i, byte) in text.as_bytes().iter().enumerate() {
        match scan.feed(token(*byte)) {
            Feed::More(_) => {}
            answer => return (answer, i + 1),
        }
    }
    (Feed::More(0), text.len())
}

/// The same of a number.
fn number(text: &str) -> (Feed<i32>, usize) {
    let mut scan = NumScan::new();
    for (i, byte) in text.as_bytes().iter().enumerate() {
        match scan.feed(token(*byte)) {
            Feed::More(_) => {}
            answer => return (answer, i + 1),
        }
    }
    (Feed::More(0), text.len())
}

#[test]
fn keywords(rt: HostRuntime) -> Result<(), Fail> {
    for (words, text, answer) in [
        (KeySet::By, "by", (Feed::Done(0, 0), 2)),
        (KeySet::By, "  bY", (Feed::Done(0, 0), 4)),
        (KeySet::By, "1", (Feed::Done(255, 1), 1)),
        (KeySet::Spec, "to", (Feed::Done(0, 0), 2)),
        (KeySet::Spec, "SpreaD", (Feed::Done(1, 0), 6)),
        (KeySet::Spec, " spar", (Feed::Done(255, 3), 4)),
        (KeySet::At, "at", (Feed::Done(0, 0), 2)),
        (KeySet::At, "scaled", (Feed::Done(1, 0), 6)),
        (KeySet::Plus, "plus", (Feed::Done(0, 0), 4)),
        (KeySet::Plus, "p l", (Feed::Done(255, 2), 2)),
        (KeySet::Minus, "minus", (Feed::Done(0, 0), 5)),
        (KeySet::Rule, "width", (Feed::Done(0, 0), 5)),
        (KeySet::Rule, "height", (Feed::Done(1, 0), 6)),
        (KeySet::Rule, "depth", (Feed::Done(2, 0), 5)),
        (KeySet::Rule, "dept", (Feed::More(0), 4)),
    ] {
        assert_eq!(rt; keyword(words, text), answer, "{text}");
    }
    let mut scan = Keyword::new(KeySet::By);
    assert_eq!(rt; scan.feed(Tok::Char(Cat::Active, b'b')), Feed::More(0));
    assert_eq!(rt; scan.feed(Tok::Name(0)), Feed::Done(255, 2));
    Ok(())
}

#[test]
fn numbers(rt: HostRuntime) -> Result<(), Fail> {
    for (text, answer) in [
        ("12 ", (Feed::Done(12, 0), 3)),
        ("12x", (Feed::Done(12, 1), 3)),
        (" - + -7\"", (Feed::Done(7, 1), 8)),
        ("-007,", (Feed::Done(-7, 1), 5)),
        ("2147483647 ", (Feed::Done(2_147_483_647, 0), 11)),
        ("-2147483647 ", (Feed::Done(-2_147_483_647, 0), 12)),
        ("2147483648", (Feed::Bad(NUMBER_TOO_BIG), 10)),
        ("'178", (Feed::Done(15, 1), 4)),
        ("\"7FFFFFFF ", (Feed::Done(2_147_483_647, 0), 10)),
        ("\"80000000", (Feed::Bad(NUMBER_TOO_BIG), 9)),
        ("\"aB", (Feed::Bad(MISSING_NUMBER), 2)),
        ("\"Ab", (Feed::Done(10, 1), 3)),
        ("'8", (Feed::Bad(MISSING_NUMBER), 2)),
        ("-x", (Feed::Bad(MISSING_NUMBER), 2)),
    ] {
        assert_eq!(rt; number(text), answer, "{text}");
    }
    let mut scan = NumScan::new();
    assert_eq!(rt;
        scan.feed(Tok::Char(Cat::Letter, b'1')),
        Feed::Bad(MISSING_NUMBER)
    );
    Ok(())
}

/// Glue of one point.
fn one_point() -> GlueSpec {
    GlueSpec {
        width: Sp::POINT,
        stretch: Sp::ZERO,
        stretch_order: Order::Finite,
        shrink: Sp::ZERO,
        shrink_order: Order::Finite,
    }
}

#[test]
fn quantities_as_numbers(rt: HostRuntime) -> Result<(), Fail> {
    for (quantity, answer) in [
        (Quant::Int(5), Feed::Done(-5, 0)),
        (Quant::Dim(Sp::MAX), Feed::Done(-1_073_741_823, 0)),
        (Quant::Glue(one_point()), Feed::Done(-65536, 0)),
        (Quant::Mu(one_point()), Feed::Bad(INCOMPATIBLE_UNITS)),
    ] {
        let mut scan = NumScan::new();
        assert_eq!(rt; scan.feed(token(b'-')), Feed::More(0));
        match scan.wants() {
            Want::Start => assert_eq!(rt; scan.quantity(quantity), answer),
            _ => assert!(rt; false, "a quantity may stand here"),
        }
    }
    Ok(())
}

#[test]
fn characters_as_numbers(rt: HostRuntime) -> Result<(), Fail> {
    for (code, behind, answer) in [
        (Some(b'a'), b' ', Feed::Done(97, 0)),
        (Some(255), b'1', Feed::Done(255, 1)),
    ] {
        let mut scan = NumScan::new();
        assert_eq!(rt; scan.feed(token(b'`')), Feed::More(0));
        match scan.wants() {
            Want::Plain => assert_eq!(rt; scan.letter(code), Feed::More(0)),
            _ => assert!(rt; false, "a character is due"),
        }
        assert_eq!(rt; scan.feed(token(behind)), answer);
    }
    let mut scan = NumScan::new();
    assert_eq!(rt; scan.feed(token(b'`')), Feed::More(0));
    match scan.wants() {
        Want::Plain => assert_eq!(rt; scan.letter(None), Feed::Bad(IMPROPER_CONSTANT)),
        _ => assert!(rt; false, "a character is due"),
    }
    Ok(())
}

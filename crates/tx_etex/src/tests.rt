//! Worked values.

use super::*;
use crate::expression::{MISSING_PARENTHESIS, OVERFLOW};
use std::alloc::Global;
use std::test::Fail;
use tx_bytes::Bytes;
use tx_num::{Feed, GlueSpec, Order, Quant, QuantKind, Sp, Want};
use tx_tok::{Cat, Tok};

/// The first answer other than More to a text, in which each `#` stands for the next of these integers,
/// and how many characters were fed.
fn integers(alloc: Global, text: &str, values: [i32; 3]) -> (Feed<Quant>, usize) {
    let mut scan = ExprScan::new(alloc, QuantKind::Int);
    let mut used = 0;
    for (i, byte) in text.as_bytes().iter().enumerate() {
        let answer = match scan.wants() {
            Want::Factor(QuantKind::Int) if *byte == b'#' && used < 3 => {
                used += 1;
                scan.quantity(Quant::Int(values[used - 1]))
            }
            Want::Factor(_) if *byte == b'(' => scan.feed(Tok::Char(Cat::Other, b'(')),
            Want::Factor(_) => scan.feed(Tok::Char(Cat::Space, b' ')),
            _ => scan.feed(Tok::Char(Cat::Other, *byte)),
        };
        match answer {
            Feed::More(_) => {}
            _ => return (answer, i + 1),
        }
    }
    (Feed::More(0), text.len())
}

#[test]
fn integer_expressions(rt: HostRuntime) -> Result<(), Fail> {
    let large = [50000, 50000, 50000];
    for (text, values, answer) in [
        ("#/#.", [7, 2, 0], (Feed::Done(Quant::Int(4), 1), 4)),
        (" #/#.", [-7, 2, 0], (Feed::Done(Quant::Int(-4), 1), 5)),
        ("#-(#+#))", [2, 3, 4], (Feed::Done(Quant::Int(-5), 1), 8)),
        ("#*#/#.", large, (Feed::Done(Quant::Int(50000), 1), 6)),
        ("#*#.", large, (Feed::Bad(OVERFLOW), 4)),
        ("(#*#)/#.", large, (Feed::Bad(OVERFLOW), 8)),
        ("#/#+#.", [1, 0, 1], (Feed::Bad(OVERFLOW), 6)),
        ("(#.", [1, 0, 0], (Feed::Bad(MISSING_PARENTHESIS), 3)),
    ] {
        assert_eq!(rt; integers(rt.alloc(), text, values), answer, "{text}");
    }
    Ok(())
}

/// A point of glue.
fn glue(stretch_order: Order, shrink: Sp) -> GlueSpec {
    GlueSpec {
        width: Sp::POINT,
        stretch: Sp::POINT,
        stretch_order,
        shrink,
        shrink_order: Order::Finite,
    }
}

/// What two terms of glue with this sign between them give.
fn glue_terms(alloc: Global, first: GlueSpec, sign: u8, second: GlueSpec) -> Feed<Quant> {
    let mut scan = ExprScan::new(alloc, QuantKind::Glue);
    let mut answer = Feed::More(0);
    for (term, byte) in [(first, sign), (second, b'.')] {
        if let Want::Factor(QuantKind::Glue) = scan.wants() {
            let _ = scan.quantity(Quant::Glue(term));
        }
        if let Want::Expanded = scan.wants() {
            answer = scan.feed(Tok::Char(Cat::Other, byte));
        }
    }
    answer
}

#[test]
fn glue_expressions(rt: HostRuntime) -> Result<(), Fail> {
    let sum = GlueSpec {
        width: Sp(131_072),
        ..glue(Order::Fil, Sp::POINT)
    };
    let difference = GlueSpec {
        width: Sp::ZERO,
        ..glue(Order::Fill, Sp::POINT)
    };
    for (sign, second, expected) in [
        (b'+', glue(Order::Finite, Sp::ZERO), sum),
        (b'-', glue(Order::Fill, Sp::ZERO), difference),
    ] {
        let answer = glue_terms(rt.alloc(), glue(Order::Fil, Sp::POINT), sign, second);
        assert_eq!(rt; answer, Feed::Done(Quant::Glue(expected), 1));
    }
    Ok(())
}

/// The text of `\foo #\\^^#3~` with a blank behind each name that is no single byte.
#[test]
fn text_of_a_list(rt: HostRuntime) -> Result<(), Fail> {
    let alloc = rt.alloc();
    let list = [
        Tok::Name(7),
        Tok::Char(Cat::Space, b' '),
        Tok::Char(Cat::Parameter, b'#'),
        Tok::Name(8),
        Tok::Param(3),
        Tok::Stop,
        Tok::Active(b'~'),
    ];
    let mut names = Vec::new(alloc);
    for name in ["\\foo ", "", "", "\\!", "", "", ""] {
        names.push(Bytes::from_slice(alloc, name.as_bytes())?)?;
    }
    let mut out = Vec::new(alloc);
    if names.len() == list.len() {
        detokenize(&list, names.as_slice(), &mut out)?;
    }
    let text = "\\foo  ##\\!#3~".as_bytes();
    assert!(rt; out.len() == text.len());
    for (token, byte) in out.iter().zip(text.iter()) {
        let cat = if *byte == b' ' {
            Cat::Space
        } else {
            Cat::Other
        };
        assert!(rt; *token == Tok::Char(cat, *byte));
    }
    Ok(())
}

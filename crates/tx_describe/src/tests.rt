//! Texts that TeX prints.

use crate::{Description, Progress, Wanted, decimal_text, quantity_text, roman_text, text_tokens};
use std::alloc::{AllocError, Global};
use std::test::Fail;
use tx_eqtb::RegKind;
use tx_num::{GlueSpec, Order, Quant, Sp};
use tx_prims::primitives::{Command, Primitive};
use tx_scan::Cats;
use tx_tok::{Cat, ListRef, Tok, Toks};
use tx_views::Sense;

/// `\escapechar`.
const ESCAPE: i32 = 92;

/// The text of a name.
fn name(number: u64) -> &'static [u8] {
    match number {
        0 => b"",
        1 => b"a",
        2 => b";",
        _ => b"title",
    }
}

/// The content of each list.
fn content(alloc: Global) -> Result<Toks, AllocError> {
    Ok(Toks(vec![in alloc;
        Tok::Name(3),
        Tok::Char(Cat::Parameter, b'#'),
        Tok::Active(b'~'),
    ]?))
}

/// Gives what a description asks for.
fn give(alloc: Global, description: &mut Description) -> Result<(), AllocError> {
    if let Progress::Wants(wanted) = description.go() {
        match wanted {
            Wanted::Text(number) => description.text(&Cats::bare(), name(number))?,
            Wanted::Content(_) => description.content(content(alloc)?),
            Wanted::Frozen(_) => description.content(content(alloc)?),
        }
    }
    Ok(())
}

/// The text that a description comes to.
fn whole(alloc: Global, mut description: Description) -> Result<Vec<u8>, AllocError> {
    for _ in 0..20 {
        give(alloc, &mut description)?;
    }
    Ok(description.into_text())
}

#[test]
fn numbers(rt: HostRuntime) -> Result<(), Fail> {
    let alloc = rt.alloc();
    assert_eq!(rt; decimal_text(alloc, -1234)?.as_slice(), b"-1234".as_slice());
    assert_eq!(rt;
        roman_text(alloc, 1987)?.as_slice(),
        b"mcmlxxxvii".as_slice()
    );
    assert_eq!(rt; roman_text(alloc, -1)?.as_slice(), b"".as_slice());
    Ok(())
}

#[test]
fn quantities(rt: HostRuntime) -> Result<(), Fail> {
    let alloc = rt.alloc();
    let glue = GlueSpec {
        width: Sp(65536),
        stretch: Sp(131072),
        stretch_order: Order::Fil,
        shrink: Sp(196608),
        shrink_order: Order::Fill,
    };
    for (quantity, text) in [
        (Quant::Int(7), "7"),
        (Quant::Dim(Sp(21845)), "0.33333pt"),
        (Quant::Glue(glue), "1.0pt plus 2.0fil minus 3.0fill"),
        (Quant::Mu(GlueSpec::ZERO), "0.0mu"),
    ] {
        assert_eq!(rt; quantity_text(alloc, quantity)?.as_slice(), text.as_bytes());
    }
    Ok(())
}

#[test]
fn characters(rt: HostRuntime) -> Result<(), Fail> {
    let tokens = text_tokens(rt.alloc(), b"1 p")?;
    let wanted = [
        Tok::Char(Cat::Other, b'1'),
        Tok::Char(Cat::Space, b' '),
        Tok::Char(Cat::Other, b'p'),
    ];
    assert_eq!(rt; tokens.as_slice(), wanted.as_slice());
    Ok(())
}

#[test]
fn tokens(rt: HostRuntime) -> Result<(), Fail> {
    let alloc = rt.alloc();
    for (token, escape, text) in [
        (Tok::Name(3), ESCAPE, "\\title"),
        (Tok::Name(0), 33, "!csname!endcsname"),
        (Tok::Char(Cat::Parameter, b'#'), ESCAPE, "#"),
    ] {
        let text_of_token = whole(alloc, Description::token(alloc, token, escape))?;
        assert_eq!(rt; text_of_token.as_slice(), text.as_bytes());
    }
    Ok(())
}

#[test]
fn lists(rt: HostRuntime) -> Result<(), Fail> {
    let alloc = rt.alloc();
    let tokens = vec![in alloc;
        Tok::Name(1),
        Tok::Name(2),
        Tok::Param(4),
        Tok::Stop,
        Tok::Name(3),
        Tok::Char(Cat::Parameter, b'#'),
    ]?;
    let text = whole(alloc, Description::list(alloc, Toks(tokens), ESCAPE))?;
    assert_eq!(rt; text.as_slice(), b"\\a \\;#4\\title ##".as_slice());
    Ok(())
}

#[test]
fn meanings(rt: HostRuntime) -> Result<(), Fail> {
    let alloc = rt.alloc();
    for (sense, text) in [
        (Sense::Undefined, "undefined"),
        (
            Sense::Primitive(Primitive::Command(Command::Relax)),
            "\\relax",
        ),
        (
            Sense::Macro(false, false, ListRef::Pooled(7)),
            "macro:->\\title ##~",
        ),
        (
            Sense::Macro(true, true, ListRef::Frozen(7)),
            "\\protected\\long macro:->\\title ##~",
        ),
        (Sense::Macro(true, false, ListRef::Empty), "\\long macro:->"),
        (Sense::Char(Cat::Letter, b'a'), "the letter a"),
        (Sense::Char(Cat::Space, b' '), "blank space  "),
        (Sense::Char(Cat::Active, b'~'), "the character ~"),
        (Sense::Code(false, 65), "\\char\"41"),
        (Sense::Code(true, 0x70ff), "\\mathchar\"70FF"),
        (Sense::Register(RegKind::Count, 1), "\\count1"),
    ] {
        let text_of_meaning = whole(alloc, Description::meaning(alloc, sense, ESCAPE))?;
        assert_eq!(rt; text_of_meaning.as_slice(), text.as_bytes());
    }
    Ok(())
}

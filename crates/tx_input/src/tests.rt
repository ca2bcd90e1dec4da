//! Texts and lists that are taken token by token.

use crate::{Found, Input, NameLimit, Taken};
use std::alloc::Global;
use std::test::Fail;
use tx_bytes::Bytes;
use tx_scan::{Cat, Cats};
use tx_tok::{Tok, Toks};

/// How many names the format of the tests has.
const FORMAT_NAMES: u64 = 10;

/// `\endlinechar`.
const END: i32 = 13;

/// An input whose region has this text and budget.
fn input_of(alloc: Global, text: &[u8], budget: u32) -> Result<Input, Fail> {
    let mut input = Input::new(alloc, FORMAT_NAMES);
    input.begin(Bytes::from_slice(alloc, text)?, budget);
    Ok(input)
}

/// Takes a name, and tells its number.
fn found(input: &mut Input, number: Option<u64>) -> Result<Found, Fail> {
    match input.take(&Cats::bare(), END) {
        Taken::Name => Ok(input.found(number)),
        _ => Err(Fail::new("a name comes next")),
    }
}

/// Takes a new name, and gives it a number.
fn interned(input: &mut Input, number: u64) -> Result<Tok, Fail> {
    match input.take(&Cats::bare(), END) {
        Taken::Name => match input.found(None) {
            Found::Intern => Ok(input.interned(number)?),
            _ => Err(Fail::new("there is room for the name")),
        },
        _ => Err(Fail::new("a name comes next")),
    }
}

/// The text of a name of so many letters.
fn long_name(alloc: Global, letters: usize) -> Result<Bytes, Fail> {
    let mut text = vec![in alloc; b'a'; letters]?;
    text.insert(0, b'\\')?;
    Ok(Bytes(text))
}

/// Adds a name of so many letters to the session's own.
fn add(alloc: Global, input: &mut Input, number: u64, letters: usize) -> Result<(), Fail> {
    input.begin(long_name(alloc, letters)?, 1);
    interned(input, number)?;
    Ok(())
}

/// What becomes of a name of `next` letters where the session has so many names of so many letters.
fn after(alloc: Global, names: u32, letters: usize, next: usize) -> Result<Found, Fail> {
    let mut input = Input::new(alloc, FORMAT_NAMES);
    for number in 0..names {
        add(alloc, &mut input, FORMAT_NAMES + u64::from(number), letters)?;
    }
    input.begin(long_name(alloc, next)?, 1);
    found(&mut input, None)
}

#[test]
fn limits(rt: HostRuntime) -> Result<(), Fail> {
    for (names, letters, next, want) in [
        (65_535, 1, 1, Found::Intern),
        (65_536, 1, 1_025, Found::Full(NameLimit::Number)),
        (4_095, 1_024, 1_024, Found::Intern),
        (4_095, 1_024, 1_025, Found::Full(NameLimit::Bytes)),
        (1, 1, 1_025, Found::Full(NameLimit::Length)),
    ] {
        let answer = after(rt.alloc(), names, letters, next)?;
        assert_eq!(rt; answer, want);
    }
    Ok(())
}

#[test]
fn names_of_a_text(rt: HostRuntime) -> Result<(), Fail> {
    let mut input = input_of(rt.alloc(), b"\\a b\\a", 100)?;
    assert_eq!(rt; interned(&mut input, 12)?, Tok::Name(12));
    let letter = input.take(&Cats::bare(), END);
    assert_eq!(rt; letter, Taken::Token(Tok::Char(Cat::Letter, b'b')));
    assert_eq!(rt; found(&mut input, Some(12))?, Found::Token(Tok::Name(12)));
    assert_eq!(rt; input.names(), 1);
    Ok(())
}

#[test]
fn empty_line(rt: HostRuntime) -> Result<(), Fail> {
    let mut input = input_of(rt.alloc(), b"\n", 100)?;
    assert_eq!(rt; input.take(&Cats::bare(), END), Taken::Name);
    assert_eq!(rt; input.wanted().ok_or("wanted")?, b"par".as_slice());
    assert_eq!(rt; input.steps(), 1);
    input.knows_more();
    Ok(())
}

#[test]
fn names_given_back(rt: HostRuntime) -> Result<(), Fail> {
    let mut input = input_of(rt.alloc(), b"\\a\\b\\c", 100)?;
    for number in 20..23 {
        interned(&mut input, number)?;
    }
    input.give_back(1);
    assert_eq!(rt; input.names(), 1);
    Ok(())
}

#[test]
fn lists_in_front(rt: HostRuntime) -> Result<(), Fail> {
    let alloc = rt.alloc();
    let mut input = input_of(alloc, b"c", 100)?;
    input.put(Toks(vec![in alloc; Tok::Name(4), Tok::Name(5)]?))?;
    input.put(Toks(vec![in alloc; Tok::Name(3)]?))?;
    for number in 3..6 {
        let name = input.take(&Cats::bare(), END);
        assert_eq!(rt; name, Taken::Token(Tok::Name(number)));
    }
    Ok(())
}

#[test]
fn overfull(rt: HostRuntime) -> Result<(), Fail> {
    let alloc = rt.alloc();
    for (len, want) in [(1_000_000, false), (1_000_001, true)] {
        let mut input = Input::new(alloc, FORMAT_NAMES);
        input.put(Toks(vec![in alloc; Tok::Active(b'~'); len]?))?;
        assert_eq!(rt; input.is_overfull(), want);
    }
    Ok(())
}

#[test]
fn rest_dropped(rt: HostRuntime) -> Result<(), Fail> {
    let alloc = rt.alloc();
    let mut input = input_of(alloc, b"a%\nb c\nd", 100)?;
    for byte in b'a'..b'c' {
        let letter = input.take(&Cats::bare(), END);
        assert_eq!(rt; letter, Taken::Token(Tok::Char(Cat::Letter, byte)));
    }
    input.drop_rest();
    assert_eq!(rt; input.take(&Cats::bare(), END), Taken::End);
    assert_eq!(rt; input.line(), 2);
    Ok(())
}

#[test]
fn steps_spent(rt: HostRuntime) -> Result<(), Fail> {
    let mut input = input_of(rt.alloc(), b"a", 1)?;
    assert!(rt; input.fire());
    assert!(rt; !input.fire());
    assert_eq!(rt; input.budget(), 1);
    assert_eq!(rt; input.take(&Cats::bare(), END), Taken::Spent);
    Ok(())
}

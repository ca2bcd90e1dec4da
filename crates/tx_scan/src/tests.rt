//! Texts and the answers that the scanner gives for them.

use crate::plain::plain;
use crate::{Cat, Cats, Scan, Scanner};
use std::alloc::Global;
use std::test::Fail;
use tx_bytes::Bytes;
use tx_model::LineState;

/// No test's text has so many tokens.
const MANY: usize = 100;

/// Each answer for a text, with the number of its line, up to the one at which the scanner stays.
fn answers(alloc: Global, cats: &Cats, end: i32, text: &[u8]) -> Result<String, Fail> {
    let mut scanner = Scanner::new(alloc, Bytes::from_slice(alloc, text)?);
    let mut shown = String::new(alloc);
    for _ in 0..MANY {
        let found = scanner.next(cats, end);
        let line = scanner.line();
        shown.push_str(&format!(in alloc; "{line} {found:?};")?)?;
        if stays(&found) {
            return Ok(shown);
        }
    }
    Ok(shown)
}

/// Whether the scanner stays where it answers this.
fn stays(found: &Scan) -> bool {
    match found {
        Scan::End | Scan::Invalid | Scan::Memory => true,
        _ => false,
    }
}

/// The answers in the state BARE.
fn bare(alloc: Global, text: &[u8]) -> Result<String, Fail> {
    answers(alloc, &Cats::bare(), 13, text)
}

#[test]
fn tokens_of_lines(rt: HostRuntime) -> Result<(), Fail> {
    let alloc = rt.alloc();
    let text = Bytes::from_slice(alloc, b"\\ab  x  \n\n\\ \\\nz\ny")?;
    let mut scanner = Scanner::new(alloc, text);
    assert_eq!(rt; scanner.line(), 1);
    for want in [
        "NameText(Bytes([97, 98]))",
        "Char(Letter, 120)",
        "Char(Space, 32)",
        "Par",
        "NameText(Bytes([32]))",
        "NameText(Bytes([13]))",
        "Char(Letter, 122)",
    ] {
        let got = scanner.next(&Cats::bare(), 13);
        assert_eq!(rt; format!(in alloc; "{got:?}")?.as_str(), want);
    }
    assert_eq!(rt; scanner.line(), 4);
    scanner.end_input();
    for want in ["Char(Space, 32)", "End", "End"] {
        let got = scanner.next(&Cats::bare(), 13);
        assert_eq!(rt; format!(in alloc; "{got:?}")?.as_str(), want);
    }
    Ok(())
}

/// `^^41`, `^^J`, an escape byte, a byte within a name, a notation within a notation.
#[test]
fn bytes_by_superscripts(rt: HostRuntime) -> Result<(), Fail> {
    let alloc = rt.alloc();
    let got = bare(alloc, b"^^41^^J^^5crelax\\rel^^61x ^^5e^41^^Z1")?;
    let want =
        "1 Char(Letter, 65);1 Char(Other, 10);1 NameText(Bytes([114, 101, 108, 97, 120]));1 NameText(Bytes([114, 101, 108, 97, 120]));1 Char(Letter, 65);1 Char(Other, 26);1 Char(Other, 49);1 Char(Space, 32);1 End;";
    assert_eq!(rt; got.as_str(), want);
    Ok(())
}

/// Upper-case digits aren't hex digits, and a byte from 128 on is no notation.
#[test]
fn bytes_that_no_superscripts_write(rt: HostRuntime) -> Result<(), Fail> {
    let alloc = rt.alloc();
    let got = bare(alloc, b"^^4A^^\x80\\^^4z^")?;
    let want =
        "1 Char(Letter, 116);1 Char(Letter, 65);1 Char(Superscript, 94);1 Char(Superscript, 94);1 Char(Other, 128);1 NameText(Bytes([116, 122]));1 Char(Superscript, 94);1 Char(Space, 32);1 End;";
    assert_eq!(rt; got.as_str(), want);
    Ok(())
}

/// A byte that a notation writes behind a name is no letter.
#[test]
fn names_that_a_notation_ends(rt: HostRuntime) -> Result<(), Fail> {
    let alloc = rt.alloc();
    let got = bare(alloc, b"\\a^^31 \\^^31^^20 x\\a^^5cb")?;
    let want =
        "1 NameText(Bytes([97]));1 Char(Other, 49);1 Char(Space, 32);1 NameText(Bytes([49]));1 Char(Space, 32);1 Char(Letter, 120);1 NameText(Bytes([97]));1 NameText(Bytes([98]));1 End;";
    assert_eq!(rt; got.as_str(), want);
    Ok(())
}

#[test]
fn invalid_bytes(rt: HostRuntime) -> Result<(), Fail> {
    let alloc = rt.alloc();
    assert_eq!(rt; bare(alloc, b"\n%\n^^7fx")?.as_str(), "1 Par;3 Invalid;");
    // one that ends a name is invalid behind it
    let got = bare(alloc, b"\\a^^7f")?;
    assert_eq!(rt; got.as_str(), "1 NameText(Bytes([97]));1 Invalid;");
    // it stays
    let mut scanner = Scanner::new(alloc, Bytes::from_slice(alloc, b"x\x7f")?);
    for want in ["Char(Letter, 120)", "Invalid", "Invalid"] {
        let got = scanner.next(&Cats::bare(), 13);
        assert_eq!(rt; format!(in alloc; "{got:?}")?.as_str(), want);
    }
    Ok(())
}

#[test]
fn comments_and_ignored_bytes(rt: HostRuntime) -> Result<(), Fail> {
    let alloc = rt.alloc();
    let got = bare(alloc, b"a%b\n c\x00 %\n\x00\nd")?;
    let want =
        "1 Char(Letter, 97);2 Char(Letter, 99);2 Char(Space, 32);3 Par;4 Char(Letter, 100);4 Char(Space, 32);4 End;";
    assert_eq!(rt; got.as_str(), want);
    Ok(())
}

/// The byte that ends a line takes part in names and notations.
#[test]
fn line_ends(rt: HostRuntime) -> Result<(), Fail> {
    let alloc = rt.alloc();
    let cats = Cats::bare();
    let got = answers(alloc, &cats, 13, b"\\\n^^")?;
    assert_eq!(rt;
        got.as_str(),
        "1 NameText(Bytes([13]));2 Char(Letter, 77);2 End;"
    );
    let got = answers(alloc, &cats, -1, b"\\\n^^\n^^4")?;
    let want =
        "1 NameText(Bytes([]));2 Char(Superscript, 94);2 Char(Superscript, 94);3 Char(Letter, 116);3 End;";
    assert_eq!(rt; got.as_str(), want);
    let got = answers(alloc, &cats, 255, b"\\\n^^")?;
    let want =
        "1 NameText(Bytes([255]));2 Char(Superscript, 94);2 Char(Superscript, 94);2 Char(Other, 255);2 End;";
    assert_eq!(rt; got.as_str(), want);
    let got = answers(alloc, &cats, 97, b"\\re\n^^4")?;
    assert_eq!(rt;
        got.as_str(),
        "1 NameText(Bytes([114, 101, 97]));2 Char(Letter, 74);2 End;"
    );
    Ok(())
}

#[test]
fn categories(rt: HostRuntime) -> Result<(), Fail> {
    let alloc = rt.alloc();
    let mut cats = Cats::bare();
    for (byte, cat) in [
        (b'a', Cat::Letter),
        (b'~', Cat::Other),
        (255, Cat::Other),
        (b'%', Cat::Comment),
    ] {
        assert_eq!(rt; cats.of(byte), cat);
    }
    cats.set(b'~', Cat::Active);
    cats.set(b'!', Cat::Superscript);
    let got = answers(alloc, &cats, 13, b"~$&#_!!41!^41")?;
    let want =
        "1 Active(126);1 Char(Math, 36);1 Char(Tab, 38);1 Char(Parameter, 35);1 Char(Subscript, 95);1 Char(Letter, 65);1 Char(Superscript, 33);1 Char(Superscript, 94);1 Char(Other, 52);1 Char(Other, 49);1 Char(Space, 32);1 End;";
    assert_eq!(rt; got.as_str(), want);
    Ok(())
}

/// What `answers` is for one line, by the plain reading.
fn plain_answers(alloc: Global, cats: &Cats, line: &[u8]) -> Result<String, Fail> {
    let mut shown = String::new(alloc);
    let mut state = LineState::NewLine;
    let mut unread = Bytes::from_slice(alloc, line)?;
    for _ in 0..MANY {
        match plain(alloc, cats, state, unread.as_slice())? {
            None => {
                shown.push_str("1 End;")?;
                return Ok(shown);
            }
            Some(next) => {
                let (found, then, left) = next;
                shown.push_str(&format!(in alloc; "1 {found:?};")?)?;
                if stays(&found) {
                    return Ok(shown);
                }
                state = then;
                unread = left;
            }
        }
    }
    Ok(shown)
}

const SOME: [u8; 8] = [b'^', b'4', b'\\', b'a', b' ', b'%', 13, 127];

/// Five of these bytes, by a number below 8^5, and a line's end.
fn line_of(alloc: Global, number: usize) -> Result<Bytes, Fail> {
    let mut line = Vec::new(alloc);
    let mut code = number;
    for _ in 0..5 {
        line.push(SOME[code % 8])?;
        code /= 8;
    }
    line.push(13)?;
    Ok(Bytes(line))
}

#[test]
fn scanner_against_plain_reading(rt: HostRuntime) -> Result<(), Fail> {
    let alloc = rt.alloc();
    let cats = Cats::bare();
    for number in 0..32768 {
        let line = line_of(alloc, number)?;
        let got = answers(alloc, &cats, -1, line.as_slice())?;
        let want = plain_answers(alloc, &cats, line.as_slice())?;
        assert_eq!(rt; got.as_str(), want.as_str());
    }
    Ok(())
}

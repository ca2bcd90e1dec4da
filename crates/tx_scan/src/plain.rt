//! What stands next in a line, computed as the definition says it: slow, and for comparison alone.

ghost use Rattle.std.specs.Prelude.{◌≡◌, ◌∷◌, List, IfOk};
ghost use Rattle.tx_model.specs.Scanner.{fronted as fronted_of, letters_in, name_at as name_at_of, name_from as name_from_of, at_line_end, token_at, found_in};
ghost use Rattle.tx_scan.specs.Scans.{category_by, IsPlain};

use crate::cats::Cats;
use crate::line::{Scan, after_one, gives_nothing, is_letter};
use crate::notation::{Front, notation};
use std::alloc::{AllocError, Global};
use tx_bytes::Bytes;
use tx_model::{Cat, LineState};

/// What stands in a line, the state after it and what is left; or nothing.
type Plain = Option<(Scan, LineState, Bytes)>;

/// What stands next in a line. The only error is want of memory.
pub fn plain(alloc: Global, cats: &Cats, state: LineState, line: &[u8]) -> Result<Plain, AllocError>
    ensures { IfOk result (λ found. IsPlain (found_in (category_by cats.now) state line.now) found) }
{
    let front = fronted(alloc, cats, line)?;
    match front.as_slice() {
        [] => Ok(None),
        [byte, rest @ ..] => {
            if gives_nothing(state, cats.of(*byte)) {
                plain(alloc, cats, state, rest)
            } else {
                token(alloc, cats, state, *byte, rest)
            }
        }
    }
}

/// What this byte and the bytes behind it give. The only error is want of memory.
fn token(
    alloc: Global,
    cats: &Cats,
    state: LineState,
    byte: u8,
    rest: &[u8],
) -> Result<Plain, AllocError>
    ensures { IfOk result (λ found. IsPlain (token_at (category_by cats.now) state (category_by cats.now byte) byte rest.now) found) }
{
    let cat = cats.of(byte);
    match cat {
        Cat::Escape => name(alloc, cats, rest),
        Cat::LineEnd => line_end(alloc, state),
        Cat::Comment => Ok(None),
        Cat::Invalid => Ok(Some((Scan::Invalid, state, before(alloc, byte, rest)?))),
        Cat::Space => Ok(Some((
            Scan::Char(Cat::Space, b' '),
            LineState::SkippingBlanks,
            Bytes::from_slice(alloc, rest)?,
        ))),
        Cat::Active => Ok(Some((
            Scan::Active(byte),
            LineState::MidLine,
            Bytes::from_slice(alloc, rest)?,
        ))),
        Cat::Begin
        | Cat::End
        | Cat::Math
        | Cat::Tab
        | Cat::Parameter
        | Cat::Superscript
        | Cat::Subscript
        | Cat::Ignored
        | Cat::Letter
        | Cat::Other => Ok(Some((
            Scan::Char(cat, byte),
            LineState::MidLine,
            Bytes::from_slice(alloc, rest)?,
        ))),
    }
}

/// What a line's end gives.
fn line_end(alloc: Global, state: LineState) -> Result<Plain, AllocError>
    ensures { IfOk result (λ found. IsPlain (at_line_end state) found) }
{
    match state {
        LineState::NewLine => Ok(Some((Scan::Par, LineState::NewLine, Bytes::new(alloc)))),
        LineState::MidLine => Ok(Some((
            Scan::Char(Cat::Space, b' '),
            LineState::NewLine,
            Bytes::new(alloc),
        ))),
        LineState::SkippingBlanks => Ok(None),
    }
}

/// The name behind an escape byte. The only error is want of memory.
fn name(alloc: Global, cats: &Cats, line: &[u8]) -> Result<Plain, AllocError>
    ensures { IfOk result (λ found. IsPlain (name_at_of (category_by cats.now) (fronted_of (category_by cats.now) line.now)) found) }
{
    let front = fronted(alloc, cats, line)?;
    match front.as_slice() {
        [] => Ok(Some((
            Scan::NameText(Bytes::new(alloc)),
            LineState::MidLine,
            Bytes::new(alloc),
        ))),
        [byte, rest @ ..] => name_from(alloc, cats, *byte, rest),
    }
}

/// The name that begins with this byte. The only error is want of memory.
fn name_from(alloc: Global, cats: &Cats, byte: u8, rest: &[u8]) -> Result<Plain, AllocError>
    ensures { IfOk result (λ found. IsPlain (name_from_of (category_by cats.now) byte rest.now) found) }
{
    if is_letter(cats.of(byte)) {
        let run = letters(alloc, cats, rest)?;
        let (letters, behind) = run;
        let text = before(alloc, byte, letters.as_slice())?;
        Ok(Some((Scan::NameText(text), LineState::SkippingBlanks, behind)))
    } else {
        let text = Bytes::from_slice(alloc, &[byte])?;
        let behind = Bytes::from_slice(alloc, rest)?;
        Ok(Some((Scan::NameText(text), after_one(cats.of(byte)), behind)))
    }
}

/// The letters in front of a line, and what follows them. The only error is want of memory.
fn letters(alloc: Global, cats: &Cats, line: &[u8]) -> Result<(Bytes, Bytes), AllocError>
    ensures { IfOk result (λ run. (run.0 ≡ (letters_in (category_by cats.now) line.now).letters) × (run.1 ≡ (letters_in (category_by cats.now) line.now).behind)) }
{
    let front = fronted(alloc, cats, line)?;
    match front.as_slice() {
        [] => Ok((Bytes::new(alloc), Bytes::new(alloc))),
        [byte, rest @ ..] => {
            if is_letter(cats.of(*byte)) {
                let run = letters(alloc, cats, rest)?;
                let (letters, behind) = run;
                let letters = before(alloc, *byte, letters.as_slice())?;
                Ok((letters, behind))
            } else {
                let behind = before(alloc, *byte, rest)?;
                Ok((Bytes::new(alloc), behind))
            }
        }
    }
}

/// A line with the byte in front that the scanner reads there. The only error is want of memory.
fn fronted(alloc: Global, cats: &Cats, line: &[u8]) -> Result<Bytes, AllocError>
    ensures { IfOk result (λ front. front ≡ fronted_of (category_by cats.now) line.now) }
{
    match line {
        [] => Ok(Bytes::new(alloc)),
        [byte, ..] => {
            let first = Front {
                byte: *byte,
                behind: 1,
            };
            match notation(cats, line, first) {
                None => Bytes::from_slice(alloc, line),
                Some(stands) => {
                    let shorter = before(alloc, stands.byte, &line[stands.behind..])?;
                    fronted(alloc, cats, shorter.as_slice())
                }
            }
        }
    }
}

/// A byte before others. The only error is want of memory.
fn before(alloc: Global, byte: u8, bytes: &[u8]) -> Result<Bytes, AllocError>
    ensures { IfOk result (λ all. all ≡ byte ∷ bytes.now) }
{
    let mut all = Vec::new(alloc);
    all.push(byte)?;
    all.extend_from_slice(bytes)?;
    Ok(Bytes(all))
}

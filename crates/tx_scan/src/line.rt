//! What stands next in a line.

ghost use Rattle.std.specs.Prelude.{◌≡◌, ℕ, ◌<◌, ◌≤◌, true, false, List, Option, Some, None, length, drop, IfOk, if◌then◌else◌};
ghost use Rattle.tx_model.specs.declared.category.LineState.TheVariants.{MidLine, SkippingBlanks};
ghost use Rattle.tx_model.specs.Scanner.{fronted, gives_nothing as gives_nothing_of, is_letter as is_letter_cat, is_space as is_space_cat, letters_in, name_at as name_at_of, name_from as name_from_of, at_line_end, token_at as token_at_of, found_in};
ghost use Rattle.tx_scan.specs.Scans.{category_by, rest_of, Fits, GoesOn, GivenAt, IsName, LooksInto};

use crate::cats::Cats;
use crate::notation::{Front, front_at};
use std::alloc::{AllocError, Global};
use tx_bytes::Bytes;
use tx_model::{Cat, LineState};

/// What the scanner finds.
#[derive(Debug, Drop)]
pub enum Scan {
    /// A character with its category.
    Char(Cat, u8),
    /// A control sequence, by its text.
    NameText(Bytes),
    /// An active character.
    Active(u8),
    /// The token `\par` that the end of an empty line gives.
    Par,
    /// The text has no further token.
    End,
    /// A byte of the category of invalid ones stands next.
    Invalid,
    /// Memory was wanting.
    Memory,
}

/// What is left of a line: the bytes from a place on, and before them a byte that was read of the line and
/// is not used.
#[derive(Clone, Copy)]
pub struct Left {
    pub front: Option<u8>,
    pub from: usize,
}

impl Left {
    /// The bytes from this place on.
    fn at(from: usize) -> Self
        ensures { result ≡ record { front = None; from = from } }
    {
        Left { front: None, from }
    }

    /// This byte, and the bytes behind it.
    fn before(first: Front) -> Self
        ensures { result ≡ record { front = Some first.byte; from = first.behind } }
    {
        Left {
            front: Some(first.byte),
            from: first.behind,
        }
    }
}

/// What stands next in a line.
pub enum InLine {
    /// This, after which the scanner is in that state, and that is left of the line.
    Found(Scan, LineState, Left),
    /// Nothing more.
    Used,
    /// Memory was wanting.
    Memory,
}

/// A name of letters, and what is left of the line behind it.
struct NameRun {
    text: Bytes,
    left: Left,
}

/// What stands next in a line of which so many bytes were read. *TeX: The Program*, part 24.
pub fn in_line(alloc: Global, cats: &Cats, state: LineState, line: &[u8], read: usize) -> InLine
    requires { read ≤ length line.now }
    ensures { LooksInto (found_in (category_by cats.now) state (drop read line.now)) line.now result }
{
    match giving(cats, state, line, read) {
        None => InLine::Used,
        Some(first) => token_at(alloc, cats, state, line, first),
    }
}

/// Writes a byte that is left of a line, but stands for others, into the line, and says from where on the
/// line is left.
pub fn leave(line: &mut Bytes, left: Left) -> usize
    requires { Fits line.old left }
    ensures within { result ≤ length line.new }
    ensures rest { drop result line.new ≡ rest_of line.old left }
{
    match left.front {
        None => left.from,
        Some(byte) => {
            let at = left.from - 1;
            line.0[at] = byte;
            at
        }
    }
}

/// The first byte that gives something.
fn giving(cats: &Cats, state: LineState, line: &[u8], read: usize) -> Option<Front>
    requires { read ≤ length line.now }
    ensures goes_on { GoesOn line.now read result }
    ensures given { GivenAt (found_in (category_by cats.now) state (drop read line.now)) (category_by cats.now) state line.now result }
{
    let mut at = read;
    'bytes: while let Some(first) = front_at(cats, line, at) {
        if !gives_nothing(state, cats.of(first.byte)) {
            return Some(first);
        }
        at = first.behind;
    }
    None
}

/// What a byte that gives something, and the bytes behind it, give.
fn token_at(alloc: Global, cats: &Cats, state: LineState, line: &[u8], first: Front) -> InLine
    requires { (0 < first.behind) × (first.behind ≤ length line.now) }
    ensures { LooksInto (token_at_of (category_by cats.now) state (category_by cats.now first.byte) first.byte (drop first.behind line.now)) line.now result }
{
    let cat = cats.of(first.byte);
    let behind = Left::at(first.behind);
    match cat {
        Cat::Escape => name_at(alloc, cats, line, first.behind),
        Cat::LineEnd => line_end(state, line.len()),
        Cat::Space => InLine::Found(
            Scan::Char(Cat::Space, b' '),
            LineState::SkippingBlanks,
            behind,
        ),
        Cat::Active => InLine::Found(Scan::Active(first.byte), LineState::MidLine, behind),
        Cat::Comment => InLine::Used,
        Cat::Invalid => InLine::Found(Scan::Invalid, state, Left::before(first)),
        Cat::Begin
        | Cat::End
        | Cat::Math
        | Cat::Tab
        | Cat::Parameter
        | Cat::Superscript
        | Cat::Subscript
        | Cat::Ignored
        | Cat::Letter
        | Cat::Other => InLine::Found(Scan::Char(cat, first.byte), LineState::MidLine, behind),
    }
}

/// What the end of a line of so many bytes gives.
fn line_end(state: LineState, len: usize) -> InLine
    ensures { (line : List ℕ) → length line ≡ len → LooksInto (at_line_end state) line result }
{
    let none = Left::at(len);
    match state {
        LineState::NewLine => InLine::Found(Scan::Par, LineState::NewLine, none),
        LineState::MidLine => {
            InLine::Found(Scan::Char(Cat::Space, b' '), LineState::NewLine, none)
        }
        LineState::SkippingBlanks => InLine::Used,
    }
}

/// The control sequence whose name begins at this place, behind an escape byte.
fn name_at(alloc: Global, cats: &Cats, line: &[u8], at: usize) -> InLine
    requires { at ≤ length line.now }
    ensures { LooksInto (name_at_of (category_by cats.now) (fronted (category_by cats.now) (drop at line.now))) line.now result }
{
    match front_at(cats, line, at) {
        None => {
            let none = Left::at(line.len());
            InLine::Found(Scan::NameText(Bytes::new(alloc)), LineState::MidLine, none)
        }
        Some(first) => name_from(alloc, cats, line, first),
    }
}

/// The control sequence whose name begins with this byte.
fn name_from(alloc: Global, cats: &Cats, line: &[u8], first: Front) -> InLine
    requires { (0 < first.behind) × (first.behind ≤ length line.now) }
    ensures { LooksInto (name_from_of (category_by cats.now) first.byte (drop first.behind line.now)) line.now result }
{
    if is_letter(cats.of(first.byte)) {
        name_of_letters(alloc, cats, line, first)
    } else {
        name_of_one(alloc, cats, line, first)
    }
}

/// The control sequence whose name is a run of letters that begins with this byte.
fn name_of_letters(alloc: Global, cats: &Cats, line: &[u8], first: Front) -> InLine
    requires letter { is_letter_cat (category_by cats.now first.byte) ≡ true }
    requires within { first.behind ≤ length line.now }
    ensures { LooksInto (name_from_of (category_by cats.now) first.byte (drop first.behind line.now)) line.now result }
{
    match letters(alloc, cats, line, first) {
        Ok(name) => {
            let NameRun { text, left } = name;
            InLine::Found(Scan::NameText(text), LineState::SkippingBlanks, left)
        }
        Err(_) => InLine::Memory,
    }
}

/// The control sequence whose name is this byte alone.
fn name_of_one(alloc: Global, cats: &Cats, line: &[u8], first: Front) -> InLine
    requires other { is_letter_cat (category_by cats.now first.byte) ≡ false }
    requires within { first.behind ≤ length line.now }
    ensures { LooksInto (name_from_of (category_by cats.now) first.byte (drop first.behind line.now)) line.now result }
{
    let behind = Left::at(first.behind);
    match Bytes::from_slice(alloc, &[first.byte]) {
        Ok(text) => InLine::Found(Scan::NameText(text), after_one(cats.of(first.byte)), behind),
        Err(_) => InLine::Memory,
    }
}

/// The letters from this one on. The only error is want of memory.
fn letters(alloc: Global, cats: &Cats, line: &[u8], first: Front) -> Result<NameRun, AllocError>
    requires { first.behind ≤ length line.now }
    ensures { IfOk result (λ name. IsName first.byte (letters_in (category_by cats.now) (drop first.behind line.now)) line.now name) }
{
    let mut text = Vec::new(alloc);
    text.push(first.byte)?;
    let mut at = first.behind;
    'letters: while let Some(next) = front_at(cats, line, at) {
        if !is_letter(cats.of(next.byte)) {
            return Ok(NameRun {
                text: Bytes(text),
                left: Left::before(next),
            });
        }
        text.push(next.byte)?;
        at = next.behind;
    }
    Ok(NameRun {
        text: Bytes(text),
        left: Left::at(line.len()),
    })
}

/// The state after a name of one byte, of this category, that is no letter.
pub fn after_one(cat: Cat) -> LineState
    ensures { result ≡ (if is_space_cat cat then SkippingBlanks else MidLine) }
{
    if cat == Cat::Space {
        LineState::SkippingBlanks
    } else {
        LineState::MidLine
    }
}

/// Whether this is the category of letters.
pub fn is_letter(cat: Cat) -> bool
    ensures { result ≡ is_letter_cat cat }
{
    cat == Cat::Letter
}

/// Whether a byte of this category gives nothing in this state.
pub fn gives_nothing(state: LineState, cat: Cat) -> bool
    ensures { result ≡ gives_nothing_of state cat }
{
    match cat {
        Cat::Ignored => true,
        Cat::Space => state != LineState::MidLine,
        _ => false,
    }
}

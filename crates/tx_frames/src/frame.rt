//! Open readings, by what each is in the middle of its work.

ghost use Rattle.std.specs.Prelude.{◌≡◌};
ghost use Rattle.tx_frames.specs.Frames.{wish_of, text_wish as text_wish_of, list_wish as list_wish_of, stage_wish as stage_wish_of};
ghost use Rattle.tx_frames.specs.Knowledge.{Known, KnowsFrame, KnowsWish};

use crate::reading::{Reading, TextKind};
use tx_amounts::{Scan, ScanWish};
use tx_prims::primitives::Assignment;
use tx_tok::{Tok, Toks};
use tx_views::Sense;

/// How a reading takes its next item.
#[derive(Clone, Copy, Debug, PartialEq, Eq)]
pub enum Wish {
    /// A token as it stands.
    Plain,
    /// A token that can't be expanded; within an expanded text, where `\the` gives its tokens as they are, or not.
    Expanded(bool),
    /// The value of a reading within it.
    Within(Reading),
}

/// A text in braces that is read.
#[derive(Debug, Drop)]
pub struct Text {
    pub kind: TextKind,
    /// How many groups are open in it.
    pub groups: usize,
    pub tokens: Toks,
}

/// How far the reading of a list's value is.
#[derive(Clone, Copy, Debug, PartialEq, Eq)]
pub enum ListStage {
    /// Its first token is due.
    Start,
    /// The number of a register of `\toks` is due.
    Register,
    /// This left brace was taken, and the text behind it is due.
    Braced(u8),
}

/// How far the expansion of a primitive is. *TeX: The Program*, parts 25 and 27.
#[derive(Clone, Copy, Debug, PartialEq, Eq)]
pub enum Stage {
    /// `\the`, whose token is due.
    The,
    /// `\the`, before a register of `\toks` whose number is due.
    TheRegister,
    /// `\the`, before the quantity that begins with this token, which means this.
    TheQuantity(Tok, Sense),
    /// `\number`, whose number is due.
    Number,
    /// `\romannumeral`, whose number is due.
    Roman,
    /// `\string`, whose token is due.
    String,
    /// `\meaning`, whose token is due.
    Meaning,
}

/// An open reading.
#[derive(Debug, Drop)]
pub enum Frame {
    /// A left brace.
    LeftBrace,
    /// An equals sign.
    Equals,
    /// A number, a dimension, glue or a keyword: the reading, and how far it is.
    Scan(Reading, Scan),
    /// A quantity that began with this token, which means a register or a table of codes, and whose number is due.
    Quantity(Tok, Assignment),
    /// A text in braces.
    Text(Text),
    /// The value of a list.
    List(ListStage),
    /// An expansion, within an expanded text or not.
    Expansion(bool, Stage),
}

impl Frame {
    /// How the reading takes its next item.
    pub fn wish(&self) -> Wish
        ensures wish { result ≡ wish_of self.now }
        ensures knows { (known : Known) → KnowsFrame known self.now → KnowsWish known result }
    {
        match self {
            Frame::LeftBrace | Frame::Equals => Wish::Expanded(false),
            Frame::Scan(reading, scan) => scan_wish(*reading, scan),
            Frame::Quantity(_, _) => Wish::Within(Reading::Number),
            Frame::Text(text) => text_wish(text.kind),
            Frame::List(stage) => list_wish(*stage),
            Frame::Expansion(_, stage) => stage_wish(*stage),
        }
    }
}

/// How a scan takes its next item.
fn scan_wish(reading: Reading, scan: &Scan) -> Wish
    ensures { result ≡ wish_of (Frame.Scan reading scan.now) }
{
    let _ = reading;
    match scan.command() {
        Some((token, sense)) => Wish::Within(Reading::Quantity(token, sense)),
        None => match scan.wish() {
            ScanWish::Expanded => Wish::Expanded(false),
            ScanWish::Plain => Wish::Plain,
            ScanWish::Quantity => Wish::Expanded(false),
        },
    }
}

/// How a text takes its next token.
fn text_wish(kind: TextKind) -> Wish
    ensures { result ≡ text_wish_of kind }
{
    match kind {
        TextKind::Plain | TextKind::Body => Wish::Plain,
        TextKind::Expanded | TextKind::ExpandedBody => Wish::Expanded(true),
    }
}

/// How the value of a list takes its next item.
fn list_wish(stage: ListStage) -> Wish
    ensures { result ≡ list_wish_of stage }
{
    match stage {
        ListStage::Start => Wish::Expanded(false),
        ListStage::Register => Wish::Within(Reading::Number),
        ListStage::Braced(_) => Wish::Within(Reading::Text(TextKind::Plain)),
    }
}

/// How an expansion takes its next item.
fn stage_wish(stage: Stage) -> Wish
    ensures { result ≡ stage_wish_of stage }
{
    match stage {
        Stage::The => Wish::Expanded(false),
        Stage::TheRegister | Stage::Number | Stage::Roman => Wish::Within(Reading::Number),
        Stage::TheQuantity(token, sense) => Wish::Within(Reading::Quantity(token, sense)),
        Stage::String | Stage::Meaning => Wish::Plain,
    }
}

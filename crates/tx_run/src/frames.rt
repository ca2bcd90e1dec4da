//! The readings that are open within main control's command.

ghost use Rattle.std.specs.Prelude.{◌≡◌, [], ◌∷◌, IfSome, IfNone, OnOk, OnErr};
ghost use Rattle.tx_frames.specs.declared.frame.Frame.TheVariants as frame;
ghost use Rattle.tx_run.specs.Readings.{depth_in, start_counts, start_of, reading_counts};

use crate::doing::Start;
use std::alloc::{AllocError, Global};
use std::marker::Model;
use tx_frames::{Frame, Reading};
use tx_prims::primitives::Primitive;
use tx_views::Sense;

/// Open readings, seen with the innermost first.
#[derive(Debug, Drop)]
pub(crate) struct Frames {
    frames: Vec<Frame>,
    /// How many of them count.
    depth: usize,
}

impl Model for Frames {
    ghost use Rattle.std.specs.Prelude.{◌≡◌, List, reverse};
    ghost use Rattle.tx_frames.specs.declared.frame.Frame.{Frame};
    ghost use Rattle.tx_run.specs.Readings.{depth_in};

    ghost Value = { List Frame };

    ghost view = { λ s. reverse s.frames.items };

    ghost invariant = { λ s. s.depth ≡ depth_in (reverse s.frames.items) };
}

impl Frames {
    /// No reading is open.
    pub(crate) fn new(alloc: Global) -> Self
        ensures { result ≡ [] }
    {
        Frames {
            frames: Vec::new(alloc),
            depth: 0,
        }
    }

    /// How many of them count.
    pub(crate) fn depth(&self) -> usize
        ensures { result ≡ depth_in self.now }
    {
        self.depth
    }

    /// The innermost one, if there is one.
    pub(crate) fn last(&self) -> Option<&Frame>
        ensures some { IfSome result (λ f. (rest : _) × (self.now ≡ f.now ∷ rest)) }
        ensures none { IfNone result (self.now ≡ []) }
    {
        self.frames.as_slice().last()
    }

    /// Opens a reading within the innermost one. The only error is want of memory, which changes nothing.
    pub(crate) fn push(&mut self, frame: Frame) -> Result<(), AllocError>
        ensures ok { OnOk result (self.new ≡ frame ∷ self.old) }
        ensures err { OnErr result (self.new ≡ self.old) }
    {
        let depth = match self.depth.checked_add(counts(start_of(&frame))) {
            Some(depth) => depth,
            None => return Err(AllocError),
        };
        match self.frames.push(frame) {
            Ok(()) => {
                self.depth = depth;
                Ok(())
            }
            Err(_) => Err(AllocError),
        }
    }

    /// Takes the innermost one out. None comes exactly where none is open.
    pub(crate) fn pop(&mut self) -> Option<Frame>
        ensures some { IfSome result (λ f. self.old ≡ f ∷ self.new) }
        ensures none { IfNone result (self.old ≡ []) }
        ensures unchanged { IfNone result (self.new ≡ []) }
    {
        let frame = self.frames.pop()?;
        self.depth -= counts(start_of(&frame));
        Some(frame)
    }
}

/// How a reading of which a frame is the middle began.
pub(crate) fn start_of(frame: &Frame) -> Start
    ensures { result ≡ start_of frame.now }
{
    match frame {
        Frame::LeftBrace => Start::Within(Reading::LeftBrace),
        Frame::Equals => Start::Within(Reading::Equals),
        Frame::Scan(reading, _) => Start::Within(*reading),
        Frame::Quantity(token, assignment) => Start::Within(Reading::Quantity(
            *token,
            Sense::Primitive(Primitive::Assignment(*assignment)),
        )),
        Frame::Text(text) => Start::Within(Reading::Text(text.kind)),
        Frame::List(_) => Start::Within(Reading::List),
        Frame::Expansion(text, _) => Start::Expanded(*text),
    }
}

/// How much a reading counts: the readings that count are limited, one within another.
pub(crate) fn counts(start: Start) -> usize
    ensures { result ≡ start_counts start }
{
    match start {
        Start::Expanded(_) => 0,
        Start::Within(reading) => reading_counts(reading),
    }
}

/// How much a reading within another one counts.
fn reading_counts(reading: Reading) -> usize
    ensures { result ≡ reading_counts reading }
{
    match reading {
        Reading::LeftBrace | Reading::Equals | Reading::Quantity(_, _) | Reading::List => 0,
        Reading::Number
        | Reading::Dimension(_)
        | Reading::Glue(_)
        | Reading::Keyword(_)
        | Reading::Text(_) => 1,
    }
}

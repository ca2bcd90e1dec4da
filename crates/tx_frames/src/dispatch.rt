//! What an item makes of any open reading, and how readings begin.
#![tactic(auto, unfolding(tx_private::specs::Moves::move_in))]

ghost use Rattle.std.specs.Prelude.{◌≡◌};
ghost use Rattle.tx_private.specs.World.{World};
ghost use Rattle.tx_views.specs.Views.{View};
ghost use Rattle.tx_frames.specs.Kinds.{kind_in};
ghost use Rattle.tx_frames.specs.Answers.{BecomesGiven, BecomesBegun, Suits};
ghost use Rattle.tx_frames.specs.Knowledge.{Known, KnowsAnswer, KnowsFrame, KnowsItem, KnowsReading};

use crate::answer::Answer;
use crate::expansion::expansion_given;
use crate::frame::{Frame, ListStage, Text};
use crate::list::list_given;
use crate::quantity::{quantity, quantity_given};
use crate::reading::{Reading, TextKind};
use crate::scan::scan_given;
use crate::simple::{brace_given, equals_given};
use crate::text::text_given;
use crate::value::Item;
use std::alloc::Global;
use tx_amounts::Scan;
use tx_tok::Toks;

/// Begins a reading.
pub fn begin(alloc: Global, reading: Reading) -> Answer
    ensures becomes { (view : View) (w : World) → BecomesBegun view (kind_in view reading) w result }
    ensures knows { (known : Known) → KnowsReading known reading → KnowsAnswer known result }
{
    let none = Toks::new(alloc);
    match reading {
        Reading::LeftBrace => Answer::Goes(Frame::LeftBrace, none),
        Reading::Equals => Answer::Goes(Frame::Equals, none),
        Reading::Number => Answer::Goes(Frame::Scan(reading, Scan::number(alloc)), none),
        Reading::Dimension(mu) => {
            Answer::Goes(Frame::Scan(reading, Scan::dimension(alloc, mu)), none)
        }
        Reading::Glue(mu) => Answer::Goes(Frame::Scan(reading, Scan::glue(alloc, mu)), none),
        Reading::Keyword(set) => Answer::Goes(
            Frame::Scan(reading, Scan::keyword(alloc, set)),
            none,
        ),
        Reading::Quantity(token, sense) => quantity(alloc, token, sense),
        Reading::Text(kind) => text(alloc, kind),
        Reading::List => Answer::Goes(Frame::List(ListStage::Start), none),
    }
}

/// Begins a text.
fn text(alloc: Global, kind: TextKind) -> Answer
    ensures becomes { (view : View) (w : World) → BecomesBegun view (kind_in view (Reading.Text kind)) w result }
    ensures knows { (known : Known) → KnowsAnswer known result }
{
    Answer::Goes(
        Frame::Text(Text {
            kind,
            groups: 0,
            tokens: Toks::new(alloc),
        }),
        Toks::new(alloc),
    )
}

/// Gives an item to an open reading, which wished for it.
pub fn feed(alloc: Global, frame: Frame, item: Item) -> Answer
    requires { Suits frame item }
    ensures becomes { (view : View) (w : World) → BecomesGiven view frame item w result }
    ensures knows { (known : Known) → KnowsFrame known frame → KnowsItem known item → KnowsAnswer known result }
{
    match frame {
        Frame::LeftBrace => brace_given(alloc, item),
        Frame::Equals => equals_given(alloc, item),
        Frame::Scan(reading, scan) => scan_given(reading, scan, item),
        Frame::Quantity(token, assignment) => quantity_given(token, assignment, item),
        Frame::Text(text) => text_given(alloc, text, item),
        Frame::List(stage) => list_given(alloc, stage, item),
        Frame::Expansion(text, stage) => expansion_given(alloc, text, stage, item),
    }
}

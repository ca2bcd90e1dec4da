//! What comes of an item for an open reading.

ghost use Rattle.std.specs.Prelude.{◌≡◌, None};

use crate::frame::Frame;
use crate::value::Value;
use tx_assign::Refused;
use tx_num::{ErrorNo, Quant};
use tx_tok::{ListRef, Tok, Toks};
use tx_views::{Place, Sense};

/// A text whose tokens are put in front.
#[derive(Clone, Copy, Debug, PartialEq, Eq)]
pub enum Print {
    /// What `\string` gives of a token.
    Token(Tok),
    /// What `\meaning` gives.
    Meaning(Sense),
    /// A number in decimal.
    Number(i32),
    /// A number in Roman numerals.
    Roman(i32),
    /// The name of the job.
    JobName,
}

/// The last thing that a reading does, where that needs what only others know.
#[derive(Debug, Drop)]
pub enum Work {
    /// It ends with the quantity that stands at a place.
    Amount(Place),
    /// It ends with the list that stands at a place.
    ListAt(Place),
    /// The tokens of the list at a place are the value of `\the`: within an expanded text as they are, else they
    /// are put in front, and the reading begins again.
    TheList(bool, Place),
    /// The same with the text of a quantity.
    TheAmount(bool, Quant),
    /// A macro's text is put in front, and the reading begins again.
    Body(ListRef),
    /// A text is put in front, and the reading begins again.
    Print(Print),
    /// It ends with these tokens, which are stored.
    Store(Toks),
    /// `\the` can't be used with what means this.
    NoQuantity(Sense),
}

/// What comes of an item for an open reading. Tokens that stand in an answer are put in front of what is pending
/// before the reading does what the answer says.
#[derive(Debug, Drop)]
pub enum Answer {
    /// It goes on so, and takes its next item.
    Goes(Frame, Toks),
    /// It begins again.
    Again(Toks),
    /// It ends with a value.
    Done(Value, Toks),
    /// It is an error.
    Wrong(Refused),
    /// It does one thing more.
    Works(Work),
    /// Memory was wanting.
    Memory,
}

impl Answer {
    /// The error of this number and case, whose text shows this number.
    pub(crate) fn error(no: u8, case: u8, value: i64) -> Answer
        ensures { result ≡ Answer.Wrong (record { number = record { no = no; case = case; value = value }; limit = None }) }
    {
        Answer::Wrong(Refused {
            number: ErrorNo { no, case, value },
            limit: None,
        })
    }
}

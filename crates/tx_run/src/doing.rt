//! What a run is about to do.

use tx_assign::Prefixes;
use tx_describe::Description;
use tx_eqtb::Meaning;
use tx_frames::{Reading, Value};
use tx_input::NameLimit;
use tx_node::BoxNode;
use tx_num::ErrorNo;
use tx_tok::{ListRef, Tok, Toks};
use tx_views::Place;

/// A reading that begins.
#[derive(Clone, Copy, Debug, PartialEq, Eq)]
pub enum Start {
    /// An expanded token, within an expanded text or not.
    Expanded(bool),
    /// A reading.
    Within(Reading),
}

/// Whoever takes a token.
#[derive(Clone, Copy, Debug, PartialEq, Eq)]
pub enum Taker {
    /// The innermost reading, which takes it as it stands.
    Innermost,
    /// The reading of an expanded token, within an expanded text or not, for the innermost reading.
    Expanded(bool),
}

/// What is done with a list that is copied.
#[derive(Clone, Copy, Debug, PartialEq, Eq)]
pub enum Use {
    /// It is the reading's value.
    Value,
    /// It is put in front, and the reading begins again.
    Front,
}

/// What is done with a text that is printed.
#[derive(Clone, Copy, Debug, PartialEq, Eq)]
pub enum Told {
    /// It is a line of the log.
    Log,
    /// It is what this error shows, which ends the region.
    Error(ErrorNo),
}

/// As what a list is assigned.
#[derive(Clone, Copy, Debug, PartialEq, Eq)]
pub enum Stored {
    /// As a list.
    List,
    /// As a macro, which may be long and protected.
    Macro(bool, bool),
}

/// What a run is about to do.
#[derive(Debug, Drop)]
pub enum Doing {
    /// The innermost reading takes its next item.
    Wishes,
    /// Main control begins again.
    Restarts,
    /// A reading within the innermost one begins.
    Begins(Start),
    /// The innermost reading is given a value.
    Gives(Value),
    /// The same with the tokens of a list.
    GivesList(ListRef),
    /// A name was taken, and its number is looked for.
    Finds(Taker),
    /// A name was taken that is new, and it gets a number.
    Interns(Taker),
    /// A name was taken that is beyond this limit.
    Full(NameLimit),
    /// A token was taken.
    Took(Taker, Tok),
    /// The name with this number was taken behind a backquote, and its text is asked for.
    Letter(u64),
    /// This token was taken behind a backquote, and it has this code.
    Lettered(Tok, Option<u8>),
    /// A list is asked for by its number in the pool.
    Reads(Start, Use, u64),
    /// A list was copied.
    Copies(Start, Use, Toks),
    /// A text is printed, whose tokens are put in front.
    Prints(Start, Description),
    /// A text is printed, which is told.
    Tells(Told, Description),
    /// A list is shared, and assigned to a place.
    Shares(Prefixes, Place, Stored, Toks),
    /// The list of a meaning, which has this number in the pool, is held once more, and the meaning is assigned.
    Takes(Prefixes, Place, Meaning<BoxNode>, u64),
    /// A meaning is assigned. What it refers to is held for it.
    Assigns(Prefixes, Place, Meaning<BoxNode>),
    /// The innermost group ends.
    Closes,
    /// A paragraph's lines hang no more.
    Straightens,
    /// Memory was wanting for an answer, or for what it led to.
    NoMemory,
}

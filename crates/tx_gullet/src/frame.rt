//! Open readings.

ghost use Rattle.std.specs.Prelude.{◌≡◌};
ghost use Rattle.tx_gullet.specs.Frames.{wish_of};

use crate::meaning::Meaning;
use tx_model::Error;
use tx_tok::Tok;

/// How a reading takes its next token.
#[derive(Clone, Copy, Debug, PartialEq, Eq)]
pub(crate) enum Wish {
    /// As it stands.
    Plain,
    /// Expanded.
    Expanded,
}

/// A balanced text that is read.
#[derive(Drop)]
pub(crate) struct BalancedText {
    /// The number of groups that are open in it.
    pub(crate) groups: usize,
    pub(crate) tokens: Vec<Tok>,
}

/// The innermost open reading, by what it was given.
#[derive(Drop)]
pub(crate) enum Frame {
    /// Main control, at the beginning of a command.
    Control,
    /// `\message`, whose left brace is due.
    Message,
    /// `\def`, whose name is due.
    Definition,
    /// `\def` with this name, whose left brace is due.
    DefinitionOf(u64),
    /// A balanced text, whose tokens are taken so.
    Balanced(Wish, BalancedText),
}

/// An open reading that waits for the value of a reading within it.
#[derive(Clone, Copy, Debug)]
pub(crate) enum Waiting {
    /// `\message`, for its text.
    Message,
    /// `\def` with this name, for its body.
    Definition(u64),
}

/// What a reading is given.
#[derive(Drop)]
pub(crate) enum Item {
    /// A token as it stands, with its meaning.
    Token(Tok, Meaning),
    /// A token that can't be expanded, with its meaning.
    Expanded(Tok, Meaning),
}

/// What comes of the end of the text.
#[derive(Clone, Copy, Debug)]
pub(crate) enum AtEnd {
    /// Main control ends there.
    Done,
    /// It is an error.
    Wrong(Error),
}

/// What comes of an item.
#[derive(Drop)]
pub(crate) enum Answer {
    /// The reading goes on so.
    Goes(Frame),
    /// It waits for the value of a reading within it, which begins so.
    Within(Waiting, Frame),
    /// Main control begins its next command.
    Again,
    /// The reading of a balanced text ends with these tokens.
    Done(Vec<Tok>),
    /// It is an error.
    Wrong(Error),
    /// Memory was wanting.
    Memory,
}

impl Frame {
    /// How the reading takes its next token.
    pub(crate) fn wish(&self) -> Wish
        ensures { result ≡ wish_of self.now }
    {
        match self {
            Frame::Control => Wish::Expanded,
            Frame::Message | Frame::Definition | Frame::DefinitionOf(_) => Wish::Plain,
            Frame::Balanced(wish, _) => *wish,
        }
    }
}

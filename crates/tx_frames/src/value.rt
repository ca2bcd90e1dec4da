//! What readings give, and what they are given.

use tx_num::Quant;
use tx_tok::{Tok, Toks};
use tx_views::Sense;

/// The value of a reading.
#[derive(Debug, Drop)]
pub enum Value {
    /// A token that can't be expanded, with its meaning.
    Command(Tok, Sense),
    /// The end of the text, in place of such a token.
    TextEnd,
    /// Tokens.
    Tokens(Toks),
    /// A quantity.
    Amount(Quant),
    /// A keyword by its place in its set, or 255.
    Word(u8),
    /// What was looked for, or that it isn't there.
    Nothing,
}

/// What a reading is given.
#[derive(Debug, Drop)]
pub enum Item {
    /// A token as it stands, with its meaning.
    Token(Tok, Sense),
    /// The end of the text, in place of such a token.
    End,
    /// The value of a reading within it.
    Given(Value),
}

//! Meanings of tokens.

use std::rc::Rc;
use tx_model::{Cat, Primitive};
use tx_tok::Tok;

/// The meaning of a token. *The TeXbook*, chapter 20.
#[derive(Drop)]
pub(crate) enum Meaning {
    Undefined,
    Primitive(Primitive),
    /// A macro without parameters, by the tokens that it stands for.
    Macro(Rc<Vec<Tok>>),
    Character(Cat, u8),
}

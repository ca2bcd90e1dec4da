//! Quantities that have begun.

use tx_tok::Tok;
use tx_views::Sense;

/// The command with which a quantity begins: a token with its meaning.
#[derive(Clone, Copy, Debug)]
pub(crate) struct Begun {
    pub(crate) token: Tok,
    pub(crate) sense: Sense,
}

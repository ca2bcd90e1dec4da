//! The tokens of a list that are left.

ghost use Rattle.std.specs.Prelude.{◌≡◌, drop, slice_get};

use std::marker::Model;
use tx_tok::{Tok, Toks};

/// The tokens of a list that are left.
#[derive(Debug, Drop)]
pub(crate) struct Unread {
    tokens: Toks,
    from: usize,
}

impl Model for Unread {
    ghost use Rattle.std.specs.Prelude.{List, drop};
    ghost use Rattle.tx_tok.specs.declared.tok.Tok.{Tok};

    ghost Value = { List Tok };

    ghost view = { λ u. drop u.from u.tokens };
}

impl Unread {
    /// All tokens of a list.
    pub(crate) fn new(tokens: Toks) -> Self
        ensures { result ≡ tokens }
    {
        Unread { tokens, from: 0 }
    }

    /// The first of them, or None where none is left.
    pub(crate) fn first(&self) -> Option<Tok>
        ensures { result ≡ slice_get self.now 0 }
    {
        self.tokens.as_slice().get(self.from).copied()
    }

    /// Leaves out the first of them, if there is one.
    pub(crate) fn skip_first(&mut self)
        ensures { self.new ≡ drop 1 self.old }
    {
        if self.from < self.tokens.len() {
            self.from += 1;
        }
    }
}

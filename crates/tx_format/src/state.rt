//! The state that is frozen.

use std::marker::Model;
use tx_bytes::{Bytes, Files};
use tx_eqtb::Frozen;
use tx_node::BoxNode;
use tx_tok::Toks;

/// Texts in their order.
#[derive(Debug, Drop)]
pub struct Texts(pub Vec<Bytes>);

impl Model for Texts {
    ghost use Rattle.std.specs.Prelude.{ℕ, List};

    ghost Value = { List (List ℕ) };

    ghost view = { λ t. t.0.items };
}

/// Lists of tokens in their order.
#[derive(Debug, Drop)]
pub struct Lists(pub Vec<Toks>);

impl Model for Lists {
    ghost use Rattle.std.specs.Prelude.{List};
    ghost use Rattle.tx_tok.specs.declared.tok.Tok.{Tok};

    ghost Value = { List (List Tok) };

    ghost view = { λ l. l.0.items };
}

/// What a format has of the state: what every address means, the texts of names by their numbers, the
/// lists of tokens by theirs, and the files.
#[derive(Drop)]
pub struct Engineless {
    pub frozen: Frozen<BoxNode>,
    pub names: Texts,
    pub lists: Lists,
    pub files: Files,
}

//! Tokens, lists of tokens and references to lists.

ghost use Rattle.std.specs.Prelude.{◌≡◌, ◌==◌, [], length};

use std::alloc::Global;
use std::marker::Model;
use tx_model::Cat;

/// A token. *TeX: The Program*, part 20.
#[derive(Clone, Copy, Debug, PartialEq, Eq)]
pub enum Tok {
    /// A character with its category.
    Char(Cat, u8),
    /// A control sequence, by the number of its name.
    Name(u64),
    /// An active character.
    Active(u8),
    /// A macro's parameter, by its number.
    Param(u8),
    /// What stands between a macro's parameter text and its body.
    Stop,
}

/// A list of tokens.
#[derive(Debug, Drop)]
pub struct Toks(pub Vec<Tok>);

impl Model for Toks {
    ghost use Rattle.std.specs.Prelude.{List};
    ghost use Rattle.tx_tok.specs.declared.tok.Tok.{Tok};

    ghost Value = { List Tok };

    ghost view = { λ t. t.0.items };
}

impl Toks {
    /// No tokens.
    pub fn new(alloc: Global) -> Self
        ensures { result ≡ [] }
    {
        Toks(Vec::new(alloc))
    }

    /// The tokens.
    pub fn as_slice(&self) -> &[Tok]
        ensures { result.now ≡ self.now }
    {
        self.0.as_slice()
    }

    /// The number of tokens.
    pub fn len(&self) -> usize
        ensures { result ≡ length self.now }
    {
        self.0.len()
    }

    /// Whether there are no tokens.
    pub fn is_empty(&self) -> bool
        ensures { result ≡ (length self.now == 0) }
    {
        self.0.is_empty()
    }
}

/// A reference to a list of tokens.
#[derive(Clone, Copy, Debug, PartialEq, Eq)]
pub enum ListRef {
    /// The list without tokens.
    Empty,
    /// A list of the format, by its place.
    Frozen(u32),
    /// A list of the pool, by its number.
    Pooled(u64),
}

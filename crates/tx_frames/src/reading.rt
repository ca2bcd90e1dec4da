//! The readings that stand within others.

use tx_quant::KeySet;
use tx_tok::Tok;
use tx_views::Sense;

/// A text in braces, by what is read of it. *TeX: The Program*, sections 473 to 477.
#[derive(Clone, Copy, Debug, PartialEq, Eq)]
pub enum TextKind {
    /// The tokens as they stand.
    Plain,
    /// The tokens to which they expand.
    Expanded,
    /// The body of a definition, as it stands.
    Body,
    /// The body of a definition, expanded.
    ExpandedBody,
}

/// A reading that stands within another one. *TeX: The Program*, parts 26 and 27.
#[derive(Clone, Copy, Debug, PartialEq, Eq)]
pub enum Reading {
    /// A left brace, behind spaces and `\relax`.
    LeftBrace,
    /// An equals sign, or nothing.
    Equals,
    /// A number.
    Number,
    /// A dimension, measured in mu where it says so.
    Dimension(bool),
    /// Glue, measured in mu where it says so.
    Glue(bool),
    /// One of the keywords of a set, or none.
    Keyword(KeySet),
    /// The quantity that begins with this token, which means this.
    Quantity(Tok, Sense),
    /// What stands behind a left brace, up to its right brace.
    Text(TextKind),
    /// The value of a list of tokens.
    List,
}

//! The quantities that readings give, and how the automata of the readings answer.

ghost use Rattle.std.specs.Prelude.{◌≡◌, SomeIff};
ghost use Rattle.tx_num.specs.Ranges.{IsInteger, integer};

use crate::glue::GlueSpec;
use crate::points::Sp;

/// The kinds of quantity.
#[derive(Clone, Copy, Debug, PartialEq, Eq)]
pub enum QuantKind {
    /// An integer.
    Int,
    /// A dimension.
    Dim,
    /// Glue.
    Glue,
    /// Math glue, measured in mu.
    Mu,
}

/// A quantity.
#[derive(Clone, Copy, Debug, PartialEq, Eq)]
pub enum Quant {
    /// An integer, from -(2^31-1) to 2^31-1.
    Int(i32),
    /// A dimension.
    Dim(Sp),
    /// Glue.
    Glue(GlueSpec),
    /// Math glue.
    Mu(GlueSpec),
}

/// A number as an integer of TeX, which is below 2^31 in absolute value (*TeX: The Program*,
/// section 445). None comes exactly where it is none, and so at -2^31.
pub fn integer(value: i64) -> Option<i32>
    ensures value { result ≡ integer value }
    ensures cases { SomeIff result (IsInteger value) value }
{
    if value.unsigned_abs() < 1 << 31 {
        Some(value as i32)
    } else {
        None
    }
}

/// How the next token of a reading is to be taken.
#[derive(Clone, Copy, Debug, PartialEq, Eq)]
pub enum Want {
    /// An expanded token.
    Expanded,
    /// An expanded token that may begin an internal quantity.
    Start,
    /// A token that is not expanded, after a backquote.
    Plain,
    /// A factor of this kind.
    Factor(QuantKind),
}

/// An error that ends a region.
#[derive(Clone, Copy, Debug, PartialEq, Eq)]
pub struct ErrorNo {
    /// The number of the error.
    pub no: u8,
    /// The place of its text among those of that number, counted from 0.
    pub case: u8,
    /// The number that its text shows, or 0.
    pub value: i64,
}

/// The answer of a reading that was fed one token.
#[derive(Clone, Copy, Debug, PartialEq, Eq)]
pub enum Feed<V> {
    /// The outcome is still open. So many of the last tokens fed are to be put back.
    More(u8),
    /// The reading ends with a value. So many of the last tokens fed are to be put back.
    Done(V, u8),
    /// The reading ends with an error.
    Bad(ErrorNo),
    /// Memory was wanting.
    Memory,
}

//! Meanings.

use crate::addr::Addr;
use tx_num::{GlueSpec, Pairs, Sp};
use tx_tok::{Cat, ListRef};

/// The registers that a name can stand for.
#[derive(Clone, Copy, Debug, PartialEq, Eq)]
pub enum RegKind {
    /// Of `\count`.
    Count,
    /// Of `\dimen`.
    Dimen,
    /// Of `\skip`.
    Skip,
    /// Of `\muskip`.
    Muskip,
    /// Of `\toks`.
    Toks,
}

/// What stands at an address, where a box register holds a `B`. *TeX: The Program*, part 17.
#[derive(Debug, Drop)]
pub enum Meaning<B> {
    /// Nothing.
    Undefined,
    /// A primitive, by its number.
    Prim(u16),
    /// A macro: whether it is long, whether it is outer, and its text.
    Macro(bool, bool, ListRef),
    /// A character with its category, as by `\let`.
    Char(Cat, u8),
    /// A code of a character, which is a math code where the first is true.
    Code(bool, u16),
    /// A register.
    Register(RegKind, u16),
    /// A font, by its number.
    Font(u32),
    /// An integer.
    Int(i32),
    /// A dimension.
    Dim(Sp),
    /// Glue.
    Glue(GlueSpec),
    /// A list of tokens.
    List(ListRef),
    /// What a box register holds.
    Held(Option<B>),
    /// The indents and widths of a paragraph's lines.
    Shape(Pairs),
}

/// What stood at an address before a region wrote it.
#[derive(Debug, Drop)]
pub(crate) enum Before<B> {
    /// No entry stood there: the meaning was that of the frozen table.
    Frozen,
    /// This meaning.
    Kept(Meaning<B>),
}

/// What stood at an address that was set.
#[derive(Debug, Drop)]
pub enum Old<B> {
    /// No entry was there: the meaning was that of the frozen table.
    Frozen,
    /// The entry that was there is kept for the undo: this was the region's first change there.
    Kept,
    /// The entry that was there.
    Moved(Meaning<B>),
}

/// Addresses with their meanings.
#[derive(Debug, Drop)]
pub struct Entries<B>(pub Vec<(Addr, Meaning<B>)>);

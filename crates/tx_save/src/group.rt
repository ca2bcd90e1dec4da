//! Groups.

use tx_eqtb::Meaning;
use tx_tok::Toks;

/// The kinds of groups, in the order of their codes. *TeX: The Program*, part 19.
#[derive(Clone, Copy, Debug, PartialEq, Eq)]
pub enum GroupKind {
    /// Between `{` and `}`.
    Simple,
    /// Between `\begingroup` and `\endgroup`.
    Semi,
    /// An `\hbox`.
    HBox,
    /// A `\vbox`.
    VBox,
    /// A `\vtop`.
    VTop,
    /// A `\vcenter`.
    VCenter,
    /// An alignment.
    Align,
    /// A `\noalign`.
    NoAlign,
    /// The output routine.
    Output,
    /// A subformula.
    Math,
    /// A part of a `\discretionary`.
    Disc,
    /// An `\insert`.
    Insert,
    /// A `\vadjust`.
    Adjust,
    /// A part of a `\mathchoice`.
    Choice,
    /// A formula, between math shifts.
    Shift,
    /// Between `\left` and `\right`.
    Left,
}

/// A group that is open.
#[derive(Debug, Drop)]
pub(crate) struct Group {
    /// Its kind.
    pub(crate) kind: GroupKind,
    /// The tokens that `\aftergroup` leaves for its end.
    pub(crate) after: Toks,
}

/// Why a group was not begun.
#[derive(Clone, Copy, Debug, PartialEq, Eq)]
pub enum SaveRefused {
    /// The level is 255 already.
    GroupsFull,
    /// Memory was wanting.
    Memory,
}

/// A step of the end of a group.
#[derive(Debug, Drop)]
pub enum Closed<B> {
    /// A saved entry was taken away, and so was a meaning, if there is one.
    Dropped(Option<Meaning<B>>),
    /// No saved entry is left and the group has ended. It was of this kind, and these are its tokens.
    End(GroupKind, Toks),
}

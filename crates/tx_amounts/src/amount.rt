//! What a scan wishes for, and how it answers.

use tx_num::{ErrorNo, Quant};
use tx_tok::Toks;

/// How the next item of a scan is to be taken.
#[derive(Clone, Copy, Debug, PartialEq, Eq)]
pub enum ScanWish {
    /// An expanded token, or the text's end.
    Expanded,
    /// A token as it stands, or the text's end, after a backquote.
    Plain,
    /// The quantity that begins with the command that was taken last.
    Quantity,
}

/// The value of a scan.
#[derive(Clone, Copy, Debug, PartialEq, Eq)]
pub enum Amount {
    /// A number, a dimension or glue.
    Quantity(Quant),
    /// A keyword by its place in its set, or 255 where none stands here.
    Word(u8),
}

/// The answer of a scan to an item.
#[derive(Debug, Drop)]
pub enum Scanned {
    /// The outcome is still open. These tokens are put in front of what is pending, in their order.
    More(Toks),
    /// The scan ends with a value. These tokens are put in front of what is pending, in their order.
    Done(Amount, Toks),
    /// The scan ends with an error.
    Bad(ErrorNo),
    /// Memory was wanting.
    Memory,
}

//! What comes of a region.

use tx_bytes::Bytes;

/// What a region made.
#[derive(Debug, Drop)]
pub struct Output {
    /// The steps spent: one for each token that was taken.
    pub steps: u32,
    pub pages: u32,
    pub dvi: Bytes,
    pub log: Bytes,
}

/// How a region ended, with what it made.
#[derive(Debug, Drop)]
pub enum Outcome {
    Done(Output),
    /// An error ended it, whose lines are the last of the log.
    Fail(Output),
    /// A step was wanted after the budget was spent.
    Spent(Output),
}

//! What comes of an engine's calls.

use tx_run::Op;

/// How a region ended.
#[derive(Clone, Copy, Debug, PartialEq, Eq)]
pub enum End {
    /// It came to its end, and what it set is kept.
    Done,
    /// An error ended it, whose lines are the last of the log.
    Failed,
    /// A token was there, and no step was left.
    Spent,
    /// Memory was wanting.
    Memory,
}

/// What came of a tick.
#[derive(Clone, Copy, Debug, PartialEq, Eq)]
pub enum Step {
    /// The region goes on.
    Went,
    /// It goes on once this operation is answered.
    Ask(Op),
    /// It has ended. What comes behind it is not through.
    Ended,
}

/// What came of a step behind a region.
#[derive(Clone, Copy, Debug, PartialEq, Eq)]
pub enum Back {
    /// There is more to do.
    Went,
    /// The list with this number has fallen away, and is to be released.
    Releases(u64),
    /// All is done, and the region has ended so: what it set is kept, or it is given back.
    Rests(End),
}

//! What a run asks for, and what comes of a tick.

/// An operation on the names or the lists of a session. The texts and lists that go with it are told by the run.
#[derive(Clone, Copy, Debug, PartialEq, Eq)]
pub enum Op {
    /// The number of the name that was taken, if there is one.
    Find,
    /// A number for the name that was taken.
    Intern,
    /// The text of the name with this number.
    Text(u64),
    /// A reference to the list that is to be assigned.
    Share,
    /// One reference more to the list with this number.
    Take(u64),
    /// One reference less.
    Release(u64),
    /// The content of the list with this number.
    Read(u64),
}

/// What came of a tick.
#[derive(Clone, Copy, Debug, PartialEq, Eq)]
pub enum Tick {
    /// The region goes on.
    Went,
    /// It goes on once this operation is answered.
    Ask(Op),
    /// It is at its end.
    Done,
    /// An error ended it, whose lines are the last of the log.
    Failed,
    /// A token is there, and no step is left.
    Spent,
    /// Memory was wanting.
    Memory,
}

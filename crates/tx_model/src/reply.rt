/// How a region ended.
#[derive(Clone, Copy, Debug, PartialEq, Eq)]
pub enum Status {
    /// The region ended, and the session keeps what it left.
    Done,
    /// An error ended it.
    Fail,
    /// A step was wanted after the budget was spent.
    Spent,
}

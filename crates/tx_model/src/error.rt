/// What ends a region in failure. The texts follow TeX's. *TeX: The Program*, part 6.
#[derive(Clone, Copy, Debug, PartialEq, Eq)]
pub enum Error {
    /// A control sequence without a meaning was to be expanded.
    UndefinedControlSequence,
    /// A byte of category invalid stood where a token was to be taken.
    InvalidCharacter,
    /// A right brace stood where no group was open.
    TooManyRightBraces,
    /// The text ended where so many groups were open.
    EndedInGroup(usize),
    /// A command that the language does not have yet.
    NotBuilt,
}

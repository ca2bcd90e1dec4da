//! The two states in which a session can begin.

/// A state in which a session can begin.
#[derive(Clone, Copy, Debug, PartialEq, Eq)]
pub(crate) enum Preset {
    /// That of a preamble.
    Start,
    /// That of a session without a preamble.
    Bare,
}

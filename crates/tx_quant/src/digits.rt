//! The digits of a number.

ghost use Rattle.std.specs.Prelude.{◌<◌, ◌^◌};

use crate::base::Base;

/// The digits that were taken of a number.
#[derive(Clone, Copy, Debug, PartialEq, Eq)]
pub(crate) struct Digits {
    /// Whether a minus stands before them.
    pub(crate) negative: bool,
    /// Their base.
    pub(crate) base: Base,
    /// What they make up.
    pub(crate) value: u32,
    ghost in_range: { value < 2 ^ 31 },
}

//! The stages of a dimension.

use crate::decimals::Decimals;
use crate::factor::{Factor, Whole};
use crate::units::Begun;
use tx_num::{Order, Sp};

/// How far the reading of a dimension is.
#[derive(Clone, Copy, Debug)]
pub(crate) enum DimStage {
    /// Signs, which leave a minus or none.
    Sign(bool),
    /// Digits before a point.
    Whole(Whole),
    /// Decimals.
    Decimals(Decimals),
    /// The unit is due.
    Unit(Factor),
    /// Letters of a unit were taken.
    Letters(Factor, Begun),
    /// `true` was taken.
    True(Factor),
    /// Letters of a unit after `true` were taken.
    TrueLetters(Factor, Begun),
    /// `fil` was taken, and more of its letters may follow.
    Infinite(Factor, Order),
    /// The unit was taken, and a space may follow. None stands for what is too large.
    Space(Option<Sp>, Order),
}

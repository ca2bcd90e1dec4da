//! Glue.

use crate::points::Sp;

/// The orders of infinity of stretch and shrink, from what is finite to `filll`.
#[derive(Clone, Copy, Debug, PartialEq, Eq, PartialOrd, Ord, Hash)]
pub enum Order {
    /// Finite, in scaled points.
    Finite,
    /// Of the first order of infinity.
    Fil,
    /// Of the second.
    Fill,
    /// Of the third.
    Filll,
}

/// A glue specification (*The TeXbook*, chapter 12). One `fil`, `fill` or `filll` counts as 65536.
#[derive(Clone, Copy, Debug, PartialEq, Eq)]
pub struct GlueSpec {
    /// The natural width.
    pub width: Sp,
    /// What it can stretch.
    pub stretch: Sp,
    /// The order of the stretch.
    pub stretch_order: Order,
    /// What it can shrink.
    pub shrink: Sp,
    /// The order of the shrink.
    pub shrink_order: Order,
}

impl GlueSpec {
    /// No glue at all.
    pub const ZERO: GlueSpec = GlueSpec {
        width: Sp::ZERO,
        stretch: Sp::ZERO,
        stretch_order: Order::Finite,
        shrink: Sp::ZERO,
        shrink_order: Order::Finite,
    };
}

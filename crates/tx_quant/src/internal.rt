//! Internal quantities in dimensions.

use tx_num::Sp;

/// What an internal quantity is to a dimension.
#[derive(Clone, Copy, Debug)]
pub(crate) enum Internal {
    /// A factor.
    Integer(i32),
    /// A dimension, or the width of glue.
    Dimension(Sp),
    /// A quantity that is measured otherwise: in mu, or not in mu.
    Other,
}

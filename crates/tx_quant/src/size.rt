//! Sizes.

ghost use Rattle.std.specs.Prelude.{◌≡◌};
ghost use Rattle.tx_quant.specs.Glues.{nothing};

use tx_num::{Order, Sp};

/// What a dimension comes to.
#[derive(Clone, Copy, Debug)]
pub(crate) struct Size {
    /// How much. One `fil`, `fill` or `filll` counts as 65536.
    pub(crate) amount: Sp,
    /// The order of infinity.
    pub(crate) order: Order,
}

impl Size {
    /// Nothing at all.
    pub(crate) fn nothing() -> Self
        ensures { result ≡ nothing }
    {
        Size {
            amount: Sp::ZERO,
            order: Order::Finite,
        }
    }
}

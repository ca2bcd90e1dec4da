//! Glue of which the shrink is missing.

ghost use Rattle.std.specs.Prelude.{◌≡◌};
ghost use Rattle.tx_quant.specs.Glues.{glue_of, stretched};

use crate::size::Size;
use tx_num::{GlueSpec, Order, Sp};

/// The width and the stretch of glue.
#[derive(Clone, Copy, Debug)]
pub(crate) struct Stretched {
    /// The natural width.
    pub(crate) width: Sp,
    /// What it can stretch.
    pub(crate) stretch: Sp,
    /// The order of the stretch.
    pub(crate) order: Order,
}

impl Stretched {
    /// A width with a stretch.
    pub(crate) fn new(width: Sp, stretch: Size) -> Self
        ensures { result ≡ stretched width stretch }
    {
        Stretched {
            width,
            stretch: stretch.amount,
            order: stretch.order,
        }
    }

    /// With a shrink.
    pub(crate) fn glue(self, shrink: Size) -> GlueSpec
        ensures { result ≡ glue_of self shrink }
    {
        GlueSpec {
            width: self.width,
            stretch: self.stretch,
            stretch_order: self.order,
            shrink: shrink.amount,
            shrink_order: shrink.order,
        }
    }
}

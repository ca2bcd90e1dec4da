//! The stages of glue.

use crate::dimension_stage::DimStage;
use crate::looking::Looking;
use crate::stretched::Stretched;
use tx_num::Sp;

/// How far the reading of glue is.
#[derive(Clone, Copy, Debug)]
pub(crate) enum GlueStage {
    /// Only spaces were taken.
    Start,
    /// The width is being read.
    Width(DimStage),
    /// `plus` is looked for, behind the width.
    Plus(Sp, Looking),
    /// The stretch is being read.
    Stretch(Sp, DimStage),
    /// `minus` is looked for.
    Minus(Stretched, Looking),
    /// The shrink is being read.
    Shrink(Stretched, DimStage),
}

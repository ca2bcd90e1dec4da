//! What internal quantities make of the stages of glue.

ghost use Rattle.std.specs.Prelude.{◌≡◌, [], if◌then◌else◌};
ghost use Rattle.tx_num.specs.declared.quantities.Want.{Want};
ghost use Rattle.tx_quant.specs.Items.{Asks, Quantity};
ghost use Rattle.tx_quant.specs.Nexts.{Follows};
ghost use Rattle.tx_quant.specs.Errors.{incompatible_units};
ghost use Rattle.tx_quant.specs.DimensionStates.{dimension_at};
ghost use Rattle.tx_quant.specs.Glues.{with_infinite};
ghost use Rattle.tx_quant.specs.GlueStates.{glue_at};

use crate::dimension_quantity;
use crate::dimension_stage::DimStage;
use crate::errors::{INCOMPATIBLE_UNITS, MISSING_NUMBER};
use crate::glue_stage::GlueStage;
use crate::looking::Looking;
use crate::next::Next;
use crate::setting::Setting;
use crate::stretched::Stretched;
use tx_num::{GlueSpec, Quant, Sp};

/// What an internal quantity makes of a stage where it may begin.
pub(crate) fn after_quantity(
    setting: &Setting,
    stage: GlueStage,
    q: Quant,
) -> Next<GlueStage, GlueSpec>
    requires { glue_at setting.now stage [] ≡ Asks Want.Start 0 }
    ensures { Follows (glue_at setting.now) result (glue_at setting.now stage) (Quantity q) }
{
    match stage {
        GlueStage::Start => begin(setting, q),
        GlueStage::Width(stage) => in_width(setting, stage, q),
        GlueStage::Stretch(width, stage) => in_stretch(setting, width, stage, q),
        GlueStage::Shrink(stretched, stage) => in_shrink(setting, stretched, stage, q),
        GlueStage::Plus(_, _) | GlueStage::Minus(_, _) => Next::Bad(MISSING_NUMBER),
    }
}

/// An internal quantity that stands first.
fn begin(setting: &Setting, q: Quant) -> Next<GlueStage, GlueSpec>
    ensures { Follows (glue_at setting.now) result (glue_at setting.now GlueStage.Start) (Quantity q) }
{
    match q {
        Quant::Int(_) | Quant::Dim(_) => in_width(setting, DimStage::Sign(false), q),
        Quant::Glue(g) => whole(!setting.math, g),
        Quant::Mu(g) => whole(setting.math, g),
    }
}

/// An internal quantity within the width.
fn in_width(setting: &Setting, stage: DimStage, q: Quant) -> Next<GlueStage, GlueSpec>
    requires { dimension_at setting.now stage [] ≡ Asks Want.Start 0 }
    ensures { Follows (glue_at setting.now) result (glue_at setting.now (GlueStage.Width stage)) (Quantity q) }
{
    match dimension_quantity::after_quantity(setting, stage, q) {
        Next::More(stage, back) => Next::More(GlueStage::Width(stage), back),
        Next::Done(width, back) => Next::More(GlueStage::Plus(width.amount, Looking::Blank), back),
        Next::Bad(error) => Next::Bad(error),
    }
}

/// An internal quantity within the stretch.
fn in_stretch(setting: &Setting, width: Sp, stage: DimStage, q: Quant) -> Next<GlueStage, GlueSpec>
    requires { dimension_at (with_infinite setting.now) stage [] ≡ Asks Want.Start 0 }
    ensures { Follows (glue_at setting.now) result (glue_at setting.now (GlueStage.Stretch width stage)) (Quantity q) }
{
    match dimension_quantity::after_quantity(&setting.with_infinite(), stage, q) {
        Next::More(stage, back) => Next::More(GlueStage::Stretch(width, stage), back),
        Next::Done(stretch, back) => {
            let stretched = Stretched::new(width, stretch);
            Next::More(GlueStage::Minus(stretched, Looking::Blank), back)
        }
        Next::Bad(error) => Next::Bad(error),
    }
}

/// An internal quantity within the shrink.
fn in_shrink(
    setting: &Setting,
    stretched: Stretched,
    stage: DimStage,
    q: Quant,
) -> Next<GlueStage, GlueSpec>
    requires { dimension_at (with_infinite setting.now) stage [] ≡ Asks Want.Start 0 }
    ensures { Follows (glue_at setting.now) result (glue_at setting.now (GlueStage.Shrink stretched stage)) (Quantity q) }
{
    match dimension_quantity::after_quantity(&setting.with_infinite(), stage, q) {
        Next::More(stage, back) => Next::More(GlueStage::Shrink(stretched, stage), back),
        Next::Done(shrink, back) => Next::Done(stretched.glue(shrink), back),
        Next::Bad(error) => Next::Bad(error),
    }
}

/// Internal glue that is the value, where it is measured as `fits` says.
fn whole(fits: bool, glue: GlueSpec) -> Next<GlueStage, GlueSpec>
    ensures { result ≡ (if fits then Next.Done glue 0 else Next.Bad incompatible_units) }
{
    if fits {
        Next::Done(glue, 0)
    } else {
        Next::Bad(INCOMPATIBLE_UNITS)
    }
}

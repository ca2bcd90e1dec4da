//! What tokens make of the stages of glue.

ghost use Rattle.tx_quant.specs.Items.{Token};
ghost use Rattle.tx_quant.specs.Nexts.{Follows};
ghost use Rattle.tx_quant.specs.GlueStates.{glue_at};

use crate::dimension_stage::DimStage;
use crate::dimension_token;
use crate::glue_stage::GlueStage;
use crate::keyword::KeySet;
use crate::looking::{Looked, Looking, look};
use crate::next::Next;
use crate::setting::Setting;
use crate::size::Size;
use crate::stretched::Stretched;
use crate::tokens::is_space;
use tx_num::{GlueSpec, Sp};
use tx_tok::Tok;

/// What a token makes of a stage.
pub(crate) fn after(setting: &Setting, stage: GlueStage, t: Tok) -> Next<GlueStage, GlueSpec>
    ensures { Follows (glue_at setting.now) result (glue_at setting.now stage) (Token t) }
{
    match stage {
        GlueStage::Start => begin(setting, t),
        GlueStage::Width(stage) => in_width(setting, stage, t),
        GlueStage::Plus(width, looking) => in_plus(setting, width, looking, t),
        GlueStage::Stretch(width, stage) => in_stretch(setting, width, stage, t),
        GlueStage::Minus(stretched, looking) => in_minus(setting, stretched, looking, t),
        GlueStage::Shrink(stretched, stage) => in_shrink(setting, stretched, stage, t),
    }
}

/// The first token, or a space before it.
fn begin(setting: &Setting, t: Tok) -> Next<GlueStage, GlueSpec>
    ensures { Follows (glue_at setting.now) result (glue_at setting.now GlueStage.Start) (Token t) }
{
    if is_space(t) {
        Next::More(GlueStage::Start, 0)
    } else {
        in_width(setting, DimStage::Sign(false), t)
    }
}

/// A token of the width, or behind it.
fn in_width(setting: &Setting, stage: DimStage, t: Tok) -> Next<GlueStage, GlueSpec>
    ensures { Follows (glue_at setting.now) result (glue_at setting.now (GlueStage.Width stage)) (Token t) }
{
    match dimension_token::after(setting, stage, t) {
        Next::More(stage, back) => Next::More(GlueStage::Width(stage), back),
        Next::Done(width, back) => Next::More(GlueStage::Plus(width.amount, Looking::Blank), back),
        Next::Bad(error) => Next::Bad(error),
    }
}

/// A token where `plus` is looked for.
fn in_plus(setting: &Setting, width: Sp, looking: Looking, t: Tok) -> Next<GlueStage, GlueSpec>
    ensures { Follows (glue_at setting.now) result (glue_at setting.now (GlueStage.Plus width looking)) (Token t) }
{
    match look(KeySet::Plus, looking, t) {
        Looked::On(looking) => Next::More(GlueStage::Plus(width, looking), 0),
        Looked::Found(_) => Next::More(GlueStage::Stretch(width, DimStage::Sign(false)), 0),
        Looked::Missing(taken) => {
            let stretched = Stretched::new(width, Size::nothing());
            Next::More(GlueStage::Minus(stretched, Looking::Blank), taken)
        }
    }
}

/// A token of the stretch, or behind it.
fn in_stretch(setting: &Setting, width: Sp, stage: DimStage, t: Tok) -> Next<GlueStage, GlueSpec>
    ensures { Follows (glue_at setting.now) result (glue_at setting.now (GlueStage.Stretch width stage)) (Token t) }
{
    match dimension_token::after(&setting.with_infinite(), stage, t) {
        Next::More(stage, back) => Next::More(GlueStage::Stretch(width, stage), back),
        Next::Done(stretch, back) => {
            let stretched = Stretched::new(width, stretch);
            Next::More(GlueStage::Minus(stretched, Looking::Blank), back)
        }
        Next::Bad(error) => Next::Bad(error),
    }
}

/// A token where `minus` is looked for.
fn in_minus(
    setting: &Setting,
    stretched: Stretched,
    looking: Looking,
    t: Tok,
) -> Next<GlueStage, GlueSpec>
    ensures { Follows (glue_at setting.now) result (glue_at setting.now (GlueStage.Minus stretched looking)) (Token t) }
{
    match look(KeySet::Minus, looking, t) {
        Looked::On(looking) => Next::More(GlueStage::Minus(stretched, looking), 0),
        Looked::Found(_) => Next::More(GlueStage::Shrink(stretched, DimStage::Sign(false)), 0),
        Looked::Missing(taken) => Next::Done(stretched.glue(Size::nothing()), taken),
    }
}

/// A token of the shrink, or behind it.
fn in_shrink(
    setting: &Setting,
    stretched: Stretched,
    stage: DimStage,
    t: Tok,
) -> Next<GlueStage, GlueSpec>
    ensures { Follows (glue_at setting.now) result (glue_at setting.now (GlueStage.Shrink stretched stage)) (Token t) }
{
    match dimension_token::after(&setting.with_infinite(), stage, t) {
        Next::More(stage, back) => Next::More(GlueStage::Shrink(stretched, stage), back),
        Next::Done(shrink, back) => Next::Done(stretched.glue(shrink), back),
        Next::Bad(error) => Next::Bad(error),
    }
}

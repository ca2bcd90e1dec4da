//! The values of parameters.

ghost use Rattle.std.specs.Prelude.{◌≡◌, pos};
ghost use Rattle.tx_num.specs.declared.glue.Order.TheVariants as order;
ghost use Rattle.tx_format.specs.Parameters.{integer, start_integer, bare_integer, dimension, bare_dimension, glue, bare_glue, one_fil};

use crate::preset::Preset;
use tx_num::{GlueSpec, Order, Sp};
use tx_prims::primitives::{DimensionParameter, GlueParameter, IntegerParameter};

/// The parameters that are integers, by their numbers.
pub(crate) const INTEGERS: [IntegerParameter; 38] = [
    IntegerParameter::PreTolerance,
    IntegerParameter::Tolerance,
    IntegerParameter::LinePenalty,
    IntegerParameter::HyphenPenalty,
    IntegerParameter::ExHyphenPenalty,
    IntegerParameter::ClubPenalty,
    IntegerParameter::WidowPenalty,
    IntegerParameter::DisplayWidowPenalty,
    IntegerParameter::BrokenPenalty,
    IntegerParameter::BinOpPenalty,
    IntegerParameter::RelPenalty,
    IntegerParameter::PreDisplayPenalty,
    IntegerParameter::PostDisplayPenalty,
    IntegerParameter::InterLinePenalty,
    IntegerParameter::DoubleHyphenDemerits,
    IntegerParameter::FinalHyphenDemerits,
    IntegerParameter::AdjDemerits,
    IntegerParameter::DelimiterFactor,
    IntegerParameter::Time,
    IntegerParameter::Day,
    IntegerParameter::Month,
    IntegerParameter::Year,
    IntegerParameter::HBadness,
    IntegerParameter::VBadness,
    IntegerParameter::Fam,
    IntegerParameter::EscapeChar,
    IntegerParameter::DefaultHyphenChar,
    IntegerParameter::DefaultSkewChar,
    IntegerParameter::EndLineChar,
    IntegerParameter::NewLineChar,
    IntegerParameter::LeftHyphenMin,
    IntegerParameter::RightHyphenMin,
    IntegerParameter::UcHyph,
    IntegerParameter::GlobalDefs,
    IntegerParameter::MaxDeadCycles,
    IntegerParameter::HangAfter,
    IntegerParameter::FloatingPenalty,
    IntegerParameter::OutputPenalty,
];

/// The parameters that are dimensions, by their numbers.
pub(crate) const DIMENSIONS: [DimensionParameter; 21] = [
    DimensionParameter::HFuzz,
    DimensionParameter::VFuzz,
    DimensionParameter::OverfullRule,
    DimensionParameter::EmergencyStretch,
    DimensionParameter::HSize,
    DimensionParameter::VSize,
    DimensionParameter::MaxDepth,
    DimensionParameter::SplitMaxDepth,
    DimensionParameter::BoxMaxDepth,
    DimensionParameter::LineSkipLimit,
    DimensionParameter::DelimiterShortfall,
    DimensionParameter::NullDelimiterSpace,
    DimensionParameter::ScriptSpace,
    DimensionParameter::MathSurround,
    DimensionParameter::PreDisplaySize,
    DimensionParameter::DisplayWidth,
    DimensionParameter::DisplayIndent,
    DimensionParameter::ParIndent,
    DimensionParameter::HangIndent,
    DimensionParameter::HOffset,
    DimensionParameter::VOffset,
];

/// The parameters that are glue, by their numbers.
pub(crate) const GLUES: [GlueParameter; 18] = [
    GlueParameter::BaselineSkip,
    GlueParameter::LineSkip,
    GlueParameter::ParSkip,
    GlueParameter::AboveDisplaySkip,
    GlueParameter::BelowDisplaySkip,
    GlueParameter::AboveDisplayShortSkip,
    GlueParameter::BelowDisplayShortSkip,
    GlueParameter::LeftSkip,
    GlueParameter::RightSkip,
    GlueParameter::TopSkip,
    GlueParameter::SplitTopSkip,
    GlueParameter::TabSkip,
    GlueParameter::SpaceSkip,
    GlueParameter::XSpaceSkip,
    GlueParameter::ParFillSkip,
    GlueParameter::ThinMuSkip,
    GlueParameter::MedMuSkip,
    GlueParameter::ThickMuSkip,
];

/// The value of a parameter that is an integer.
pub(crate) fn integer(preset: Preset, parameter: IntegerParameter) -> i32
    ensures { result ≡ integer preset parameter }
{
    match preset {
        Preset::Start => start_integer(parameter),
        Preset::Bare => bare_integer(parameter),
    }
}

/// The value of a parameter that is a dimension.
pub(crate) fn dimension(preset: Preset, parameter: DimensionParameter) -> Sp
    ensures { result ≡ dimension preset parameter }
{
    match preset {
        Preset::Start => Sp::ZERO,
        Preset::Bare => bare_dimension(parameter),
    }
}

/// The value of a parameter that is glue.
pub(crate) fn glue(preset: Preset, parameter: GlueParameter) -> GlueSpec
    ensures { result ≡ glue preset parameter }
{
    match preset {
        Preset::Start => GlueSpec::ZERO,
        Preset::Bare => bare_glue(parameter),
    }
}

/// Glue of this width that neither stretches nor shrinks.
fn rigid(width: Sp) -> GlueSpec
    ensures { result ≡ record { width = width; stretch = pos 0; stretch_order = order.Finite; shrink = pos 0; shrink_order = order.Finite } }
{
    GlueSpec {
        width,
        ..GlueSpec::ZERO
    }
}

/// Glue without width that stretches by one `fil`.
fn one_fil() -> GlueSpec
    ensures { result ≡ one_fil }
{
    GlueSpec {
        stretch: Sp::POINT,
        stretch_order: Order::Fil,
        ..GlueSpec::ZERO
    }
}

/// The integers at the start.
fn start_integer(parameter: IntegerParameter) -> i32
    ensures { result ≡ start_integer parameter }
{
    match parameter {
        IntegerParameter::Tolerance => 10000,
        IntegerParameter::HangAfter => 1,
        IntegerParameter::MaxDeadCycles => 25,
        IntegerParameter::EscapeChar => 92,
        IntegerParameter::EndLineChar => 13,
        IntegerParameter::NewLineChar => -1,
        IntegerParameter::Time => 720,
        IntegerParameter::Day => 4,
        IntegerParameter::Month => 7,
        IntegerParameter::Year => 1776,
        IntegerParameter::PreTolerance
        | IntegerParameter::LinePenalty
        | IntegerParameter::HyphenPenalty
        | IntegerParameter::ExHyphenPenalty
        | IntegerParameter::ClubPenalty
        | IntegerParameter::WidowPenalty
        | IntegerParameter::DisplayWidowPenalty
        | IntegerParameter::BrokenPenalty
        | IntegerParameter::BinOpPenalty
        | IntegerParameter::RelPenalty
        | IntegerParameter::PreDisplayPenalty
        | IntegerParameter::PostDisplayPenalty
        | IntegerParameter::InterLinePenalty
        | IntegerParameter::DoubleHyphenDemerits
        | IntegerParameter::FinalHyphenDemerits
        | IntegerParameter::AdjDemerits
        | IntegerParameter::DelimiterFactor
        | IntegerParameter::HBadness
        | IntegerParameter::VBadness
        | IntegerParameter::Fam
        | IntegerParameter::DefaultHyphenChar
        | IntegerParameter::DefaultSkewChar
        | IntegerParameter::LeftHyphenMin
        | IntegerParameter::RightHyphenMin
        | IntegerParameter::UcHyph
        | IntegerParameter::GlobalDefs
        | IntegerParameter::FloatingPenalty
        | IntegerParameter::OutputPenalty => 0,
    }
}

/// The integers in BARE.
fn bare_integer(parameter: IntegerParameter) -> i32
    ensures { result ≡ bare_integer parameter }
{
    match parameter {
        IntegerParameter::PreTolerance => 100,
        IntegerParameter::Tolerance => 200,
        IntegerParameter::LinePenalty => 10,
        IntegerParameter::HBadness => 1000,
        IntegerParameter::VBadness => 1000,
        IntegerParameter::LeftHyphenMin => 2,
        IntegerParameter::RightHyphenMin => 3,
        IntegerParameter::DefaultHyphenChar => 45,
        IntegerParameter::DefaultSkewChar => -1,
        IntegerParameter::HyphenPenalty
        | IntegerParameter::ExHyphenPenalty
        | IntegerParameter::ClubPenalty
        | IntegerParameter::WidowPenalty
        | IntegerParameter::DisplayWidowPenalty
        | IntegerParameter::BrokenPenalty
        | IntegerParameter::BinOpPenalty
        | IntegerParameter::RelPenalty
        | IntegerParameter::PreDisplayPenalty
        | IntegerParameter::PostDisplayPenalty
        | IntegerParameter::InterLinePenalty
        | IntegerParameter::DoubleHyphenDemerits
        | IntegerParameter::FinalHyphenDemerits
        | IntegerParameter::AdjDemerits
        | IntegerParameter::DelimiterFactor
        | IntegerParameter::Time
        | IntegerParameter::Day
        | IntegerParameter::Month
        | IntegerParameter::Year
        | IntegerParameter::Fam
        | IntegerParameter::EscapeChar
        | IntegerParameter::EndLineChar
        | IntegerParameter::NewLineChar
        | IntegerParameter::UcHyph
        | IntegerParameter::GlobalDefs
        | IntegerParameter::MaxDeadCycles
        | IntegerParameter::HangAfter
        | IntegerParameter::FloatingPenalty
        | IntegerParameter::OutputPenalty => start_integer(parameter),
    }
}

/// The dimensions in BARE.
fn bare_dimension(parameter: DimensionParameter) -> Sp
    ensures { result ≡ bare_dimension parameter }
{
    match parameter {
        DimensionParameter::HSize => Sp(345 * 65536),
        DimensionParameter::VSize => Sp(550 * 65536),
        DimensionParameter::ParIndent => Sp(20 * 65536),
        DimensionParameter::MaxDepth => Sp(2 * 65536),
        DimensionParameter::HFuzz => Sp(6554),
        DimensionParameter::VFuzz => Sp(6554),
        DimensionParameter::OverfullRule
        | DimensionParameter::EmergencyStretch
        | DimensionParameter::SplitMaxDepth
        | DimensionParameter::BoxMaxDepth
        | DimensionParameter::LineSkipLimit
        | DimensionParameter::DelimiterShortfall
        | DimensionParameter::NullDelimiterSpace
        | DimensionParameter::ScriptSpace
        | DimensionParameter::MathSurround
        | DimensionParameter::PreDisplaySize
        | DimensionParameter::DisplayWidth
        | DimensionParameter::DisplayIndent
        | DimensionParameter::HangIndent
        | DimensionParameter::HOffset
        | DimensionParameter::VOffset => Sp::ZERO,
    }
}

/// The glue in BARE.
fn bare_glue(parameter: GlueParameter) -> GlueSpec
    ensures { result ≡ bare_glue parameter }
{
    match parameter {
        GlueParameter::BaselineSkip => rigid(Sp(12 * 65536)),
        GlueParameter::LineSkip => rigid(Sp::POINT),
        GlueParameter::TopSkip => rigid(Sp(10 * 65536)),
        GlueParameter::ParFillSkip => one_fil(),
        GlueParameter::ParSkip
        | GlueParameter::AboveDisplaySkip
        | GlueParameter::BelowDisplaySkip
        | GlueParameter::AboveDisplayShortSkip
        | GlueParameter::BelowDisplayShortSkip
        | GlueParameter::LeftSkip
        | GlueParameter::RightSkip
        | GlueParameter::SplitTopSkip
        | GlueParameter::TabSkip
        | GlueParameter::SpaceSkip
        | GlueParameter::XSpaceSkip
        | GlueParameter::ThinMuSkip
        | GlueParameter::MedMuSkip
        | GlueParameter::ThickMuSkip => GlueSpec::ZERO,
    }
}

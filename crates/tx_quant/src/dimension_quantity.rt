//! What internal quantities make of the stages of a dimension.

ghost use Rattle.std.specs.Prelude.{◌≡◌, [], if◌then◌else◌};
ghost use Rattle.tx_num.specs.declared.quantities.Want.{Want};
ghost use Rattle.tx_quant.specs.Items.{Quantity, Asks};
ghost use Rattle.tx_quant.specs.Behinds.{Leads};
ghost use Rattle.tx_quant.specs.Numbers.{signed as signed_of};
ghost use Rattle.tx_quant.specs.Dimensions.{internal_factor as internal_factor_of, internal_of, unit_after, unsigned_dimension};
ghost use Rattle.tx_quant.specs.DimensionStates.{dimension_at};

use crate::dimension_stage::DimStage;
use crate::dimension_token::{ended, missing_unit};
use crate::errors::{INCOMPATIBLE_UNITS, MISSING_NUMBER};
use crate::factor::Factor;
use crate::internal::Internal;
use crate::next::Next;
use crate::setting::Setting;
use crate::size::Size;
use crate::sizes::times;
use tx_num::{Order, Quant, Sp};

/// What an internal quantity makes of a stage where it may begin.
pub(crate) fn after_quantity(setting: &Setting, stage: DimStage, q: Quant) -> Next<DimStage, Size>
    requires { dimension_at setting.now stage [] ≡ Asks Want.Start 0 }
    ensures { Leads (dimension_at setting.now) result (dimension_at setting.now stage) (Quantity q) }
{
    match stage {
        DimStage::Sign(negative) => as_value(setting, negative, q),
        DimStage::Whole(whole) => as_unit(setting, whole.factor(), q),
        DimStage::Decimals(decimals) => as_unit(setting, decimals.factor(), q),
        DimStage::Unit(factor) => as_unit(setting, factor, q),
        DimStage::Letters(_, _)
        | DimStage::True(_)
        | DimStage::TrueLetters(_, _)
        | DimStage::Infinite(_, _)
        | DimStage::Space(_, _) => Next::Bad(MISSING_NUMBER),
    }
}

/// An internal quantity as a value, or as a factor.
fn as_value(setting: &Setting, negative: bool, q: Quant) -> Next<DimStage, Size>
    ensures { Leads (dimension_at setting.now) result (unsigned_dimension setting.now negative) (Quantity q) }
{
    match internal(setting.math, q) {
        Internal::Integer(n) => Next::More(DimStage::Unit(internal_factor(negative, n)), 0),
        Internal::Dimension(v) => {
            let amount = signed(negative, v);
            let order = Order::Finite;
            Next::Done(Size { amount, order }, 0)
        }
        Internal::Other => Next::Bad(INCOMPATIBLE_UNITS),
    }
}

/// An internal quantity as a unit.
fn as_unit(setting: &Setting, factor: Factor, q: Quant) -> Next<DimStage, Size>
    ensures { Leads (dimension_at setting.now) result (unit_after setting.now factor) (Quantity q) }
{
    match internal(setting.math, q) {
        Internal::Integer(_) => Next::Bad(missing_unit(setting)),
        Internal::Dimension(v) => ended(times(factor, v), Order::Finite, 0),
        Internal::Other => Next::Bad(INCOMPATIBLE_UNITS),
    }
}

/// What an internal quantity is to a dimension.
fn internal(math: bool, q: Quant) -> Internal
    ensures { result ≡ internal_of math q }
{
    match q {
        Quant::Int(n) => Internal::Integer(n),
        Quant::Dim(d) => ordinary(math, d),
        Quant::Glue(g) => ordinary(math, g.width),
        Quant::Mu(g) => ordinary(!math, g.width),
    }
}

/// A dimension that is measured otherwise where `other` says so.
fn ordinary(other: bool, d: Sp) -> Internal
    ensures { result ≡ (if other then Internal.Other else Internal.Dimension d) }
{
    if other {
        Internal::Other
    } else {
        Internal::Dimension(d)
    }
}

/// An internal integer as a factor.
fn internal_factor(negative: bool, n: i32) -> Factor
    ensures { result ≡ internal_factor_of negative n }
{
    Factor {
        negative: negative != (n < 0),
        whole: n.unsigned_abs(),
        fraction: 0,
    }
}

/// A dimension with a sign.
fn signed(negative: bool, v: Sp) -> Sp
    ensures { result ≡ signed_of negative v }
{
    if negative { Sp(-v.get()) } else { v }
}

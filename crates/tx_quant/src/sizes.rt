//! Sizes of dimensions.

ghost use Rattle.std.specs.Prelude.{◌≡◌, ◌<◌, ◌≤◌, ◌^◌, pos};
ghost use Rattle.tx_num.specs.Ranges.{dimension};
ghost use Rattle.tx_quant.specs.Numbers.{signed};
ghost use Rattle.tx_quant.specs.Sizes.{amount as amount_of, scaled as scaled_of, in_ratio as in_ratio_of, times as times_of};

use crate::factor::Factor;
use crate::setting::Setting;
use crate::units::Unit;
use tx_num::Sp;

/// A factor in a unit. None comes exactly where it is no dimension.
pub(crate) fn amount(setting: &Setting, factor: Factor, unit: Unit) -> Option<Sp>
    ensures { result ≡ amount_of setting.now factor unit }
{
    match unit {
        Unit::Pt | Unit::Mu => in_ratio(factor, 1, 1),
        Unit::In => in_ratio(factor, 7227, 100),
        Unit::Pc => in_ratio(factor, 12, 1),
        Unit::Cm => in_ratio(factor, 7227, 254),
        Unit::Mm => in_ratio(factor, 7227, 2540),
        Unit::Bp => in_ratio(factor, 7227, 7200),
        Unit::Dd => in_ratio(factor, 1238, 1157),
        Unit::Cc => in_ratio(factor, 14856, 1157),
        Unit::Sp => within(factor.negative, u128::from(factor.whole)),
        Unit::Em => times(factor, setting.em),
        Unit::Ex => times(factor, setting.ex),
    }
}

/// A factor times a dimension, cut toward zero. None comes exactly where it is no dimension.
pub(crate) fn times(factor: Factor, v: Sp) -> Option<Sp>
    ensures { result ≡ dimension (signed factor.negative (times_of factor v)) }
{
    let v = v.get();
    let size = u128::from(scaled(factor)) * u128::from(v.unsigned_abs()) / 65536;
    within(factor.negative != (v < 0), size)
}

/// A factor as so many 65536ths.
fn scaled(factor: Factor) -> u64
    ensures value { result ≡ scaled_of factor }
    ensures bound { scaled_of factor < 2 ^ 49 }
{
    u64::from(factor.whole) * 65536 + u64::from(factor.fraction)
}

/// A factor as it is, with `num` scaled points for each `den`, cut.
fn in_ratio(factor: Factor, num: u64, den: u64) -> Option<Sp>
    requires num { num < 2 ^ 14 }
    requires den { 0 < den }
    ensures { result ≡ dimension (signed factor.negative (pos (in_ratio_of factor num den))) }
{
    within(factor.negative, u128::from(scaled(factor) * num / den))
}

/// So many scaled points with a sign. None comes exactly where they are no dimension.
fn within(negative: bool, size: u128) -> Option<Sp>
    ensures { result ≡ dimension (signed negative (pos size)) }
{
    if size < 1 << 30 {
        let v = size as i32;
        Sp::new(if negative { -v } else { v })
    } else {
        None
    }
}

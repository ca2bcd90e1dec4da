//! The ratio by which glue is set.

ghost use Rattle.std.specs.Prelude.{◌≡◌, ◌<◌, ◌^◌, unsigned_abs};
ghost use Rattle.tx_num.specs.Fractions.{part};

use std::marker::Model;

/// What `part` gives at most, in absolute value (*TeX: The Program*, section 625).
const PART_LIMIT: u128 = 1_000_000_000;

/// A ratio: `num` is at least 0 and `den` above 0. A contract sees it as these two numbers.
#[derive(Clone, Copy, Debug, PartialEq, Eq)]
pub struct Ratio {
    /// The numerator.
    pub num: i64,
    /// The denominator.
    pub den: i64,
}

impl Model for Ratio {
    ghost use Rattle.tx_num.specs.Fractions.{Fraction, IsRatio};

    ghost Value = { Fraction };

    ghost view = { λ r. record { num = r.num; den = r.den } };

    ghost invariant = { λ r. IsRatio (record { num = r.num; den = r.den }) };

    ghost inverse = { λ f. record { num = f.num; den = f.den } };
}

impl Ratio {
    /// The part of a sum of stretches or shrinks, in scaled points, that the ratio gives:
    /// `num * sum / den` to the nearest whole number, a tie away from zero, held within -10^9 and 10^9.
    /// The sum and both numbers of the ratio are below 2^53 in absolute value.
    pub fn part(&self, sum: i64) -> i64
        requires sum { unsigned_abs sum < 2 ^ 53 }
        requires num { unsigned_abs self.now.num < 2 ^ 53 }
        requires den { unsigned_abs self.now.den < 2 ^ 53 }
        ensures { result ≡ part self.now sum }
    {
        let product = self.num.unsigned_abs() as u128 * sum.unsigned_abs() as u128;
        let den = self.den.unsigned_abs() as u128;
        let size = ((2 * product + den) / (2 * den)).min(PART_LIMIT) as i64;
        if sum < 0 { -size } else { size }
    }
}

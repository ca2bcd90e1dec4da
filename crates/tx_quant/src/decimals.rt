//! Decimals.

ghost use Rattle.std.specs.Prelude.{ℕ, ◌≡◌, ◌≤◌, slice_index};

use crate::factor::Factor;
use tx_num::round_digits;

/// The most decimals that count.
const MOST_DECIMALS: u8 = 17;

/// The decimals that were taken of a factor.
#[derive(Clone, Copy, Debug)]
pub(crate) struct Decimals {
    /// Whether a minus stands before the factor.
    pub(crate) negative: bool,
    /// The whole number before the point.
    pub(crate) whole: u32,
    /// The decimals that count, and zeros behind them.
    pub(crate) digits: [u8; 17],
    /// How many count.
    pub(crate) count: u8,
    ghost few: { count ≤ 17 },
    ghost below_ten: { (k : ℕ) → slice_index digits k ≤ 9 },
}

impl Decimals {
    ghost use Rattle.std.specs.Prelude.{[]};
    ghost use Rattle.tx_num.specs.Decimals.{round_digits};
    ghost use Rattle.tx_quant.specs.Factors.{factor};
    ghost use Rattle.tx_quant.specs.Fractions.{with_decimal};
    ghost use Rattle.tx_quant.specs.FractionStates.{decimals_in};

    /// No decimals.
    pub(crate) fn none(negative: bool, whole: u32) -> Self
        ensures decimals { decimals_in result ≡ [] }
        ensures negative { result.negative ≡ negative }
        ensures whole { result.whole ≡ whole }
    {
        Decimals {
            negative,
            whole,
            digits: [0; 17],
            count: 0,
        }
    }

    /// One more, if it counts.
    pub(crate) fn and(self, digit: u8) -> Self
        requires { digit ≤ 9 }
        ensures decimals { decimals_in result ≡ with_decimal (decimals_in self) digit }
        ensures negative { result.negative ≡ self.negative }
        ensures whole { result.whole ≡ self.whole }
    {
        if self.count == MOST_DECIMALS {
            return self;
        }
        let mut digits = self.digits;
        digits[usize::from(self.count)] = digit;
        Decimals {
            negative: self.negative,
            whole: self.whole,
            digits,
            count: self.count + 1,
        }
    }

    /// The factor that they end.
    pub(crate) fn factor(self) -> Factor
        ensures { result ≡ factor self.negative self.whole (round_digits (decimals_in self)) }
    {
        Factor {
            negative: self.negative,
            whole: self.whole,
            fraction: round_digits(&self.digits[..usize::from(self.count)]),
        }
    }
}

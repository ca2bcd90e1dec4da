//! Products and quotients of amounts.

ghost use Rattle.std.specs.Prelude.{◌≡◌, ◌<◌, ◌^◌, ◌*ℤ◌, unsigned_abs, IfSome, Some};
ghost use Rattle.tx_num.specs.Quotients.{nearest as nearest_number, rounded_quotient as rounded};
ghost use Rattle.tx_etex.specs.Expressions.{amount_times, quotient as quotient_of, within as within_range};
ghost use Rattle.tx_etex.specs.Bounds.{IsBelow};
ghost use Rattle.tx_etex.specs.Values.{product as product_of};

use crate::amount::{Amount, Flex, within};
use tx_num::QuantKind;

/// An amount of this kind times an integer. None comes where one of them is missing or out of range. The
/// product itself may be out of range.
pub(crate) fn product(kind: QuantKind, a: Option<Amount>, n: Option<Amount>) -> Option<Amount>
    ensures value { result ≡ product_of kind a n }
    ensures bound { IfSome result (IsBelow (2 ^ 62)) }
{
    let a = within(kind, a)?;
    let n = within(QuantKind::Int, n)?;
    Some(times(a, n))
}

/// An amount over an integer. None comes where one of them is missing, or the integer is 0 or out of range.
pub(crate) fn quotient(a: Option<Amount>, n: Option<Amount>) -> Option<Amount>
    requires { IfSome a (IsBelow (2 ^ 62)) }
    ensures { result ≡ quotient_of a (within_range QuantKind.Int n) }
{
    let a = a?;
    let n = within(QuantKind::Int, n)?;
    over(a, n)
}

/// An amount times an integer.
fn times(a: Amount, n: Amount) -> Amount
    requires left { IsBelow (2 ^ 31) a }
    requires right { IsBelow (2 ^ 31) n }
    ensures value { result ≡ amount_times a n }
    ensures bound { IsBelow (2 ^ 62) result }
{
    Amount {
        width: multiply(a.width, n.width),
        stretch: Flex {
            size: multiply(a.stretch.size, n.width),
            order: a.stretch.order,
        },
        shrink: Flex {
            size: multiply(a.shrink.size, n.width),
            order: a.shrink.order,
        },
    }
}

/// A product of two numbers.
fn multiply(a: i64, n: i64) -> i64
    requires left { unsigned_abs a < 2 ^ 31 }
    requires right { unsigned_abs n < 2 ^ 31 }
    ensures value { result ≡ a *ℤ n }
    ensures bound { unsigned_abs result < 2 ^ 62 }
{
    a * n
}

/// An amount over an integer, each part to the nearest whole number.
fn over(a: Amount, n: Amount) -> Option<Amount>
    requires left { IsBelow (2 ^ 62) a }
    requires right { IsBelow (2 ^ 31) n }
    ensures { result ≡ quotient_of (Some a) (Some n) }
{
    if n.width == 0 {
        return None;
    }
    Some(Amount {
        width: rounded_quotient(a.width, n.width),
        stretch: Flex {
            size: rounded_quotient(a.stretch.size, n.width),
            order: a.stretch.order,
        },
        shrink: Flex {
            size: rounded_quotient(a.shrink.size, n.width),
            order: a.shrink.order,
        },
    })
}

/// A quotient to the nearest whole number, a tie away from zero.
fn rounded_quotient(n: i64, d: i64) -> i64
    requires left { unsigned_abs n < 2 ^ 62 }
    requires right { unsigned_abs d < 2 ^ 31 }
    requires nonzero { 0 < unsigned_abs d }
    ensures { result ≡ rounded n d }
{
    let size = nearest(n.unsigned_abs(), d.unsigned_abs()) as i64;
    if (n < 0) == (d < 0) { size } else { -size }
}

/// A quotient to the nearest whole number, a tie up.
fn nearest(n: u64, d: u64) -> u64
    requires left { n < 2 ^ 62 }
    requires right { d < 2 ^ 31 }
    requires nonzero { 0 < d }
    ensures value { result ≡ nearest_number n d }
    ensures bound { result < 2 ^ 63 }
{
    (2 * n + d) / (2 * d)
}

//! Sums and differences of amounts.

ghost use Rattle.std.specs.Prelude.{◌≡◌, ◌<◌, ◌≤◌, ◌^◌, unsigned_abs};
ghost use Rattle.tx_etex.specs.Expressions.{amount_by, combined as combined_amounts, flex_by, higher_or_both, normal as normal_flex, rank as rank_of, within as within_range};
ghost use Rattle.tx_etex.specs.Bounds.{IsBelow};
ghost use Rattle.tx_etex.specs.Signs.{signed_sum as signed_sum_of};

use crate::amount::{Amount, Flex, within};
use tx_num::{Order, QuantKind};

/// The sign between two terms.
#[derive(Clone, Copy, Debug)]
pub(crate) enum Sign {
    /// A plus.
    Plus,
    /// A minus.
    Minus,
}

/// The sum or difference of two amounts that are in the range of this kind. None comes where one of them
/// is missing or out of range.
pub(crate) fn combined(
    sign: Sign,
    kind: QuantKind,
    a: Option<Amount>,
    b: Option<Amount>,
) -> Option<Amount>
    ensures { result ≡ combined_amounts (amount_by (signed_sum_of sign)) (within_range kind a) (within_range kind b) }
{
    let a = within(kind, a)?;
    let b = within(kind, b)?;
    Some(combine(sign, a, b))
}

/// The sum or difference of two amounts. Of stretches of two orders the one of the higher order is left,
/// with its sign, in a difference too.
fn combine(sign: Sign, a: Amount, b: Amount) -> Amount
    requires left { IsBelow (2 ^ 31) a }
    requires right { IsBelow (2 ^ 31) b }
    ensures { result ≡ amount_by (signed_sum_of sign) a b }
{
    Amount {
        width: signed_sum(sign, a.width, b.width),
        stretch: combine_flex(sign, a.stretch, b.stretch),
        shrink: combine_flex(sign, a.shrink, b.shrink),
    }
}

/// The same of two stretches.
fn combine_flex(sign: Sign, a: Flex, b: Flex) -> Flex
    requires left { unsigned_abs a.size < 2 ^ 31 }
    requires right { unsigned_abs b.size < 2 ^ 31 }
    ensures { result ≡ flex_by (signed_sum_of sign) a b }
{
    higher_or_both(sign, normal(a), normal(b))
}

/// The same of two stretches that are finite where they are 0.
fn higher_or_both(sign: Sign, a: Flex, b: Flex) -> Flex
    requires left { unsigned_abs a.size < 2 ^ 31 }
    requires right { unsigned_abs b.size < 2 ^ 31 }
    ensures { result ≡ higher_or_both (signed_sum_of sign) a b }
{
    if rank(a.order) < rank(b.order) {
        b
    } else if rank(b.order) < rank(a.order) {
        a
    } else {
        normal(Flex {
            size: signed_sum(sign, a.size, b.size),
            order: a.order,
        })
    }
}

/// A stretch of 0 is finite.
fn normal(f: Flex) -> Flex
    ensures value { result ≡ normal_flex f }
    ensures bound { unsigned_abs result.size ≤ unsigned_abs f.size }
{
    if f.size == 0 {
        Flex {
            size: 0,
            order: Order::Finite,
        }
    } else {
        f
    }
}

/// The place of an order among the orders.
fn rank(order: Order) -> u8
    ensures { result ≡ rank_of order }
{
    match order {
        Order::Finite => 0,
        Order::Fil => 1,
        Order::Fill => 2,
        Order::Filll => 3,
    }
}

/// A sum or difference.
fn signed_sum(sign: Sign, a: i64, b: i64) -> i64
    requires left { unsigned_abs a < 2 ^ 31 }
    requires right { unsigned_abs b < 2 ^ 31 }
    ensures { result ≡ signed_sum_of sign a b }
{
    match sign {
        Sign::Plus => a + b,
        Sign::Minus => a - b,
    }
}

//! Stretches and shrinks with their orders of infinity.

ghost use Rattle.std.specs.Prelude.{◌≡◌, ◌+ℤ◌};
ghost use Rattle.std.specs.Option.{option_map};
ghost use Rattle.tx_private.specs.Arithmetic.{part, sum_of, rank as rank_of};
ghost use Rattle.tx_assign.specs.Changes.{part_in, part_in_range};

use std::cmp::Ordering;
use tx_num::{Order, Sp, sum};

/// An amount of an order of infinity.
#[derive(Clone, Copy, Debug)]
pub(crate) struct Part {
    /// How much.
    pub(crate) amount: Sp,
    /// Of which order.
    pub(crate) infinity: Order,
}

impl Part {
    /// An amount of an order; an amount of 0 is finite. *TeX: The Program*, section 1239.
    pub(crate) fn new(amount: Sp, infinity: Order) -> Self
        ensures { part_in result ≡ part amount infinity }
    {
        if amount.get() == 0 {
            Part {
                amount,
                infinity: Order::Finite,
            }
        } else {
            Part { amount, infinity }
        }
    }

    /// The sum of two amounts: of different orders the higher one counts alone. None comes exactly where
    /// the sum is no dimension. *TeX: The Program*, section 1239.
    pub(crate) fn plus(self, other: Part) -> Option<Part>
        ensures { option_map part_in result ≡ part_in_range (sum_of (part_in self) (part_in other)) }
    {
        match rank(self.infinity).cmp(&rank(other.infinity)) {
            Ordering::Less => Some(other),
            Ordering::Equal => self.plus_same(other),
            Ordering::Greater => Some(self),
        }
    }

    /// The sum of two amounts of one order.
    fn plus_same(self, other: Part) -> Option<Part>
        ensures { option_map part_in result ≡ part_in_range (record { amount = self.amount +ℤ other.amount; infinity = self.infinity }) }
    {
        let amount = sum(self.amount, other.amount)?;
        Some(Part {
            amount,
            infinity: self.infinity,
        })
    }
}

/// The place of an order among the orders.
fn rank(order: Order) -> u8
    ensures { result ≡ rank_of order }
{
    order as u8
}

//! Scaled points.

ghost use Rattle.std.specs.Prelude.{◌+ℤ◌, ◌≡◌, SomeIff};
ghost use Rattle.tx_num.specs.Ranges.{IsDimension, dimension};

use std::marker::Model;

/// A dimension in scaled points, of which 2^16 are a printer's point. It is below 2^30 in absolute
/// value (*TeX: The Program*, sections 101 and 104). A contract sees it as its whole number.
#[derive(Clone, Copy, Debug, PartialEq, Eq, PartialOrd, Ord, Hash)]
pub struct Sp(pub i32);

impl Model for Sp {
    ghost use Rattle.std.specs.Prelude.{ℤ};
    ghost use Rattle.tx_num.specs.Ranges.{IsDimension};

    ghost Value = { ℤ };

    ghost view = { λ s. s.0 };

    ghost invariant = { λ s. IsDimension s.0 };

    ghost inverse = { λ z. record { 0 = z } };
}

impl Sp {
    /// No width at all.
    pub const ZERO: Sp = Sp(0);

    /// One printer's point.
    pub const POINT: Sp = Sp(65536);

    /// The largest dimension, which is 16383.99998pt.
    pub const MAX: Sp = Sp(1_073_741_823);

    /// So many scaled points. None comes exactly where they are no dimension.
    pub fn new(value: i32) -> Option<Self>
        ensures value { result ≡ dimension value }
        ensures cases { SomeIff result (IsDimension value) value }
    {
        Self::from_i64(i64::from(value))
    }

    /// The same of a wider number, such as a total of dimensions.
    pub fn from_i64(value: i64) -> Option<Self>
        ensures value { result ≡ dimension value }
        ensures cases { SomeIff result (IsDimension value) value }
    {
        if value.unsigned_abs() < 1 << 30 {
            Some(Sp(value as i32))
        } else {
            None
        }
    }

    /// How many scaled points it is.
    pub fn get(self) -> i32
        ensures value { result ≡ self }
        ensures range { IsDimension self }
    {
        self.0
    }
}

/// The sum of two dimensions. None comes exactly where it is no dimension.
pub fn sum(a: Sp, b: Sp) -> Option<Sp>
    ensures value { result ≡ dimension (a +ℤ b) }
    ensures cases { SomeIff result (IsDimension (a +ℤ b)) (a +ℤ b) }
{
    Sp::new(a.0 + b.0)
}

/// A list of dimensions. A contract sees it as the list of their numbers.
#[derive(Clone, Debug, Drop)]
pub struct Sps(pub Vec<Sp>);

impl Model for Sps {
    ghost use Rattle.std.specs.Prelude.{ℤ, List};

    ghost Value = { List ℤ };

    ghost view = { λ s. s.0.items };
}

/// A list of pairs of dimensions, as the indents and widths of `\parshape`. A contract sees it as the
/// list of the pairs of their numbers.
#[derive(Clone, Debug, Drop)]
pub struct Pairs(pub Vec<(Sp, Sp)>);

impl Model for Pairs {
    ghost use Rattle.std.specs.Prelude.{ℤ, List};

    ghost Value = { List (ℤ × ℤ) };

    ghost view = { λ p. p.0.items };
}

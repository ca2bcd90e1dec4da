//! The bases of numbers.

ghost use Rattle.std.specs.Prelude.{◌≡◌, ◌≤◌};
ghost use Rattle.tx_quant.specs.Bases.{radix_of};

/// The base of a number.
#[derive(Clone, Copy, Debug, PartialEq, Eq)]
pub(crate) enum Base {
    Octal,
    Decimal,
    Hexadecimal,
}

impl Base {
    /// How many digits it has.
    pub(crate) fn radix(self) -> u8
        ensures value { result ≡ radix_of self }
        ensures bound { radix_of self ≤ 16 }
    {
        match self {
            Base::Octal => 8,
            Base::Decimal => 10,
            Base::Hexadecimal => 16,
        }
    }
}

//! Factors of units.

ghost use Rattle.std.specs.Prelude.{◌≡◌};
ghost use Rattle.tx_quant.specs.Factors.{factor};

/// What stands before a unit.
#[derive(Clone, Copy, Debug)]
pub(crate) struct Factor {
    /// Whether it is below 0.
    pub(crate) negative: bool,
    /// The whole number.
    pub(crate) whole: u32,
    /// The 65536ths behind it.
    pub(crate) fraction: u32,
}

/// The whole number before a point.
#[derive(Clone, Copy, Debug)]
pub(crate) struct Whole {
    /// Whether a minus stands before it.
    pub(crate) negative: bool,
    /// What its digits make up.
    pub(crate) value: u32,
}

impl Whole {
    /// It as a factor.
    pub(crate) fn factor(self) -> Factor
        ensures { result ≡ factor self.negative self.value 0 }
    {
        Factor {
            negative: self.negative,
            whole: self.value,
            fraction: 0,
        }
    }
}

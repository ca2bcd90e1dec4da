//! Amounts: what quantities come to in an expression.

ghost use Rattle.std.specs.Prelude.{◌≡◌, ◌≤◌, ◌^◌, IfSome, Some};
ghost use Rattle.tx_etex.specs.Expressions.{amount_of, width_limit as width_limit_of, within as within_range};
ghost use Rattle.tx_num.specs.Ranges.{IsDimension};
ghost use Rattle.tx_etex.specs.Readings.{glue_of, quant_of};
ghost use Rattle.tx_etex.specs.Bounds.{IsBelow, IsInRange};

use tx_num::{GlueSpec, Order, Quant, QuantKind, Sp};

/// What a stretch or shrink stays below, in absolute value.
const FLEX_LIMIT: u64 = 1 << 30;

/// What glue can stretch, or shrink.
#[derive(Clone, Copy, Debug)]
pub(crate) struct Flex {
    /// How much.
    pub(crate) size: i64,
    /// The order of infinity.
    pub(crate) order: Order,
}

/// What a quantity amounts to: only glue can stretch and shrink.
#[derive(Clone, Copy, Debug)]
pub(crate) struct Amount {
    /// The integer, or the width.
    pub(crate) width: i64,
    /// What it can stretch.
    pub(crate) stretch: Flex,
    /// What it can shrink.
    pub(crate) shrink: Flex,
}

/// No stretch.
const RIGID: Flex = Flex {
    size: 0,
    order: Order::Finite,
};

impl Amount {
    /// What a quantity amounts to.
    pub(crate) fn of(q: Quant) -> Self
        ensures { result ≡ amount_of q }
    {
        match q {
            Quant::Int(n) => Amount {
                width: i64::from(n),
                stretch: RIGID,
                shrink: RIGID,
            },
            Quant::Dim(d) => Amount {
                width: i64::from(d.get()),
                stretch: RIGID,
                shrink: RIGID,
            },
            Quant::Glue(g) => Self::of_glue(g),
            Quant::Mu(g) => Self::of_glue(g),
        }
    }

    /// What glue amounts to.
    fn of_glue(g: GlueSpec) -> Self
        ensures { result ≡ amount_of (Quant.Glue g) }
    {
        Amount {
            width: i64::from(g.width.get()),
            stretch: Flex {
                size: i64::from(g.stretch.get()),
                order: g.stretch_order,
            },
            shrink: Flex {
                size: i64::from(g.shrink.get()),
                order: g.shrink_order,
            },
        }
    }

    /// The quantity of this kind that it is.
    pub(crate) fn quantity(self, kind: QuantKind) -> Quant
        requires { IsInRange kind self }
        ensures { result ≡ quant_of kind self }
    {
        match kind {
            QuantKind::Int => Quant::Int(self.width as i32),
            QuantKind::Dim => Quant::Dim(dimension(self.width)),
            QuantKind::Glue => Quant::Glue(self.glue()),
            QuantKind::Mu => Quant::Mu(self.glue()),
        }
    }

    /// The glue that it is.
    fn glue(self) -> GlueSpec
        requires { IsBelow (2 ^ 30) self }
        ensures { result ≡ glue_of self }
    {
        GlueSpec {
            width: dimension(self.width),
            stretch: dimension(self.stretch.size),
            stretch_order: self.stretch.order,
            shrink: dimension(self.shrink.size),
            shrink_order: self.shrink.order,
        }
    }

    /// The amount, where it is in the range of this kind.
    fn in_range(self, kind: QuantKind) -> Option<Self>
        ensures value { result ≡ within_range kind (Some self) }
        ensures small { IfSome result (IsBelow (2 ^ 31)) }
        ensures range { IfSome result (IsInRange kind) }
    {
        if self.width.unsigned_abs() >= width_limit(kind) {
            return None;
        }
        if self.stretch.size.unsigned_abs() >= FLEX_LIMIT {
            return None;
        }
        if self.shrink.size.unsigned_abs() >= FLEX_LIMIT {
            return None;
        }
        Some(self)
    }
}

/// What the width of an amount of this kind stays below, in absolute value.
fn width_limit(kind: QuantKind) -> u64
    ensures value { result ≡ width_limit_of kind }
    ensures bound { result ≤ 2 ^ 31 }
{
    match kind {
        QuantKind::Int => 1 << 31,
        QuantKind::Dim | QuantKind::Glue | QuantKind::Mu => 1 << 30,
    }
}

/// The amount, where there is one and it is in the range of this kind.
pub(crate) fn within(kind: QuantKind, amount: Option<Amount>) -> Option<Amount>
    ensures value { result ≡ within_range kind amount }
    ensures small { IfSome result (IsBelow (2 ^ 31)) }
    ensures range { IfSome result (IsInRange kind) }
{
    match amount {
        Some(amount) => amount.in_range(kind),
        None => None,
    }
}

/// So many scaled points.
fn dimension(size: i64) -> Sp
    requires { IsDimension size }
    ensures { result ≡ size }
{
    Sp(size as i32)
}

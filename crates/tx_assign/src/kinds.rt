//! How the value of an address is read.

ghost use Rattle.std.specs.Prelude.{◌≡◌};
ghost use Rattle.tx_private.specs.Quantities.{is_math_parameter};
ghost use Rattle.tx_private.specs.Assignments.{kind_of_register, kind_at};
ghost use Rattle.tx_views.specs.Views.{View};
ghost use Rattle.tx_views.specs.Places.{register_in, address_in};
ghost use Rattle.tx_assign.specs.Values.{kind_in};

use tx_eqtb::RegKind;
use tx_prims::primitives::GlueParameter;
use tx_views::Place;

/// The kinds of value that an assignment reads.
#[derive(Clone, Copy, Debug, PartialEq, Eq)]
pub enum ValueKind {
    /// An integer.
    Number,
    /// A dimension.
    Dimension,
    /// Glue, which is math glue where this is true.
    Glue(bool),
    /// A list of tokens.
    List,
}

/// The kind of value that an address has. That of a name or of an active byte counts as a number, as no
/// assignment reads a value for it. *TeX: The Program*, sections 1226, 1228 and 1237.
pub fn value_kind(place: Place) -> ValueKind
    ensures { (view : View) → kind_in result ≡ kind_at (address_in view place) }
{
    match place {
        Place::Name(_) | Place::Active(_) | Place::Code(_, _) | Place::Integer(_) =>
            ValueKind::Number,
        Place::Register(kind, _) => register_value(kind),
        Place::Dimension(_) => ValueKind::Dimension,
        Place::Glue(parameter) => ValueKind::Glue(is_math(parameter)),
        Place::List(_) => ValueKind::List,
    }
}

/// The kind of value that a register has.
fn register_value(kind: RegKind) -> ValueKind
    ensures { kind_in result ≡ kind_of_register (register_in kind) }
{
    match kind {
        RegKind::Count => ValueKind::Number,
        RegKind::Dimen => ValueKind::Dimension,
        RegKind::Skip => ValueKind::Glue(false),
        RegKind::Muskip => ValueKind::Glue(true),
        RegKind::Toks => ValueKind::List,
    }
}

/// Whether a parameter is math glue.
fn is_math(parameter: GlueParameter) -> bool
    ensures { result ≡ is_math_parameter parameter }
{
    matches!(
        parameter,
        GlueParameter::ThinMuSkip | GlueParameter::MedMuSkip | GlueParameter::ThickMuSkip
    )
}

//! The targets of arithmetic, by what a token means.

ghost use Rattle.std.specs.Prelude.{◌≡◌};
ghost use Rattle.tx_assign.specs.Operations.{IsTargetOf, IsNoCode, target_of};

use crate::targets::Target;
use tx_eqtb::RegKind;
use tx_prims::primitives::{Assignment, Primitive};
use tx_views::{Place, Sense};

/// What arithmetic works on where a token of this meaning stands behind its command: a register or a
/// parameter that is an integer, a dimension or glue, and else nothing. *TeX: The Program*, section 1237.
pub fn target(sense: Sense) -> Target
    ensures target { IsTargetOf sense result }
    ensures place { result ≡ target_of sense }
    ensures no_code { IsNoCode result }
{
    match sense {
        Sense::Register(kind, no) => register_target(kind, no),
        Sense::Primitive(primitive) => primitive_target(primitive),
        _ => Target::None,
    }
}

/// The same of a register.
fn register_target(kind: RegKind, no: u16) -> Target
    ensures target { IsTargetOf (Sense.Register kind no) result }
    ensures place { result ≡ target_of (Sense.Register kind no) }
    ensures no_code { IsNoCode result }
{
    match kind {
        RegKind::Toks => Target::None,
        RegKind::Count | RegKind::Dimen | RegKind::Skip | RegKind::Muskip => Target::Place(
            Place::Register(kind, no),
        ),
    }
}

/// The same of a primitive.
fn primitive_target(primitive: Primitive) -> Target
    ensures target { IsTargetOf (Sense.Primitive primitive) result }
    ensures place { result ≡ target_of (Sense.Primitive primitive) }
    ensures no_code { IsNoCode result }
{
    match primitive {
        Primitive::Assignment(assignment) => numbered_target(assignment),
        Primitive::IntegerParameter(parameter) => Target::Place(Place::Integer(parameter)),
        Primitive::DimensionParameter(parameter) => Target::Place(Place::Dimension(parameter)),
        Primitive::GlueParameter(parameter) => Target::Place(Place::Glue(parameter)),
        _ => Target::None,
    }
}

/// The same of an assignment, behind which the number of a register stands.
fn numbered_target(assignment: Assignment) -> Target
    ensures target { IsTargetOf (Sense.Primitive (Primitive.Assignment assignment)) result }
    ensures place { result ≡ target_of (Sense.Primitive (Primitive.Assignment assignment)) }
    ensures no_code { IsNoCode result }
{
    match assignment {
        Assignment::Count => Target::Numbered(RegKind::Count),
        Assignment::Dimen => Target::Numbered(RegKind::Dimen),
        Assignment::Skip => Target::Numbered(RegKind::Skip),
        Assignment::MuSkip => Target::Numbered(RegKind::Muskip),
        _ => Target::None,
    }
}

//! Where internal quantities begin.

ghost use Rattle.std.specs.Prelude.{◌≡◌, not};
ghost use Rattle.tx_private.specs.Meanings.{Prim};
ghost use Rattle.tx_views.specs.Views.{View};
ghost use Rattle.tx_views.specs.Meanings.{sense_in};
ghost use Rattle.tx_private.specs.Quantities.{begins_quantity as begins_quantity_of, begins_none as begins_none_of};

use tx_eqtb::RegKind;
use tx_prims::primitives::{Assignment, Primitive};
use tx_views::Sense;

/// Whether an internal quantity begins with a command of this meaning: a register that is no list of tokens, a
/// parameter that is none, a table of codes, or a name that stands for a code (*TeX: The Program*, section 413).
pub fn begins_quantity(sense: Sense) -> bool
    ensures { (view : View) → result ≡ begins_quantity_of (sense_in view sense) }
{
    match sense {
        Sense::Code(_, _) => true,
        Sense::Register(RegKind::Toks, _) => false,
        Sense::Register(_, _) => true,
        Sense::Primitive(primitive) => primitive_begins(primitive),
        _ => false,
    }
}

/// Whether a quantity begins with this primitive.
fn primitive_begins(primitive: Primitive) -> bool
    ensures { result ≡ begins_quantity_of (Prim primitive) }
{
    match primitive {
        Primitive::Assignment(assignment) => !begins_none(assignment),
        Primitive::IntegerParameter(_)
        | Primitive::DimensionParameter(_)
        | Primitive::GlueParameter(_) => true,
        _ => false,
    }
}

/// Whether this one of the assignments and of the values of their family begins no quantity.
fn begins_none(assignment: Assignment) -> bool
    ensures { result ≡ begins_none_of assignment }
{
    match assignment {
        Assignment::Def
        | Assignment::EDef
        | Assignment::GDef
        | Assignment::XDef
        | Assignment::Let
        | Assignment::FutureLet
        | Assignment::CharDef
        | Assignment::MathCharDef
        | Assignment::CountDef
        | Assignment::DimenDef
        | Assignment::SkipDef
        | Assignment::MuSkipDef
        | Assignment::ToksDef
        | Assignment::Advance
        | Assignment::Multiply
        | Assignment::Divide
        | Assignment::Global
        | Assignment::Long
        | Assignment::Protected
        | Assignment::Toks
        | Assignment::SetBox
        | Assignment::Font
        | Assignment::TextFont
        | Assignment::ScriptFont
        | Assignment::ScriptScriptFont
        | Assignment::NullFont
        | Assignment::Hyphenation
        | Assignment::Patterns => true,
        _ => false,
    }
}

//! What an assignment is on: a name, a register or a code.

ghost use Rattle.std.specs.Prelude.{◌≡◌, List};
ghost use Rattle.std.specs.Option.{option_map};
ghost use Rattle.tx_private.specs.World.{World};
ghost use Rattle.tx_private.specs.Meanings as private;
ghost use Rattle.tx_private.specs.Readings.{Item, Move};
ghost use Rattle.tx_private.specs.Quantities.{register_of, codes_of};
ghost use Rattle.tx_private.specs.Assignments as assignments;
ghost use Rattle.tx_private.specs.Assignments.{name_address};
ghost use Rattle.tx_private.specs.Controls.{names};
ghost use Rattle.tx_views.specs.Views.{View, viewed};
ghost use Rattle.tx_views.specs.Places.{address_in};
ghost use Rattle.tx_assign.specs.Assigned.{names_by, if_register, if_codes, place_of};

use crate::operation::Operation;
use tx_eqtb::RegKind;
use tx_prims::primitives::Assignment;
use tx_tok::Tok;
use tx_views::{CodeTable, Place};

/// What a command does with a name, or by arithmetic.
#[derive(Clone, Copy, Debug, PartialEq, Eq)]
pub enum Defined {
    /// The name gets a macro, as by `\def`.
    Def {
        /// Whether the body is expanded, as by `\edef` and `\xdef`.
        expands: bool,
        /// Whether it is global by itself, as by `\gdef` and `\xdef`.
        global: bool,
    },
    /// The name gets the meaning of a token, as by `\let`.
    Let,
    /// The name gets the meaning of the second token that follows, as by `\futurelet`.
    FutureLet,
    /// The name stands for the code of a character, or for a math code.
    Code {
        /// Whether it is a math code, as by `\mathchardef`.
        math: bool,
    },
    /// The name stands for a register of this kind, as by `\countdef`.
    Register(RegKind),
    /// A register or a parameter is computed with.
    Arithmetic(Operation),
}

/// The place of a name or of an active character. None comes exactly where a token is neither.
/// *TeX: The Program*, section 1215.
pub fn name_place(token: Tok) -> Option<Place>
    ensures address { (view : View) → option_map (address_in view) result ≡ name_address (viewed view token) }
    ensures place { result ≡ place_of token }
{
    match token {
        Tok::Name(number) => Some(Place::Name(number)),
        Tok::Active(byte) => Some(Place::Active(byte)),
        _ => None,
    }
}

/// What an assignment does with a name, or by arithmetic. None comes exactly where it does neither.
/// *TeX: The Program*, sections 1218, 1221, 1224 and 1235.
pub fn defining(assignment: Assignment) -> Option<Defined>
    ensures { (p : assignments.Prefixes) (items : List Item) (w : World) → names p assignment items w ≡ names_by p result items w }
{
    let defined = match assignment {
        Assignment::Def => definition(false, false),
        Assignment::EDef => definition(true, false),
        Assignment::GDef => definition(false, true),
        Assignment::XDef => definition(true, true),
        Assignment::Let => Defined::Let,
        Assignment::FutureLet => Defined::FutureLet,
        Assignment::CharDef => Defined::Code { math: false },
        Assignment::MathCharDef => Defined::Code { math: true },
        Assignment::CountDef => Defined::Register(RegKind::Count),
        Assignment::DimenDef => Defined::Register(RegKind::Dimen),
        Assignment::SkipDef => Defined::Register(RegKind::Skip),
        Assignment::MuSkipDef => Defined::Register(RegKind::Muskip),
        Assignment::ToksDef => Defined::Register(RegKind::Toks),
        Assignment::Advance => Defined::Arithmetic(Operation::Advance),
        Assignment::Multiply => Defined::Arithmetic(Operation::Multiply),
        Assignment::Divide => Defined::Arithmetic(Operation::Divide),
        _ => return None,
    };
    Some(defined)
}

/// A definition of a macro.
fn definition(expands: bool, global: bool) -> Defined
    ensures { result ≡ Defined.Def expands global }
{
    Defined::Def { expands, global }
}

/// The kind of register whose number stands behind an assignment. None comes exactly where none does.
/// *TeX: The Program*, sections 1226 and 1237.
pub fn register(assignment: Assignment) -> Option<RegKind>
    ensures { (at : private.Register → Move) (other : Move) → register_of assignment at other ≡ if_register result at other }
{
    match assignment {
        Assignment::Count => Some(RegKind::Count),
        Assignment::Dimen => Some(RegKind::Dimen),
        Assignment::Skip => Some(RegKind::Skip),
        Assignment::MuSkip => Some(RegKind::Muskip),
        Assignment::Toks => Some(RegKind::Toks),
        _ => None,
    }
}

/// The table of codes whose byte stands behind an assignment. None comes exactly where none does.
/// *TeX: The Program*, section 1232.
pub fn codes(assignment: Assignment) -> Option<CodeTable>
    ensures { (at : private.CodeTable → Move) (other : Move) → codes_of assignment at other ≡ if_codes result at other }
{
    match assignment {
        Assignment::CatCode => Some(CodeTable::Categories),
        Assignment::LcCode => Some(CodeTable::LowerCases),
        Assignment::UcCode => Some(CodeTable::UpperCases),
        Assignment::SfCode => Some(CodeTable::SpaceFactors),
        Assignment::MathCode => Some(CodeTable::MathCodes),
        Assignment::DelCode => Some(CodeTable::DelimiterCodes),
        _ => None,
    }
}

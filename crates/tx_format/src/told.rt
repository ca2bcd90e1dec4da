//! What the states in which a session can begin say of addresses.

ghost use Rattle.std.specs.Prelude.{◌≡◌, if◌then◌else◌, nat_lt, None, Some, slice_get};
ghost use Rattle.std.specs.Option.{option_map};
ghost use Rattle.tx_eqtb.specs.declared.meaning.Meaning.TheVariants as meaning;
ghost use Rattle.tx_format.specs.Parameters.{integer, dimension, glue};
ghost use Rattle.tx_format.specs.States.{told, byte_code, code};

use crate::codes::{category, delimiter_code, lower_case, math_code, space_factor, upper_case};
use crate::parameters::{DIMENSIONS, GLUES, INTEGERS, dimension, glue, integer};
use crate::preset::Preset;
use tx_eqtb::{AddrKind, Meaning};
use tx_node::BoxNode;

/// What a state says of the address of this kind and number. None comes exactly where it says nothing.
pub(crate) fn told(preset: Preset, kind: AddrKind, no: u64) -> Option<Meaning<BoxNode>>
    ensures { result ≡ told preset kind no }
{
    match kind {
        AddrKind::Name => primitive(no),
        AddrKind::IntParam => integer_parameter(preset, no),
        AddrKind::DimenParam => dimension_parameter(preset, no),
        AddrKind::GlueParam => glue_parameter(preset, no),
        AddrKind::CatCode
        | AddrKind::LcCode
        | AddrKind::UcCode
        | AddrKind::SfCode
        | AddrKind::MathCode
        | AddrKind::DelCode
        | AddrKind::Active
        | AddrKind::Count
        | AddrKind::Dimen
        | AddrKind::Skip
        | AddrKind::Muskip
        | AddrKind::Toks
        | AddrKind::Box
        | AddrKind::ToksParam
        | AddrKind::CurrentFont
        | AddrKind::Family
        | AddrKind::ParShape => byte_code(preset, kind, no),
    }
}

/// The primitive at a place of the table.
fn primitive(no: u64) -> Option<Meaning<BoxNode>>
    ensures { result ≡ (if nat_lt no 297 then Some (meaning.Prim no) else None) }
{
    if no < 297 {
        Some(Meaning::Prim(no as u16))
    } else {
        None
    }
}

/// What a state says of a code of a byte. It says nothing of a number that is no byte.
fn byte_code(preset: Preset, kind: AddrKind, no: u64) -> Option<Meaning<BoxNode>>
    ensures { result ≡ byte_code preset kind no }
{
    if no >= 256 {
        return None;
    }
    match code(preset, kind, no as u8) {
        Some(code) => Some(Meaning::Int(code)),
        None => None,
    }
}

/// The code of this kind that a byte has. None comes exactly where this is no kind of codes.
fn code(preset: Preset, kind: AddrKind, byte: u8) -> Option<i32>
    ensures { result ≡ code preset kind byte }
{
    match kind {
        AddrKind::CatCode => Some(i32::from(category(preset, byte))),
        AddrKind::LcCode => Some(i32::from(lower_case(byte))),
        AddrKind::UcCode => Some(i32::from(upper_case(byte))),
        AddrKind::SfCode => Some(space_factor(byte)),
        AddrKind::MathCode => Some(math_code(byte)),
        AddrKind::DelCode => Some(delimiter_code(byte)),
        AddrKind::Name
        | AddrKind::Active
        | AddrKind::Count
        | AddrKind::Dimen
        | AddrKind::Skip
        | AddrKind::Muskip
        | AddrKind::Toks
        | AddrKind::Box
        | AddrKind::IntParam
        | AddrKind::DimenParam
        | AddrKind::GlueParam
        | AddrKind::ToksParam
        | AddrKind::CurrentFont
        | AddrKind::Family
        | AddrKind::ParShape => None,
    }
}

/// What a state says of a parameter that is an integer.
fn integer_parameter(preset: Preset, no: u64) -> Option<Meaning<BoxNode>>
    ensures { result ≡ option_map (λ parameter. meaning.Int (integer preset parameter)) (slice_get INTEGERS no) }
{
    match nth(&INTEGERS, no) {
        Some(parameter) => Some(Meaning::Int(integer(preset, parameter))),
        None => None,
    }
}

/// What a state says of a parameter that is a dimension.
fn dimension_parameter(preset: Preset, no: u64) -> Option<Meaning<BoxNode>>
    ensures { result ≡ option_map (λ parameter. meaning.Dim (dimension preset parameter)) (slice_get DIMENSIONS no) }
{
    match nth(&DIMENSIONS, no) {
        Some(parameter) => Some(Meaning::Dim(dimension(preset, parameter))),
        None => None,
    }
}

/// What a state says of a parameter that is glue.
fn glue_parameter(preset: Preset, no: u64) -> Option<Meaning<BoxNode>>
    ensures { result ≡ option_map (λ parameter. meaning.Glue (glue preset parameter)) (slice_get GLUES no) }
{
    match nth(&GLUES, no) {
        Some(parameter) => Some(Meaning::Glue(glue(preset, parameter))),
        None => None,
    }
}

/// The item with this number. None comes exactly where there is none.
fn nth<T: Copy>(items: &[T], no: u64) -> Option<T>
    ensures { result ≡ slice_get items.now no }
{
    items.get(no as usize).copied()
}

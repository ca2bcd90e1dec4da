//! Meanings as texts.

ghost use Rattle.std.specs.Prelude.{◌≡◌, ◌++◌, ◌∷◌, [], ℕ, IfOk, OnOk, codes, string_bytes, true, if◌then◌else◌};
ghost use Rattle.std.specs.Fmt.{digits};
ghost use Rattle.tx_model.specs.Shown.{escape as escape_of};
ghost use Rattle.tx_private.specs.Meanings as private;
ghost use Rattle.tx_private.specs.Described.{described, character_text as text_of_character, register_name as name_of_register, flag, name_of_primitive, name_in, hexadecimal};
ghost use Rattle.tx_scan.specs.declared.cats.Cats.{Cats};
ghost use Rattle.tx_views.specs.Views.{View};
ghost use Rattle.tx_views.specs.Places.{register_in};
ghost use Rattle.tx_describe.specs.declared.rest.Rest.{Rest};
ghost use Rattle.tx_describe.specs.Rests.{behind};
ghost use Rattle.tx_describe.specs.Descriptions.{nowhere, macro_beginning as beginning_of_macro, rest_text};

use std::alloc::{AllocError, Global};
use tx_eqtb::RegKind;
use tx_prims::TableRow;
use tx_prims::primitives::{Primitive, primitive_table};
use tx_tok::Cat;
use tx_views::Sense;

/// The text of a meaning, without that of a macro's list. *TeX: The Program*, section 298.
pub(crate) fn sense_text(alloc: Global, sense: &Sense, escape: i32) -> Result<Vec<u8>, AllocError>
    ensures { IfOk result (λ text. (view : View) (cats : Cats) → rest_text view cats escape (Rest.Meaning sense.now) ≡ text.items ++ rest_text view cats escape (behind (Rest.Meaning sense.now))) }
{
    match sense {
        Sense::Undefined => Vec::from_slice(alloc, b"undefined"),
        Sense::Primitive(primitive) => escaped(alloc, escape, primitive_name(*primitive)),
        Sense::Macro(long, protected, _) => macro_beginning(alloc, *long, *protected, escape),
        Sense::Char(cat, byte) => character_text(alloc, *cat, *byte),
        Sense::Code(math, code) => code_text(alloc, *math, *code, escape),
        Sense::Register(kind, no) => register_text(alloc, *kind, *no, escape),
        Sense::Int(_) | Sense::Dim(_) | Sense::Glue(_) | Sense::List(_) => Ok(Vec::new(alloc)),
    }
}

/// A word with the escape character in front, where that is a byte.
fn escaped(alloc: Global, escape: i32, word: &[u8]) -> Result<Vec<u8>, AllocError>
    ensures { IfOk result (λ text. text.items ≡ escape_of escape ++ word.now) }
{
    let mut text = Vec::new(alloc);
    if (0..256).contains(&escape) {
        text.push(escape as u8)?;
    }
    text.extend_from_slice(word)?;
    Ok(text)
}

/// The name of a primitive.
fn primitive_name(primitive: Primitive) -> &'static [u8]
    ensures { result.now ≡ name_of_primitive primitive }
{
    name_in(primitive, primitive_table().rows)
}

/// The name under which a primitive stands among these rows, or no bytes where it does not.
fn name_in(primitive: Primitive, rows: &[TableRow<Primitive>]) -> &[u8]
    ensures { result.now ≡ name_in primitive rows.now }
{
    for row in rows {
        if primitive == row.row {
            return row.key.text();
        }
    }
    b""
}

/// The beginning of a macro's text: its flags, and an arrow. *TeX: The Program*, section 296.
fn macro_beginning(
    alloc: Global,
    long: bool,
    protected: bool,
    escape: i32,
) -> Result<Vec<u8>, AllocError>
    ensures { IfOk result (λ text. text.items ≡ beginning_of_macro escape long protected) }
{
    let mut text = Vec::new(alloc);
    push_flag(&mut text, protected, escape, b"protected")?;
    push_flag(&mut text, long, escape, b"long")?;
    if protected || long {
        text.push(b' ')?;
    }
    text.extend_from_slice(b"macro:->")?;
    Ok(text)
}

/// Adds the name of a flag that is set.
fn push_flag(text: &mut Vec<u8>, set: bool, escape: i32, word: &[u8]) -> Result<(), AllocError>
    ensures { OnOk result (text.new.items ≡ text.old.items ++ flag set escape word.now) }
{
    if set {
        let flag = escaped(*text.allocator(), escape, word)?;
        text.extend_from_slice(flag.as_slice())?;
    }
    Ok(())
}

/// A character by its category.
fn character_text(alloc: Global, cat: Cat, byte: u8) -> Result<Vec<u8>, AllocError>
    ensures { IfOk result (λ text. text.items ≡ text_of_character cat byte) }
{
    let mut text = Vec::from_slice(alloc, category_words(cat))?;
    text.push(byte)?;
    Ok(text)
}

/// What stands before a character of this category.
fn category_words(cat: Cat) -> &'static [u8]
    ensures { (byte : ℕ) → text_of_character cat byte ≡ result.now ++ byte ∷ [] }
{
    match cat {
        Cat::Begin => b"begin-group character ",
        Cat::End => b"end-group character ",
        Cat::Math => b"math shift character ",
        Cat::Tab => b"alignment tab character ",
        Cat::Parameter => b"macro parameter character ",
        Cat::Superscript => b"superscript character ",
        Cat::Subscript => b"subscript character ",
        Cat::Space => b"blank space ",
        Cat::Letter => b"the letter ",
        Cat::Escape
        | Cat::LineEnd
        | Cat::Ignored
        | Cat::Other
        | Cat::Active
        | Cat::Comment
        | Cat::Invalid => b"the character ",
    }
}

/// A name that stands for a code of a character.
fn code_text(alloc: Global, math: bool, code: u16, escape: i32) -> Result<Vec<u8>, AllocError>
    ensures { IfOk result (λ text. text.items ≡ described nowhere escape (private.Code math code)) }
{
    let mut text = escaped(alloc, escape, code_name(math))?;
    let number = hexadecimal_text(alloc, code)?;
    text.extend_from_slice(number.as_bytes())?;
    Ok(text)
}

/// A number in hexadecimal, behind a double quote. *TeX: The Program*, section 67.
fn hexadecimal_text(alloc: Global, number: u16) -> Result<String, AllocError>
    ensures { IfOk result (λ text. string_bytes text ≡ 34 ∷ digits 16 true number) }
{
    format!(in alloc; "\"{number:X}")
}

/// The primitive that gives such names.
fn code_name(math: bool) -> &'static [u8]
    ensures { result.now ≡ (if math then codes "mathchar" else codes "char") }
{
    if math { b"mathchar" } else { b"char" }
}

/// A name that stands for a register.
fn register_text(alloc: Global, kind: RegKind, no: u16, escape: i32) -> Result<Vec<u8>, AllocError>
    ensures { IfOk result (λ text. text.items ≡ described nowhere escape (private.Register' (register_in kind) no)) }
{
    let mut text = escaped(alloc, escape, register_name(kind))?;
    let number = format!(in alloc; "{no}")?;
    text.extend_from_slice(number.as_bytes())?;
    Ok(text)
}

/// The name of the registers of a kind.
fn register_name(kind: RegKind) -> &'static [u8]
    ensures { result.now ≡ name_of_register (register_in kind) }
{
    match kind {
        RegKind::Count => b"count",
        RegKind::Dimen => b"dimen",
        RegKind::Skip => b"skip",
        RegKind::Muskip => b"muskip",
        RegKind::Toks => b"toks",
    }
}

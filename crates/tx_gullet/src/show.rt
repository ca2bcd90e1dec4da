//! Lists of tokens as TeX prints them.

ghost use Rattle.std.specs.Prelude.{◌≡◌, ◌++◌, pos, IfOk, OnOk};
ghost use Rattle.std.specs.List.{flat_map};
ghost use Rattle.tx_model.specs.Shown.{shown_in_list, blank_after};
ghost use Rattle.tx_scan.specs.Scans.{category_by};
ghost use Rattle.tx_tok.specs.Tokens.{token_in, tokens_in, token_with};
ghost use Rattle.tx_names.specs.Names.{Naming, Agrees, text_at};
ghost use Rattle.tx_gullet.specs.Meanings.{IsKnown, AreKnown};

use std::alloc::{AllocError, Global};
use tx_names::NameTable;
use tx_scan::Cats;
use tx_tok::{Cat, Tok, show_tok};

/// `\escapechar` in the state BARE.
const ESCAPE_CHAR: i32 = 92;

/// The text of a list of tokens. The only error is want of memory. *TeX: The Program*, part 20.
pub(crate) fn list_text(
    alloc: Global,
    names: &NameTable,
    cats: &Cats,
    tokens: &[Tok],
) -> Result<Vec<u8>, AllocError>
    requires known { AreKnown names.now tokens.now }
    ensures { IfOk result (λ text. (naming : Naming) → Agrees naming names.now → text.items ≡ flat_map (shown_in_list (category_by cats.now) (pos 92)) (tokens_in naming tokens.now)) }
{
    let mut out = Vec::new(alloc);
    for token in tokens {
        push_token(&mut out, names, cats, *token)?;
    }
    Ok(out)
}

/// Adds a token in the text of a list.
fn push_token(
    out: &mut Vec<u8>,
    names: &NameTable,
    cats: &Cats,
    token: Tok,
) -> Result<(), AllocError>
    requires known { IsKnown names.now token }
    ensures { OnOk result ((naming : Naming) → Agrees naming names.now → out.new.items ≡ out.old.items ++ shown_in_list (category_by cats.now) (pos 92) (token_in naming token)) }
{
    match token {
        Tok::Char(Cat::Parameter, byte) => out.extend_from_slice(&[byte, byte]),
        Tok::Name(number) => push_name(out, names.text(number), cats),
        Tok::Char(_, _) | Tok::Active(_) | Tok::Param(_) | Tok::Stop => show_tok(
            token,
            b"",
            ESCAPE_CHAR,
            out,
        ),
    }
}

/// Adds a name, with a blank behind it, unless it is one byte that is no letter.
fn push_name(out: &mut Vec<u8>, name: &[u8], cats: &Cats) -> Result<(), AllocError>
    ensures { OnOk result (out.new.items ≡ out.old.items ++ shown_in_list (category_by cats.now) (pos 92) (token_with name.now (Tok.Name 0))) }
{
    show_tok(Tok::Name(0), name, ESCAPE_CHAR, out)?;
    let is_one_other = match name {
        [byte] => !matches!(cats.of(*byte), Cat::Letter),
        _ => false,
    };
    if !is_one_other {
        out.push(b' ')?;
    }
    Ok(())
}

//! Tokens as TeX prints them.

ghost use Rattle.std.specs.Prelude.{◌≡◌, ◌∷◌, ◌++◌, IfOk, OnOk, OnErr};
ghost use Rattle.std.specs.Fmt.{decimal};
ghost use Rattle.tx_model.specs.Shown.{escape as escape_of, shown_name, shown_token};
ghost use Rattle.tx_tok.specs.Tokens.{token_with};

use crate::tok::Tok;
use std::alloc::{AllocError, Global};

/// Adds what `\string` gives of a token, where `name` is the text of its name, if it is one: a name with
/// the escape character in front, if `escape`, which is `\escapechar`, is a byte; a character or an active
/// byte as it is; a parameter as `#` and its number. The name without bytes prints as `\csname\endcsname`.
/// The only error is want of memory, which leaves `out` as it was. *TeX: The Program*, part 20.
pub fn show_tok(t: Tok, name: &[u8], escape: i32, out: &mut Vec<u8>) -> Result<(), AllocError>
    ensures ok { OnOk result (out.new.items ≡ out.old.items ++ shown_token escape (token_with name.now t)) }
    ensures err { OnErr result (out.new.items ≡ out.old.items) }
{
    let alloc = *out.allocator();
    let text = match t {
        Tok::Char(_, byte) | Tok::Active(byte) => Vec::from_slice(alloc, &[byte])?,
        Tok::Name(_) => name_text(alloc, name, escape)?,
        Tok::Param(number) => parameter_text(alloc, number)?,
        Tok::Stop => Vec::new(alloc),
    };
    out.extend_from_slice(text.as_slice())
}

/// A name with the escape character.
fn name_text(alloc: Global, name: &[u8], escape: i32) -> Result<Vec<u8>, AllocError>
    ensures { IfOk result (λ text. text.items ≡ shown_name escape name.now) }
{
    if name.is_empty() {
        let mut text = escaped(alloc, escape, b"csname")?;
        text.extend_from_slice(escaped(alloc, escape, b"endcsname")?.as_slice())?;
        Ok(text)
    } else {
        escaped(alloc, escape, name)
    }
}

/// A text with the escape character in front, where that is a byte.
fn escaped(alloc: Global, escape: i32, name: &[u8]) -> Result<Vec<u8>, AllocError>
    ensures { IfOk result (λ text. text.items ≡ escape_of escape ++ name.now) }
{
    let mut text = Vec::new(alloc);
    if (0..256).contains(&escape) {
        text.push(escape as u8)?;
    }
    text.extend_from_slice(name)?;
    Ok(text)
}

/// A parameter in a macro's text.
fn parameter_text(alloc: Global, number: u8) -> Result<Vec<u8>, AllocError>
    ensures { IfOk result (λ text. text.items ≡ 35 ∷ decimal number) }
{
    let text = format!(in alloc; "#{number}")?;
    Vec::from_slice(alloc, text.as_bytes())
}

#[cfg(test)]
mod tests {
    use super::*;
    use std::test::Fail;
    use tx_model::Cat;

    #[test]
    fn shown(rt: HostRuntime) -> Result<(), Fail> {
        let alloc = rt.alloc();
        let escape = i32::from(b'\\');
        for (token, name, escape, text) in [
            (Tok::Char(Cat::Letter, b'a'), "", escape, "a"),
            (Tok::Active(b'~'), "", escape, "~"),
            (Tok::Name(7), "par", escape, "\\par"),
            (Tok::Name(7), "par", -1, "par"),
            (Tok::Name(7), "", i32::from(b'!'), "!csname!endcsname"),
            (Tok::Param(3), "", escape, "#3"),
            (Tok::Stop, "", escape, ""),
        ] {
            let mut out = Vec::new(alloc);
            show_tok(token, name.as_bytes(), escape, &mut out)?;
            assert_eq!(rt; out.as_slice(), text.as_bytes());
        }
        Ok(())
    }
}

//! Lists of tokens as the tokens of their text.

ghost use Rattle.std.specs.Prelude.{◌≡◌, ◌++◌, ◌∷◌, [], length, map, IfOk, OnOk, OnErr};
ghost use Rattle.std.specs.Fmt.{decimal};
ghost use Rattle.tx_etex.specs.Texts.{bytes_in_list, detokenized, text_token};

use std::alloc::{AllocError, Global};
use tx_bytes::Bytes;
use tx_tok::{Cat, Tok};

/// Adds the tokens of a list's text: its bytes, each of category 12, or 10 where it is a space. A
/// character of category 6 is doubled, and a parameter prints as `#` and its number. `names` has one
/// text per token, which for a name is its text in a list: with the escape character, and with a space
/// behind it unless it is one byte that is no letter. The only error is want of memory, which leaves
/// `out` as it was. *The TeXbook*, chapter 20, and the e-TeX manual.
pub fn detokenize(list: &[Tok], names: &[Bytes], out: &mut Vec<Tok>) -> Result<(), AllocError>
    requires { length list.now ≡ length names.now }
    ensures ok { OnOk result (out.new.items ≡ out.old.items ++ detokenized list.now names.now) }
    ensures err { OnErr result (out.new.items ≡ out.old.items) }
{
    let mut text = Vec::new(*out.allocator());
    for (i, token) in list.iter().enumerate() {
        push_text(&mut text, *token, names[i].as_slice())?;
    }
    out.extend_from_slice(text.as_slice())
}

/// Adds the tokens of one token's text.
fn push_text(text: &mut Vec<Tok>, token: Tok, name: &[u8]) -> Result<(), AllocError>
    ensures { OnOk result (text.new.items ≡ text.old.items ++ map text_token (bytes_in_list name.now token)) }
{
    match token {
        Tok::Char(Cat::Parameter, byte) => push_bytes(text, &[byte, byte]),
        Tok::Char(_, byte) | Tok::Active(byte) => push_bytes(text, &[byte]),
        Tok::Name(_) => push_bytes(text, name),
        Tok::Param(number) => {
            let shown = parameter_text(*text.allocator(), number)?;
            push_bytes(text, shown.as_slice())
        }
        Tok::Stop => Ok(()),
    }
}

/// Adds bytes as tokens.
fn push_bytes(text: &mut Vec<Tok>, bytes: &[u8]) -> Result<(), AllocError>
    ensures { OnOk result (text.new.items ≡ text.old.items ++ map text_token bytes.now) }
{
    for byte in bytes {
        text.push(byte_token(*byte))?;
    }
    Ok(())
}

/// A byte as a token.
fn byte_token(byte: u8) -> Tok
    ensures { result ≡ text_token byte }
{
    if byte == b' ' {
        Tok::Char(Cat::Space, byte)
    } else {
        Tok::Char(Cat::Other, byte)
    }
}

/// A parameter in a macro's text.
fn parameter_text(alloc: Global, number: u8) -> Result<Vec<u8>, AllocError>
    ensures { IfOk result (λ text. text.items ≡ 35 ∷ decimal number) }
{
    let text = format!(in alloc; "#{number}")?;
    Vec::from_slice(alloc, text.as_bytes())
}

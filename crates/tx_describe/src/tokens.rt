//! Texts as tokens.

ghost use Rattle.std.specs.Prelude.{◌≡◌, IfOk};
ghost use Rattle.tx_private.specs.Texts.{token_of_byte, tokens_of};
ghost use Rattle.tx_views.specs.Views.{View, viewed, all_viewed};

use std::alloc::{AllocError, Global};
use tx_tok::{Cat, Tok, Toks};

/// The tokens of a text: other characters, and spaces. The only error is want of memory. *TeX: The Program*,
/// section 464.
pub fn text_tokens(alloc: Global, text: &[u8]) -> Result<Toks, AllocError>
    ensures { IfOk result (λ tokens. (view : View) → all_viewed view tokens ≡ tokens_of text.now) }
{
    let mut tokens = Vec::new(alloc);
    for byte in text {
        tokens.push(byte_token(*byte))?;
    }
    Ok(Toks(tokens))
}

/// The token of a byte.
fn byte_token(byte: u8) -> Tok
    ensures { (view : View) → viewed view result ≡ token_of_byte byte }
{
    let cat = if byte == b' ' { Cat::Space } else { Cat::Other };
    Tok::Char(cat, byte)
}

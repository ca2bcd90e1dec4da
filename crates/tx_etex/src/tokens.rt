//! What expressions look at in a token.

ghost use Rattle.std.specs.Prelude.{◌≡◌};
ghost use Rattle.tx_etex.specs.Readings.{is_other as is_other_token, is_space as is_space_token};

use tx_tok::{Cat, Tok};

/// Whether it is a space.
pub(crate) fn is_space(t: Tok) -> bool
    ensures { result ≡ is_space_token t }
{
    match t {
        Tok::Char(Cat::Space, _) => true,
        _ => false,
    }
}

/// Whether it is this character of category 12.
pub(crate) fn is_other(t: Tok, byte: u8) -> bool
    ensures { result ≡ is_other_token byte t }
{
    match t {
        Tok::Char(Cat::Other, other) => other == byte,
        _ => false,
    }
}

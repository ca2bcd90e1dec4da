//! Tokens as the automata are fed with them.

ghost use Rattle.std.specs.Prelude.{◌≡◌, ℕ};
ghost use Rattle.tx_model.specs.Tokens.{Name};
ghost use Rattle.tx_private.specs.Meanings.{Character};
ghost use Rattle.tx_tok.specs.Tokens.{token_with};
ghost use Rattle.tx_views.specs.Views.{View, viewed};
ghost use Rattle.tx_views.specs.Meanings.{sense_in};
ghost use Rattle.tx_private.specs.Scans.{letter_of as letter_of_token, scanned_token, scanned_command};

use tx_tok::{Cat, Tok};
use tx_views::Sense;

/// The code of a character, or of a name of one byte, which may stand after a backquote (*TeX: The Program*,
/// section 442). None comes exactly where the token is neither. `name` is the text of the token's name, and is not
/// looked at where the token is none.
pub fn letter_of(token: Tok, name: &[u8]) -> Option<u8>
    ensures { result ≡ letter_of_token (token_with name.now token) }
{
    match token {
        Tok::Char(_, byte) => Some(byte),
        Tok::Active(byte) => Some(byte),
        Tok::Name(_) => only_byte(name),
        Tok::Param(_) => None,
        Tok::Stop => None,
    }
}

/// The byte of a text of one byte.
fn only_byte(text: &[u8]) -> Option<u8>
    ensures { result ≡ letter_of_token (Name text.now) }
{
    match text {
        [byte] => Some(*byte),
        _ => None,
    }
}

/// The token as an automaton is fed with it: what means a space is one.
pub(crate) fn scanned(token: Tok, sense: Sense) -> Tok
    ensures { (view : View) → result ≡ scanned_command (sense_in view sense) (viewed view token) }
{
    match sense {
        Sense::Char(category, _) => scanned_character(token, category),
        _ => nameless(token),
    }
}

/// A token that means a character of this category.
fn scanned_character(token: Tok, category: Cat) -> Tok
    ensures { (view : View) (byte : ℕ) → result ≡ scanned_command (Character category byte) (viewed view token) }
{
    match category {
        Cat::Space => Tok::Char(Cat::Space, b' '),
        _ => nameless(token),
    }
}

/// The token, to which all names are alike.
fn nameless(token: Tok) -> Tok
    ensures { (view : View) → result ≡ scanned_token (viewed view token) }
{
    match token {
        Tok::Name(_) => Tok::Name(0),
        _ => token,
    }
}

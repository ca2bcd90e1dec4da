//! What readings look at in a token.

ghost use Rattle.std.specs.Prelude.{◌≡◌, ◌<◌, IfSome};
ghost use Rattle.tx_quant.specs.Items.{Token, is_space as is_space_item};
ghost use Rattle.tx_quant.specs.Numbers.{digit as digit_of, digit_of_byte, capital_digit, digit_below, is_other as is_other_item, unused as unused_of};
ghost use Rattle.tx_quant.specs.Spelling.{letter as letter_of};

use tx_tok::{Cat, Tok};

/// Whether it is a space.
pub(crate) fn is_space(t: Tok) -> bool
    ensures { result ≡ is_space_item (Token t) }
{
    match t {
        Tok::Char(Cat::Space, _) => true,
        _ => false,
    }
}

/// The letter of a character, without case.
pub(crate) fn letter(t: Tok) -> Option<u8>
    ensures { result ≡ letter_of (Token t) }
{
    match t {
        Tok::Char(_, byte) => Some(byte.to_ascii_lowercase()),
        _ => None,
    }
}

/// Whether it is this character of category 12.
pub(crate) fn is_other(t: Tok, byte: u8) -> bool
    ensures { result ≡ is_other_item byte (Token t) }
{
    match t {
        Tok::Char(Cat::Other, other) => other == byte,
        _ => false,
    }
}

/// How many tokens are put back where only a space is used.
pub(crate) fn unused(t: Tok) -> u8
    ensures { result ≡ unused_of (Token t) }
{
    if is_space(t) { 0 } else { 1 }
}

/// The digit to this base that it is.
pub(crate) fn digit(t: Tok, radix: u8) -> Option<u8>
    ensures value { result ≡ digit_of radix (Token t) }
    ensures below { IfSome result (λ d. d < radix) }
{
    match t {
        Tok::Char(category, byte) => digit_of_category(category, byte, radix),
        _ => None,
    }
}

/// The digit that a character is.
fn digit_of_category(category: Cat, byte: u8, radix: u8) -> Option<u8>
    ensures value { result ≡ digit_of_byte radix category byte }
    ensures below { IfSome result (λ d. d < radix) }
{
    match category {
        Cat::Other => {
            if byte < b'0' {
                None
            } else if byte < b':' {
                below(byte - b'0', radix)
            } else {
                capital(byte, radix)
            }
        }
        Cat::Letter => capital(byte, radix),
        _ => None,
    }
}

/// A digit from `A` on.
fn capital(byte: u8, radix: u8) -> Option<u8>
    ensures value { result ≡ capital_digit radix byte }
    ensures below { IfSome result (λ d. d < radix) }
{
    if byte < b'A' {
        None
    } else if byte < b'G' {
        below(byte - b'A' + 10, radix)
    } else {
        None
    }
}

/// A digit, where it is one to this base.
fn below(digit: u8, radix: u8) -> Option<u8>
    ensures value { result ≡ digit_below radix digit }
    ensures below { IfSome result (λ d. d < radix) }
{
    if digit < radix { Some(digit) } else { None }
}

//! The codes of bytes.

ghost use Rattle.std.specs.Prelude.{◌≡◌, pos};
ghost use Rattle.tx_format.specs.Codes.{start_category, bare_category, lower_case, upper_case, space_factor, math_code, delimiter_code, category};

use crate::preset::Preset;

/// The category of a byte, by its code.
pub(crate) fn category(preset: Preset, byte: u8) -> u8
    ensures { result ≡ category preset byte }
{
    match preset {
        Preset::Start => start_category(byte),
        Preset::Bare => bare_category(byte),
    }
}

/// The category at the start.
fn start_category(byte: u8) -> u8
    ensures { result ≡ start_category byte }
{
    match byte {
        b'\\' => 0,
        13 => 5,
        0 => 9,
        b' ' => 10,
        b'A'..=b'Z' | b'a'..=b'z' => 11,
        b'%' => 14,
        127 => 15,
        _ => 12,
    }
}

/// The category in BARE.
fn bare_category(byte: u8) -> u8
    ensures { result ≡ bare_category byte }
{
    match byte {
        b'{' => 1,
        b'}' => 2,
        b'$' => 3,
        b'&' => 4,
        b'#' => 6,
        b'^' => 7,
        b'_' => 8,
        9 => 10,
        _ => start_category(byte),
    }
}

/// The lower-case code: of a letter the small one, else 0.
pub(crate) fn lower_case(byte: u8) -> u8
    ensures { result ≡ lower_case byte }
{
    match byte {
        b'A'..=b'Z' => byte + 32,
        b'a'..=b'z' => byte,
        _ => 0,
    }
}

/// The upper-case code: of a letter the capital one, else 0.
pub(crate) fn upper_case(byte: u8) -> u8
    ensures { result ≡ upper_case byte }
{
    match byte {
        b'a'..=b'z' => byte - 32,
        b'A'..=b'Z' => byte,
        _ => 0,
    }
}

/// The space factor code.
pub(crate) fn space_factor(byte: u8) -> i32
    ensures { result ≡ pos (space_factor byte) }
{
    match byte {
        b'A'..=b'Z' => 999,
        _ => 1000,
    }
}

/// The math code.
pub(crate) fn math_code(byte: u8) -> i32
    ensures { result ≡ pos (math_code byte) }
{
    match byte {
        b'A'..=b'Z' | b'a'..=b'z' => 0x7100 + i32::from(byte),
        b'0'..=b'9' => 0x7000 + i32::from(byte),
        _ => i32::from(byte),
    }
}

/// The delimiter code.
pub(crate) fn delimiter_code(byte: u8) -> i32
    ensures { result ≡ delimiter_code byte }
{
    if byte == b'.' { 0 } else { -1 }
}

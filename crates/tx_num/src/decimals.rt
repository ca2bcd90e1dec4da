//! Dimensions as decimals, and decimals as fractions.

ghost use Rattle.std.specs.Prelude.{◌≡◌, ◌++◌, ◌*◌, ◌+◌, ◌<◌, ◌≤◌, length, OnOk, OnErr, IfOk, All};
ghost use Rattle.tx_num.specs.Decimals.{decimals, digit_bytes, round_digits, shown_sp, to_last_digit};

use crate::points::Sp;
use std::alloc::{AllocError, Global};

/// The number of scaled points in a printer's point.
const UNITY: u32 = 65536;

/// The most decimals that a dimension is printed with.
const MOST_DECIMALS: u32 = 5;

/// Appends a dimension, counted in points, with the fewest decimals that read back as it
/// (*TeX: The Program*, section 103). The error is want of memory, and then `out` is as before.
pub fn print_sp(alloc: Global, v: Sp, out: &mut Vec<u8>) -> Result<(), AllocError>
    ensures ok { OnOk result (out.new.items ≡ out.old.items ++ shown_sp v) }
    ensures err { OnErr result (out.new.items ≡ out.old.items) }
{
    let text = shown_sp(alloc, v)?;
    out.extend_from_slice(&text)?;
    Ok(())
}

/// The text of a dimension.
fn shown_sp(alloc: Global, v: Sp) -> Result<Vec<u8>, AllocError>
    ensures { IfOk result (λ text. text.items ≡ shown_sp v) }
{
    let mut text = Vec::new(alloc);
    if v.0 < 0 {
        text.push(b'-')?;
    }
    let size = v.0.unsigned_abs();
    let whole = format!(in alloc; "{}", size / UNITY)?;
    text.extend_from_slice(whole.as_bytes())?;
    text.push(b'.')?;
    push_decimals(&mut text, size % UNITY)?;
    Ok(text)
}

/// Appends the decimals of so many 65536ths.
fn push_decimals(text: &mut Vec<u8>, fraction: u32) -> Result<(), AllocError>
    requires { fraction < 65536 }
    ensures ok { OnOk result (text.new.items ≡ text.old.items ++ digit_bytes (decimals fraction)) }
{
    let mut s = 10 * fraction + 5;
    let mut delta = 10;
    'digits: for _ in 0..MOST_DECIMALS {
        let top = to_last_digit(s, delta);
        text.push(b'0' + (top / UNITY) as u8)?;
        s = 10 * (top % UNITY);
        delta = 10 * delta;
        if s <= delta {
            break 'digits;
        }
    }
    Ok(())
}

/// Rounds where the digit that comes is the last that may come; the others are cut.
fn to_last_digit(s: u32, delta: u32) -> u32
    requires room { s ≤ 655355 }
    requires last { 65536 < delta → delta < s }
    ensures value { result ≡ to_last_digit s delta }
    ensures bound { result ≤ s }
{
    if delta > UNITY { s + 32768 - 50000 } else { s }
}

/// The 65536ths that are nearest to the decimals `digits`, a tie up. There are at most 17 of them, each
/// from 0 to 9 (*TeX: The Program*, section 102).
pub fn round_digits(digits: &[u8]) -> u32
    requires few { length digits.now ≤ 17 }
    requires digits { All (λ digit. digit ≤ 9) digits.now }
    ensures { result ≡ round_digits digits.now }
{
    let mut scaled = 0;
    for i in (0..digits.len()).rev() {
        scaled = (scaled + u32::from(digits[i]) * 2 * UNITY) / 10;
    }
    (scaled + 1) / 2
}

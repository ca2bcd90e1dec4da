//! Numbers as texts.

ghost use Rattle.std.specs.Prelude.{◌≡◌, ◌++◌, ◌<◌, pos, IfOk, OnOk};
ghost use Rattle.tx_private.specs.Errors.{decimal_of};
ghost use Rattle.tx_private.specs.Described.{roman, roman_digit};
ghost use Rattle.tx_describe.specs.declared.numbers.Letters.{Letters};

use std::alloc::{AllocError, Global};

/// The letters of a Roman digit: for one, five and ten.
#[derive(Clone, Copy, Debug)]
struct Letters {
    one: u8,
    five: u8,
    ten: u8,
}

/// The hundreds.
const HUNDREDS: Letters = Letters {
    one: b'c',
    five: b'd',
    ten: b'm',
};

/// The tens.
const TENS: Letters = Letters {
    one: b'x',
    five: b'l',
    ten: b'c',
};

/// The units.
const UNITS: Letters = Letters {
    one: b'i',
    five: b'v',
    ten: b'x',
};

/// A number in decimal, with a minus where it is below 0. The only error is want of memory. *TeX: The Program*,
/// section 65.
pub fn decimal_text(alloc: Global, number: i32) -> Result<Vec<u8>, AllocError>
    ensures { IfOk result (λ text. text.items ≡ decimal_of number) }
{
    let mut text = Vec::new(alloc);
    if number < 0 {
        text.push(b'-')?;
    }
    let digits = format!(in alloc; "{}", number.unsigned_abs())?;
    text.extend_from_slice(digits.as_bytes())?;
    Ok(text)
}

/// A number in lower-case Roman numerals, or no bytes where it is not above 0. The only error is want of memory.
/// *TeX: The Program*, section 69.
pub fn roman_text(alloc: Global, number: i32) -> Result<Vec<u8>, AllocError>
    ensures { IfOk result (λ text. text.items ≡ roman number) }
{
    if number > 0 {
        positive_roman_text(alloc, number.unsigned_abs())
    } else {
        Ok(Vec::new(alloc))
    }
}

/// A number above 0 in lower-case Roman numerals.
fn positive_roman_text(alloc: Global, number: u32) -> Result<Vec<u8>, AllocError>
    ensures { IfOk result (λ text. text.items ≡ roman (pos number)) }
{
    let mut text = vec![in alloc; b'm'; (number / 1000) as usize]?;
    push_digit(&mut text, HUNDREDS, number % 1000 / 100)?;
    push_digit(&mut text, TENS, number % 100 / 10)?;
    push_digit(&mut text, UNITS, number % 10)?;
    Ok(text)
}

/// Adds a Roman digit.
fn push_digit(text: &mut Vec<u8>, letters: Letters, digit: u32) -> Result<(), AllocError>
    requires { digit < 10 }
    ensures { OnOk result (text.new.items ≡ text.old.items ++ roman_digit letters.one letters.five letters.ten digit) }
{
    let Letters { one, five, ten } = letters;
    match digit {
        0 => Ok(()),
        1 => text.extend_from_slice(&[one]),
        2 => text.extend_from_slice(&[one, one]),
        3 => text.extend_from_slice(&[one, one, one]),
        4 => text.extend_from_slice(&[one, five]),
        5 => text.extend_from_slice(&[five]),
        6 => text.extend_from_slice(&[five, one]),
        7 => text.extend_from_slice(&[five, one, one]),
        8 => text.extend_from_slice(&[five, one, one, one]),
        _ => text.extend_from_slice(&[one, ten]),
    }
}

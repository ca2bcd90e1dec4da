//! Numbers.

ghost use Rattle.std.specs.Prelude.{◌≡◌, ◌^◌, [], List, pos, neg_ℤ, ◌<ℤ◌};
ghost use Rattle.tx_quant.specs.Items.{Item, Token, Quantity, Letter, Asks, Answers};
ghost use Rattle.tx_quant.specs.Nexts.{Follows};
ghost use Rattle.tx_quant.specs.Numbers.{number, number_after, first_digit as first_digit_of, digits as digits_of, signed as signed_of, internal_number, ended, if_integer};
ghost use Rattle.tx_num.specs.Ranges.{integer as integer_of};
ghost use Rattle.tx_quant.specs.NumberStates.{number_at, number_says};
ghost use Rattle.tx_quant.specs.Bases.{radix_of};

use crate::base::Base;
use crate::digits::Digits;
use crate::errors::{IMPROPER_CONSTANT, INCOMPATIBLE_UNITS, MISSING_NUMBER, NUMBER_TOO_BIG};
use crate::next::Next;
use crate::tokens::{digit, is_other, is_space, unused};
use tx_num::{ErrorNo, Feed, Quant, Sp, Want, integer};
use tx_tok::Tok;

/// How far the reading of a number is.
#[derive(Clone, Copy, Debug)]
enum NumStage {
    /// Signs, which leave a minus or none.
    Sign(bool),
    /// The first digit is due.
    First(bool, Base),
    /// Digits were taken.
    More(Digits),
    /// The token after a backquote is due.
    Backquote(bool),
    /// The value is known, and a space may follow.
    Space(i32),
}

/// The reading of a number, one token at a time (*TeX: The Program*, section 440).
#[derive(Clone, Copy, Debug)]
pub struct NumScan {
    stage: NumStage,
}

impl NumScan {
    /// A number of which nothing was taken.
    pub fn new() -> Self
        ensures { (items : List Item) → number_says result items ≡ number items }
    {
        NumScan {
            stage: NumStage::Sign(false),
        }
    }

    /// How the next token is to be taken.
    pub fn wants(&self) -> Want
        ensures { number_says self.now [] ≡ Asks result 0 }
    {
        match self.stage {
            NumStage::Sign(_) => Want::Start,
            NumStage::First(_, _) | NumStage::More(_) | NumStage::Space(_) => Want::Expanded,
            NumStage::Backquote(_) => Want::Plain,
        }
    }

    /// Takes an expanded token, in which a name or an active byte that means a space stands as the space.
    /// The value is below 2^31 in absolute value. The errors are 9 where neither a digit nor a quantity
    /// stands, 10 at the digit that passes 2^31-1, and 19 where a token came after a backquote. No call
    /// may follow another answer than More.
    pub fn feed(&mut self, t: Tok) -> Feed<i32>
        ensures { Answers result (number_says self.old) (Token t) (number_says self.new) }
    {
        match after(self.stage, t) {
            Next::More(stage, back) => {
                self.stage = stage;
                Feed::More(back)
            }
            Next::Done(value, back) => Feed::Done(value, back),
            Next::Bad(error) => Feed::Bad(error),
        }
    }

    /// Takes an internal quantity, where `wants` says `Start`: an integer, a dimension in scaled points,
    /// or the width of glue. The errors are 10 where it is no integer, and 13 at math glue.
    pub fn quantity(&mut self, q: Quant) -> Feed<i32>
        requires { number_says self.old [] ≡ Asks Want.Start 0 }
        ensures { Answers result (number_says self.old) (Quantity q) (number_says self.new) }
    {
        match self.stage {
            NumStage::Sign(negative) => match internal(negative, q) {
                Ok(value) => Feed::Done(value, 0),
                Err(error) => Feed::Bad(error),
            },
            NumStage::First(_, _)
            | NumStage::More(_)
            | NumStage::Backquote(_)
            | NumStage::Space(_) => { Feed::Bad(MISSING_NUMBER) }
        }
    }

    /// Takes the code of the token after a backquote, where `wants` says `Plain`. The error is 19 where
    /// it has none.
    pub fn letter(&mut self, c: Option<u8>) -> Feed<i32>
        requires { number_says self.old [] ≡ Asks Want.Plain 0 }
        ensures { Answers result (number_says self.old) (Letter c) (number_says self.new) }
    {
        match self.stage {
            NumStage::Backquote(negative) => match c {
                Some(code) => {
                    self.stage = NumStage::Space(signed(negative, i32::from(code)));
                    Feed::More(0)
                }
                None => Feed::Bad(IMPROPER_CONSTANT),
            },
            NumStage::Sign(_) | NumStage::First(_, _) | NumStage::More(_) | NumStage::Space(_) => {
                Feed::Bad(IMPROPER_CONSTANT)
            }
        }
    }
}

/// What a token makes of a stage.
fn after(stage: NumStage, t: Tok) -> Next<NumStage, i32>
    ensures { Follows number_at result (number_at stage) (Token t) }
{
    match stage {
        NumStage::Sign(negative) => after_signs(negative, t),
        NumStage::First(negative, base) => first_digit(negative, base, t),
        NumStage::More(digits) => next_digit(digits, t),
        NumStage::Backquote(_) => Next::Bad(IMPROPER_CONSTANT),
        NumStage::Space(value) => Next::Done(value, unused(t)),
    }
}

/// A token where a sign may stand.
fn after_signs(negative: bool, t: Tok) -> Next<NumStage, i32>
    ensures { Follows number_at result (number_after negative) (Token t) }
{
    if is_space(t) || is_other(t, b'+') {
        Next::More(NumStage::Sign(negative), 0)
    } else if is_other(t, b'-') {
        Next::More(NumStage::Sign(!negative), 0)
    } else if is_other(t, b'\'') {
        Next::More(NumStage::First(negative, Base::Octal), 0)
    } else if is_other(t, b'"') {
        Next::More(NumStage::First(negative, Base::Hexadecimal), 0)
    } else if is_other(t, b'`') {
        Next::More(NumStage::Backquote(negative), 0)
    } else {
        first_digit(negative, Base::Decimal, t)
    }
}

/// The first digit.
fn first_digit(negative: bool, base: Base, t: Tok) -> Next<NumStage, i32>
    ensures { Follows number_at result (first_digit_of negative (radix_of base)) (Token t) }
{
    match digit(t, base.radix()) {
        Some(d) => {
            let digits = Digits {
                negative,
                base,
                value: u32::from(d),
            };
            Next::More(NumStage::More(digits), 0)
        }
        None => Next::Bad(MISSING_NUMBER),
    }
}

/// A digit more, or the end of the digits.
fn next_digit(digits: Digits, t: Tok) -> Next<NumStage, i32>
    ensures { Follows number_at result (digits_of digits.negative (radix_of digits.base) digits.value) (Token t) }
{
    match digit(t, digits.base.radix()) {
        Some(d) => {
            let value = u64::from(digits.value) * u64::from(digits.base.radix()) + u64::from(d);
            if value < 1 << 31 {
                let more = Digits {
                    negative: digits.negative,
                    base: digits.base,
                    value: value as u32,
                };
                Next::More(NumStage::More(more), 0)
            } else {
                Next::Bad(NUMBER_TOO_BIG)
            }
        }
        None => Next::Done(signed(digits.negative, digits.value as i32), unused(t)),
    }
}

/// An internal quantity as a number.
fn internal(negative: bool, q: Quant) -> Result<i32, ErrorNo>
    ensures { ended result ≡ internal_number negative q }
{
    match q {
        Quant::Int(n) => whole(negative, n),
        Quant::Dim(d) => Ok(size(negative, d)),
        Quant::Glue(g) => Ok(size(negative, g.width)),
        Quant::Mu(_) => Err(INCOMPATIBLE_UNITS),
    }
}

/// An internal integer as a number.
fn whole(negative: bool, n: i32) -> Result<i32, ErrorNo>
    ensures { ended result ≡ if_integer (integer_of (signed_of negative n)) }
{
    let value = if negative {
        -i64::from(n)
    } else {
        i64::from(n)
    };
    match integer(value) {
        Some(value) => Ok(value),
        None => Err(NUMBER_TOO_BIG),
    }
}

/// Scaled points as a number.
fn size(negative: bool, d: Sp) -> i32
    ensures { result ≡ signed_of negative d }
{
    signed(negative, d.get())
}

/// A number with its sign.
fn signed(negative: bool, value: i32) -> i32
    requires { neg_ℤ (pos (2 ^ 31)) <ℤ value }
    ensures { result ≡ signed_of negative value }
{
    if negative { -value } else { value }
}

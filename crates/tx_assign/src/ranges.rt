//! The ranges of numbers.

ghost use Rattle.std.specs.Prelude.{◌≡◌, ℕ, ℤ, pos, IfOk};
ghost use Rattle.tx_private.specs.World.{World};
ghost use Rattle.tx_private.specs.Readings.{Move};
ghost use Rattle.tx_private.specs.Quantities.{in_byte};
ghost use Rattle.tx_private.specs.Assignments.{math_character, code_within, greatest as greatest_code};
ghost use Rattle.tx_views.specs.Places.{table_in};
ghost use Rattle.tx_assign.specs.Refusals.{led, number_of};
ghost use Rattle.tx_assign.specs.Values.{IsCode};

use crate::refused::Refused;
use tx_num::ErrorNo;
use tx_views::CodeTable;

/// Whose number, from 0 to 255, was asked for.
#[derive(Clone, Copy, Debug, PartialEq, Eq)]
pub enum ByteError {
    /// That of a register. Any other number is error 15.
    Register,
    /// That of a character. Any other number is error 16.
    Character,
}

impl ByteError {
    /// The number of the error.
    fn number(self) -> u8
        ensures { result ≡ number_of self }
    {
        match self {
            ByteError::Register => 15,
            ByteError::Character => 16,
        }
    }
}

/// The number of a register or of a character, which is from 0 to 255. Any other number is the error 15 or
/// 16, whose text shows the number. *TeX: The Program*, sections 433 and 434.
pub fn byte(error: ByteError, n: i32) -> Result<u8, Refused>
    ensures { (further : ℕ → Move) (w : World) → in_byte (number_of error) n further w ≡ led result further w }
{
    if (0..256).contains(&n) {
        Ok(n as u8)
    } else {
        Err(numbered(error.number(), 0, n, None))
    }
}

/// A math code that a name can stand for, which is from 0 to 32767. Any other number is error 17, whose
/// text shows it. *TeX: The Program*, section 436.
pub fn math_code(n: i32) -> Result<u16, Refused>
    ensures { (further : ℕ → Move) (w : World) → math_character n w further ≡ led result further w }
{
    if (0..32768).contains(&n) {
        Ok(n as u16)
    } else {
        Err(numbered(17, 1, n, None))
    }
}

/// A code of a byte in a table, which is from 0 to the table's greatest one; that of `\delcode` may be
/// below 0. Any other number is error 18, whose text shows it and the greatest code. *TeX: The Program*,
/// sections 1232 and 1233.
pub fn code(table: CodeTable, n: i32) -> Result<i32, Refused>
    ensures leads { (further : ℤ → Move) (w : World) → code_within (table_in table) n (further n) w ≡ led result further w }
    ensures value { IfOk result (λ v. v ≡ n) }
    ensures range { IfOk result (IsCode table) }
{
    let most = greatest(table);
    let delimiter = matches!(table, CodeTable::DelimiterCodes);
    if n > most || (n < 0 && !delimiter) {
        return Err(numbered(18, u8::from(delimiter), n, Some(most as u32)));
    }
    Ok(n)
}

/// The greatest code of a table.
fn greatest(table: CodeTable) -> i32
    ensures { result ≡ pos (greatest_code (table_in table)) }
{
    match table {
        CodeTable::Categories => 15,
        CodeTable::LowerCases | CodeTable::UpperCases => 255,
        CodeTable::SpaceFactors => 32767,
        CodeTable::MathCodes => 32768,
        CodeTable::DelimiterCodes => 16_777_215,
    }
}

/// The error with this number and case, whose text shows a number, and maybe a limit.
fn numbered(no: u8, case: u8, value: i32, limit: Option<u32>) -> Refused
    ensures { result ≡ record { number = record { no = no; case = case; value = value }; limit = limit } }
{
    Refused {
        number: ErrorNo {
            no,
            case,
            value: i64::from(value),
        },
        limit,
    }
}

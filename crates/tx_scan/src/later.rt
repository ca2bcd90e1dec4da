//! What stands next in the later lines of a text.

ghost use Rattle.std.specs.Prelude.{◌≡◌, ◌<◌, ◌^◌};
ghost use Rattle.std.specs.Option.{option_to_list};
ghost use Rattle.tx_model.specs.Lines.{lines_of, next_number as next_number_of};
ghost use Rattle.tx_model.specs.Scanner.{scanned_from, LineUsed};
ghost use Rattle.tx_scan.specs.Scans.{category_by, LooksIntoLines};

use crate::cats::Cats;
use crate::line::{InLine, Scan, in_line, leave};
use crate::lines::{begin_line, first_line};
use std::alloc::Global;
use tx_bytes::Bytes;
use tx_model::LineState;

/// The number from which on all lines have one number.
const LAST_NUMBER: u32 = 2_147_483_647;

/// A line that was begun, and how far it was read.
pub struct Begun {
    pub line: Bytes,
    /// How many bytes of the line were read.
    pub read: usize,
    pub state: LineState,
    pub number: u32,
    /// How many bytes of the later lines were used.
    pub used: usize,
}

/// What stands next in the later lines of a text.
pub enum InLines {
    /// This, in a line that was begun.
    Found(Scan, Begun),
    /// Nothing more. The last line has this number.
    Used(u32),
    /// Memory was wanting.
    Memory,
}

/// What stands next in the later lines of a text, after the line of this number.
pub fn in_lines(
    alloc: Global,
    cats: &Cats,
    ending: Option<u8>,
    later: &[u8],
    number: u32,
) -> InLines
    requires { number < 2 ^ 31 }
    ensures { LooksIntoLines (scanned_from (category_by cats.now) (option_to_list ending) number LineUsed (lines_of later.now)) later.now result }
{
    let mut number = number;
    let mut at = 0;
    'lines: while at < later.len() {
        let rest = &later[at..];
        let first = first_line(rest);
        number = next_number(number);
        let Ok(mut line) = begin_line(alloc, &rest[..first.len], ending) else {
            return InLines::Memory;
        };
        let used = at + first.used;
        match in_line(alloc, cats, LineState::NewLine, line.as_slice(), 0) {
            InLine::Found(what, state, left) => {
                let read = leave(&mut line, left);
                let begun = Begun {
                    line,
                    read,
                    state,
                    number,
                    used,
                };
                return InLines::Found(what, begun);
            }
            InLine::Used => at = used,
            InLine::Memory => return InLines::Memory,
        }
    }
    InLines::Used(number)
}

/// The number of the line after the one of this number.
fn next_number(number: u32) -> u32
    requires { number < 2 ^ 31 }
    ensures next { result ≡ next_number_of number }
    ensures within { result < 2 ^ 31 }
{
    if number < LAST_NUMBER {
        number + 1
    } else {
        LAST_NUMBER
    }
}

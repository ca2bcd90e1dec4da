//! The line that a frame or the end of a session begins with.

ghost use Rattle.std.specs.Prelude.{◌≡◌, ◌≤◌};
ghost use Rattle.tx_proto.specs.Headers.{AfterLine, AfterOne};

use crate::header::{HeaderState, Next};
use tx_bytes::{Source, Took};

/// The header of a frame.
#[derive(Clone, Copy, Debug, PartialEq, Eq)]
pub struct Header {
    pub budget: u32,
    /// How many bytes the text has.
    pub length: u32,
    /// How many bytes the header has.
    pub size: u64,
}

/// What a line is.
#[derive(Clone, Copy, Debug, PartialEq, Eq)]
pub enum Line {
    /// The header of a frame.
    Header(Header),
    /// The line BYE.
    Bye,
    /// The input's end.
    End,
    /// The input breaks the grammar at this place, counted from the line's start.
    Bad(u64),
    /// A call of the input failed.
    ReadFault,
}

/// What came of reading one byte.
#[derive(Clone, Copy, Debug, PartialEq, Eq)]
pub enum One {
    /// The byte.
    Byte(u8),
    /// The input's end.
    End,
    /// The call failed.
    ReadFault,
}

/// Reads a line, and nothing behind it.
pub fn read_line<L: Source>(from: &mut L) -> Line
    ensures line { AfterLine (L.tells from.old) result (L.tells from.new) }
    ensures grows { (L.tells from.old).faults ≤ (L.tells from.new).faults }
{
    let mut state = HeaderState::Region(0);
    let mut place: u64 = 0;
    'bytes: loop {
        match read_byte(from) {
            One::Byte(byte) => match state.next(byte) {
                Next::On(further) => {
                    state = further;
                    place += 1;
                }
                Next::Header(budget, length) => {
                    let size = place + 1;
                    return Line::Header(Header {
                        budget,
                        length,
                        size,
                    });
                }
                Next::Bye => return Line::Bye,
                Next::Broken => return Line::Bad(place),
            },
            One::End => {
                if place == 0 {
                    return Line::End;
                }
                return Line::Bad(place);
            }
            One::ReadFault => return Line::ReadFault,
        }
    }
}

/// Reads one byte.
fn read_byte<L: Source>(from: &mut L) -> One
    ensures one { AfterOne (L.tells from.old) result (L.tells from.new) }
    ensures grows { (L.tells from.old).faults ≤ (L.tells from.new).faults }
{
    let mut buffer = [0u8; 1];
    match from.read(&mut buffer) {
        Took::Bytes(_) => One::Byte(buffer[0]),
        Took::End => One::End,
        Took::Failed => One::ReadFault,
    }
}

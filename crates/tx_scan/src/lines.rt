//! The lines of a text.

ghost use Rattle.std.specs.Prelude.{◌≡◌, ◌+◌, ◌≤◌, ◌<◌, ◌∷◌, length, take, drop, IfOk};
ghost use Rattle.std.specs.Option.{option_to_list};
ghost use Rattle.tx_model.specs.Lines.{begun, lines_of, trimmed, line_end};

use std::alloc::{AllocError, Global};
use tx_bytes::Bytes;

/// How long the first line of some bytes is, and how many bytes it uses with its byte 10.
#[derive(Clone, Copy)]
pub struct FirstLine {
    pub len: usize,
    pub used: usize,
}

/// The first line of some bytes. *The TeXbook*, chapter 8.
pub fn first_line(bytes: &[u8]) -> FirstLine
    requires { 0 < length bytes.now }
    ensures within { (result.len ≤ result.used) × (result.used ≤ length bytes.now) }
    ensures some { 0 < result.used }
    ensures lines { lines_of bytes.now ≡ take result.len bytes.now ∷ lines_of (drop result.used bytes.now) }
{
    for (len, byte) in bytes.iter().enumerate() {
        if *byte == b'\n' {
            return FirstLine { len, used: len + 1 };
        }
    }
    let len = bytes.len();
    FirstLine { len, used: len }
}

/// The byte that `\endlinechar` appends to a line, if its value is one.
pub fn ending_byte(end: i32) -> Option<u8>
    ensures { option_to_list result ≡ line_end end }
{
    if (0..256).contains(&end) {
        Some(end as u8)
    } else {
        None
    }
}

/// What the scanner reads of a line that it begins: the line without the blanks at its end, and the byte
/// that is appended. The only error is want of memory.
pub fn begin_line(alloc: Global, line: &[u8], ending: Option<u8>) -> Result<Bytes, AllocError>
    ensures { IfOk result (λ read. read ≡ begun (option_to_list ending) line.now) }
{
    let mut read = Vec::from_slice(alloc, &line[..trimmed_len(line)])?;
    match ending {
        Some(byte) => read.push(byte)?,
        None => {}
    }
    Ok(Bytes(read))
}

/// The length of a line without the blanks at its end.
fn trimmed_len(line: &[u8]) -> usize
    ensures within { result ≤ length line.now }
    ensures text { take result line.now ≡ trimmed line.now }
{
    let mut len = line.len();
    while len > 0 && line[len - 1] == b' ' {
        len -= 1;
    }
    len
}

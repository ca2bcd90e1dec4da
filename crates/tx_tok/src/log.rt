//! The log of a region.

ghost use Rattle.std.specs.Prelude.{◌≡◌, [], ◌++◌, ◌<◌, IfOk, OnOk, OnErr};
ghost use Rattle.tx_model.specs.Log.{hex_digit as hex_digit_of, printed_byte, printed, log_line};

use std::alloc::{AllocError, Global};
use std::marker::Model;

/// The lines of a region's log, seen as their bytes.
#[derive(Debug, Drop)]
pub struct Log {
    bytes: Vec<u8>,
}

impl Model for Log {
    ghost use Rattle.std.specs.Prelude.{ℕ, List};

    ghost Value = { List ℕ };

    ghost view = { λ l. l.bytes.items };
}

impl Log {
    /// A log without lines.
    pub fn new(alloc: Global) -> Self
        ensures { result ≡ [] }
    {
        Log {
            bytes: Vec::new(alloc),
        }
    }

    /// Adds a line: the text as TeX prints it, and byte 10. A byte outside 32 to 126 prints as `^^` and
    /// one or two characters, and the byte `newline`, if it is one, begins a new line. The only error
    /// is want of memory, which leaves the log as it was. *TeX: The Program*, part 5.
    pub fn line(&mut self, text: &[u8], newline: i32) -> Result<(), AllocError>
        ensures ok { OnOk result (self.new ≡ self.old ++ log_line newline text.now) }
        ensures err { OnErr result (self.new ≡ self.old) }
    {
        let mut line = printed_text(*self.bytes.allocator(), text, newline)?;
        line.push(b'\n')?;
        self.bytes.extend_from_slice(line.as_slice())
    }

    /// The bytes of the lines.
    pub fn as_slice(&self) -> &[u8]
        ensures { result.now ≡ self.now }
    {
        self.bytes.as_slice()
    }

    /// The bytes of the lines.
    pub fn into_vec(self) -> Vec<u8>
        ensures { result.items ≡ self }
    {
        let Log { bytes } = self;
        bytes
    }
}

/// The bytes that a text prints as.
fn printed_text(alloc: Global, text: &[u8], newline: i32) -> Result<Vec<u8>, AllocError>
    ensures { IfOk result (λ out. out.items ≡ printed newline text.now) }
{
    let mut out = Vec::new(alloc);
    for byte in text {
        push_printed(&mut out, *byte, newline)?;
    }
    Ok(out)
}

/// Adds what a byte prints as.
fn push_printed(out: &mut Vec<u8>, byte: u8, newline: i32) -> Result<(), AllocError>
    ensures { OnOk result (out.new.items ≡ out.old.items ++ printed_byte newline byte) }
{
    if i32::from(byte) == newline {
        out.push(b'\n')?;
    } else if (32..127).contains(&byte) {
        out.push(byte)?;
    } else if byte < 64 {
        out.extend_from_slice(&[b'^', b'^', byte + 64])?;
    } else if byte < 128 {
        out.extend_from_slice(&[b'^', b'^', byte - 64])?;
    } else {
        out.extend_from_slice(&[b'^', b'^', hex_digit(byte / 16), hex_digit(byte % 16)])?;
    }
    Ok(())
}

/// A lower-case hex digit.
fn hex_digit(value: u8) -> u8
    requires { value < 16 }
    ensures { result ≡ hex_digit_of value }
{
    if value < 10 {
        b'0' + value
    } else {
        b'a' + (value - 10)
    }
}

#[cfg(test)]
mod tests {
    use super::*;
    use std::test::Fail;

    #[test]
    fn lines(rt: HostRuntime) -> Result<(), Fail> {
        let mut log = Log::new(rt.alloc());
        log.line(b"A\n ~\x7f\x80\xfe\x00", -1)?;
        log.line(b"a/b", i32::from(b'/'))?;
        let lines = b"A^^J ~^^?^^80^^fe^^@\na\nb\n".as_slice();
        assert_eq!(rt; log.as_slice(), lines);
        assert_eq!(rt; log.into_vec().as_slice(), lines);
        Ok(())
    }
}

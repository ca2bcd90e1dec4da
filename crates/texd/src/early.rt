//! Ends before a frame is read, and their lines.

ghost use Rattle.std.specs.Prelude.{◌≡◌, ◌++◌, ◌∷◌, [], IfOk, OnOk};
ghost use Rattle.std.specs.Fmt.{decimal};
ghost use Rattle.texd.specs.Top.{early_line, AbsentFile, LongFile, LongFiles, BadPreamble};
ghost use Rattle.tx_model.specs.Replies.{status_word};

use std::alloc::{AllocError, Global};
use tx_bytes::Bytes;
use tx_model::Status;

/// The line that says that a file is absent. The only error is want of memory.
pub fn absent_line(alloc: Global, name: &str) -> Result<Vec<u8>, AllocError>
    ensures { IfOk result (λ line. line.items ≡ early_line (AbsentFile name.now)) }
{
    named_line(alloc, b"ABSENT ", name)
}

/// The line that says that a file is too long. The only error is want of memory.
pub fn long_line(alloc: Global, name: &str) -> Result<Vec<u8>, AllocError>
    ensures { IfOk result (λ line. line.items ≡ early_line (LongFile name.now)) }
{
    named_line(alloc, b"LONG file ", name)
}

/// The line that says that the files are too long together. The only error is want of memory.
pub fn long_together_line(alloc: Global) -> Result<Vec<u8>, AllocError>
    ensures { IfOk result (λ line. line.items ≡ early_line LongFiles) }
{
    Vec::from_slice(alloc, b"LONG files\n")
}

/// A line that ends with a name. The only error is want of memory.
fn named_line(alloc: Global, words: &[u8], name: &str) -> Result<Vec<u8>, AllocError>
    ensures { IfOk result (λ line. line.items ≡ words.now ++ name.now ++ 10 ∷ []) }
{
    let mut line = Vec::from_slice(alloc, words)?;
    line.extend_from_slice(name.as_bytes())?;
    line.push(b'\n')?;
    Ok(line)
}

/// The line that says how the preamble ended, with its steps and the length of its log, and the log. The
/// only error is want of memory.
pub fn preamble_line(
    alloc: Global,
    status: Status,
    log: &Bytes,
    steps: u32,
) -> Result<Vec<u8>, AllocError>
    ensures { IfOk result (λ line. line.items ≡ early_line (BadPreamble status log.now steps)) }
{
    let mut line = Vec::from_slice(alloc, b"PREAMBLE ")?;
    push_status(&mut line, status)?;
    push_number(alloc, &mut line, u64::from(steps))?;
    push_number(alloc, &mut line, log.len() as u64)?;
    line.push(b'\n')?;
    line.extend_from_slice(log.as_slice())?;
    Ok(line)
}

/// Adds the word of a status. The only error is want of memory.
fn push_status(line: &mut Vec<u8>, status: Status) -> Result<(), AllocError>
    ensures { OnOk result (line.new.items ≡ line.old.items ++ status_word status) }
{
    match status {
        Status::Done => line.extend_from_slice(b"DONE"),
        Status::Fail => line.extend_from_slice(b"FAIL"),
        Status::Spent => line.extend_from_slice(b"SPENT"),
    }
}

/// Adds a blank and a number in decimal. The only error is want of memory.
fn push_number(alloc: Global, line: &mut Vec<u8>, number: u64) -> Result<(), AllocError>
    ensures { OnOk result (line.new.items ≡ line.old.items ++ 32 ∷ decimal number) }
{
    let digits = number.to_string(alloc)?;
    line.push(b' ')?;
    line.extend_from_slice(digits.as_bytes())?;
    Ok(())
}

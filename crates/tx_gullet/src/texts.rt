//! The texts of errors.

ghost use Rattle.std.specs.Prelude.{◌≡◌, ◌++◌, negsuc, OnOk};
ghost use Rattle.tx_model.specs.Errors.{error_text as error_text_of, error_lines};

use std::alloc::{AllocError, Global};
use tx_model::Error;
use tx_tok::Log;

/// `\newlinechar` in the state BARE.
pub(crate) const NEW_LINE_CHAR: i32 = -1;

/// Logs the lines of an error: its text, and the number of its line. The only error is want of memory.
/// *TeX: The Program*, part 6.
pub(crate) fn log_error(
    alloc: Global,
    log: &mut Log,
    error: Error,
    line: u32,
) -> Result<(), AllocError>
    ensures { OnOk result (log.new ≡ log.old ++ error_lines (negsuc 0) error line) }
{
    let mut text = Vec::from_slice(alloc, b"! ")?;
    push_error_text(&mut text, error)?;
    log.line(text.as_slice(), NEW_LINE_CHAR)?;
    let line = format!(in alloc; "l.{line}")?;
    log.line(line.as_bytes(), NEW_LINE_CHAR)?;
    Ok(())
}

/// Adds the text of an error. The only error is want of memory. *TeX: The Program*, part 6.
fn push_error_text(out: &mut Vec<u8>, error: Error) -> Result<(), AllocError>
    ensures { OnOk result (out.new.items ≡ out.old.items ++ error_text_of error) }
{
    match error {
        Error::UndefinedControlSequence => out.extend_from_slice(b"Undefined control sequence."),
        Error::InvalidCharacter => {
            out.extend_from_slice(b"Text line contains an invalid character.")
        }
        Error::TooManyRightBraces => out.extend_from_slice(b"Too many }'s."),
        Error::EndedInGroup(groups) => {
            let alloc = *out.allocator();
            let text = format!(in alloc; "Region ended inside a group at level {groups}.")?;
            out.extend_from_slice(text.as_bytes())
        }
        Error::NotBuilt => out.extend_from_slice(b"This command is not built yet."),
    }
}

//! Errors, and their lines in the log. *TeX: The Program*, part 6.

ghost use Rattle.std.specs.Prelude.{◌≡◌, ℕ, Bool, ◌++◌, codes, IfOk, OnOk, OnErr};
ghost use Rattle.std.specs.Fmt.{decimal};
ghost use Rattle.tx_eqtb.specs.Meanings.{meanings};
ghost use Rattle.tx_private.specs.Errors.{decimal_of, error_text as error_text_of};
ghost use Rattle.tx_assign.specs.Refusals.{refused_in};
ghost use Rattle.tx_scene.specs.Knowledge.{KnowsScene};
ghost use Rattle.tx_scene.specs.Changes.{FailsBy};

use crate::scene::Scene;
use std::alloc::{AllocError, Global};
use tx_assign::Refused;
use tx_eqtb::Frozen;
use tx_node::BoxNode;
use tx_num::ErrorNo;
use tx_prims::errors::{HoleValues, error_text};
use tx_prims::primitives::IntegerParameter;

impl Scene {
    /// Ends the region by an error whose text shows this: its two lines join the log. The only error is want of memory.
    pub fn fail(
        &mut self,
        frozen: &Frozen<BoxNode>,
        number: ErrorNo,
        shown: &[u8],
    ) -> Result<(), AllocError>
        ensures fails { OnOk result (FailsBy (meanings frozen.now) (record { number = number; shown = shown.now }) self.old self.new) }
        ensures becomes { self.new ≡ record self.old { log = self.new.log } }
        ensures knows { (known : ℕ → Bool) → KnowsScene known self.old → KnowsScene known self.new }
    {
        let newline = self
            .environment
            .integer(frozen, IntegerParameter::NewLineChar);
        let first = first_line(self.alloc, number, shown)?;
        let second = second_line(self.alloc, self.input.line())?;
        self.log.line(first.as_slice(), newline)?;
        self.log.line(second.as_slice(), newline)
    }

    /// Ends the region by an error that shows a limit, or nothing: its two lines join the log. The only error is want of
    /// memory.
    pub fn refuse(&mut self, frozen: &Frozen<BoxNode>, error: Refused) -> Result<(), AllocError>
        ensures fails { OnOk result (FailsBy (meanings frozen.now) (refused_in error) self.old self.new) }
        ensures becomes { self.new ≡ record self.old { log = self.new.log } }
        ensures knows { (known : ℕ → Bool) → KnowsScene known self.old → KnowsScene known self.new }
    {
        match error.limit {
            Some(limit) => {
                let shown = format!(in self.alloc; "{}", limit)?;
                self.fail(frozen, error.number, shown.as_bytes())
            }
            None => self.fail(frozen, error.number, b""),
        }
    }
}

/// The line with an error's text. The only error is want of memory.
fn first_line(alloc: Global, number: ErrorNo, shown: &[u8]) -> Result<Vec<u8>, AllocError>
    ensures { IfOk result (λ line. line.items ≡ codes "! " ++ error_text_of (record { number = number; shown = shown.now })) }
{
    let mut line = Vec::new(alloc);
    line.extend_from_slice(b"! ")?;
    let text = text(alloc, number, shown)?;
    line.extend_from_slice(text.as_slice())?;
    Ok(line)
}

/// The text of an error, in which what it shows is filled in. The only error is want of memory.
fn text(alloc: Global, number: ErrorNo, shown: &[u8]) -> Result<Vec<u8>, AllocError>
    ensures { IfOk result (λ text. text.items ≡ error_text_of (record { number = number; shown = shown.now })) }
{
    let value = value_text(alloc, number.value)?;
    let values = HoleValues {
        meaning: shown,
        name: shown,
        number: value.as_slice(),
        limit: shown,
        mode: b"vertical mode",
        file: shown,
        character: shown,
        message: shown,
    };
    match error_text(number.no, number.case) {
        Some(text) => text.filled(alloc, &values),
        None => Ok(Vec::new(alloc)),
    }
}

/// A number in decimal, with a minus where it is below 0. The only error is want of memory. *TeX: The Program*,
/// section 65.
fn value_text(alloc: Global, value: i64) -> Result<Vec<u8>, AllocError>
    ensures { IfOk result (λ text. text.items ≡ decimal_of value) }
{
    let mut text = Vec::new(alloc);
    if value < 0 {
        text.push(b'-')?;
    }
    let digits = format!(in alloc; "{}", value.unsigned_abs())?;
    text.extend_from_slice(digits.as_bytes())?;
    Ok(text)
}

/// The line with the number of a line. The only error is want of memory.
fn second_line(alloc: Global, number: u32) -> Result<Vec<u8>, AllocError>
    ensures { IfOk result (λ line. line.items ≡ codes "l." ++ decimal number) }
{
    let mut line = Vec::new(alloc);
    line.extend_from_slice(b"l.")?;
    let digits = format!(in alloc; "{}", number)?;
    line.extend_from_slice(digits.as_bytes())?;
    Ok(line)
}

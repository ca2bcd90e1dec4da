//! The preamble.

ghost use Rattle.tx_model.specs.Bare.{bare_map};
ghost use Rattle.tx_gullet.specs.States.{StandsFor};
ghost use Rattle.std.specs.Prelude.{◌≡◌, [], IfOk};
ghost use Rattle.tx_region.specs.Formats.{AfterContent, AfterPreamble};

use std::alloc::{AllocError, Global};
use tx_bytes::{Bytes, Files};
use tx_gullet::{Engine, Format, Outcome, bare};

/// The most steps that a preamble may spend.
const PREAMBLE_BUDGET: u32 = 100_000_000;

/// What keeps a preamble from becoming a format.
#[derive(Debug, Drop)]
pub enum PreFault {
    /// An error ended it: its log, and the steps that it spent.
    Fail(Bytes, u32),
    /// A step was wanted after its budget was spent: its log, and its steps.
    Spent(Bytes, u32),
    /// Memory was wanting.
    Memory,
}

/// The frozen state with which sessions begin: the one that the first file, the preamble, leaves when it
/// is run as one region from the state BARE; without files the state BARE itself. Its pages and its log
/// are dropped, and it may spend 100,000,000 steps.
pub fn preamble(alloc: Global, files: &Files) -> Result<Format, PreFault>
    ensures { AfterPreamble files.now result }
{
    match files.entries.as_slice() {
        [] => bare_format(alloc),
        [file, ..] => run_preamble(alloc, file.content.as_slice()),
    }
}

/// The format of the state BARE.
fn bare_format(alloc: Global) -> Result<Format, PreFault>
    ensures { AfterPreamble [] result }
{
    match bare(alloc) {
        Ok(format) => Ok(format),
        Err(_) => Err(PreFault::Memory),
    }
}

/// The state that a preamble of these bytes leaves.
fn run_preamble(alloc: Global, content: &[u8]) -> Result<Format, PreFault>
    ensures { AfterContent content.now result }
{
    match begun(alloc, content) {
        Ok((engine, text)) => finished(engine, text),
        Err(_) => Err(PreFault::Memory),
    }
}

/// An engine in the state BARE, and a copy of the bytes. The only error is want of memory.
fn begun(alloc: Global, content: &[u8]) -> Result<(Engine, Bytes), AllocError>
    ensures { IfOk result (λ made. StandsFor made.0 bare_map × (made.1 ≡ content.now)) }
{
    let format = bare(alloc)?;
    let engine = Engine::new(alloc, &format)?;
    let text = Bytes::from_slice(alloc, content)?;
    Ok((engine, text))
}

/// Runs the preamble and freezes the state that it leaves.
fn finished(engine: Engine, text: Bytes) -> Result<Format, PreFault>
    requires { StandsFor engine bare_map }
    ensures { AfterContent text result }
{
    let mut engine = engine;
    match engine.run(text, PREAMBLE_BUDGET) {
        Ok(Outcome::Done(_)) => Ok(engine.freeze()),
        Ok(Outcome::Fail(output)) => Err(PreFault::Fail(output.log, output.steps)),
        Ok(Outcome::Spent(output)) => Err(PreFault::Spent(output.log, output.steps)),
        Err(_) => Err(PreFault::Memory),
    }
}

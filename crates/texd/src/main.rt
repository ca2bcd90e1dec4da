//! texd: a resident TeX.
//!
//! `texd once` reads regions from standard input, typesets them and writes their replies. The call `texd`
//! does all of it; `main` hands in the real outside.
#![tactic(auto)]

mod early;
mod files;
#[cfg(test)]
mod tests;
mod top;
mod words;

use crate::top::{ExitStatus, texd};
use std::alloc::AllocError;
use std::env;
use std::process::ExitCode;
use tx_bytes::{MemPort, NoGate, StdShelf, StdSink, StdSource, Word};

/// The words of the command line, without the program's name. Words that are no text are an error of
/// their own, which no command takes.
fn arguments(rt: &HostRuntime) -> Result<Vec<Word>, ExitStatus> {
    let Ok(all) = env::args(rt) else {
        return Err(ExitStatus::Refused);
    };
    let mut words = Vec::new(rt.alloc());
    for argument in all.skip(1) {
        if words.push(Word::new(argument)).is_err() {
            return Err(ExitStatus::Memory);
        }
    }
    Ok(words)
}

fn main(rt: HostRuntime) -> ExitCode {
    let alloc = rt.alloc();
    let words = match arguments(&rt) {
        Ok(words) => words,
        Err(status) => return ExitCode::from(status as u8),
    };
    let mut shelf = StdShelf::new(&rt);
    let mut port = MemPort::new(alloc, Vec::new(alloc), Vec::new(alloc));
    let mut input = StdSource::new(rt.stdin());
    let mut output = StdSink::new(rt.stdout());
    let status = texd(
        &rt,
        alloc,
        words.as_slice(),
        &mut shelf,
        &mut input,
        &mut output,
        &mut port,
        &NoGate,
    );
    ExitCode::from(status)
}

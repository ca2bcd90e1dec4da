//! The real objects, over std.

ghost use Rattle.std.specs.Prelude.{◌≡◌, ℕ, ◌<◌, ◌++◌, length};
ghost use Rattle.std.specs.Bool.{OnTrue, OnFalse};
ghost use Rattle.std.specs.Io.KnownBytes.{Appends};
ghost use Rattle.tx_bytes.specs.Calls.{AfterRead, AfterWrite};
ghost use Rattle.tx_bytes.specs.Real.{real_tells_of, AppendsSome, RealReads, RealWrites};

mod shelf;

use crate::{Gate, Put, Sink, Source, Told, Took};
pub use shelf::StdShelf;
use std::io::{Read, Write};
use std::marker::Model;

/// A source over a reader, as standard input. An `Err` of the reader counts as a failed call, also
/// where the call was interrupted.
#[derive(Drop)]
pub struct StdSource<R: Read> {
    reader: R,
    faults: u64,
}

impl<R: Read> Model for StdSource<R> {
    ghost use Rattle.tx_bytes.specs.Real.{Real};

    ghost Value = { Real };

    ghost view = { λ s. record { faults = s.faults; bytes = R.remaining s.reader } };
}

impl<R: Read> StdSource<R> {
    /// A source of what the reader gives.
    pub fn new(reader: R) -> Self
        ensures faults { result.faults ≡ 0 }
        ensures bytes { result.bytes ≡ R.remaining reader }
    {
        StdSource { reader, faults: 0 }
    }

    /// How many calls failed; the count stays at 2^64 - 1.
    pub fn faults(&self) -> u64
        ensures { result ≡ self.now.faults }
    {
        self.faults
    }
}

impl<R: Read> Told for StdSource<R> {
    ghost tells = { real_tells_of };
}

impl<R: Read> Source for StdSource<R> {
    fn read(&mut self, buffer: &mut [u8]) -> Took
        requires { 0 < length buffer.old }
        ensures told { AfterRead (real_tells_of self.old) buffer.new result (real_tells_of self.new) }
        ensures reads { RealReads self.old buffer.new result self.new }
    {
        match self.reader.read(buffer) {
            Ok(0) => Took::End,
            Ok(count) => Took::Bytes(count),
            Err(_) => {
                self.faults = self.faults.saturating_add(1);
                Took::Failed
            }
        }
    }
}

/// A sink over a writer, as standard output. An `Err` of the writer counts as a failed call, also
/// where the call was interrupted, and so does a write that takes nothing.
#[derive(Drop)]
pub struct StdSink<W: Write> {
    writer: W,
    faults: u64,
}

impl<W: Write> Model for StdSink<W> {
    ghost use Rattle.tx_bytes.specs.Real.{Real};

    ghost Value = { Real };

    ghost view = { λ s. record { faults = s.faults; bytes = W.contents s.writer } };
}

impl<W: Write> StdSink<W> {
    /// A sink into the writer.
    pub fn new(writer: W) -> Self
        ensures faults { result.faults ≡ 0 }
        ensures bytes { result.bytes ≡ W.contents writer }
    {
        StdSink { writer, faults: 0 }
    }

    /// How many calls failed; the count stays at 2^64 - 1.
    pub fn faults(&self) -> u64
        ensures { result ≡ self.now.faults }
    {
        self.faults
    }
}

// Writes all the bytes and flushes. Says whether no call failed.
fn put_all<W: Write>(writer: &mut W, bytes: &[u8]) -> bool
    ensures all { OnTrue result (Appends (W.contents writer.old) (W.contents writer.new) bytes.now) }
    ensures some { OnFalse result (AppendsSome (W.contents writer.old) (W.contents writer.new) bytes.now) }
{
    let mut rest = bytes;
    'writes: while !rest.is_empty() {
        match writer.write(rest) {
            Ok(0) => return false,
            Ok(count) => rest = &rest[count..],
            Err(_) => return false,
        }
    }
    writer.flush().is_ok()
}

impl<W: Write> Told for StdSink<W> {
    ghost tells = { real_tells_of };
}

impl<W: Write> Sink for StdSink<W> {
    /// Writes until all is written, and flushes.
    fn write(&mut self, bytes: &[u8]) -> Put
        ensures told { AfterWrite (real_tells_of self.old) bytes.now result (real_tells_of self.new) }
        ensures writes { RealWrites self.old bytes.now result self.new }
    {
        if put_all(&mut self.writer, bytes) {
            return Put::All;
        }
        self.faults = self.faults.saturating_add(1);
        Put::Failed
    }
}

/// The gate that does nothing.
#[derive(Clone, Copy, Debug)]
pub struct NoGate;

impl Gate for NoGate {
    fn pass(&self, _session: u64, _region: u64, _names: u64, _lists: u64) {}
}

//! A link in memory.

ghost use Rattle.std.specs.Prelude.{◌≡◌, ℕ, ◌-◌, ◌<◌, ◌≤◌, ◌↔◌, min, take, drop, ◌++◌, length, IsTrue};
ghost use Rattle.tx_bytes.specs.Calls.{AfterRead, AfterWrite};
ghost use Rattle.tx_bytes.specs.Memory.{tells_of, is_failing, IsNew, Reads, Gets};

use super::failures::Failures;
use crate::{Link, Put, Sink, Source, Told, Took};
use std::marker::Model;

/// A link in memory, of which chosen calls fail. Its reads and writes are counted together, from 0.
#[derive(Debug, Drop)]
pub struct MemLink {
    bytes: Vec<u8>,
    at: usize,
    got: Vec<u8>,
    failures: Failures,
}

impl Model for MemLink {
    ghost use Rattle.std.specs.Prelude.{◌≤◌, length, take, drop};
    ghost use Rattle.tx_bytes.specs.Memory.{Held};

    ghost Value = { Held };

    ghost view = { λ s. record { plan = s.failures; was_read = take s.at s.bytes.items; left = drop s.at s.bytes.items; got = s.got.items } };

    ghost invariant = { λ s. s.at ≤ length s.bytes.items };
}

impl MemLink {
    /// A link with these bytes left to read, of which the calls with these numbers fail.
    pub fn new(bytes: Vec<u8>, failing: Vec<u64>) -> Self
        ensures { IsNew bytes.items failing.items result }
    {
        let got = Vec::new(*bytes.allocator());
        MemLink {
            bytes,
            at: 0,
            got,
            failures: Failures::new(failing),
        }
    }

    /// How many calls failed.
    pub fn faults(&self) -> u64
        ensures { result ≡ self.now.plan.faults }
    {
        self.failures.faults()
    }

    /// The bytes that are left to read.
    pub fn left(&self) -> &[u8]
        ensures { result.now ≡ self.now.left }
    {
        &self.bytes[self.at..]
    }

    /// The bytes that it got.
    pub fn got(&self) -> &[u8]
        ensures { result.now ≡ self.now.got }
    {
        self.got.as_slice()
    }

    // Reads as many bytes as fit and are left.
    fn give(&mut self, buffer: &mut [u8]) -> Took
        requires { 0 < length buffer.old }
        ensures reads { Reads self.old buffer.old result buffer.new self.new }
        ensures fails { (result ≡ Took.Failed) ↔ IsTrue (is_failing self.old.plan) }
    {
        if self.failures.fails() {
            return Took::Failed;
        }
        if self.at == self.bytes.len() {
            return Took::End;
        }
        let count = read_from(&self.bytes, self.at, buffer);
        self.at += count;
        Took::Bytes(count)
    }

    // Gets all the bytes, or half of them where the call fails.
    fn get(&mut self, bytes: &[u8]) -> Put
        ensures gets { Gets self.old bytes.now result self.new }
        ensures fails { (result ≡ Put.Failed) ↔ IsTrue (is_failing self.old.plan) }
    {
        if self.failures.fails() {
            let _ = self.got.extend_from_slice(&bytes[..bytes.len() / 2]);
            return Put::Failed;
        }
        match self.got.extend_from_slice(bytes) {
            Ok(()) => Put::All,
            Err(_) => Put::Memory,
        }
    }
}

// Reads from `at` on into the buffer's front, as many bytes as fit and are there, and says how many.
fn read_from(bytes: &[u8], at: usize, buffer: &mut [u8]) -> usize
    requires { at ≤ length bytes.now }
    ensures count { result ≡ min (length buffer.old) (length bytes.now - at) }
    ensures bytes { buffer.new ≡ take result (drop at bytes.now) ++ drop result buffer.old }
{
    let count = buffer.len().min(bytes.len() - at);
    buffer[..count].copy_from_slice(&bytes[at..at + count]);
    count
}

impl Told for MemLink {
    ghost tells = { tells_of };
}

impl Source for MemLink {
    fn read(&mut self, buffer: &mut [u8]) -> Took
        requires { 0 < length buffer.old }
        ensures told { AfterRead (tells_of self.old) buffer.new result (tells_of self.new) }
        ensures reads { Reads self.old buffer.old result buffer.new self.new }
        ensures fails { (result ≡ Took.Failed) ↔ IsTrue (is_failing self.old.plan) }
    {
        self.give(buffer)
    }
}

impl Sink for MemLink {
    /// A call that fails writes half of the bytes, rounded down, or none where memory is wanting for
    /// these.
    fn write(&mut self, bytes: &[u8]) -> Put
        ensures told { AfterWrite (tells_of self.old) bytes.now result (tells_of self.new) }
        ensures gets { Gets self.old bytes.now result self.new }
        ensures fails { (result ≡ Put.Failed) ↔ IsTrue (is_failing self.old.plan) }
    {
        self.get(bytes)
    }
}

impl Link for MemLink {}

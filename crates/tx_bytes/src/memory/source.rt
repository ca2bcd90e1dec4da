//! A source in memory.

ghost use Rattle.std.specs.Prelude.{◌≡◌, ℕ, ◌<◌, ◌↔◌, length, IsTrue};
ghost use Rattle.tx_bytes.specs.Calls.{AfterRead};
ghost use Rattle.tx_bytes.specs.Memory.{tells_of, is_failing, IsNew, Reads};

use super::link::MemLink;
use crate::{Source, Told, Took};
use std::marker::Model;

/// A source in memory, of which chosen calls fail: a link that gets nothing.
#[derive(Debug, Drop)]
pub struct MemSource {
    link: MemLink,
}

impl Model for MemSource {
    ghost use Rattle.tx_bytes.specs.Memory.{Held};

    ghost Value = { Held };

    ghost view = { λ s. s.link };
}

impl MemSource {
    /// A source with these bytes left to read, of which the calls with these numbers fail. Calls are
    /// counted from 0.
    pub fn new(bytes: Vec<u8>, failing: Vec<u64>) -> Self
        ensures { IsNew bytes.items failing.items result }
    {
        MemSource {
            link: MemLink::new(bytes, failing),
        }
    }

    /// How many calls failed.
    pub fn faults(&self) -> u64
        ensures { result ≡ self.now.plan.faults }
    {
        self.link.faults()
    }

    /// The bytes that are left to read.
    pub fn left(&self) -> &[u8]
        ensures { result.now ≡ self.now.left }
    {
        self.link.left()
    }
}

impl Told for MemSource {
    ghost tells = { tells_of };
}

impl Source for MemSource {
    fn read(&mut self, buffer: &mut [u8]) -> Took
        requires { 0 < length buffer.old }
        ensures told { AfterRead (tells_of self.old) buffer.new result (tells_of self.new) }
        ensures reads { Reads self.old buffer.old result buffer.new self.new }
        ensures fails { (result ≡ Took.Failed) ↔ IsTrue (is_failing self.old.plan) }
    {
        self.link.read(buffer)
    }
}

//! A sink in memory.

ghost use Rattle.std.specs.Prelude.{◌≡◌, ℕ, ◌↔◌, [], IsTrue};
ghost use Rattle.tx_bytes.specs.Calls.{AfterWrite};
ghost use Rattle.tx_bytes.specs.Memory.{tells_of, is_failing, IsNew, Gets};

use super::link::MemLink;
use crate::{Put, Sink, Told};
use std::alloc::Global;
use std::marker::Model;

/// A sink in memory, of which chosen calls fail: a link with nothing to read.
#[derive(Debug, Drop)]
pub struct MemSink {
    link: MemLink,
}

impl Model for MemSink {
    ghost use Rattle.tx_bytes.specs.Memory.{Held};

    ghost Value = { Held };

    ghost view = { λ s. s.link };
}

impl MemSink {
    /// A sink that got nothing, of which the calls with these numbers fail. Calls are counted from 0.
    pub fn new(alloc: Global, failing: Vec<u64>) -> Self
        ensures { IsNew [] failing.items result }
    {
        MemSink {
            link: MemLink::new(Vec::new(alloc), failing),
        }
    }

    /// How many calls failed.
    pub fn faults(&self) -> u64
        ensures { result ≡ self.now.plan.faults }
    {
        self.link.faults()
    }

    /// The bytes that it got.
    pub fn got(&self) -> &[u8]
        ensures { result.now ≡ self.now.got }
    {
        self.link.got()
    }
}

impl Told for MemSink {
    ghost tells = { tells_of };
}

impl Sink for MemSink {
    /// A call that fails writes half of the bytes, rounded down, or none where memory is wanting for
    /// these.
    fn write(&mut self, bytes: &[u8]) -> Put
        ensures told { AfterWrite (tells_of self.old) bytes.now result (tells_of self.new) }
        ensures gets { Gets self.old bytes.now result self.new }
        ensures fails { (result ≡ Put.Failed) ↔ IsTrue (is_failing self.old.plan) }
    {
        self.link.write(bytes)
    }
}

//! What a description has printed.

ghost use Rattle.std.specs.Prelude.{◌≡◌, [], ◌++◌, OnOk, OnErr};

use std::alloc::{AllocError, Global};
use std::marker::Model;

/// The bytes that are printed so far.
#[derive(Debug, Drop)]
pub(crate) struct Printed {
    bytes: Vec<u8>,
}

impl Model for Printed {
    ghost use Rattle.std.specs.Prelude.{ℕ, List};

    ghost Value = { List ℕ };

    ghost view = { λ p. p.bytes.items };
}

impl Printed {
    /// Nothing is printed.
    pub(crate) fn new(alloc: Global) -> Self
        ensures { result ≡ [] }
    {
        Printed {
            bytes: Vec::new(alloc),
        }
    }

    /// The allocator of the bytes.
    pub(crate) fn alloc(&self) -> Global {
        *self.bytes.allocator()
    }

    /// Adds a piece. The only error is want of memory, which leaves the bytes as they were.
    pub(crate) fn push(&mut self, piece: &[u8]) -> Result<(), AllocError>
        ensures ok { OnOk result (self.new ≡ self.old ++ piece.now) }
        ensures err { OnErr result (self.new ≡ self.old) }
    {
        self.bytes.extend_from_slice(piece)
    }

    /// The bytes.
    pub(crate) fn into_bytes(self) -> Vec<u8>
        ensures { result.items ≡ self }
    {
        let Printed { bytes } = self;
        bytes
    }
}

//! Bytes, words and named files, each seen as what it holds.

ghost use Rattle.std.specs.Prelude.{◌≡◌, ℕ, ◌==◌, [], length, IfOk};
ghost use Rattle.std.specs.String.{string_bytes};

use std::alloc::{AllocError, Global};
use std::marker::Model;

/// A list of bytes.
#[derive(Debug, Drop)]
pub struct Bytes(pub Vec<u8>);

impl Model for Bytes {
    ghost use Rattle.std.specs.Prelude.{ℕ, List};

    ghost Value = { List ℕ };

    ghost view = { λ b. b.0.items };
}

impl Bytes {
    /// No bytes.
    pub fn new(alloc: Global) -> Self
        ensures { result ≡ [] }
    {
        Bytes(Vec::new(alloc))
    }

    /// A copy of the bytes. The only error is want of memory.
    pub fn from_slice(alloc: Global, bytes: &[u8]) -> Result<Self, AllocError>
        ensures { IfOk result (λ copy. copy ≡ bytes.now) }
    {
        Ok(Bytes(Vec::from_slice(alloc, bytes)?))
    }

    /// The bytes.
    pub fn as_slice(&self) -> &[u8]
        ensures { result.now ≡ self.now }
    {
        self.0.as_slice()
    }

    /// The number of bytes.
    pub fn len(&self) -> usize
        ensures { result ≡ length self.now }
    {
        self.0.len()
    }

    /// Whether there are no bytes.
    pub fn is_empty(&self) -> bool
        ensures { result ≡ (length self.now == 0) }
    {
        self.0.is_empty()
    }
}

/// A word of the command line, seen as the bytes of its text.
#[derive(Debug, Drop)]
pub struct Word(pub String);

impl Model for Word {
    ghost use Rattle.std.specs.Prelude.{ℕ, List};
    ghost use Rattle.std.specs.String.{string_bytes};

    ghost Value = { List ℕ };

    ghost view = { λ w. string_bytes w.0 };
}

impl Word {
    /// The word of that text.
    pub fn new(text: String) -> Self
        ensures { result ≡ string_bytes text }
    {
        Word(text)
    }

    /// The text.
    pub fn as_str(&self) -> &str
        ensures { result.now ≡ self.now }
    {
        self.0.as_str()
    }
}

/// A file by its name and its bytes.
#[derive(Debug, Drop)]
pub struct File {
    pub name: Bytes,
    pub content: Bytes,
}

impl Model for File {
    ghost use Rattle.tx_bytes.specs.Shelves.{Named};

    ghost Value = { Named };

    ghost view = { λ f. record { name = f.name; content = f.content } };
}

/// Files in their order, of which several may have one name.
#[derive(Debug, Drop)]
pub struct Files {
    pub entries: Vec<File>,
}

impl Model for Files {
    ghost use Rattle.std.specs.Prelude.{List};
    ghost use Rattle.tx_bytes.specs.Shelves.{Named};

    ghost Value = { List Named };

    ghost view = { λ f. f.entries.items };
}

//! The names that a session has beside the format's.

ghost use Rattle.std.specs.Prelude.{◌≡◌, ◌+◌, ◌-◌, [], ◌∷◌, length, drop, None, false, OnOk, OnErr};
ghost use Rattle.tx_input.specs.Owned.{has_number, bytes_of, limit_for};

use indexmap::IndexMap;
use std::alloc::{AllocError, Global};
use std::marker::Model;

/// How many names a session may have beside the format's.
const MOST_NAMES: usize = 65_536;

/// How many bytes these names may have.
const MOST_BYTES: u64 = 4_194_304;

/// How many bytes one of them may have.
const LONGEST: u64 = 1_024;

/// A limit that a name is beyond.
#[derive(Clone, Copy, Debug, PartialEq, Eq)]
pub enum NameLimit {
    /// That of the number of names, the hash size of *TeX: The Program*, part 18.
    Number,
    /// That of the bytes of all names, the pool size of part 4.
    Bytes,
    /// That of the bytes of one name, the buffer size of part 3.
    Length,
}

/// The numbers of names in the order in which they were made, each with how many bytes the names up to it have.
/// It is seen with the latest name first.
#[derive(Debug, Drop)]
pub(crate) struct OwnNames {
    ends: IndexMap<u64, u64>,
}

impl Model for OwnNames {
    ghost use Rattle.std.specs.Prelude.{reverse};
    ghost use Rattle.tx_input.specs.Owned.{Own};

    ghost Value = { Own };

    ghost view = { λ o. reverse o.ends.entries };
}

impl OwnNames {
    /// No names.
    pub(crate) fn new(alloc: Global) -> Self
        ensures { result ≡ [] }
    {
        OwnNames {
            ends: IndexMap::new(alloc),
        }
    }

    /// How many names there are.
    pub(crate) fn len(&self) -> usize
        ensures { result ≡ length self.now }
    {
        self.ends.len()
    }

    /// Whether a name has this number.
    pub(crate) fn has(&self, number: u64) -> bool
        ensures { result ≡ has_number number self.now }
    {
        self.ends.contains_key(&number)
    }

    /// Keeps the first `known` names, and drops the others. Takes no memory.
    pub(crate) fn truncate(&mut self, known: usize)
        ensures { self.new ≡ drop (length self.old - known) self.old }
    {
        self.ends.truncate(known);
    }

    /// How many bytes the names have.
    fn bytes(&self) -> u64
        ensures { result ≡ bytes_of self.now }
    {
        match self.ends.last() {
            Some((_, end)) => *end,
            None => 0,
        }
    }

    /// The first limit that one more name, of so many bytes, is beyond. *TeX: The Program*, part 18.
    pub(crate) fn limit(&self, length: u64) -> Option<NameLimit>
        ensures { result ≡ limit_for length self.now }
    {
        if self.len() >= MOST_NAMES {
            Some(NameLimit::Number)
        } else if length > MOST_BYTES || self.bytes() > MOST_BYTES - length {
            Some(NameLimit::Bytes)
        } else if length > LONGEST {
            Some(NameLimit::Length)
        } else {
            None
        }
    }

    /// Makes room for one more name. The only error is want of memory. Both leave the names as they were.
    pub(crate) fn reserve(&mut self) -> Result<(), AllocError>
        ensures { self.new ≡ self.old }
    {
        self.ends.reserve(1)
    }

    /// Adds a name of so many bytes. The only error is want of memory, which changes nothing.
    pub(crate) fn push(&mut self, number: u64, length: u64) -> Result<(), AllocError>
        requires other { has_number number self.old ≡ false }
        requires room { limit_for length self.old ≡ None }
        ensures ok { OnOk result (self.new ≡ (number, bytes_of self.old + length) ∷ self.old) }
        ensures err { OnErr result (self.new ≡ self.old) }
    {
        let end = self.bytes() + length;
        self.ends.insert(number, end)?;
        Ok(())
    }
}

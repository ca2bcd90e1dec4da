//! One whole map.

ghost use Rattle.std.specs.Prelude.{◌≡◌, [], IfOk};
ghost use Rattle.tx_eqtb.specs.Meanings.{meanings};
ghost use Rattle.tx_levels.specs.Wholes.{leads, changed, last_given, integer_of};

use std::alloc::{AllocError, Global};
use std::marker::Model;
use tx_eqtb::{Addr, Frozen, Meaning};

/// A whole map over a frozen one, as the assignments that lead to it, the oldest first.
#[derive(Drop)]
pub(crate) struct WholeMap {
    entries: Vec<(Addr, i32)>,
}

impl Model for WholeMap {
    ghost use Rattle.tx_levels.specs.Wholes.{Whole};

    ghost Value = { Whole };

    ghost view = { λ m. m.entries.items };
}

impl WholeMap {
    /// The frozen map itself.
    pub(crate) fn new(alloc: Global) -> Self
        ensures { result ≡ [] }
    {
        WholeMap {
            entries: Vec::new(alloc),
        }
    }

    /// The same map again. The only error is want of memory.
    pub(crate) fn copy(&self) -> Result<Self, AllocError>
        ensures { IfOk result (λ map. map ≡ self.now) }
    {
        let mut entries = Vec::new(*self.entries.allocator());
        entries.extend_from_slice(self.entries.as_slice())?;
        Ok(WholeMap { entries })
    }

    /// The map but with an integer at an address. The only error is want of memory.
    pub(crate) fn set(self, at: Addr, n: i32) -> Result<Self, AllocError>
        ensures { IfOk result (λ map. map ≡ changed self at n) }
    {
        let WholeMap { mut entries } = self;
        entries.push((at, n))?;
        Ok(WholeMap { entries })
    }

    /// The integer that an address means, if it means one.
    pub(crate) fn integer(&self, frozen: &Frozen<u8>, at: Addr) -> Option<i32>
        ensures { result ≡ integer_of (leads self.now (meanings frozen.now) at) }
    {
        let given = last(self.entries.as_slice(), at);
        if given.is_some() {
            return given;
        }
        integer(frozen.get(at))
    }
}

/// The integer that a meaning is, if it is one.
pub(crate) fn integer(m: &Meaning<u8>) -> Option<i32>
    ensures { result ≡ integer_of m.now }
{
    match m {
        Meaning::Int(n) => Some(*n),
        _ => None,
    }
}

/// The integer that the last of these assignments to an address gave it.
fn last(entries: &[(Addr, i32)], at: Addr) -> Option<i32>
    ensures { result ≡ last_given at entries.now }
{
    entries
        .iter()
        .copied()
        .fold(None, |found, e| if e.0 == at { Some(e.1) } else { found })
}

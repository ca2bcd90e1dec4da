//! The frozen table, which all sessions share.

ghost use Rattle.std.specs.Prelude.{◌≡◌, IfOk};
ghost use Rattle.std.specs.List.{IsDistinct};
ghost use Rattle.std.specs.Map.{keys_of};
ghost use Rattle.tx_eqtb.specs.Addresses.{same};
ghost use Rattle.tx_eqtb.specs.Meanings.{meanings};

use crate::addr::Addr;
use crate::maps::add;
use crate::meaning::{Entries, Meaning};
use crate::starts::Starts;
use indexmap::IndexMap;
use std::alloc::{AllocError, Global};
use std::marker::Model;

/// A table that is never written. A contract sees its entries.
#[derive(Drop)]
pub struct Frozen<B> {
    entries: IndexMap<Addr, Meaning<B>>,
    starts: Starts<B>,
}

impl<B> Model for Frozen<B> {
    ghost use Rattle.std.specs.Prelude.{◌≡◌, List};
    ghost use Rattle.tx_eqtb.specs.declared.addr.Addr.{Addr};
    ghost use Rattle.tx_eqtb.specs.declared.meaning.Meaning.{Meaning};
    ghost use Rattle.tx_eqtb.specs.Meanings.{start_meanings};

    ghost Value = { List (Addr × Meaning B) };

    ghost view = { λ f. f.entries.entries };

    ghost invariant = { λ f. f.starts ≡ start_meanings };
}

impl<B: Drop> Frozen<B> {
    /// The table with these entries, whose addresses are distinct. An address without an entry means what
    /// it does at the start. The only error is want of memory.
    pub fn new(alloc: Global, entries: Entries<B>) -> Result<Self, AllocError>
        requires { IsDistinct same (keys_of entries.0.items) }
        ensures { IfOk result (λ frozen. frozen ≡ entries.0.items) }
    {
        let mut map = IndexMap::with_capacity(alloc, entries.0.len())?;
        for (at, m) in entries.0 {
            add(&mut map, at, m);
        }
        Ok(Frozen {
            entries: map,
            starts: Starts::new(alloc),
        })
    }
}

impl<B> Frozen<B> {
    /// What an address means.
    pub fn get(&self, at: Addr) -> &Meaning<B>
        ensures { result.now ≡ meanings self.now at }
    {
        match self.entries.get(&at) {
            Some(m) => m,
            None => self.starts.at(at.kind),
        }
    }
}

//! The frozen states in which sessions begin.

ghost use Rattle.std.specs.Prelude.{◌≡◌, IfOk};
ghost use Rattle.tx_model.specs.Environment.{Map};
ghost use Rattle.tx_model.specs.Bare.{bare_map};
ghost use Rattle.tx_gullet.specs.States.{IsAtRest, IsFormat, StandsFor};

use crate::equivalents::Equivalents;
use crate::start::bare_names;
use std::alloc::{AllocError, Global};
use std::marker::Model;
use tx_names::NameTable;

/// A frozen state. *TeX: The Program*, part 50.
#[derive(Drop)]
pub struct Format {
    names: NameTable,
    equivalents: Equivalents,
}

impl Model for Format {
    ghost use Rattle.tx_gullet.specs.States.{State, IsAtRest};
    ghost use Rattle.tx_gullet.specs.contracts.equivalents.Equivalents as equivalents_row;
    ghost use Rattle.std.specs.Coded.{codes};

    ghost Value = { State };

    ghost coded = { Prim.hlevel (codes, equivalents_row.the_row.coded) };

    ghost view = { λ f. record { names = f.names; equivalents = f.equivalents } };

    ghost invariant = { λ f. IsAtRest (record { names = f.names; equivalents = f.equivalents }) };
}

impl Format {
    /// The state of these names and meanings.
    pub(crate) fn of(names: NameTable, equivalents: Equivalents) -> Self
        requires rest { IsAtRest (record { names = names; equivalents = equivalents }) }
        ensures { result ≡ record { names = names; equivalents = equivalents } }
    {
        Format { names, equivalents }
    }

    /// The names and meanings once more. The only error is want of memory.
    pub(crate) fn state(&self) -> Result<(NameTable, Equivalents), AllocError>
        ensures rest { IfOk result (λ copy. IsAtRest (record { names = copy.0; equivalents = copy.1 })) }
        ensures stands { IfOk result (λ copy. (map : Map) → IsFormat self.now map → StandsFor (record { names = copy.0; equivalents = copy.1 }) map) }
    {
        let names = self.names.clone()?;
        let equivalents = self.equivalents.unsaved()?;
        Ok((names, equivalents))
    }
}

/// The state BARE: the primitives, and category codes as plain TeX sets them. The only error is want of
/// memory.
pub fn bare(alloc: Global) -> Result<Format, AllocError>
    ensures { IfOk result (λ format. IsFormat format bare_map) }
{
    let (names, equivalents) = bare_names(alloc)?;
    Ok(Format::of(names, equivalents))
}

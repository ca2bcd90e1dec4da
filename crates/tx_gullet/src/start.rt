//! The names and meanings of the state BARE.

ghost use Rattle.std.specs.Prelude.{◌≡◌, [], ◌∷◌, ℕ, IfOk, OnOk};
ghost use Rattle.tx_model.specs.Bare.{bare_map};
ghost use Rattle.tx_model.specs.Environment.{defining, Primitive'};
ghost use Rattle.tx_names.specs.Names.{Names, Naming, KeepsApart, Agrees};
ghost use Rattle.tx_gullet.specs.Levels.{levels, KnowsEquivalents};
ghost use Rattle.tx_gullet.specs.States.{IsFormat, IsAtRest};

use crate::equivalents::Equivalents;
use crate::meaning::Meaning;
use std::alloc::{AllocError, Global};
use tx_model::Primitive;
use tx_names::NameTable;
use tx_scan::Cats;

/// The primitives' names and meanings. The only error is want of memory.
pub(crate) fn bare_names(alloc: Global) -> Result<(NameTable, Equivalents), AllocError>
    ensures bare { IfOk result (λ made. IsFormat (record { names = made.0; equivalents = made.1 }) bare_map) }
    ensures rest { IfOk result (λ made. IsAtRest (record { names = made.0; equivalents = made.1 })) }
{
    let mut names = NameTable::new(alloc, 0)?;
    let mut equivalents = Equivalents::new(alloc, Cats::bare());
    name_primitive(&mut names, &mut equivalents, b"message", Primitive::Message)?;
    name_primitive(&mut names, &mut equivalents, b"def", Primitive::Def)?;
    name_primitive(&mut names, &mut equivalents, b"par", Primitive::Par)?;
    name_primitive(&mut names, &mut equivalents, b"relax", Primitive::Relax)?;
    equivalents.keep();
    Ok((names, equivalents))
}

/// Gives a primitive its name. The only error is want of memory.
fn name_primitive(
    names: &mut NameTable,
    equivalents: &mut Equivalents,
    text: &[u8],
    primitive: Primitive,
) -> Result<(), AllocError>
    ensures named { OnOk result ((naming : Naming) → KeepsApart naming → Agrees naming names.new → Agrees naming names.old × (levels naming equivalents.new ≡ defining text.now (Primitive' primitive) (levels naming equivalents.old))) }
    ensures knows { OnOk result ((table : Names) → KnowsEquivalents table equivalents.old → KnowsEquivalents table equivalents.new) }
    ensures cats { equivalents.new.cats ≡ equivalents.old.cats }
{
    let number = names.intern(text)?;
    equivalents.define(number, Meaning::Primitive(primitive))?;
    Ok(())
}

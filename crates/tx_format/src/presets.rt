//! The states in which a session can begin, frozen.

ghost use Rattle.std.specs.Prelude.{◌≡◌, IfOk, IfSome, length, map, [], List, ℕ};
ghost use Rattle.std.specs.List.{IsDistinct};
ghost use Rattle.std.specs.Map.{keys_of};
ghost use Rattle.tx_eqtb.specs.declared.addr.Addr.{Addr};
ghost use Rattle.tx_eqtb.specs.Addresses.{same, entry_at};
ghost use Rattle.tx_names.specs.Names.{IsDistinct as NamesDiffer};
ghost use Rattle.tx_prims.specs.Keys.{text_of};
ghost use Rattle.tx_prims.specs.Rows.{EachKeyHasItsRow};
ghost use Rattle.tx_format.specs.Formats.{IsFreezable, IsPreset, table_of};
ghost use Rattle.tx_format.specs.States.{told, primitive_names};

use crate::fill::all_told;
use crate::preset::Preset;
use crate::state::{Engineless, Lists, Texts};
use std::alloc::{AllocError, Global};
use tx_bytes::{Bytes, Files};
use tx_eqtb::{Entries, Frozen};
use tx_node::BoxNode;
use tx_prims::primitives::{PRIMITIVE_COUNT, Primitive, primitive_table};
use tx_prims::{TableRow, each_key_has_its_row};

/// The state of a preset. The only error is want of memory.
pub(crate) fn state_of(alloc: Global, preset: Preset) -> Result<Engineless, AllocError>
    ensures preset { IfOk result (IsPreset preset) }
    ensures freezable { IfOk result IsFreezable }
{
    Ok(Engineless {
        frozen: frozen(alloc, preset)?,
        names: primitive_names(alloc)?,
        lists: Lists(Vec::new(alloc)),
        files: Files {
            entries: Vec::new(alloc),
        },
    })
}

/// What addresses mean in the state of a preset. The only error is want of memory.
fn frozen(alloc: Global, preset: Preset) -> Result<Frozen<BoxNode>, AllocError>
    ensures entries { IfOk result (λ frozen. (q : Addr) → entry_at frozen q ≡ told preset q.kind q.no) }
    ensures distinct { IfOk result (λ frozen. IsDistinct same (keys_of frozen)) }
{
    let map = all_told(alloc, preset)?;
    let mut entries = Vec::new(alloc);
    for entry in map {
        entries.push(entry)?;
    }
    Frozen::new(alloc, Entries(entries))
}

/// The names of the primitives, in the order of their table. The only error is want of memory.
#[tactic(auto, unfolding(crate::specs::States::primitive_names))]
fn primitive_names(alloc: Global) -> Result<Texts, AllocError>
    ensures names { IfOk result (λ names. names ≡ primitive_names) }
    ensures count { IfOk result (λ names. length names ≡ 297) }
    ensures distinct { IfOk result (λ names. NamesDiffer (table_of names)) }
{
    let table = primitive_table();
    each_key_has_its_row::<PRIMITIVE_COUNT, Primitive>(table.rows);
    names_of(alloc, table.rows)
}

/// The names of these rows. The only error is want of memory.
fn names_of(alloc: Global, rows: &[TableRow<Primitive>]) -> Result<Texts, AllocError>
    ensures names { IfOk result (λ names. names ≡ map (λ row. text_of row.key) rows.now) }
    ensures count { IfOk result (λ names. length names ≡ length rows.now) }
{
    let mut names = Vec::new(alloc);
    for row in rows {
        names.push(Bytes::from_slice(alloc, row.key.text())?)?;
    }
    Ok(Texts(names))
}

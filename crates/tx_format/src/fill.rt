//! All that a state says, as a map.

ghost use Rattle.std.specs.Prelude.{◌≡◌, ℕ, Some, IfOk, OnOk};
ghost use Rattle.std.specs.Option.{option_or};
ghost use Rattle.indexmap.specs.IndexMap.{IsUnique};
ghost use Rattle.tx_eqtb.specs.declared.addr.Addr.{Addr};
ghost use Rattle.tx_eqtb.specs.Addresses.{same, entry_at, update};
ghost use Rattle.tx_format.specs.States.{told};
ghost use Rattle.tx_format.specs.Fillings.{filled};

use crate::preset::Preset;
use crate::told::told;
use indexmap::IndexMap;
use std::alloc::{AllocError, Global};
use tx_eqtb::{Addr, AddrKind, Meaning};
use tx_node::BoxNode;

/// The kinds of addresses of which a state says something.
pub(crate) const KINDS: [AddrKind; 10] = [
    AddrKind::Name,
    AddrKind::CatCode,
    AddrKind::LcCode,
    AddrKind::UcCode,
    AddrKind::SfCode,
    AddrKind::MathCode,
    AddrKind::DelCode,
    AddrKind::IntParam,
    AddrKind::DimenParam,
    AddrKind::GlueParam,
];

/// All that a state says. The only error is want of memory.
pub(crate) fn all_told(
    alloc: Global,
    preset: Preset,
) -> Result<IndexMap<Addr, Meaning<BoxNode>>, AllocError>
    ensures entries { IfOk result (λ map. (q : Addr) → entry_at map.entries q ≡ told preset q.kind q.no) }
    ensures unique { IfOk result (IsUnique same) }
{
    let mut map = IndexMap::new(alloc);
    for kind in KINDS {
        fill(&mut map, preset, kind)?;
    }
    Ok(map)
}

/// Adds what a state says of the addresses of a kind. The only error is want of memory.
fn fill(
    map: &mut IndexMap<Addr, Meaning<BoxNode>>,
    preset: Preset,
    kind: AddrKind,
) -> Result<(), AllocError>
    requires unique { IsUnique same map.old }
    ensures entries { OnOk result ((q : Addr) → entry_at map.new.entries q ≡ filled preset kind 297 q (entry_at map.old.entries q)) }
    ensures unique { IsUnique same map.new }
{
    for no in 0..297 {
        put_told(map, preset, Addr { kind, no })?;
    }
    Ok(())
}

/// Puts at an address what a state says of it, if it says anything. The only error is want of memory.
fn put_told(
    map: &mut IndexMap<Addr, Meaning<BoxNode>>,
    preset: Preset,
    at: Addr,
) -> Result<(), AllocError>
    requires unique { IsUnique same map.old }
    ensures entries { OnOk result ((q : Addr) → entry_at map.new.entries q ≡ update (entry_at map.old.entries) at (option_or (told preset at.kind at.no) (entry_at map.old.entries at)) q) }
    ensures unique { IsUnique same map.new }
{
    match told(preset, at.kind, at.no) {
        Some(meaning) => put(map, at, meaning),
        None => Ok(()),
    }
}

/// Puts a meaning at an address. The only error is want of memory.
fn put(
    map: &mut IndexMap<Addr, Meaning<BoxNode>>,
    at: Addr,
    meaning: Meaning<BoxNode>,
) -> Result<(), AllocError>
    ensures found { OnOk result ((q : Addr) → entry_at map.new.entries q ≡ update (entry_at map.old.entries) at (Some meaning) q) }
    ensures unique { IsUnique same map.new }
{
    map.insert(at, meaning)?;
    Ok(())
}

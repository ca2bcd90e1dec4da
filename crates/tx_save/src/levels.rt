//! The levels at which meanings were assigned.

ghost use Rattle.std.specs.Prelude.{◌≡◌, ◌<◌, ◌==◌, None, if◌then◌else◌};
ghost use Rattle.indexmap.specs.IndexMap.{spare};
ghost use Rattle.tx_eqtb.specs.declared.addr.Addr.{Addr};
ghost use Rattle.tx_eqtb.specs.Addresses.{entry_at, update};
ghost use Rattle.tx_save.specs.Levels.{level_at};

use indexmap::IndexMap;
use tx_eqtb::Addr;

/// The level at which what an address means was assigned.
pub(crate) fn level_of(levels: &IndexMap<Addr, u8>, at: Addr) -> u8
    ensures { result ≡ level_at levels.now.entries at }
{
    match levels.get(&at) {
        Some(level) => *level,
        None => 1,
    }
}

/// Writes a level, where the address has an entry or there is room for one.
pub(crate) fn write_level(levels: &mut IndexMap<Addr, u8>, at: Addr, level: u8)
    requires { entry_at levels.old.entries at ≡ None → 0 < spare levels.old }
    ensures { (q : Addr) → level_at levels.new.entries q ≡ update (level_at levels.old.entries) at level q }
{
    let _ = levels.insert(at, level);
}

/// Gives an address the level 1, without memory.
pub(crate) fn lower_level(levels: &mut IndexMap<Addr, u8>, at: Addr)
    ensures { (q : Addr) → level_at levels.new.entries q ≡ update (level_at levels.old.entries) at 1 q }
{
    if level_of(levels, at) != 1 {
        write_level(levels, at, 1);
    }
}

/// Gives an address the level that its meaning outside has, unless what it means is global. It takes no memory.
pub(crate) fn give_level_back(levels: &mut IndexMap<Addr, u8>, at: Addr, outer: u8)
    ensures { (q : Addr) → level_at levels.new.entries q ≡ (if level_at levels.old.entries at == 1 then level_at levels.old.entries q else update (level_at levels.old.entries) at outer q) }
{
    if level_of(levels, at) != 1 {
        write_level(levels, at, outer);
    }
}

//! What takes several calls of a table or a save stack.

ghost use Rattle.std.specs.Prelude.{◌≡◌, ◌∷◌, ◌+◌, ◌<◌, [], ℕ};
ghost use Rattle.tx_eqtb.specs.Meanings.{Map};
ghost use Rattle.tx_eqtb.specs.Tables.{Table, now, before};
ghost use Rattle.tx_eqtb.specs.Steps.{KeepsNow, KeepsBefore};
ghost use Rattle.tx_save.specs.Saves.{outside, Fits};

use tx_eqtb::Overlay;
use tx_save::{Closed, SaveStack};

/// Ends the innermost group.
pub(crate) fn end_group(over: &mut Overlay<u8>, groups: &mut SaveStack<u8>)
    requires open { 1 < groups.old.level }
    requires fits { Fits over.old groups.old }
    ensures maps { (frozen : Map ℕ) → outside frozen over.old groups.old ≡ now frozen over.new ∷ outside frozen over.new groups.new }
    ensures before { KeepsBefore over.old over.new }
    ensures fits { Fits over.new groups.new }
    ensures level { groups.old.level ≡ groups.new.level + 1 }
{
    'dropped: while let Closed::Dropped(_) = groups.close(over) {}
}

/// Keeps all that the region set.
pub(crate) fn keep_all(over: &mut Overlay<u8>)
    ensures now { KeepsNow over.old over.new }
    ensures before { (frozen : Map ℕ) → before frozen over.new ≡ now frozen over.old }
{
    'kept: while let Some(_) = over.keep() {}
}

/// Undoes all that the region set.
pub(crate) fn undo_all(over: &mut Overlay<u8>)
    ensures now { (frozen : Map ℕ) → now frozen over.new ≡ before frozen over.old }
    ensures before { KeepsBefore over.old over.new }
{
    'undone: while let Some(_) = over.undo() {}
}

/// Gives all groups up.
pub(crate) fn abandon_all(groups: &mut SaveStack<u8>)
    ensures level { groups.new.level ≡ 1 }
    ensures fits { (table : Table ℕ) → Fits table groups.new }
    ensures alone { (frozen : Map ℕ) (table : Table ℕ) → outside frozen table groups.new ≡ [] }
{
    'given_up: while let Some(_) = groups.abandon() {}
}

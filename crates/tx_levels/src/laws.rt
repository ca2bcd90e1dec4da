//! What is proved of the list of whole maps. Each function here does nothing: its contract is the law.

ghost use Rattle.tx_levels.specs.Laws.{StartRepeats, LocalChangesOne, GlobalChangesAll};

/// A group's start repeats the innermost map.
pub fn start_repeats()
    ensures { StartRepeats }
{}

/// A local assignment changes the innermost map, and no other.
pub fn local_changes_one()
    ensures { LocalChangesOne }
{}

/// A global assignment changes all maps.
pub fn global_changes_all()
    ensures { GlobalChangesAll }
{}

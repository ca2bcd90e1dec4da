//! The calls of a script.

use tx_eqtb::Addr;

/// A call of a script.
#[derive(Clone, Copy, Debug)]
pub enum Call {
    /// A group begins, unless the level is 255.
    Begin,
    /// An address is set to an integer, at all levels where the last is true.
    Assign(Addr, i32, bool),
    /// The innermost group ends, if one is open.
    Close,
    /// The region is kept, if no group is open.
    Keep,
    /// The region is undone, and all groups are given up.
    Undo,
}

//! What the save stack holds.

use crate::group::Group;
use tx_eqtb::{Addr, Old};

/// An entry of the save stack.
#[derive(Debug, Drop)]
pub(crate) enum Save<B> {
    /// A group begins within this one.
    Mark(Group),
    /// An address with what it was before a local assignment, and the level of that meaning.
    Saved(Addr, Old<B>, u8),
}

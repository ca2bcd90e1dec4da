//! What arithmetic can work on.

use tx_eqtb::RegKind;
use tx_views::Place;

/// What arithmetic can work on.
#[derive(Clone, Copy, Debug, PartialEq, Eq)]
pub enum Target {
    /// A register or a parameter.
    Place(Place),
    /// A register of this kind, whose number is still to be read.
    Numbered(RegKind),
    /// Nothing.
    None,
}

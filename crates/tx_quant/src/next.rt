//! What an item makes of a stage of a reading.

use tx_num::ErrorNo;

/// What an item makes of a stage of a reading.
#[derive(Clone, Copy, Debug)]
pub(crate) enum Next<S, V> {
    /// The next stage, after so many of the last tokens are put back.
    More(S, u8),
    /// The value. So many of the last tokens are to be put back.
    Done(V, u8),
    /// An error.
    Bad(ErrorNo),
}

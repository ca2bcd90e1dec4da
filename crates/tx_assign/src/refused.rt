//! Errors with what their texts show.

use tx_num::ErrorNo;

/// An error of an assignment, which ends the region. *TeX: The Program*, part 6.
#[derive(Clone, Copy, Debug, PartialEq, Eq)]
pub struct Refused {
    /// The error, with the number that its text shows.
    pub number: ErrorNo,
    /// The limit that its text shows too, if it shows one.
    pub limit: Option<u32>,
}

//! The readings of numbers, dimensions, glue and keywords as the engine has them: the automata of `tx_quant`, fed
//! with tokens and their meanings. A scan also says where an internal quantity begins, and gives back the very
//! tokens that are put back.
//!
//! `specs/` says what a scan says of the items to come in the definitions of `tx_private`, for each view of the
//! numbers of names and lists.
#![tactic(auto)]

mod amount;
mod automaton;
mod back;
mod begun;
mod letters;
mod quantities;
mod scan;

pub use amount::{Amount, ScanWish, Scanned};
pub use letters::letter_of;
pub use quantities::begins_quantity;
pub use scan::Scan;

#[cfg(test)]
mod tests;

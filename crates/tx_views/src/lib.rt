//! What numbers stand for: the texts of names and the contents of lists by their numbers, meanings as the
//! definitions have them, and the addresses that commands name.
//!
//! `specs/` says what each value of the code stands for in the definitions of `tx_private`, for a *view*: the
//! texts that the numbers of names have, and the contents that the references to lists have.
#![tactic(auto)]

mod place;
mod sense;

pub use place::{CodeTable, Place};
pub use sense::Sense;

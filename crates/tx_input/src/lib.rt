//! The pending input of a region: lists of tokens in front of the region's text, the steps spent, and the
//! names that a session makes.
//!
//! `specs/` says which world of the definitions of `tx_private` an input stands for, for each view of the
//! numbers of names.
#![tactic(auto)]

mod input;
mod lists;
mod owned;
mod steps;
mod text;

pub use input::{Found, Input, Taken};
pub use owned::NameLimit;

#[cfg(test)]
mod tests;

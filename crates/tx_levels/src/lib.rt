//! A table with its save stack beside the list of whole maps that it stands for: the list itself, as a small
//! and slow body, goes through the same calls.
#![tactic(auto)]

mod both;
mod call;
mod ends;
pub mod laws;
mod levels;
mod whole;

pub use both::Both;
pub use call::Call;
pub use levels::WholeLevels;

#[cfg(test)]
mod tests;

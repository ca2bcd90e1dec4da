//! Groups: what a local assignment changes is what it was before once its group ends.
#![tactic(auto)]

pub mod examples;
mod group;
mod levels;
mod save;
mod stack;

pub use group::{Closed, GroupKind, SaveRefused};
pub use stack::SaveStack;

#[cfg(test)]
mod tests;

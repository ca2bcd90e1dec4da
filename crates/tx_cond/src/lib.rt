//! Conditionals: what a false branch skips, and the conditionals that are open.
#![tactic(auto)]

pub mod laws;
mod skip;
mod stack;

pub use skip::{Skip, SkipEnd, SkipKind};
pub use stack::{Cond, CondRefused, CondStack};

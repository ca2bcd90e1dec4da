//! The frozen state that all sessions share, and the two states in which a session can begin.
#![tactic(auto)]

mod codes;
pub mod examples;
mod fill;
mod format;
mod parameters;
mod preset;
mod presets;
mod state;
mod told;

pub use format::{Format, bare, freeze, start};
pub use state::{Engineless, Lists, Texts};

#[cfg(test)]
mod tests;

//! The gullet: from the tokens of a region to its outcome, and from one region of a session to the next.
#![tactic(auto)]

mod engine;
mod equivalents;
mod feed;
mod format;
mod frame;
mod input;
mod meaning;
mod outcome;
mod running;
mod scene;
mod show;
mod start;
mod steps;
#[cfg(test)]
mod tests;
mod texts;

pub use engine::Engine;
pub use format::{Format, bare};
pub use outcome::{Outcome, Output};

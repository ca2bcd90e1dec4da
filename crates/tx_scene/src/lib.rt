//! All that a region works on: what is pending, what everything means, and what was made so far.
//!
//! `specs/` says which world of the definitions of `tx_private` a scene stands for. Each call is one change of that
//! world.
#![tactic(auto)]

mod errors;
mod groups;
mod recode;
mod scene;

pub use scene::Scene;

#[cfg(test)]
mod tests;

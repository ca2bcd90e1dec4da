//! The environment of a session: what every address means, the open groups, and the categories of bytes.
//!
//! `specs/` says which environment of the definitions of `tx_private` it stands for, and which pooled lists it holds;
//! `laws` says that no other pooled list matters, and how often each is held after a change.
#![tactic(auto)]

mod categories;
mod environment;
pub mod laws;
mod values;

pub use environment::Environment;

#[cfg(test)]
mod tests;

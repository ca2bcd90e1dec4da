//! The names and the shared lists of one session, as a trait, and a store for one session.
#![tactic(auto)]

pub mod examples;
mod plain;
mod slots;
mod store;

pub use plain::PlainStore;
pub use slots::Slot;
pub use store::Store;

#[cfg(test)]
mod tests;

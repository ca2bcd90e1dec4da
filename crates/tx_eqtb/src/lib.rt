//! The table of equivalents: what every address means, as a private table over a frozen one that all share.
#![tactic(auto)]

mod addr;
pub mod examples;
mod frozen;
mod maps;
mod meaning;
mod overlay;
mod starts;

pub use addr::{Addr, AddrKind};
pub use frozen::Frozen;
pub use meaning::{Entries, Meaning, Old, RegKind};
pub use overlay::Overlay;

#[cfg(test)]
mod tests;

//! The readings of numbers, dimensions, glue and keywords, one token at a time.
#![tactic(auto)]

mod base;
mod decimals;
mod digits;
mod dimension;
mod dimension_quantity;
mod dimension_stage;
mod dimension_token;
mod errors;
pub mod examples;
mod factor;
mod glue;
mod glue_quantity;
mod glue_stage;
mod glue_token;
mod internal;
mod keyword;
mod looking;
mod next;
mod number;
mod part;
mod setting;
mod size;
mod sizes;
mod step;
mod stretched;
mod tokens;
mod units;
mod word;

pub use dimension::DimScan;
pub use glue::GlueScan;
pub use keyword::{KeySet, Keyword};
pub use number::NumScan;

#[cfg(test)]
mod dimension_tests;
#[cfg(test)]
mod tests;

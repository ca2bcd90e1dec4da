//! The numbers of TeX: scaled points, glue, badness, ratios, and decimals.
#![tactic(auto)]

mod decimals;
mod glue;
pub mod laws;
mod points;
mod quantities;
mod ratios;
mod stretching;

pub use decimals::{print_sp, round_digits};
pub use glue::{GlueSpec, Order};
pub use points::{Pairs, Sp, Sps, sum};
pub use quantities::{ErrorNo, Feed, Quant, QuantKind, Want, integer};
pub use ratios::Ratio;
pub use stretching::badness;

#[cfg(test)]
mod tests;

//! What e-TeX adds: expressions, and lists of tokens as text.
#![tactic(auto)]

mod amount;
pub mod examples;
mod expression;
pub mod laws;
mod level;
mod products;
mod sums;
mod texts;
mod tokens;

pub use expression::ExprScan;
pub use texts::detokenize;

#[cfg(test)]
mod tests;

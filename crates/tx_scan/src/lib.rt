//! The scanner: from the bytes of a text to its tokens.
#![tactic(auto)]

mod cats;
mod later;
mod line;
mod lines;
mod notation;
#[cfg(test)]
mod plain;
mod scanner;
#[cfg(test)]
mod tests;

pub use cats::Cats;
pub use line::Scan;
pub use scanner::Scanner;
pub use tx_model::Cat;

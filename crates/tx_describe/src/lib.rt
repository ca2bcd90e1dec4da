//! Texts as TeX prints them: of quantities and numbers, of a token and of a list of tokens, and of a meaning.
//!
//! Numbers stand for the names and the lists, and their texts and contents lie elsewhere. So a description is an
//! automaton, which asks for each text and content when it comes to it.
#![tactic(auto)]

mod description;
mod meanings;
mod numbers;
mod pieces;
mod printed;
mod quantities;
mod rest;
#[cfg(test)]
mod tests;
mod tokens;
mod unread;

pub use description::{Description, Progress};
pub use numbers::{decimal_text, roman_text};
pub use quantities::quantity_text;
pub use rest::Wanted;
pub use tokens::text_tokens;

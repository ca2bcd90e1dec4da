//! Macro calls: the tokens behind a macro's name are split into the delimiters of its parameter text
//! and the arguments between them, one token at a time.
//!
//! `specs/` says what a list of tokens is for a parameter text; [`MacroMatch`] is fed the tokens and
//! answers as the definition does, and `substitute` puts the arguments into a body.
//! The [`laws`] say that tokens that match are split into the delimiters and the shortest balanced
//! arguments before them, and in one way.
#![tactic(auto)]

mod argument;
mod delimiters;
pub mod examples;
pub mod laws;
mod macro_match;
mod rule;

pub use macro_match::{MacroMatch, Match};
pub use tx_tok::Tok;

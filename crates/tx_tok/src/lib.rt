//! Tokens and texts as TeX prints them.
#![tactic(auto)]

mod log;
mod show;
mod tok;

pub use log::Log;
pub use show::show_tok;
pub use tok::{ListRef, Tok, Toks};
pub use tx_model::Cat;

//! The delimiters of a parameter text.

ghost use Rattle.std.specs.Prelude.{◌≡◌, ◌^◌, ◌<◌, IfOk, length, replicate, []};
ghost use Rattle.tx_macro.specs.Outcome.{front as front_of, behind as behind_of};
ghost use Rattle.tx_macro.specs.Settling.{begins};

use crate::rule::is_same;
use std::alloc::{AllocError, Global};
use tx_tok::{Tok, Toks};

/// The tokens before the first parameter.
pub fn front(alloc: Global, params: &[Tok]) -> Result<Vec<Tok>, AllocError>
    ensures { IfOk result (λ tokens. tokens.items ≡ front_of params.now) }
{
    let mut tokens = Vec::new(alloc);
    for token in params {
        match token {
            Tok::Param(_) => return Ok(tokens),
            _ => tokens.push(*token)?,
        }
    }
    Ok(tokens)
}

/// The delimiter behind each parameter.
pub fn behind(alloc: Global, params: &[Tok]) -> Result<Vec<Toks>, AllocError>
    ensures { IfOk result (λ delimiters. delimiters.items ≡ behind_of params.now) }
{
    let mut delimiters = Vec::new(alloc);
    for (i, token) in params.iter().enumerate() {
        if let Tok::Param(_) = token {
            delimiters.push(Toks(front(alloc, &params[i + 1..])?))?;
        }
    }
    Ok(delimiters)
}

/// Whether the delimiter begins with these tokens.
pub fn may_stand(delimiter: &[Tok], tokens: &[Tok]) -> bool
    ensures { result ≡ begins delimiter.now tokens.now }
{
    if tokens.len() > delimiter.len() {
        return false;
    }
    for (i, token) in tokens.iter().enumerate() {
        if !is_same(delimiter[i], *token) {
            return false;
        }
    }
    true
}

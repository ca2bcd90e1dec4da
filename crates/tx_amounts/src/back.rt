//! Tokens that are put back.

ghost use Rattle.std.specs.Prelude.{◌≡◌, ◌++◌, IfOk};
ghost use Rattle.std.specs.Option.{option_to_list};
ghost use Rattle.tx_amounts.specs.Backs.{given, last_given, IsAnswer, IsNoted};
ghost use Rattle.tx_amounts.specs.Names.{IsWithin, tokens_back};

use crate::amount::{Amount, Scanned};
use std::alloc::{AllocError, Global};
use tx_num::Feed;
use tx_tok::{Tok, Toks};

/// Notes one more of the tokens that were taken, and makes the automaton's answer to it that of the scan. What is
/// noted after want of memory is not said.
pub(crate) fn answered(
    taken: &mut Vec<Option<Tok>>,
    token: Option<Tok>,
    answer: Feed<Amount>,
) -> Scanned
    ensures answer { IsAnswer result answer taken.new.items }
    ensures noted { IsNoted result taken.old.items token taken.new.items }
    ensures names { IsWithin (given taken.new.items ++ tokens_back result) (option_to_list token ++ given taken.old.items) }
{
    match taken.push(token) {
        Ok(()) => with_back(*taken.allocator(), taken.as_slice(), answer),
        Err(_) => Scanned::Memory,
    }
}

/// The automaton's answer as that of the scan, with the tokens that are put back.
pub(crate) fn with_back(alloc: Global, taken: &[Option<Tok>], answer: Feed<Amount>) -> Scanned
    ensures answer { IsAnswer result answer taken.now }
    ensures names { IsWithin (tokens_back result) (given taken.now) }
{
    match answer {
        Feed::More(back) => match last_tokens(alloc, taken, back) {
            Ok(tokens) => Scanned::More(tokens),
            Err(_) => Scanned::Memory,
        },
        Feed::Done(amount, back) => match last_tokens(alloc, taken, back) {
            Ok(tokens) => Scanned::Done(amount, tokens),
            Err(_) => Scanned::Memory,
        },
        Feed::Bad(error) => Scanned::Bad(error),
        Feed::Memory => Scanned::Memory,
    }
}

/// Those of the last so many that are tokens, in their order.
fn last_tokens(alloc: Global, taken: &[Option<Tok>], back: u8) -> Result<Toks, AllocError>
    ensures { IfOk result (λ tokens. tokens ≡ last_given back taken.now) }
{
    let from = taken.len().saturating_sub(usize::from(back));
    tokens(alloc, &taken[from..])
}

/// Those that are tokens.
fn tokens(alloc: Global, taken: &[Option<Tok>]) -> Result<Toks, AllocError>
    ensures { IfOk result (λ tokens. tokens ≡ given taken.now) }
{
    let mut tokens = Vec::new(alloc);
    for token in taken {
        if let Some(token) = token {
            tokens.push(*token)?;
        }
    }
    Ok(Toks(tokens))
}

//! Lists of tokens that are read before the region's text.

ghost use Rattle.std.specs.Prelude.{◌≡◌, ◌∷◌, ◌++◌, [], length, IfSome, IsNone, IsOk, OnOk, OnErr};
ghost use Rattle.tx_input.specs.Unread.{unread, AreUnread};

use std::alloc::{AllocError, Global};
use std::marker::Model;
use tx_tok::{Tok, Toks};

/// A list that is read, and how many of its tokens were.
#[derive(Debug, Drop)]
struct ListRead {
    tokens: Toks,
    read: usize,
}

/// Lists, the innermost last, seen as the tokens that are left to read. A list that is used up is dropped.
#[derive(Debug, Drop)]
pub(crate) struct Lists {
    lists: Vec<ListRead>,
    pending: u64,
}

impl Model for Lists {
    ghost use Rattle.std.specs.Prelude.{◌≡◌, List, length};
    ghost use Rattle.tx_tok.specs.declared.tok.Tok.{Tok};
    ghost use Rattle.tx_input.specs.Unread.{unread, AreUnread};

    ghost Value = { List Tok };

    ghost view = { λ l. unread l.lists.items };

    ghost invariant = { λ l. AreUnread l.lists.items × (l.pending ≡ length (unread l.lists.items)) };
}

impl Lists {
    /// No tokens.
    pub(crate) fn new(alloc: Global) -> Self
        ensures { result ≡ [] }
    {
        Lists {
            lists: Vec::new(alloc),
            pending: 0,
        }
    }

    /// Takes the next token. None comes where no list has one left. *TeX: The Program*, part 24.
    pub(crate) fn next(&mut self) -> Option<Tok>
        ensures some { IfSome result (λ token. self.old ≡ token ∷ self.new) }
        ensures none { IsNone result → (self.old ≡ []) × (self.new ≡ []) }
    {
        let token = first(&mut self.lists)?;
        self.pending -= 1;
        Some(token)
    }

    /// Puts a list in front. The only error is want of memory, which changes nothing; more tokens than 64
    /// bits count are one. An empty list needs no memory. *TeX: The Program*, part 22.
    pub(crate) fn put(&mut self, tokens: Toks) -> Result<(), AllocError>
        ensures ok { OnOk result (self.new ≡ tokens ++ self.old) }
        ensures err { OnErr result (self.new ≡ self.old) }
        ensures empty { tokens ≡ [] → IsOk result }
    {
        if tokens.is_empty() {
            return Ok(());
        }
        let Some(pending) = self.pending.checked_add(tokens.len() as u64) else {
            return Err(AllocError);
        };
        self.lists.push(ListRead { tokens, read: 0 })?;
        self.pending = pending;
        Ok(())
    }

    /// How many tokens are left.
    pub(crate) fn len(&self) -> u64
        ensures { result ≡ length self.now }
    {
        self.pending
    }

    /// Drops all tokens.
    pub(crate) fn clear(&mut self)
        ensures { self.new ≡ [] }
    {
        self.lists.clear();
        self.pending = 0;
    }
}

/// Takes the next token of lists each of which has one, and drops its list where it is used up.
fn first(lists: &mut Vec<ListRead>) -> Option<Tok>
    requires { AreUnread lists.old.items }
    ensures unread { AreUnread lists.new.items }
    ensures some { IfSome result (λ token. unread lists.old.items ≡ token ∷ unread lists.new.items) }
    ensures none { IsNone result → (lists.old.items ≡ []) × (lists.new.items ≡ []) }
{
    let len = lists.len();
    if len == 0 {
        return None;
    }
    let list = &mut lists[len - 1];
    let token = list.tokens.as_slice()[list.read];
    list.read += 1;
    if list.read == list.tokens.len() {
        lists.pop();
    }
    Some(token)
}

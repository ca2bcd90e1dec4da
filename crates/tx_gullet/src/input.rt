//! Lists of tokens that are read before the region's text.

ghost use Rattle.std.specs.Prelude.{◌≡◌, ◌∷◌, ◌++◌, [], List, IfSome, IsNone, IfOk, OnOk, false};
ghost use Rattle.tx_model.specs.Pending.{Member, Single};
ghost use Rattle.tx_tok.specs.Tokens.{token_in};
ghost use Rattle.tx_names.specs.Names.{Names, Naming};
ghost use Rattle.tx_gullet.specs.Meanings.{IsKnown, AreKnown};
ghost use Rattle.tx_gullet.specs.Pieces.{pieces, singles, KnowsLists};

use std::alloc::{AllocError, Global};
use std::mem;
use std::rc::Rc;
use tx_tok::Tok;

/// A list that is read, and how many of its tokens were.
#[derive(Drop)]
pub(crate) struct ListRead {
    list: Rc<Vec<Tok>>,
    read: usize,
}

/// The list that is read, and those that are read after it, the next one last.
#[derive(Drop)]
pub(crate) struct Lists {
    list: Rc<Vec<Tok>>,
    read: usize,
    later: Vec<ListRead>,
}

impl Lists {
    /// No tokens. The only error is want of memory.
    pub(crate) fn new(alloc: Global) -> Result<Self, AllocError>
        ensures pieces { IfOk result (λ lists. (naming : Naming) (behind : List Member) → pieces naming lists behind ≡ behind) }
        ensures knows { IfOk result (λ lists. (names : Names) → KnowsLists names lists) }
    {
        Ok(Lists {
            list: Rc::new(alloc, Vec::new(alloc))?,
            read: 0,
            later: Vec::new(alloc),
        })
    }

    /// The next token of the lists. None comes where they have none left. *TeX: The Program*, part 24.
    pub(crate) fn next(&mut self) -> Option<Tok>
        ensures some { IfSome result (λ token. (naming : Naming) (behind : List Member) → pieces naming self.old behind ≡ Single (token_in naming token) false ∷ pieces naming self.new behind) }
        ensures none { IsNone result → (naming : Naming) (behind : List Member) → (pieces naming self.old behind ≡ behind) × (pieces naming self.new behind ≡ behind) }
        ensures knows { (names : Names) → KnowsLists names self.old → KnowsLists names self.new }
        ensures known { IfSome result (λ token. (names : Names) → KnowsLists names self.old → IsKnown names token) }
    {
        'used: while self.read >= self.list.as_ref().as_slice().len() {
            let ListRead { list, read } = self.later.pop()?;
            self.list = list;
            self.read = read;
        }
        let token = self.list.as_ref().as_slice()[self.read];
        self.read += 1;
        Some(token)
    }

    /// Puts a list in front. The only error is want of memory. *TeX: The Program*, part 22.
    pub(crate) fn open_list(&mut self, list: Rc<Vec<Tok>>) -> Result<(), AllocError>
        ensures pieces { OnOk result ((naming : Naming) (behind : List Member) → pieces naming self.new behind ≡ singles naming list.value.items ++ pieces naming self.old behind) }
        ensures knows { OnOk result ((names : Names) → KnowsLists names self.old → AreKnown names list.value.items → KnowsLists names self.new) }
    {
        let read = self.read;
        let is_used = read >= self.list.as_ref().as_slice().len();
        let before = mem::replace(&mut self.list, list);
        self.read = 0;
        if !is_used {
            self.later.push(ListRead { list: before, read })?;
        }
        Ok(())
    }
}

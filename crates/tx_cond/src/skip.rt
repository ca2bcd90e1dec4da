//! Skipping the tokens of a branch that isn't taken.

ghost use Rattle.std.specs.Prelude.{◌≡◌, zero};
ghost use Rattle.tx_cond.specs.Skips.{FedSkip, wanted_word};

use std::marker::Model;
use tx_num::Feed;
use tx_tok::Tok;

/// What a token is to a skip, by its present meaning.
#[derive(Clone, Copy, Debug, PartialEq, Eq)]
pub enum SkipKind {
    /// None of those below.
    Plain,
    /// A conditional.
    If,
    /// `\or`.
    Or,
    /// `\else`.
    Else,
    /// `\fi`.
    Fi,
}

/// The word that ends a skip.
#[derive(Clone, Copy, Debug, PartialEq, Eq)]
pub enum SkipEnd {
    /// `\or`.
    Or,
    /// `\else`.
    Else,
    /// `\fi`.
    Fi,
}

/// A skip under way. A contract sees which words it wants, and how many nested conditionals are open.
#[derive(Clone, Copy, Debug, PartialEq, Eq)]
pub struct Skip {
    or: bool,
    els: bool,
    nested: u64,
}

impl Model for Skip {
    ghost use Rattle.tx_cond.specs.Skips.{Skipping};

    ghost Value = { Skipping };

    ghost view = { λ s. record { wanted = record { or = s.or; els = s.els }; nested = s.nested } };

    ghost inverse = { λ s. record { or = s.wanted.or; els = s.wanted.els; nested = s.nested } };
}

impl Skip {
    /// A skip of which nothing was fed. The arguments say whether `\or` and `\else` are wanted; `\fi`
    /// always is. *The TeXbook*, chapter 20.
    pub fn new(or: bool, els: bool) -> Self
        ensures { result ≡ record { wanted = record { or = or; els = els }; nested = zero } }
    {
        Skip { or, els, nested: 0 }
    }

    /// Feeds the next token, which is used. `Done` comes exactly at the word that ends the skip, and
    /// `Bad` never. `Memory` comes only where 2^64-1 nested conditionals are open and another one
    /// begins; it leaves the skip as it was. *TeX: The Program*, section 494.
    pub fn feed(&mut self, _token: Tok, kind: SkipKind) -> Feed<SkipEnd>
        ensures { FedSkip self.old kind result self.new }
    {
        if self.nested == 0 {
            if let Some(end) = wanted_end(self.or, self.els, kind) {
                return Feed::Done(end, 0);
            }
        }
        match kind {
            SkipKind::If => match self.nested.checked_add(1) {
                Some(nested) => self.nested = nested,
                None => return Feed::Memory,
            },
            SkipKind::Fi => self.nested -= 1,
            SkipKind::Plain | SkipKind::Or | SkipKind::Else => {}
        }
        Feed::More(0)
    }
}

/// The wanted word that a token is, if it is one.
fn wanted_end(or: bool, els: bool, kind: SkipKind) -> Option<SkipEnd>
    ensures { result ≡ wanted_word (record { or = or; els = els }) kind }
{
    match kind {
        SkipKind::Or if or => Some(SkipEnd::Or),
        SkipKind::Else if els => Some(SkipEnd::Else),
        SkipKind::Fi => Some(SkipEnd::Fi),
        SkipKind::Plain | SkipKind::If | SkipKind::Or | SkipKind::Else => None,
    }
}

#[cfg(test)]
mod tests {
    use super::*;
    use std::test::Fail;

    /// `\ifodd1 \or b\fi \else` of a branch is passed over up to its own `\else`, and up to `\fi` where
    /// that isn't wanted.
    #[test]
    fn nested(rt: HostRuntime) {
        let token = Tok::Stop;
        for els in [false, true] {
            let mut skip = Skip::new(false, els);
            for kind in [
                SkipKind::Or,
                SkipKind::If,
                SkipKind::Plain,
                SkipKind::Or,
                SkipKind::Else,
                SkipKind::Fi,
            ] {
                assert!(rt; skip.feed(token, kind) == Feed::More(0));
            }
            let expected = if els {
                Feed::Done(SkipEnd::Else, 0)
            } else {
                Feed::More(0)
            };
            assert!(rt; skip.feed(token, SkipKind::Else) == expected);
            if !els {
                assert!(rt; skip.feed(token, SkipKind::Fi) == Feed::Done(SkipEnd::Fi, 0));
            }
        }
    }
}

//! Expressions.

ghost use Rattle.std.specs.Prelude.{◌≡◌, [], List, IfSome};
ghost use Rattle.tx_etex.specs.Readings.{Item, Token, Factor, Asks, expression, kind_of};
ghost use Rattle.tx_etex.specs.Bounds.{IsInRange};
ghost use Rattle.tx_etex.specs.States.{Answers, Leads, MayCome, says, says_ended};

use crate::amount::{Amount, within};
use crate::level::Level;
use crate::tokens::{is_other, is_space};
use std::alloc::Global;
use tx_num::{ErrorNo, Feed, Quant, QuantKind, Want};
use tx_tok::Tok;

/// A `(` without its `)`.
pub(crate) const MISSING_PARENTHESIS: ErrorNo = ErrorNo {
    no: 7,
    case: 0,
    value: 0,
};

/// A value that is out of range, or a divisor that is 0.
pub(crate) const OVERFLOW: ErrorNo = ErrorNo {
    no: 14,
    case: 0,
    value: 0,
};

/// What is due in an expression.
#[derive(Clone, Copy, Debug)]
enum Stage {
    /// A factor.
    Due,
    /// An operator or the end, behind a factor of this value.
    Behind(Option<Amount>),
}

/// The reading of an expression, one token or quantity at a time (e-TeX manual).
#[derive(Debug, Drop)]
pub struct ExprScan {
    level: Level,
    outer: Vec<Level>,
    stage: Stage,
}

impl ExprScan {
    /// An expression of this kind, of which nothing was taken. It takes no memory yet.
    pub fn new(alloc: Global, kind: QuantKind) -> Self
        ensures { (items : List Item) → says result items ≡ expression kind items }
    {
        ExprScan {
            level: Level::begun(kind),
            outer: Vec::new(alloc),
            stage: Stage::Due,
        }
    }

    /// What is to come: a factor of a kind, or an expanded token behind a factor. A factor behind `*` or
    /// `/` is an integer.
    pub fn wants(&self) -> Want
        ensures { says self.now [] ≡ Asks result }
    {
        match self.stage {
            Stage::Due => Want::Factor(self.level.due()),
            Stage::Behind(_) => Want::Expanded,
        }
    }

    /// Takes an expanded token, in which a name or an active byte that means a space stands as the space.
    /// Where a factor is due, it is a space, which is used, or a `(` of category 12. Behind a factor,
    /// spaces are used, and the first token that is no operator ends the expression; it is put back. The
    /// errors are 7 where another token than `)` ends an expression in parentheses, and 14 at the end of
    /// the whole expression, where a value in it was out of range or a divisor was 0. Memory may be
    /// wanting at a `(`, and then all is as before. No call may follow another answer than More or Memory
    /// (e-TeX manual).
    pub fn feed(&mut self, t: Tok) -> Feed<Quant>
        requires { MayCome (says self.old []) t }
        ensures { Answers result (says self.old) (Token t) (says self.new) }
    {
        match self.stage {
            Stage::Due => self.open(t),
            Stage::Behind(factor) => self.behind(factor, t),
        }
    }

    /// Takes a quantity with all of its tokens, where `wants` says that a factor of its kind is due. The
    /// answer is More.
    pub fn quantity(&mut self, q: Quant) -> Feed<Quant>
        requires { says self.old [] ≡ Asks (Want.Factor (kind_of q)) }
        ensures { Answers result (says self.old) (Factor q) (says self.new) }
    {
        if let Stage::Due = self.stage {
            self.stage = Stage::Behind(Some(Amount::of(q)));
        }
        Feed::More(0)
    }

    /// A token where a factor is due.
    fn open(&mut self, t: Tok) -> Feed<Quant>
        requires { self.old.stage ≡ Stage.Due }
        ensures { Answers result (says self.old) (Token t) (says self.new) }
    {
        if !is_other(t, b'(') {
            return Feed::More(0);
        }
        let inner = Level::begun(self.level.due());
        let level = self.level;
        match self.outer.push(level) {
            Ok(()) => {
                self.level = inner;
                Feed::More(0)
            }
            Err(_) => Feed::Memory,
        }
    }

    /// A token behind a factor.
    fn behind(&mut self, factor: Option<Amount>, t: Tok) -> Feed<Quant>
        requires { self.old.stage ≡ Stage.Behind factor }
        ensures { Answers result (says self.old) (Token t) (says self.new) }
    {
        if is_space(t) {
            return Feed::More(0);
        }
        let level = self.level;
        match level.behind(factor, t) {
            Some(next) => {
                self.level = next;
                self.stage = Stage::Due;
                Feed::More(0)
            }
            None => self.end(within(level.kind, level.total(factor)), t),
        }
    }

    /// A token that ends an expression with this value.
    fn end(&mut self, value: Option<Amount>, t: Tok) -> Feed<Quant>
        requires { IfSome value (IsInRange self.old.level.kind) }
        ensures { Leads result (says_ended self.old value t) (says self.new) }
    {
        match self.outer.pop() {
            Some(level) => {
                if !is_other(t, b')') {
                    return Feed::Bad(MISSING_PARENTHESIS);
                }
                self.level = level;
                self.stage = Stage::Behind(value);
                Feed::More(0)
            }
            None => match value {
                Some(amount) => Feed::Done(amount.quantity(self.level.kind), 1),
                None => Feed::Bad(OVERFLOW),
            },
        }
    }
}

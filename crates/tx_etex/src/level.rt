//! An expression up to a factor.

ghost use Rattle.std.specs.Prelude.{◌≡◌};
ghost use Rattle.tx_etex.specs.Values.{begun as begun_level, behind as behind_token, behind_sign as level_behind_sign, behind_slash as level_behind_slash, behind_star as level_behind_star, due as due_kind, scaled as scaled_value, total as total_value};

use crate::amount::{Amount, within};
use crate::products::{product, quotient};
use crate::sums::{Sign, combined};
use crate::tokens::is_other;
use tx_num::QuantKind;
use tx_tok::Tok;

/// What a term is added to or taken from.
#[derive(Clone, Copy, Debug)]
pub(crate) enum Before {
    /// Nothing.
    Nothing,
    /// The sum so far, and the sign behind it.
    Sum(Option<Amount>, Sign),
}

/// What a factor is multiplied with or divided from.
#[derive(Clone, Copy, Debug)]
pub(crate) enum Scale {
    /// Nothing.
    Alone,
    /// It multiplies this.
    Times(Option<Amount>),
    /// It divides this.
    Over(Option<Amount>),
    /// It divides the product of these, which may be out of range.
    TimesOver(Option<Amount>, Option<Amount>),
}

/// An expression, or one in parentheses, up to where a factor is due.
#[derive(Clone, Copy, Debug)]
pub(crate) struct Level {
    /// The kind of its value.
    pub(crate) kind: QuantKind,
    /// What the term is added to or taken from.
    pub(crate) sum: Before,
    /// What the factor is multiplied with or divided from.
    pub(crate) term: Scale,
}

impl Level {
    /// An expression of this kind at its start.
    pub(crate) fn begun(kind: QuantKind) -> Self
        ensures { result ≡ begun_level kind }
    {
        Level {
            kind,
            sum: Before::Nothing,
            term: Scale::Alone,
        }
    }

    /// The kind of the factor that is due. What a factor is multiplied with or divided by is an integer.
    pub(crate) fn due(&self) -> QuantKind
        ensures { result ≡ due_kind self.now }
    {
        match self.term {
            Scale::Alone => self.kind,
            Scale::Times(_) | Scale::Over(_) | Scale::TimesOver(_, _) => QuantKind::Int,
        }
    }

    /// The value of the expression, where it ends with this factor. It may be out of range.
    pub(crate) fn total(&self, factor: Option<Amount>) -> Option<Amount>
        ensures { result ≡ total_value self.now factor }
    {
        let term = self.scaled(factor);
        match self.sum {
            Before::Nothing => term,
            Before::Sum(sum, sign) => combined(sign, self.kind, sum, term),
        }
    }

    /// The value of the term, where it ends with this factor. It may be out of range.
    fn scaled(&self, factor: Option<Amount>) -> Option<Amount>
        ensures { result ≡ scaled_value self.now.kind self.now.term factor }
    {
        match self.term {
            Scale::Alone => factor,
            Scale::Times(a) => product(self.kind, a, factor),
            Scale::Over(a) => quotient(within(self.kind, a), factor),
            Scale::TimesOver(a, n) => quotient(product(self.kind, a, n), factor),
        }
    }

    /// Up to where an operator leads behind this factor. None comes where the token is no operator.
    pub(crate) fn behind(&self, factor: Option<Amount>, t: Tok) -> Option<Self>
        ensures { result ≡ behind_token self.now factor t }
    {
        if is_other(t, b'+') {
            Some(self.behind_sign(Sign::Plus, factor))
        } else if is_other(t, b'-') {
            Some(self.behind_sign(Sign::Minus, factor))
        } else if is_other(t, b'*') {
            Some(self.behind_star(factor))
        } else if is_other(t, b'/') {
            Some(self.behind_slash(factor))
        } else {
            None
        }
    }

    /// Up to where a sign leads.
    fn behind_sign(&self, sign: Sign, factor: Option<Amount>) -> Self
        ensures { result ≡ level_behind_sign sign self.now factor }
    {
        Level {
            kind: self.kind,
            sum: Before::Sum(self.total(factor), sign),
            term: Scale::Alone,
        }
    }

    /// Up to where a `*` leads.
    fn behind_star(&self, factor: Option<Amount>) -> Self
        ensures { result ≡ level_behind_star self.now factor }
    {
        Level {
            kind: self.kind,
            sum: self.sum,
            term: Scale::Times(self.scaled(factor)),
        }
    }

    /// Up to where a `/` leads. A product is kept as it is, since it may be out of range.
    fn behind_slash(&self, factor: Option<Amount>) -> Self
        ensures { result ≡ level_behind_slash self.now factor }
    {
        let term = match self.term {
            Scale::Times(a) => Scale::TimesOver(a, factor),
            Scale::Alone | Scale::Over(_) | Scale::TimesOver(_, _) => {
                Scale::Over(self.scaled(factor))
            }
        };
        Level {
            kind: self.kind,
            sum: self.sum,
            term,
        }
    }
}

//! The automata of the readings, with one kind of value.

ghost use Rattle.std.specs.Prelude.{◌≡◌, ◌&&◌, [], true};
ghost use Rattle.tx_views.specs.Views.{View};
ghost use Rattle.tx_views.specs.Meanings.{sense_in};
ghost use Rattle.tx_quant.specs.Items.{Asks, Token, Letter, Quantity, Answers};
ghost use Rattle.tx_private.specs.Scans.{may_start};
ghost use Rattle.tx_amounts.specs.Automata.{reading, begins, wish_at, fed, number_amount, dimension_amount, glue_amount, word_amount};

use crate::amount::{Amount, ScanWish};
use crate::quantities::begins_quantity;
use tx_num::{Feed, GlueSpec, Quant, Sp, Want};
use tx_quant::{DimScan, GlueScan, Keyword, NumScan};
use tx_tok::Tok;
use tx_views::Sense;

/// The automaton of a reading.
#[derive(Clone, Copy, Debug)]
pub(crate) enum Automaton {
    /// Of a number.
    Number(NumScan),
    /// Of a dimension.
    Dimension(DimScan),
    /// Of glue, which is measured in mu where the first is true.
    Glue(bool, GlueScan),
    /// Of the look for a keyword.
    Keyword(Keyword),
}

impl Automaton {
    /// How the next token is to be taken.
    pub(crate) fn wants(&self) -> Want
        ensures { reading self.now [] ≡ Asks result 0 }
    {
        match self {
            Automaton::Number(scan) => scan.wants(),
            Automaton::Dimension(scan) => scan.wants(),
            Automaton::Glue(_, scan) => scan.wants(),
            Automaton::Keyword(_) => Want::Expanded,
        }
    }

    /// Whether a quantity begins here with a command of this meaning, with which no keyword begins.
    pub(crate) fn begins_with(&self, sense: &Sense) -> bool
        ensures begins { (view : View) → result ≡ (may_start (reading self.now []) && begins self.now (sense_in view sense.now)) }
        ensures may { result ≡ true → may_start (reading self.now []) ≡ true }
    {
        match self {
            Automaton::Keyword(_) => false,
            _ => match self.wants() {
                Want::Start => begins_quantity(*sense),
                _ => false,
            },
        }
    }

    /// Takes an expanded token.
    pub(crate) fn token(&mut self, t: Tok) -> Feed<Amount>
        ensures answer { Answers result (reading self.old) (Token t) (reading self.new) }
        ensures same { begins self.new ≡ begins self.old }
    {
        match self {
            Automaton::Number(scan) => number(scan.feed(t)),
            Automaton::Dimension(scan) => dimension(scan.feed(t)),
            Automaton::Glue(mu, scan) => glue(*mu, scan.feed(t)),
            Automaton::Keyword(scan) => word(scan.feed(t)),
        }
    }

    /// Takes the code of the token after a backquote, which stands in numbers alone.
    pub(crate) fn letter(&mut self, code: Option<u8>) -> Feed<Amount>
        requires { wish_at (reading self.old []) ≡ ScanWish.Plain }
        ensures answer { Answers result (reading self.old) (Letter code) (reading self.new) }
        ensures same { begins self.new ≡ begins self.old }
    {
        match self {
            Automaton::Number(scan) => number(scan.letter(code)),
            Automaton::Dimension(_) | Automaton::Glue(_, _) | Automaton::Keyword(_) =>
                unreachable!(),
        }
    }

    /// Takes an internal quantity, which begins no keyword.
    pub(crate) fn quantity(&mut self, q: Quant) -> Feed<Amount>
        requires { may_start (reading self.old []) ≡ true }
        ensures answer { Answers result (reading self.old) (Quantity q) (reading self.new) }
        ensures same { begins self.new ≡ begins self.old }
    {
        match self {
            Automaton::Number(scan) => number(scan.quantity(q)),
            Automaton::Dimension(scan) => dimension(scan.quantity(q)),
            Automaton::Glue(mu, scan) => glue(*mu, scan.quantity(q)),
            Automaton::Keyword(_) => unreachable!(),
        }
    }
}

/// The answer of the reading of a number.
fn number(answer: Feed<i32>) -> Feed<Amount>
    ensures { result ≡ fed number_amount answer }
{
    match answer {
        Feed::More(back) => Feed::More(back),
        Feed::Done(value, back) => Feed::Done(Amount::Quantity(Quant::Int(value)), back),
        Feed::Bad(error) => Feed::Bad(error),
        Feed::Memory => Feed::Memory,
    }
}

/// The answer of the reading of a dimension.
fn dimension(answer: Feed<Sp>) -> Feed<Amount>
    ensures { result ≡ fed dimension_amount answer }
{
    match answer {
        Feed::More(back) => Feed::More(back),
        Feed::Done(size, back) => Feed::Done(Amount::Quantity(Quant::Dim(size)), back),
        Feed::Bad(error) => Feed::Bad(error),
        Feed::Memory => Feed::Memory,
    }
}

/// The answer of the reading of glue, measured in mu or not.
fn glue(mu: bool, answer: Feed<GlueSpec>) -> Feed<Amount>
    ensures { result ≡ fed (glue_amount mu) answer }
{
    match answer {
        Feed::More(back) => Feed::More(back),
        Feed::Done(glue, back) => Feed::Done(measured(mu, glue), back),
        Feed::Bad(error) => Feed::Bad(error),
        Feed::Memory => Feed::Memory,
    }
}

/// Glue, measured in mu or not.
fn measured(mu: bool, glue: GlueSpec) -> Amount
    ensures { result ≡ glue_amount mu glue }
{
    if mu {
        Amount::Quantity(Quant::Mu(glue))
    } else {
        Amount::Quantity(Quant::Glue(glue))
    }
}

/// The answer of the look for a keyword.
fn word(answer: Feed<u8>) -> Feed<Amount>
    ensures { result ≡ fed word_amount answer }
{
    match answer {
        Feed::More(back) => Feed::More(back),
        Feed::Done(place, back) => Feed::Done(Amount::Word(place), back),
        Feed::Bad(error) => Feed::Bad(error),
        Feed::Memory => Feed::Memory,
    }
}

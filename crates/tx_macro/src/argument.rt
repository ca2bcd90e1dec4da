//! One argument.

ghost use Rattle.std.specs.Prelude.{◌≡◌, ◌==◌, ◌&&◌, ◌+◌, ◌++◌, ◌∷◌, ◌≤◌, ◌<◌, ◌^◌, ℕ, List, [], length, take, drop, vec_len, true, MatchResult};
ghost use Rattle.tx_tok.specs.declared.tok.Tok.{Tok as TokOf};
ghost use Rattle.tx_macro.specs.Settling.{Settles, begins};
ghost use Rattle.tx_macro.specs.Outcome.{closes as closes_of, is_group as is_group_of, is_begin, stripped, delimited, Wrong};

use crate::delimiters::may_stand;
use crate::rule::{Misuse, Rule, grow, is_blank, level};
use std::alloc::Global;
use tx_tok::{Cat, Tok};

/// What taking a token for an argument comes to.
#[derive(Clone, Copy, Debug)]
pub enum Step {
    /// More tokens are wanted.
    More,
    /// The argument and its delimiter are complete.
    Ended,
    /// No argument begins so.
    Wrong(Misuse),
    /// Want of memory.
    Memory,
}

/// How much of the tokens that were taken is known to be the argument's, and how many groups are open
/// after that.
#[derive(Clone, Copy, Debug)]
pub struct Place {
    pub known: usize,
    pub depth: usize,
}

/// An argument under way: the tokens that were taken for it, of which those from `place` on may be its
/// delimiter. Once it has ended they are the argument.
#[derive(Debug, Drop)]
pub struct Argument {
    pub taken: Vec<Tok>,
    pub place: Place,
    ghost within: { place.known ≤ vec_len taken },
    ghost shallow: { place.depth ≤ place.known },
}

impl Argument {
    ghost use Rattle.tx_macro.specs.Matching.{Takes, TakesBy, undelimited_piece, delimited_piece, SettlesBy, IsShort, IsFresh};

    /// An argument of which no token was taken.
    pub fn new(alloc: Global) -> Self
        ensures { IsFresh result }
    {
        Argument {
            taken: Vec::new(alloc),
            place: Place { known: 0, depth: 0 },
        }
    }

    /// Takes a token. `Ended` leaves the argument, without the braces around it, in `taken`.
    pub fn feed(&mut self, rule: Rule, delimiter: &[Tok], t: Tok) -> Step
        requires { IsShort delimiter.now self.old }
        ensures { Takes rule delimiter.now self.old t result self.new }
    {
        if delimiter.is_empty() {
            self.feed_undelimited(rule, t)
        } else {
            self.feed_delimited(rule, delimiter, t)
        }
    }

    /// Takes a token of an argument that is one token or one group, with blanks before it.
    fn feed_undelimited(&mut self, rule: Rule, t: Tok) -> Step
        ensures { TakesBy (undelimited_piece rule) [] self.old t result self.new }
    {
        if self.taken.is_empty() && is_blank(t) {
            return Step::More;
        }
        let depth = match grow(rule, self.place.depth, t) {
            Ok(depth) => depth,
            Err(misuse) => return Step::Wrong(misuse),
        };
        if self.taken.push(t).is_err() {
            return Step::Memory;
        }
        self.place = Place {
            known: self.taken.len(),
            depth,
        };
        if depth > 0 {
            return Step::More;
        }
        strip(&mut self.taken);
        self.place = Place { known: 0, depth: 0 };
        Step::Ended
    }

    /// Takes a token of an argument with a delimiter.
    fn feed_delimited(&mut self, rule: Rule, delimiter: &[Tok], t: Tok) -> Step
        requires some { 0 < length delimiter.now }
        requires short { IsShort delimiter.now self.old }
        ensures { TakesBy (delimited_piece rule delimiter.now) delimiter.now self.old t result self.new }
    {
        match self.taken.push(t) {
            Ok(()) => self.settle(rule, delimiter),
            Err(_) => Step::Memory,
        }
    }

    /// Finds out what the tokens under way are, after one was added.
    fn settle(&mut self, rule: Rule, delimiter: &[Tok]) -> Step
        requires some { 0 < length delimiter.now }
        requires short { length self.old.taken.items ≤ self.old.place.known + length delimiter.now }
        ensures { SettlesBy (delimited_piece rule delimiter.now) delimiter.now (delimited_piece rule delimiter.now self.old) result self.new }
    {
        let place = match settled(rule, delimiter, self.taken.as_slice(), self.place) {
            Ok(place) => place,
            Err(misuse) => return Step::Wrong(misuse),
        };
        self.place = place;
        if self.taken.len() - place.known < delimiter.len() {
            return Step::More;
        }
        self.place = Place { known: 0, depth: 0 };
        self.taken.truncate(place.known);
        strip(&mut self.taken);
        Step::Ended
    }
}

/// The first place, from this one on, at which no group is open and the delimiter may stand, or the end
/// of the tokens: the tokens before it are the argument's.
fn settled(rule: Rule, delimiter: &[Tok], taken: &[Tok], from: Place) -> Result<Place, Misuse>
    requires within { from.known ≤ length taken.now }
    requires shallow { from.depth ≤ from.known }
    requires short { length taken.now ≤ from.known + length delimiter.now }
    ensures { MatchResult result (λ to. Settles rule delimiter.now taken.now from to)
        (λ e. (later : List TokOf) → delimited rule delimiter.now from.depth (take from.known taken.now) (drop from.known taken.now ++ later) ≡ Wrong e) }
{
    let mut place = from;
    while place.known < taken.len() && !may_end(delimiter, taken, place) {
        place = match grow(rule, place.depth, taken[place.known]) {
            Ok(depth) => Place {
                known: place.known + 1,
                depth,
            },
            Err(misuse) => return Err(misuse),
        };
    }
    Ok(place)
}

/// Whether no group is open at the place and the delimiter may stand there.
fn may_end(delimiter: &[Tok], taken: &[Tok], place: Place) -> bool
    requires { place.known ≤ length taken.now }
    ensures { result ≡ (place.depth == 0 && begins delimiter.now (drop place.known taken.now)) }
{
    place.depth == 0 && may_stand(delimiter, &taken[place.known..])
}

/// Strips the braces from an argument that is one group as a whole.
fn strip(argument: &mut Vec<Tok>)
    ensures { argument.new.items ≡ stripped argument.old.items }
{
    if is_group(argument.as_slice()) {
        let _ = argument.pop();
        argument.remove(0);
    }
}

/// Whether the tokens are one group as a whole.
fn is_group(tokens: &[Tok]) -> bool
    ensures { result ≡ is_group_of tokens.now }
{
    match tokens.first() {
        Some(Tok::Char(Cat::Begin, _)) => closes(tokens),
        _ => false,
    }
}

/// Whether the group that opens with the first token closes with the last one.
fn closes(tokens: &[Tok]) -> bool
    ensures { result ≡ closes_of 0 tokens.now }
{
    let mut depth = 0;
    for (i, token) in tokens.iter().enumerate() {
        depth = level(depth, *token);
        if depth == 0 {
            return i + 1 == tokens.len();
        }
    }
    false
}

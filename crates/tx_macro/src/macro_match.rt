//! A macro call under way.

ghost use Rattle.std.specs.Prelude.{◌≡◌, ◌≤◌, ◌<◌, List, length, drop, vec_len, IfOk, OnOk, OnErr, IsTrue, ◌++◌};
ghost use Rattle.tx_tok.specs.declared.tok.Tok.{Tok as TokOf};

use crate::argument::{Argument, Step};
use crate::delimiters::{behind, front};
use crate::rule::{Misuse, Rule, is_same};
use std::alloc::{AllocError, Global};
use std::mem;
use tx_tok::{Tok, Toks};

/// What feeding a token answers.
#[derive(Clone, Copy, Debug, PartialEq, Eq)]
pub enum Match {
    /// More tokens are wanted.
    More,
    /// The call is complete, and the arguments are known.
    Done,
    /// Error 28: the tokens are not the parameter text's.
    NoMatch,
    /// Error 30: a `\par` in an argument of a macro that isn't long.
    ParEnded,
    /// Error 29: an argument has an extra right brace.
    ExtraBrace,
    /// Want of memory.
    Memory,
}

/// The match of a macro call with a parameter text.
#[derive(Debug, Drop)]
pub struct MacroMatch {
    rule: Rule,
    first: Vec<Tok>,
    matched: usize,
    delimiters: Vec<Toks>,
    arguments: Vec<Toks>,
    found: usize,
    current: Argument,
    ghost within: { matched ≤ vec_len first },
    ghost counted: { found ≤ vec_len delimiters },
    ghost slots: { vec_len arguments ≡ vec_len delimiters },
}

impl MacroMatch {
    ghost use Rattle.tx_macro.specs.Outcome.{outcome};
    ghost use Rattle.tx_macro.specs.ParameterText.{IsParameterText, has_parameters_to};
    ghost use Rattle.tx_macro.specs.Substitution.{substituted};
    ghost use Rattle.tx_macro.specs.Matching.{says, IsOpen, IsDone, arguments_of, Answers, EndsArgument, WaitsFor, Progress};

    /// The match of a call of the macro with this parameter text, of which no token was fed. `long` says
    /// that its arguments may have `\par`, and `par` is that token. The only error is want of memory.
    /// *The TeXbook*, chapter 20; *TeX: The Program*, part 25.
    pub fn new(alloc: Global, params: &[Tok], long: bool, par: Tok) -> Result<Self, AllocError>
        requires { IsParameterText params.now }
        ensures says { IfOk result (λ m. (tokens : List TokOf) → says m tokens ≡ outcome long par params.now tokens) }
        ensures open { IfOk result IsOpen }
    {
        let first = front(alloc, params)?;
        let delimiters = behind(alloc, params)?;
        let arguments = empty_slots(alloc, delimiters.len())?;
        Ok(MacroMatch {
            rule: Rule { long, par },
            first,
            matched: 0,
            delimiters,
            arguments,
            found: 0,
            current: Argument::new(alloc),
        })
    }

    /// Feeds the next token. Condition: no answer other than `More` came before. After `Memory` what was
    /// fed stands, without this token. *TeX: The Program*, part 25.
    pub fn feed(&mut self, t: Tok) -> Match
        requires { IsOpen self.old }
        ensures { Answers self.old t result self.new }
    {
        if self.matched < self.first.len() {
            self.feed_first(t)
        } else {
            self.feed_argument(t)
        }
    }

    /// Adds the body with the arguments in the place of its parameters to `out`. Condition: the last
    /// answer was `Done`, and each parameter in the body is one of the parameter text. The only error is
    /// want of memory, which leaves `out` as it was. *TeX: The Program*, part 25.
    pub fn substitute(&self, body: &[Tok], out: &mut Vec<Tok>) -> Result<(), AllocError>
        requires done { IsDone self.now }
        requires parameters { IsTrue (has_parameters_to (length (arguments_of self.now)) body.now) }
        ensures ok { OnOk result (out.new.items ≡ out.old.items ++ substituted (arguments_of self.now) body.now) }
        ensures err { OnErr result (out.new.items ≡ out.old.items) }
    {
        let text = self.substituted(*out.allocator(), body)?;
        out.extend_from_slice(text.as_slice())
    }

    /// The body with the arguments in the place of its parameters.
    fn substituted(&self, alloc: Global, body: &[Tok]) -> Result<Vec<Tok>, AllocError>
        requires { IsTrue (has_parameters_to (length (arguments_of self.now)) body.now) }
        ensures { IfOk result (λ text. text.items ≡ substituted (arguments_of self.now) body.now) }
    {
        let mut text = Vec::new(alloc);
        for token in body {
            match *token {
                Tok::Param(number) => {
                    text.extend_from_slice(self.arguments[usize::from(number) - 1].as_slice())?;
                }
                token => text.push(token)?,
            }
        }
        Ok(text)
    }

    /// Feeds a token where the first delimiter is under way.
    fn feed_first(&mut self, t: Tok) -> Match
        requires open { IsOpen self.old }
        requires first { self.old.matched < vec_len self.old.first }
        ensures { Answers self.old t result self.new }
    {
        if !is_same(self.first[self.matched], t) {
            return Match::NoMatch;
        }
        self.matched += 1;
        self.progress()
    }

    /// Feeds a token where an argument is under way.
    fn feed_argument(&mut self, t: Tok) -> Match
        requires open { IsOpen self.old }
        requires first { vec_len self.old.first ≤ self.old.matched }
        ensures { Answers self.old t result self.new }
    {
        let delimiter = self.delimiters[self.found].as_slice();
        match self.current.feed(self.rule, delimiter, t) {
            Step::More => Match::More,
            Step::Wrong(Misuse::NoMatch) => Match::NoMatch,
            Step::Wrong(Misuse::ParEnded) => Match::ParEnded,
            Step::Wrong(Misuse::ExtraBrace) => Match::ExtraBrace,
            Step::Memory => Match::Memory,
            Step::Ended => {
                self.end_argument();
                self.progress()
            }
        }
    }

    /// Whether more tokens are wanted.
    fn progress(&self) -> Match
        requires { WaitsFor self.now.rule (drop self.now.found self.now.delimiters.items) self.now.current }
        ensures { Progress self.now result }
    {
        if self.matched < self.first.len() {
            return Match::More;
        }
        if self.found < self.delimiters.len() {
            return Match::More;
        }
        Match::Done
    }

    /// Keeps the argument that has ended, and begins the next one.
    fn end_argument(&mut self)
        requires { self.old.found < vec_len self.old.delimiters }
        ensures { EndsArgument self.old self.new }
    {
        let fresh = Argument::new(*self.current.taken.allocator());
        let ended = mem::replace(&mut self.current, fresh);
        let Argument { taken, .. } = ended;
        self.arguments[self.found] = Toks(taken);
        self.found += 1;
    }
}

/// So many empty lists.
fn empty_slots(alloc: Global, count: usize) -> Result<Vec<Toks>, AllocError>
    ensures { IfOk result (λ slots. vec_len slots ≡ count) }
{
    let mut slots = Vec::new(alloc);
    for _ in 0..count {
        slots.push(Toks::new(alloc))?;
    }
    Ok(slots)
}

#[cfg(test)]
mod tests;

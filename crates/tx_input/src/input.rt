//! The pending input of a region.

ghost use Rattle.std.specs.Prelude.{◌≡◌, ◌+◌, ◌-◌, ◌<◌, ◌≤◌, ◌≢◌, [], ◌∷◌, ◌++◌, ◌⊎◌, ℕ, Bool, List, length, drop, option_copied, None, Some, IsSome, true, false, IfOk, IsOk, OnOk, OnErr, IfSome};
ghost use Rattle.tx_model.specs.Pending.{line_number};
ghost use Rattle.tx_model.specs.Scanner.{opened};
ghost use Rattle.tx_private.specs.World.{World, put_in_front, is_overfull};
ghost use Rattle.tx_private.specs.Controls.{without_rest};
ghost use Rattle.tx_views.specs.Views.{View, all_viewed};
ghost use Rattle.tx_input.specs.Texts.{dropped};
ghost use Rattle.tx_input.specs.Worlds.{pending_in, input_in, IsOfFormat, IsOf, has_name, AllKnown, KnowsInput, wanted_text};
ghost use Rattle.tx_input.specs.Stepping.{one_more, AfterStep, AfterName};
ghost use Rattle.tx_scan.specs.Scans.{par};
ghost use Rattle.tx_input.specs.Takings.{AfterTake, steps_for, WantsAfter, KnowsTaken, limit_in, names_with, IsNumbered, AfterFound};

use crate::lists::Lists;
use crate::owned::{NameLimit, OwnNames};
use crate::steps::Steps;
use crate::text::{self, Text};
use std::alloc::{AllocError, Global};
use tx_bytes::Bytes;
use tx_scan::{Cats, Scan};
use tx_tok::{Tok, Toks};

/// The name that an empty line gives.
const PAR: &[u8] = b"par";

/// How many single tokens may be pending.
const MOST_PENDING: u64 = 1_000_000;

/// What came of the wish for a token.
#[derive(Clone, Copy, Debug, PartialEq, Eq)]
pub enum Taken {
    /// A token that has its number, if it is a name. It cost a step.
    Token(Tok),
    /// A name of the text. It cost a step, and its number is to be found.
    Name,
    /// Nothing is pending.
    End,
    /// A token is there, and no step is left.
    Spent,
    /// An invalid byte stands next.
    Invalid,
    /// Memory was wanting.
    Memory,
}

/// What becomes of a name that was taken from the text.
#[derive(Clone, Copy, Debug, PartialEq, Eq)]
pub enum Found {
    /// It is this token.
    Token(Tok),
    /// It is new, and there is room for it.
    Intern,
    /// It is new, and beyond this limit.
    Full(NameLimit),
    /// Memory was wanting.
    Memory,
}

/// Lists of tokens in front of a region's text, the steps of the region, and the names that a session makes
/// beside those of its format. Nothing in it grows with the session but the numbers of these names: their texts
/// are the caller's.
#[derive(Debug, Drop)]
pub struct Input {
    alloc: Global,
    lists: Lists,
    text: Option<Text>,
    steps: Steps,
    names: OwnNames,
    format_names: u64,
    wanted: Option<Bytes>,
}

impl Input {
    /// The input at the beginning of a session, whose format has so many names.
    pub fn new(alloc: Global, format_names: u64) -> Self
        ensures is { result ≡ record { alloc = alloc; lists = []; text = None; steps = record { budget = 0; spent = 0 }; names = []; format_names = format_names; wanted = None } }
        ensures view { (formats : List (List ℕ)) (view : View) → IsOfFormat formats view format_names → IsOf formats view result }
        ensures knows { (known : ℕ → Bool) → KnowsInput known result }
    {
        Input {
            alloc,
            lists: Lists::new(alloc),
            text: None,
            steps: Steps::new(0),
            names: OwnNames::new(alloc),
            format_names,
            wanted: None,
        }
    }

    /// Begins a region with this text, which may spend so many steps. What was pending is dropped, and the names
    /// stay.
    pub fn begin(&mut self, text: Bytes, budget: u32)
        ensures becomes { self.new ≡ record self.old { lists = []; text = Some (opened text); steps = record { budget = budget; spent = 0 }; wanted = None } }
        ensures view { (formats : List (List ℕ)) (view : View) → IsOf formats view self.old → IsOf formats view self.new }
        ensures knows { (known : ℕ → Bool) → KnowsInput known self.old → KnowsInput known self.new }
    {
        self.lists.clear();
        self.text = Some(Text::new(self.alloc, text));
        self.steps = Steps::new(budget);
        self.wanted = None;
    }

    /// How many names the session has beside the format's.
    pub fn names(&self) -> usize
        ensures { result ≡ length self.now.names }
    {
        self.names.len()
    }

    /// Keeps the first `known` of the session's own names, and drops the others. Takes no memory.
    pub fn give_back(&mut self, known: usize)
        ensures becomes { self.new ≡ record self.old { names = drop (length self.old.names - known) self.old.names } }
        ensures view { (formats : List (List ℕ)) (view : View) → IsOf formats view self.old → IsOf formats view self.new }
        ensures knows { (known_by : ℕ → Bool) → KnowsInput known_by self.old → KnowsInput known_by self.new }
    {
        self.names.truncate(known);
    }

    /// Takes the next token of what is pending, by these categories; `end` is `\endlinechar`. *TeX: The
    /// Program*, part 24.
    pub fn take(&mut self, cats: &Cats, end: i32) -> Taken
        ensures taking { AfterTake cats.now end self.old result self.new }
        ensures wanted { WantsAfter result self.old.wanted self.new.wanted }
        ensures spent { self.new.steps.spent ≡ self.old.steps.spent + steps_for result }
        ensures budget { self.new.steps.budget ≡ self.old.steps.budget }
        ensures names { self.new.names ≡ self.old.names }
        ensures within { 0 < steps_for result → self.new.steps.spent ≤ self.new.steps.budget }
        ensures format_names { self.new.format_names ≡ self.old.format_names }
        ensures view { (formats : List (List ℕ)) (view : View) → IsOf formats view self.old → IsOf formats view self.new }
        ensures known { (known : ℕ → Bool) → KnowsInput known self.old → KnowsTaken known result }
        ensures knows { (known : ℕ → Bool) → KnowsInput known self.old → KnowsInput known self.new }
    {
        match self.lists.next() {
            Some(token) => self.step(token),
            None => self.scan(cats, end),
        }
    }

    /// Takes the next token of the text, where no list has one left.
    fn scan(&mut self, cats: &Cats, end: i32) -> Taken
        requires { self.old.lists ≡ [] }
        ensures taking { AfterTake cats.now end self.old result self.new }
        ensures wanted { WantsAfter result self.old.wanted self.new.wanted }
        ensures spent { self.new.steps.spent ≡ self.old.steps.spent + steps_for result }
        ensures budget { self.new.steps.budget ≡ self.old.steps.budget }
        ensures names { self.new.names ≡ self.old.names }
        ensures format_names { self.new.format_names ≡ self.old.format_names }
        ensures within { 0 < steps_for result → self.new.steps.spent ≤ self.new.steps.budget }
        ensures lists { self.new.lists ≡ self.old.lists }
        ensures known { (known : ℕ → Bool) → KnowsTaken known result }
    {
        match text::scan(&mut self.text, cats, end) {
            Scan::Char(cat, byte) => self.step(Tok::Char(cat, byte)),
            Scan::NameText(name) => self.step_name(name),
            Scan::Active(byte) => self.step(Tok::Active(byte)),
            Scan::Par => self.step_par(),
            Scan::End => Taken::End,
            Scan::Invalid => Taken::Invalid,
            Scan::Memory => Taken::Memory,
        }
    }

    /// Spends a step for a token.
    fn step(&mut self, token: Tok) -> Taken
        ensures step { AfterStep self.old token result self.new }
        ensures within { 0 < steps_for result → self.new.steps.spent ≤ self.new.steps.budget }
    {
        if self.steps.spend() {
            Taken::Token(token)
        } else {
            Taken::Spent
        }
    }

    /// Spends a step for a name with this text, which is wanted from then on.
    fn step_name(&mut self, text: Bytes) -> Taken
        ensures name { AfterName self.old text result self.new }
        ensures within { 0 < steps_for result → self.new.steps.spent ≤ self.new.steps.budget }
    {
        if self.steps.spend() {
            self.wanted = Some(text);
            Taken::Name
        } else {
            Taken::Spent
        }
    }

    /// Spends a step for the name that an empty line gives.
    fn step_par(&mut self) -> Taken
        ensures name { AfterName self.old par result self.new }
        ensures within { 0 < steps_for result → self.new.steps.spent ≤ self.new.steps.budget }
    {
        match Bytes::from_slice(self.alloc, PAR) {
            Ok(text) => self.step_name(text),
            Err(_) => Taken::Memory,
        }
    }

    /// The text of the name that was taken and has no number yet.
    pub fn wanted(&self) -> Option<&[u8]>
        ensures { option_copied result ≡ self.now.wanted }
    {
        match &self.wanted {
            Some(text) => Some(text.as_slice()),
            None => None,
        }
    }

    /// Gives the name that is wanted its number, where there is one. `None` says that no name has the text. A
    /// name that the session doesn't have joins the session's own names, or stays wanted where it has no number;
    /// `Full` tells the first limit, in the order of `NameLimit`, that it is beyond. All but a token leave the
    /// input as it was. *TeX: The Program*, sections 259 and 260.
    pub fn found(&mut self, number: Option<u64>) -> Found
        requires { IsSome self.old.wanted }
        ensures found { AfterFound number self.old result self.new }
        ensures knows { (known : ℕ → Bool) → IfSome number (λ n. known n ≡ true) → KnowsInput known self.old → KnowsInput known self.new }
    {
        match number {
            Some(number) => self.found_number(number),
            None => self.found_none(),
        }
    }

    /// Gives the name that is wanted this number.
    fn found_number(&mut self, number: u64) -> Found
        ensures { AfterFound (Some number) self.old result self.new }
    {
        if !self.has_name(number)
            && let Some(limit) = self.limit()
        {
            return Found::Full(limit);
        }
        match self.give(number) {
            Ok(token) => Found::Token(token),
            Err(_) => Found::Memory,
        }
    }

    /// Says whether there is room for the name that is wanted, which no name is.
    fn found_none(&mut self) -> Found
        ensures { AfterFound None self.old result self.new }
    {
        match self.limit() {
            Some(limit) => Found::Full(limit),
            None => match self.names.reserve() {
                Ok(()) => Found::Intern,
                Err(_) => Found::Memory,
            },
        }
    }

    /// Gives the name that is wanted its number, where `found` answered that it is new and that there is room. The
    /// only error is want of memory, which leaves the input as it was. *TeX: The Program*, section 260.
    pub fn interned(&mut self, number: u64) -> Result<Tok, AllocError>
        requires wanted { IsSome self.old.wanted }
        requires room { limit_in self.old ≡ None }
        ensures ok { IfOk result (λ token. IsNumbered number self.old token self.new) }
        ensures err { OnErr result (self.new ≡ self.old) }
        ensures knows { (known : ℕ → Bool) → known number ≡ true → KnowsInput known self.old → KnowsInput known self.new }
    {
        self.give(number)
    }

    /// Gives the name that is wanted this number. The only error is want of memory, which leaves the input as it
    /// was.
    fn give(&mut self, number: u64) -> Result<Tok, AllocError>
        requires { has_name number self.old ≡ true ⊎ limit_in self.old ≡ None }
        ensures ok { IfOk result (λ token. IsNumbered number self.old token self.new) }
        ensures err { OnErr result (self.new ≡ self.old) }
    {
        self.join(number)?;
        self.wanted = None;
        Ok(Tok::Name(number))
    }

    /// Adds this number to the session's own names, where it is not that of a name yet. The only error is want of
    /// memory, which leaves the input as it was.
    fn join(&mut self, number: u64) -> Result<(), AllocError>
        requires { has_name number self.old ≡ true ⊎ limit_in self.old ≡ None }
        ensures ok { OnOk result (self.new ≡ record self.old { names = names_with number self.old }) }
        ensures err { OnErr result (self.new ≡ self.old) }
    {
        if self.has_name(number) {
            return Ok(());
        }
        let length = self.wanted_len();
        self.names.push(number, length)
    }

    /// Whether a name of the format, or of the session's own, has this number.
    fn has_name(&self, number: u64) -> bool
        ensures { result ≡ has_name number self.now }
    {
        number < self.format_names || self.names.has(number)
    }

    /// How many bytes the text has that is wanted.
    fn wanted_len(&self) -> u64
        ensures { result ≡ length (wanted_text self.now) }
    {
        match &self.wanted {
            Some(text) => text.len() as u64,
            None => 0,
        }
    }

    /// The first limit that a new name with the wanted text is beyond.
    fn limit(&self) -> Option<NameLimit>
        ensures { result ≡ limit_in self.now }
    {
        self.names.limit(self.wanted_len())
    }

    /// Puts tokens in front of what is pending. The only error is want of memory, which changes nothing. An
    /// empty list needs no memory. *TeX: The Program*, section 323.
    pub fn put(&mut self, tokens: Toks) -> Result<(), AllocError>
        ensures in_front { OnOk result ((view : View) (formats : List (List ℕ)) (base : World) → input_in view formats base self.new ≡ put_in_front (all_viewed view tokens) (input_in view formats base self.old)) }
        ensures becomes { OnOk result (self.new ≡ record self.old { lists = tokens ++ self.old.lists }) }
        ensures err { OnErr result (self.new ≡ self.old) }
        ensures empty { tokens ≡ [] → IsOk result }
        ensures view { (formats : List (List ℕ)) (view : View) → IsOf formats view self.old → IsOf formats view self.new }
        ensures knows { (known : ℕ → Bool) → AllKnown known tokens → KnowsInput known self.old → KnowsInput known self.new }
    {
        self.lists.put(tokens)
    }

    /// Whether more single tokens are pending than may be.
    pub fn is_overfull(&self) -> bool
        ensures { (view : View) (formats : List (List ℕ)) (base : World) → result ≡ is_overfull (input_in view formats base self.now) }
    {
        self.lists.len() > MOST_PENDING
    }

    /// A fact for callers; it does nothing. What an input has stays known where more is.
    pub fn knows_more(&self)
        ensures { (known more : ℕ → Bool) → ((n : ℕ) → known n ≡ true → more n ≡ true) → KnowsInput known self.now → KnowsInput more self.now }
    {}

    /// The steps spent.
    pub fn steps(&self) -> u32
        ensures spent { result ≡ self.now.steps.spent }
        ensures within { self.now.steps.spent ≤ self.now.steps.budget }
    {
        self.steps.spent()
    }

    /// How many steps the region may spend.
    pub fn budget(&self) -> u32
        ensures { result ≡ self.now.steps.budget }
    {
        self.steps.budget()
    }

    /// Spends a step for a page. False comes where none is left, and changes nothing.
    pub fn fire(&mut self) -> bool
        ensures spends { result ≡ true → (self.old.steps.spent ≢ self.old.steps.budget) × (self.new ≡ one_more self.old) }
        ensures none { result ≡ false → (self.old.steps.spent ≡ self.old.steps.budget) × (self.new ≡ self.old) }
        ensures view { (formats : List (List ℕ)) (view : View) → IsOf formats view self.old → IsOf formats view self.new }
        ensures knows { (known : ℕ → Bool) → KnowsInput known self.old → KnowsInput known self.new }
    {
        self.steps.spend()
    }

    /// The number of the present line of the text, which is 1 before a first line is begun.
    pub fn line(&self) -> u32
        ensures { (view : View) → result ≡ line_number (pending_in view self.now) }
    {
        text::line(&self.text)
    }

    /// Drops all that is pending. The number of the line stays. Takes no memory. *TeX: The Program*, part 46,
    /// `\end`.
    pub fn drop_rest(&mut self)
        ensures becomes { self.new ≡ record self.old { lists = []; text = dropped self.old.text } }
        ensures world { (view : View) (formats : List (List ℕ)) (base : World) → input_in view formats base self.new ≡ without_rest (input_in view formats base self.old) }
        ensures line { (view : View) → line_number (pending_in view self.new) ≡ line_number (pending_in view self.old) }
        ensures view { (formats : List (List ℕ)) (view : View) → IsOf formats view self.old → IsOf formats view self.new }
        ensures knows { (known : ℕ → Bool) → KnowsInput known self.old → KnowsInput known self.new }
    {
        self.lists.clear();
        text::drop_rest(&mut self.text);
    }
}

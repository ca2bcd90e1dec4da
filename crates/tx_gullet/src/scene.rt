//! All that readings work on.

ghost use Rattle.std.specs.Prelude.{◌≡◌, ◌+◌, ◌≤◌, IfOk, OnOk};
ghost use Rattle.tx_model.specs.Shown.{text_of_list};
ghost use Rattle.tx_model.specs.Environment.{beginning_group, ending_group, defining, Macro};
ghost use Rattle.tx_model.specs.World.{with_environment, logged, put_in_front};
ghost use Rattle.tx_tok.specs.Tokens.{tokens_in};
ghost use Rattle.tx_names.specs.Names.{Naming, KeepsApart, Agrees, Extends};
ghost use Rattle.tx_gullet.specs.Meanings.{AreKnown};
ghost use Rattle.tx_gullet.specs.Levels.{levels, if_ended, KeepsBefore};
ghost use Rattle.tx_gullet.specs.Scenes.{world_of, IsSound, AfterTake, AfterScan, AfterName, AfterStep, KnowsTaken, IsToken, Grows};

use crate::equivalents::Equivalents;
use crate::input::Lists;
use crate::meaning::Meaning;
use crate::show::list_text;
use crate::steps::Steps;
use crate::texts::NEW_LINE_CHAR;
use std::alloc::{AllocError, Global};
use std::rc::Rc;
use tx_names::NameTable;
use tx_scan::{Scan, Scanner};
use tx_tok::{Log, Tok};

/// `\endlinechar` in the state BARE.
const END_LINE_CHAR: i32 = 13;

/// The name `par`, which an empty line gives.
const PAR: &[u8] = b"par";

/// What came of the wish for a token.
#[derive(Clone, Copy, Debug, PartialEq, Eq)]
pub(crate) enum Taken {
    /// A token. It cost a step.
    Token(Tok),
    /// Nothing is pending.
    End,
    /// A token is there, and no step is left.
    Spent,
    /// An invalid byte stands next.
    Invalid,
    /// Memory was wanting.
    Memory,
}

/// The names, their meanings, the pending input, the steps and the log of a region.
#[derive(Drop)]
pub(crate) struct Scene {
    pub(crate) alloc: Global,
    pub(crate) names: NameTable,
    pub(crate) equivalents: Equivalents,
    pub(crate) lists: Lists,
    pub(crate) scanner: Scanner,
    pub(crate) steps: Steps,
    pub(crate) log: Log,
}

impl Scene {
    /// Takes the next token. *TeX: The Program*, part 24.
    pub(crate) fn take(&mut self) -> Taken
        requires sound { IsSound self.old }
        ensures sound { IsSound self.new }
        ensures known { KnowsTaken self.new.names result }
        ensures taking { AfterTake self.old result self.new }
        ensures steps { IsToken result → self.new.steps.spent ≡ self.old.steps.spent + 1 }
        ensures grows { Grows self.old.names self.new.names }
        ensures extends { Extends self.old.names self.new.names }
        ensures within { IsToken result → self.new.steps.spent ≤ self.new.steps.budget }
        ensures equivalents { self.new.equivalents ≡ self.old.equivalents }
        ensures budget { self.new.steps.budget ≡ self.old.steps.budget }
    {
        match self.lists.next() {
            Some(token) => self.step(token),
            None => self.scan(),
        }
    }

    /// Takes the next token of the region's text, where no list has a token left.
    fn scan(&mut self) -> Taken
        requires sound { IsSound self.old }
        ensures sound { IsSound self.new }
        ensures known { KnowsTaken self.new.names result }
        ensures taking { AfterScan self.old result self.new }
        ensures steps { IsToken result → self.new.steps.spent ≡ self.old.steps.spent + 1 }
        ensures grows { Grows self.old.names self.new.names }
        ensures extends { Extends self.old.names self.new.names }
        ensures within { IsToken result → self.new.steps.spent ≤ self.new.steps.budget }
        ensures equivalents { self.new.equivalents ≡ self.old.equivalents }
        ensures budget { self.new.steps.budget ≡ self.old.steps.budget }
    {
        match self.scanner.next(&self.equivalents.cats, END_LINE_CHAR) {
            Scan::Char(cat, byte) => self.step(Tok::Char(cat, byte)),
            Scan::NameText(name) => self.step_name(name.as_slice()),
            Scan::Active(byte) => self.step(Tok::Active(byte)),
            Scan::Par => self.step_name(PAR),
            Scan::End => Taken::End,
            Scan::Invalid => Taken::Invalid,
            Scan::Memory => Taken::Memory,
        }
    }

    /// Spends a step for a name that was found, and makes it.
    fn step_name(&mut self, name: &[u8]) -> Taken
        requires sound { IsSound self.old }
        ensures sound { IsSound self.new }
        ensures known { KnowsTaken self.new.names result }
        ensures name { AfterName self.old name.now result self.new }
        ensures steps { IsToken result → self.new.steps.spent ≡ self.old.steps.spent + 1 }
        ensures grows { Grows self.old.names self.new.names }
        ensures extends { Extends self.old.names self.new.names }
        ensures within { IsToken result → self.new.steps.spent ≤ self.new.steps.budget }
        ensures equivalents { self.new.equivalents ≡ self.old.equivalents }
        ensures budget { self.new.steps.budget ≡ self.old.steps.budget }
    {
        if self.steps.are_spent() {
            return Taken::Spent;
        }
        match self.names.intern(name) {
            Ok(number) => self.step(Tok::Name(number)),
            Err(_) => Taken::Memory,
        }
    }

    /// Spends a step for a token that was found.
    fn step(&mut self, token: Tok) -> Taken
        ensures step { AfterStep self.old token result self.new }
        ensures names { self.new.names ≡ self.old.names }
        ensures within { IsToken result → self.new.steps.spent ≤ self.new.steps.budget }
        ensures equivalents { self.new.equivalents ≡ self.old.equivalents }
    {
        if self.steps.spend() {
            Taken::Token(token)
        } else {
            Taken::Spent
        }
    }

    /// Logs the text of a list of tokens as a line. The only error is want of memory.
    pub(crate) fn log_list(&mut self, tokens: &[Tok]) -> Result<(), AllocError>
        requires sound { IsSound self.old }
        requires known { AreKnown self.old.names tokens.now }
        ensures logged { OnOk result ((naming : Naming) → Agrees naming self.old.names → world_of naming self.new ≡ logged (text_of_list (levels naming self.old.equivalents) (tokens_in naming tokens.now)) (world_of naming self.old)) }
        ensures sound { OnOk result (IsSound self.new) }
        ensures names { self.new.names ≡ self.old.names }
        ensures steps { self.new.steps ≡ self.old.steps }
        ensures equivalents { self.new.equivalents ≡ self.old.equivalents }
    {
        let text = list_text(self.alloc, &self.names, &self.equivalents.cats, tokens)?;
        self.log.line(text.as_slice(), NEW_LINE_CHAR)?;
        Ok(())
    }

    /// Gives a name the meaning of a macro. The only error is want of memory.
    pub(crate) fn define(&mut self, number: u64, tokens: Vec<Tok>) -> Result<(), AllocError>
        requires sound { IsSound self.old }
        requires known { AreKnown self.old.names tokens.items }
        ensures defined { OnOk result ((naming : Naming) → KeepsApart naming → world_of naming self.new ≡ with_environment (defining (naming number) (Macro (tokens_in naming tokens.items)) (levels naming self.old.equivalents)) (world_of naming self.old)) }
        ensures sound { OnOk result (IsSound self.new) }
        ensures names { self.new.names ≡ self.old.names }
        ensures steps { self.new.steps ≡ self.old.steps }
        ensures kept { KeepsBefore self.old.equivalents self.new.equivalents }
    {
        let list = Rc::new(self.alloc, tokens)?;
        self.equivalents.define(number, Meaning::Macro(list))?;
        Ok(())
    }

    /// Begins a group. The only error is want of memory.
    pub(crate) fn begin_group(&mut self) -> Result<(), AllocError>
        requires sound { IsSound self.old }
        ensures begun { OnOk result ((naming : Naming) → world_of naming self.new ≡ with_environment (beginning_group (levels naming self.old.equivalents)) (world_of naming self.old)) }
        ensures sound { OnOk result (IsSound self.new) }
        ensures names { self.new.names ≡ self.old.names }
        ensures steps { self.new.steps ≡ self.old.steps }
        ensures kept { KeepsBefore self.old.equivalents self.new.equivalents }
    {
        self.equivalents.begin_group()?;
        Ok(())
    }

    /// Ends the innermost group, and tells whether one was open. It takes no memory.
    pub(crate) fn end_group(&mut self) -> bool
        requires sound { IsSound self.old }
        ensures ended { (naming : Naming) → KeepsApart naming → ending_group (levels naming self.old.equivalents) ≡ if_ended result (levels naming self.new.equivalents) }
        ensures world { (naming : Naming) → world_of naming self.new ≡ with_environment (levels naming self.new.equivalents) (world_of naming self.old) }
        ensures sound { IsSound self.new }
        ensures names { self.new.names ≡ self.old.names }
        ensures steps { self.new.steps ≡ self.old.steps }
        ensures kept { KeepsBefore self.old.equivalents self.new.equivalents }
    {
        self.equivalents.end_group()
    }

    /// Puts a list in front of what is pending. The only error is want of memory.
    pub(crate) fn open_list(&mut self, list: Rc<Vec<Tok>>) -> Result<(), AllocError>
        requires sound { IsSound self.old }
        requires known { AreKnown self.old.names list.value.items }
        ensures in_front { OnOk result ((naming : Naming) → world_of naming self.new ≡ put_in_front (tokens_in naming list.value.items) (world_of naming self.old)) }
        ensures sound { OnOk result (IsSound self.new) }
        ensures names { self.new.names ≡ self.old.names }
        ensures steps { self.new.steps ≡ self.old.steps }
        ensures equivalents { self.new.equivalents ≡ self.old.equivalents }
    {
        self.lists.open_list(list)?;
        Ok(())
    }
}
